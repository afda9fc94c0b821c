//! What a row says: what its server, its data connections and its connector give, and the calls of the client.

use ftp_base::types::Text;
use ftp_session::session::{Call, Session};
use rows_plays::{boxed, call, had};
use rows_text::{RowError, bytes_of, pair, text, text_of, value};
use rows_tls::{Line, Log, Net, Seal, Wire, Wires};
use std::alloc::{AllocError, Global};
use std::net::SocketAddr;

/// A session whose connections may be put under TLS.
pub type Secure = Session<Net, Seal>;

/// A call of a row.
#[derive(Drop)]
pub enum Asked {
    /// `implicit NAME`: the session connects under TLS.
    Implicit(Text),
    /// `secure NAME`: it is put under TLS.
    Secure(Text),
    /// `clear`: its control connection is taken from under it.
    Clear,
    /// One of the words that all rows have.
    Call(Call),
}

/// How far a call goes, and whether it is kept.
#[derive(Clone, Copy)]
pub enum Kind {
    /// `call CALL`: it is polled to its answer.
    Call,
    /// `drop POLLS CALL`: it is polled so often, and dropped.
    Drop,
    /// `wait noop`: it is made, and polled at the row's end.
    Wait,
}

/// A step of a row.
#[derive(Drop)]
pub struct Step {
    /// What becomes of the call.
    pub kind: Kind,
    /// How often it is polled, where it is dropped: the first number and the last.
    pub polls: (usize, usize),
    /// The call.
    pub asked: Box<Asked>,
}

/// What the transport is supplied with: what comes on a data connection, and the address of its peer where that comes.
#[derive(Drop)]
struct Item {
    peer: Option<SocketAddr>,
    bytes: Vec<u8>,
}

/// A handshake that is refused: its number, and the connector's text.
#[derive(Drop)]
struct Refusal {
    number: usize,
    text: String,
}

/// What a row says.
#[derive(Drop)]
pub struct Script {
    // What the server sends in clear, in pieces; none where there is no server.
    server: Vec<Vec<u8>>,
    under: Vec<String>,
    refusals: Vec<Refusal>,
    items: Vec<Item>,
    /// What the client does.
    pub steps: Vec<Step>,
}

impl Script {
    /// What these lines say.
    ///
    /// # Errors
    /// `NotUnderstood`, `OutOfMemory`.
    pub fn of(alloc: Global, lines: &str) -> Result<Box<Script>, RowError> {
        let script = Script {
            server: Vec::new(alloc),
            under: Vec::new(alloc),
            refusals: Vec::new(alloc),
            items: Vec::new(alloc),
            steps: Vec::new(alloc),
        };
        let mut script = boxed(alloc, script)?;
        for line in lines.lines() {
            script.read(alloc, line)?;
        }
        Ok(script)
    }

    /// Reads a line.
    fn read(&mut self, alloc: Global, line: &str) -> Result<(), RowError> {
        let (word, rest) = line.split_once(' ').unwrap_or((line, ""));
        match word {
            "server" => self.server.push(bytes_of(alloc, rest)?)?,
            "under" => self.under.push(text_of(alloc, rest)?)?,
            "refuses" => {
                let (number, words) = pair(rest, " ")?;
                let number = value(number)?;
                let text = text_of(alloc, words)?;
                self.refusals.push(Refusal { number, text })?;
            }
            "connects" => self.supply(alloc, None, rest)?,
            "comes" => {
                let (address, bytes) = rest.split_once(' ').unwrap_or((rest, ""));
                self.supply(alloc, Some(value(address)?), bytes)?;
            }
            _ => self.steps.push(step_of(alloc, word, rest)?)?,
        }
        Ok(())
    }

    /// The next data connection: that of this peer, or one that is asked for.
    fn supply(
        &mut self,
        alloc: Global,
        peer: Option<SocketAddr>,
        bytes: &str,
    ) -> Result<(), RowError> {
        let bytes = bytes_of(alloc, bytes)?;
        Ok(self.items.push(Item { peer, bytes })?)
    }

    /// How often the call is polled that the row drops: the first and the last number. None where it drops none.
    pub fn polls(&self) -> Option<(usize, usize)> {
        for step in &self.steps {
            if matches!(step.kind, Kind::Drop) {
                return Some(step.polls);
            }
        }
        None
    }

    /// Whether the row connects under TLS.
    pub fn is_implicit(&self) -> bool {
        match self.steps.first() {
            Some(step) => matches!(&*step.asked, Asked::Implicit(_)),
            None => false,
        }
    }

    /// A connector that gives what the row says.
    ///
    /// # Errors
    /// Where an allocation fails.
    pub fn seal(&self, alloc: Global) -> Result<Box<Seal>, AllocError> {
        let (first, others) = match self.under.split_first() {
            Some((first, others)) => (first.as_str(), others),
            None => ("", &[][..]),
        };
        let mut seal = Seal::new(alloc, first)?;
        for text in others {
            seal.then(text.as_str())?;
        }
        for refusal in &self.refusals {
            seal.refuse(refusal.number, refusal.text.as_str())?;
        }
        Ok(seal)
    }

    /// The control connection; none where the row has no server.
    fn control(&self, alloc: Global, log: &Log, slow: bool) -> Result<Option<Wire>, AllocError> {
        if self.server.is_empty() {
            return Ok(None);
        }
        let mut conn = Wire::new(alloc, log, 'C', slow)?;
        for piece in &self.server {
            conn.feed(piece.as_slice())?;
        }
        conn.end();
        Ok(Some(conn))
    }

    /// A transport with the row's connections: first to the server, where the row connects, and then the data connections.
    ///
    /// # Errors
    /// `OutOfMemory`.
    pub fn net(&self, alloc: Global, log: &Log, slow: bool) -> Result<Box<Net>, RowError> {
        let mut wires = Wires::new(alloc, log)?;
        if self.is_implicit() {
            if let Some(control) = self.control(alloc, log, slow)? {
                wires.supply(None, control)?;
            }
        }
        for item in &self.items {
            let mut conn = Wire::new(alloc, log, 'U', slow)?;
            conn.feed(item.bytes.as_slice())?;
            conn.end();
            wires.supply(item.peer, conn)?;
        }
        Ok(boxed(alloc, Net::new(alloc, wires))?)
    }

    /// A session on the row's connection, of which nothing was read; none where the row connects.
    ///
    /// # Errors
    /// `NotUnderstood` where there is no server; `OutOfMemory`.
    pub fn session(
        &self,
        alloc: Global,
        log: &Log,
        slow: bool,
    ) -> Result<Option<Box<Secure>>, RowError> {
        if self.is_implicit() {
            return Ok(None);
        }
        let Some(control) = self.control(alloc, log, slow)? else {
            return Err(RowError::NotUnderstood);
        };
        let control = boxed(alloc, Line::new(control))?;
        let net = self.net(alloc, log, slow)?;
        let session = Session::new(alloc, Box::into_inner(net), Box::into_inner(control));
        Ok(Some(boxed(alloc, had(session)?)?))
    }
}

/// The step of this word, with what stands after it.
fn step_of(alloc: Global, word: &str, rest: &str) -> Result<Step, RowError> {
    let (kind, polls, words) = match word {
        "call" => (Kind::Call, (0, 0), rest),
        "wait" => (Kind::Wait, (0, 0), rest),
        "drop" => {
            let (polls, words) = pair(rest, " ")?;
            (Kind::Drop, polls_of(polls)?, words)
        }
        _ => return Err(RowError::NotUnderstood),
    };
    let asked = boxed(alloc, asked_of(alloc, words)?)?;
    Ok(Step { kind, polls, asked })
}

/// `N`, or `N..M`.
fn polls_of(word: &str) -> Result<(usize, usize), RowError> {
    match word.split_once("..") {
        Some((first, last)) => Ok((value(first)?, value(last)?)),
        None => {
            let number = value(word)?;
            Ok((number, number))
        }
    }
}

/// What words ask for.
fn asked_of(alloc: Global, words: &str) -> Result<Asked, RowError> {
    match words.split_once(' ') {
        Some(("implicit", name)) => Ok(Asked::Implicit(text(alloc, name)?)),
        Some(("secure", name)) => Ok(Asked::Secure(text(alloc, name)?)),
        None if words == "clear" => Ok(Asked::Clear),
        _ => Ok(Asked::Call(call(alloc, words)?)),
    }
}
