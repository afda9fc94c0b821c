//! What a row says: what the server and its data connections send, and the steps of the client.

use ftp_session::session::Call;
use rows_plays::{boxed, call};
use rows_text::{RowError, bytes_of, pair, value};
use std::alloc::{AllocError, Global};

/// What a line says.
#[derive(Clone, Copy)]
pub enum Kind {
    /// `server BYTES`: the server sends these, at once where the row is played so; after the last such line its input ends.
    Server,
    /// `connects BYTES`: the next data connection connects, or comes; these bytes come on it, and then it ends.
    Connects,
    /// `call CALL`: a call is polled to its answer.
    Call,
    /// `drop POLLS CALL`: a call is polled so often, waits each time, and is dropped. `drop`: the held call is dropped.
    Drop,
    /// `hold POLLS CALL`: a call is polled so often, waits each time, and is held.
    Hold,
    /// `poll`: the held call is polled.
    Poll,
    /// `end`: the held call is polled to its answer, and stays held.
    End,
    /// `discard`: the transfer is dropped.
    Discard,
    /// `return`: the lent control connection is returned.
    Return,
    /// `sent`: what was sent since it was last shown.
    Sent,
    /// `closed`: what was written to the data connections that were handed back closed since that was last shown.
    Closed,
}

/// The words that lines begin with.
const WORDS: [(&str, Kind); 11] = [
    ("server", Kind::Server),
    ("connects", Kind::Connects),
    ("call", Kind::Call),
    ("drop", Kind::Drop),
    ("hold", Kind::Hold),
    ("poll", Kind::Poll),
    ("end", Kind::End),
    ("discard", Kind::Discard),
    ("return", Kind::Return),
    ("sent", Kind::Sent),
    ("closed", Kind::Closed),
];

/// No call of a row waits so often.
const MOST: usize = 200;

/// How often a call is polled before it is dropped or held: each number from the first to the last.
#[derive(Clone, Copy)]
pub struct Polls {
    /// The first number.
    pub first: usize,
    /// The last one.
    pub last: usize,
    /// Whether the numbers end with the last one after which the call still waits, below [`Polls::last`].
    pub is_open: bool,
    /// Whether those after which the call doesn't wait are passed over.
    pub is_partial: bool,
}

impl Polls {
    /// These numbers.
    fn between(first: usize, last: usize) -> Polls {
        Polls {
            first,
            last,
            is_open: false,
            is_partial: false,
        }
    }

    /// `POLLS`, or `POLLS/POLLS` for the bytes of the server a byte at a time, and at once. Where one is said alone it is of
    /// both, and those after which the call doesn't wait are passed over where the bytes come at once.
    fn of(word: &str, at_once: bool) -> Result<Polls, RowError> {
        match word.split_once('/') {
            Some((_, polls)) if at_once => Polls::range(polls),
            Some((polls, _)) => Polls::range(polls),
            None => {
                let mut polls = Polls::range(word)?;
                polls.is_partial = at_once;
                Ok(polls)
            }
        }
    }

    /// `N`, `N..M` or `N..`.
    fn range(word: &str) -> Result<Polls, RowError> {
        match word.split_once("..") {
            Some((first, "")) => Ok(Polls {
                first: value(first)?,
                last: MOST,
                is_open: true,
                is_partial: false,
            }),
            Some((first, last)) => Ok(Polls::between(value(first)?, value(last)?)),
            None => {
                let number = value(word)?;
                Ok(Polls::between(number, number))
            }
        }
    }
}

/// What is asked of the client.
#[derive(Drop)]
pub enum Asked {
    /// A call of the words that all rows have.
    Call(Call),
    /// `lend`: the control connection, which the row keeps until `return`.
    Lend,
}

/// A step of the client.
#[derive(Drop)]
pub struct Step {
    /// What happens.
    pub kind: Kind,
    /// How often its call is polled, where it is dropped or held.
    pub polls: Polls,
    /// The number of those that it is polled in the next play.
    pub number: usize,
    /// Its call, where it has one.
    pub asked: Option<Box<Asked>>,
}

/// What a row says.
#[derive(Drop)]
pub struct Script {
    /// What the server sends, line by line.
    pub server: Vec<Vec<u8>>,
    /// Whether each of these comes at once.
    pub at_once: bool,
    /// What comes on each data connection.
    pub data_conns: Vec<Vec<u8>>,
    /// What the client does.
    pub steps: Vec<Step>,
}

impl Script {
    /// What these lines say, where the server's bytes come a byte at a time, or at once.
    ///
    /// # Errors
    /// `NotUnderstood`, `OutOfMemory`.
    pub fn of(alloc: Global, lines: &str, at_once: bool) -> Result<Box<Script>, RowError> {
        let script = Script {
            server: Vec::new(alloc),
            at_once,
            data_conns: Vec::new(alloc),
            steps: Vec::new(alloc),
        };
        let mut script = boxed(alloc, script)?;
        for line in lines.lines() {
            if !line.starts_with('#') {
                script.read(alloc, line)?;
            }
        }
        Ok(script)
    }

    /// Goes on to the next number of polls of one of so many first steps, after which the other steps begin anew: all
    /// combinations come one after another. Returns whether there is one.
    pub fn advance(&mut self, count: usize) -> bool {
        for place in (0..count).rev() {
            if let Some(step) = self.steps.get_mut(place) {
                if step.number < step.polls.last {
                    step.number = step.number.saturating_add(1);
                    return true;
                }
                step.number = step.polls.first;
            }
        }
        false
    }

    /// The numbers of polls of the steps, each after a blank.
    ///
    /// # Errors
    /// `OutOfMemory`.
    pub fn numbers(&self, alloc: Global) -> Result<String, AllocError> {
        let mut text = String::new(alloc);
        for step in &self.steps {
            write!(text, " {}", step.number)?;
        }
        Ok(text)
    }

    /// Reads a line.
    fn read(&mut self, alloc: Global, line: &str) -> Result<(), RowError> {
        let (word, rest) = line.split_once(' ').unwrap_or((line, ""));
        match kind_of(word)? {
            Kind::Server => self.server.push(bytes_of(alloc, rest)?)?,
            Kind::Connects => self.data_conns.push(bytes_of(alloc, rest)?)?,
            kind => self.steps.push(step_of(alloc, kind, rest, self.at_once)?)?,
        }
        Ok(())
    }
}

/// What a word says.
fn kind_of(word: &str) -> Result<Kind, RowError> {
    for (name, kind) in &WORDS {
        if *name == word {
            return Ok(*kind);
        }
    }
    Err(RowError::NotUnderstood)
}

/// The step of this kind, with what stands after its word.
fn step_of(alloc: Global, kind: Kind, rest: &str, at_once: bool) -> Result<Step, RowError> {
    let (polls, words) = match kind {
        Kind::Drop | Kind::Hold if !rest.is_empty() => {
            let (polls, words) = pair(rest, " ")?;
            (Polls::of(polls, at_once)?, words)
        }
        _ => (Polls::between(0, 0), rest),
    };
    let asked = match words {
        "" => None,
        words => Some(asked_of(alloc, words)?),
    };
    Ok(Step {
        kind,
        polls,
        number: polls.first,
        asked,
    })
}

/// What words ask for.
fn asked_of(alloc: Global, words: &str) -> Result<Box<Asked>, RowError> {
    let asked = match words {
        "lend" => Asked::Lend,
        words => Asked::Call(call(alloc, words)?),
    };
    Ok(boxed(alloc, asked)?)
}
