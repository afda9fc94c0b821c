//! What the server sends in a session, line by line. The judge reads the same.

use crate::chance::{below, chance};
use crate::replies::{accepted, any_reply};
use std::alloc::{AllocError, Global};

/// The last reply of a transfer.
pub const LAST: &str = "226 done\r\n";

/// What befalls a session.
#[derive(Clone, Copy, PartialEq, Eq)]
enum Fate {
    /// Nothing.
    Whole,
    /// Now and then two replies come for one line.
    Surplus,
    /// The server pauses within replies, for less than the client's limit.
    Pauses,
    /// The connection is closed within a reply.
    Cut,
    /// It is reset.
    Reset,
    /// No more is sent, and the connection stays.
    Stalls,
}

/// How the reply to a line ends.
#[derive(Clone, Copy, PartialEq, Eq)]
pub enum Ending {
    /// It is whole.
    Whole,
    /// The connection is closed.
    Cut,
    /// It is reset.
    Reset,
    /// Nothing follows.
    Stalls,
}

/// What the server sends for a line.
#[derive(Drop)]
pub struct Sent {
    /// The reply, or its front.
    pub reply: Vec<u8>,
    /// The last reply of a transfer, after its data.
    pub last: &'static str,
    /// The data of a download.
    pub data: Vec<u8>,
    pub ending: Ending,
}

/// The script of a session.
#[derive(Clone, Copy)]
pub struct Script {
    pub seed: u64,
    pub session: u64,
    /// The port of data connections.
    pub port: u16,
}

impl Script {
    /// A random number for a line.
    fn chance(self, line: u64, step: u64) -> u64 {
        let step = line.saturating_mul(8).saturating_add(step);
        chance(self.seed, self.session, step)
    }

    /// What befalls the session. A stall takes the client's whole limit, so it is rare.
    fn fate(self) -> Fate {
        if self.session % 2048 == 7 {
            return Fate::Stalls;
        }
        match self.session % 16 {
            1 | 9 => Fate::Cut,
            5 => Fate::Reset,
            6 | 12 => Fate::Surplus,
            10 => Fate::Pauses,
            _ => Fate::Whole,
        }
    }

    /// Whether the session ends once so many lines were sent.
    fn is_late(self, line: u64) -> bool {
        line >= self.chance(0, 0) % 6
    }

    /// Whether the connection is reset at a line of this number that begins with N, as `NOOP` does.
    pub fn resets(self, line: u64) -> bool {
        self.fate() == Fate::Reset && self.is_late(line)
    }

    /// How the reply to a line ends. A command that negotiates or transfers gets a whole one.
    fn ending(self, line: u64, verb: &str) -> Ending {
        if !self.is_late(line) || matches!(verb, "PASV" | "RETR" | "LIST" | "STOR") {
            return Ending::Whole;
        }
        match self.fate() {
            Fate::Cut => Ending::Cut,
            Fate::Stalls => Ending::Stalls,
            Fate::Reset if verb == "NOOP" => Ending::Reset,
            _ => Ending::Whole,
        }
    }

    /// After how many bytes the server pauses within a reply, if it does.
    pub fn pause(self, line: u64, length: usize) -> Option<usize> {
        if self.fate() != Fate::Pauses || length == 0 {
            return None;
        }
        Some(below(self.chance(line, 1), length))
    }

    /// What the server sends for a line.
    pub fn sent(self, alloc: Global, number: u64, line: &str) -> Result<Sent, AllocError> {
        let (verb, name) = line.split_once(' ').unwrap_or((line, ""));
        let accepts = self.chance(number, 2) % 8 < 6;
        let mut reply = self.reply(alloc, number, verb, accepts)?;
        let ending = self.ending(number, verb);
        if ending != Ending::Whole {
            let cut = self.cut(number, &reply);
            reply.truncate(cut);
        }
        let transfers = accepts && matches!(verb, "RETR" | "LIST" | "STOR");
        Ok(Sent {
            reply,
            last: if transfers { LAST } else { "" },
            data: data(alloc, if transfers { verb } else { "" }, name)?,
            ending,
        })
    }

    /// The reply to a line, whole.
    fn reply(
        self,
        alloc: Global,
        number: u64,
        verb: &str,
        accepts: bool,
    ) -> Result<Vec<u8>, AllocError> {
        let mut reply = String::new(alloc);
        match (accepts, verb) {
            (true, "PASV") => {
                let (high, low) = (self.port / 256, self.port % 256);
                write!(reply, "227 ok (127,0,0,1,{high},{low})\r\n")?;
            }
            (true, _) => reply.push_str(accepted(verb))?,
            (false, "PASV" | "RETR" | "LIST" | "STOR") => reply.push_str("550 no\r\n")?,
            (false, _) => reply.push_str(any_reply(self.chance(number, 3)))?,
        }
        if self.fate() == Fate::Surplus && self.chance(number, 4) % 8 == 0 {
            reply.push_str(any_reply(self.chance(number, 5)))?;
        }
        Ok(reply.into_bytes())
    }

    /// Where a reply is cut: before the end of its first line.
    fn cut(self, number: u64, reply: &[u8]) -> usize {
        let line = reply.iter().position(|byte| *byte == b'\n').unwrap_or(0);
        below(self.chance(number, 6), line)
    }
}

/// The data of a download: so many bytes as the name says, or a listing.
fn data(alloc: Global, verb: &str, name: &str) -> Result<Vec<u8>, AllocError> {
    match verb {
        "RETR" => {
            let length: u16 = name.parse().unwrap_or(0);
            vec![in alloc; b'x'; usize::from(length)]
        }
        "LIST" => Vec::from_slice(alloc, b"one\r\n\r\ntwo\nthree"),
        _ => Ok(Vec::new(alloc)),
    }
}
