//! What each call of a session must return, by the server's script, the call's lines with their codes, and RFC 959. No part
//! of the client has a say in it.

use crate::calls::Call;
use crate::script::{Ending, Script};
use crate::unread::{Unread, value_of};
use rows_text::{RowError, bytes_of, shown};
use std::alloc::{AllocError, Global};

/// A session, as its server's script and its calls make it.
#[derive(Drop)]
pub struct Judge {
    script: Script,
    // How many lines were sent.
    lines: u64,
    unread: Unread,
    // What the server sends on the last data connection.
    data: Vec<u8>,
    // Whether uploads are text: until a type that is none was accepted.
    is_text: bool,
    has_failed: bool,
}

impl Judge {
    /// A session whose greeting was read.
    pub fn new(alloc: Global, script: Script) -> Judge {
        Judge {
            script,
            lines: 0,
            unread: Unread::new(alloc),
            data: Vec::new(alloc),
            is_text: true,
            has_failed: false,
        }
    }

    /// What a call returns, as rows write it (docs/ROWS.md).
    ///
    /// # Errors
    /// `NotUnderstood` where it can't be told, `OutOfMemory`.
    pub fn answer(&mut self, alloc: Global, call: Call) -> Result<String, RowError> {
        let (words, turns) = call;
        let mut last = Vec::new(alloc);
        for (line, codes) in turns {
            match self.exchange(alloc, line, codes)? {
                // After 230 the user is logged in without a password.
                Ok((230, _)) => break,
                Ok((_, reply)) => last = reply,
                Err(fault) => return Ok(fault),
            }
        }
        let (name, argument) = words.split_once(' ').unwrap_or((words, ""));
        match name {
            "type" => self.is_text = argument != "image",
            "list" => return Ok(listing(alloc, &self.data)?),
            "retr_as_buffer" => return Ok(file(alloc, &self.data)?),
            "put_file" => return self.count(alloc, argument),
            _ => {}
        }
        value_of(alloc, name, &last)
    }

    /// Sends a line, if it is one, and reads a reply that has one of these codes; else the error, by its number in
    /// docs/REFUSALS.md.
    fn exchange(
        &mut self,
        alloc: Global,
        line: &str,
        codes: &[u32],
    ) -> Result<Result<(u32, Vec<u8>), String>, RowError> {
        if self.has_failed {
            return Ok(Err(String::from_str(alloc, "E14")?));
        }
        if line.contains('\r') || line.contains('\n') {
            return Ok(Err(String::from_str(alloc, "E4")?));
        }
        self.send(alloc, line)?;
        match self.unread.read(alloc)? {
            Some((Some(code), reply)) if codes.contains(&code) => Ok(Ok((code, reply))),
            Some((Some(code), _)) => Ok(Err(format!(in alloc; "E10 {code}")?)),
            Some((None, _)) => Ok(Err(String::from_str(alloc, "E11")?)),
            None => {
                self.has_failed = true;
                Ok(Err(String::from_str(alloc, self.failure()?)?))
            }
        }
    }

    /// Sends a line, if it is one, for which the server, unless it is gone, sends what its script says.
    fn send(&mut self, alloc: Global, line: &str) -> Result<(), AllocError> {
        if !line.is_empty() && self.unread.ending == Ending::Whole {
            let sent = self.script.sent(alloc, self.lines, line)?;
            self.lines = self.lines.saturating_add(1);
            self.unread.add(&sent)?;
            self.data = sent.data;
        }
        Ok(())
    }

    /// The error of a read after which nothing comes.
    fn failure(&self) -> Result<&'static str, RowError> {
        match self.unread.ending {
            Ending::Cut => Ok("E2"),
            Ending::Reset => Ok("E1 ConnectionReset"),
            Ending::Stalls => Ok("E1 TimedOut"),
            Ending::Whole => Err(RowError::NotUnderstood),
        }
    }

    /// How many bytes go out of an upload, `NAME BYTES` in words: each LF alone of a text as CR LF (RFC 959, section 3.1.1.1).
    fn count(&self, alloc: Global, arguments: &str) -> Result<String, RowError> {
        let (_, bytes) = arguments.split_once(' ').ok_or(RowError::NotUnderstood)?;
        let bytes = bytes_of(alloc, bytes)?;
        let feeds = bytes.iter().filter(|byte| **byte == b'\n').count();
        let pairs = bytes.windows(2).filter(|pair| *pair == b"\r\n".as_slice());
        let more = if self.is_text {
            feeds.saturating_sub(pairs.count())
        } else {
            0
        };
        let count = bytes.len().saturating_add(more);
        Ok(format!(in alloc; "count {count}")?)
    }
}

/// A whole file.
fn file(alloc: Global, data: &[u8]) -> Result<String, AllocError> {
    let blank = if data.is_empty() { "" } else { " " };
    let data = shown(alloc, data)?;
    format!(in alloc; "bytes{blank}{data}")
}

/// The lines of a listing, without its empty ones (RFC 959, section 4.1.3).
fn listing(alloc: Global, data: &[u8]) -> Result<String, AllocError> {
    let mut text = String::from_str(alloc, "lines")?;
    let mut is_first = true;
    for line in data.split(|byte| matches!(byte, b'\r' | b'\n')) {
        if !line.is_empty() {
            let before = if is_first { " " } else { "\\n" };
            is_first = false;
            let line = shown(alloc, line)?;
            write!(text, "{before}{line}")?;
        }
    }
    Ok(text)
}
