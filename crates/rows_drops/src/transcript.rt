//! The transcript of a play.

use crate::gains::Control;
use crate::slow::SlowConn;
use rows_plays::{add_sent, add_upload};
use std::alloc::{AllocError, Global};

/// What a control connection shows.
#[derive(Clone, Copy)]
pub enum Part {
    /// The lines that were sent, but for the front of one whose tail is still to be sent.
    Lines,
    /// All that was sent.
    Sent,
    /// The data connections that were handed back closed.
    Closed,
}

impl Part {
    /// The line that says that nothing is new, if one does.
    fn none(self) -> &'static str {
        match self {
            Part::Lines => "",
            Part::Sent => "C: none\n",
            Part::Closed => "U: none\n",
        }
    }
}

/// The whole lines of these bytes.
fn lines_of(bytes: &[u8]) -> &[u8] {
    let mut end = 0usize;
    for (place, byte) in bytes.iter().enumerate() {
        if *byte == b'\n' {
            end = place.saturating_add(1);
        }
    }
    bytes.get(..end).unwrap_or(bytes)
}

/// A transcript, and how much of what a control connection shows is in it.
#[derive(Drop)]
pub struct Transcript {
    /// Its lines.
    pub text: String,
    sent: usize,
    closed: usize,
}

impl Transcript {
    /// Nothing was shown.
    pub fn new(alloc: Global) -> Transcript {
        Transcript {
            text: String::new(alloc),
            sent: 0,
            closed: 0,
        }
    }

    /// Adds what is new of this part, or that nothing is.
    ///
    /// # Errors
    /// `OutOfMemory`.
    pub fn add(&mut self, alloc: Global, control: &Control, part: Part) -> Result<(), AllocError> {
        let before = self.text.len();
        let sent = control.socket().sent();
        match part {
            Part::Lines => self.add_sent(alloc, lines_of(sent))?,
            Part::Sent => self.add_sent(alloc, sent)?,
            Part::Closed => self.add_closed(alloc, control.transport().over())?,
        }
        if self.text.len() == before {
            self.text.push_str(part.none())?;
        }
        Ok(())
    }

    /// Adds an answer, or that there is none.
    ///
    /// # Errors
    /// `OutOfMemory`.
    pub fn add_answer(&mut self, answer: Option<&str>) -> Result<(), AllocError> {
        let answer = answer.unwrap_or("none");
        write!(self.text, "A: {answer}\n")
    }

    /// Adds what is new of these bytes, which were sent.
    fn add_sent(&mut self, alloc: Global, sent: &[u8]) -> Result<(), AllocError> {
        let Some(more) = sent.get(self.sent..) else {
            return Ok(());
        };
        self.sent = sent.len();
        add_sent(alloc, &mut self.text, more)
    }

    /// Adds what was written to the data connections that are new among these, which were handed back, and are closed.
    fn add_closed(&mut self, alloc: Global, over: &[SlowConn]) -> Result<(), AllocError> {
        let Some(more) = over.get(self.closed..) else {
            return Ok(());
        };
        self.closed = over.len();
        for conn in more {
            if conn.is_closed() {
                add_upload(alloc, &mut self.text, conn.sent())?;
            }
        }
        Ok(())
    }
}
