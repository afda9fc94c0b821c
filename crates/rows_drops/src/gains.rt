//! What the answers of calls hold, and what a row keeps of it.

use crate::slow::SlowTransport;
use ftp_base::types::{FtpResult, Response};
use ftp_polled::{ControlSocket, TransferStream};
use ftp_session::session::Answer;
use ftp_transfer::mark::Left;
use rows_plays::{bytes, lines, reply, size, text_of, unit};
use std::alloc::{AllocError, Global};
use std::collections::VecDeque;

/// A transfer of a client over slow connections.
pub type Stream = TransferStream<SlowTransport>;

/// The control connection of such a client.
pub type Control = ControlSocket<SlowTransport>;

/// What a row keeps.
#[derive(Drop)]
pub struct Gains {
    /// The transfers that are held, in the order in which they were opened.
    pub transfers: VecDeque<Stream>,
    /// The receipt of the transfer that was left last.
    pub receipt: Option<Left>,
    /// The control connection that is lent.
    pub lent: Option<Control>,
}

impl Gains {
    /// Nothing.
    pub fn new(alloc: Global) -> Gains {
        Gains {
            transfers: VecDeque::new(alloc),
            receipt: None,
            lent: None,
        }
    }
}

/// What a call returned.
#[derive(Drop)]
pub enum Outcome {
    /// Nothing.
    Unit(FtpResult<()>),
    /// Its reply.
    Reply(FtpResult<Response>),
    /// The size of a file.
    Size(FtpResult<usize>),
    /// A whole file.
    Bytes(FtpResult<Vec<u8>>),
    /// A listing.
    Lines(FtpResult<Vec<String>>),
    /// A transfer.
    Opened(FtpResult<Stream>),
    /// The control connection.
    Lent(FtpResult<Control>),
}

impl Outcome {
    /// The answer; what the row keeps is put by.
    ///
    /// # Errors
    /// `OutOfMemory`.
    fn answer(self, gains: &mut Gains) -> Result<Answer, AllocError> {
        Ok(match self {
            Outcome::Unit(outcome) => unit(outcome),
            Outcome::Reply(outcome) => reply(outcome),
            Outcome::Size(outcome) => size(outcome),
            Outcome::Bytes(outcome) => bytes(outcome),
            Outcome::Lines(outcome) => lines(outcome),
            Outcome::Opened(outcome) => opened(outcome, gains)?,
            Outcome::Lent(outcome) => lent(outcome, gains),
        })
    }

    /// The answer as text; what the row keeps is put by.
    ///
    /// # Errors
    /// `OutOfMemory`.
    pub fn shown(self, alloc: Global, gains: &mut Gains) -> Result<String, AllocError> {
        let answer = self.answer(gains)?;
        let text = text_of(alloc, &answer);
        drop(answer);
        text
    }
}

/// The answer of a call that opens a transfer, which is put by.
fn opened(outcome: FtpResult<Stream>, gains: &mut Gains) -> Result<Answer, AllocError> {
    match outcome {
        Ok(stream) => {
            gains.transfers.push_back(stream)?;
            Ok(Answer::Opened)
        }
        Err(fault) => Ok(Answer::Fault(fault)),
    }
}

/// The answer of a call that lends the control connection, which is put by.
fn lent(outcome: FtpResult<Control>, gains: &mut Gains) -> Answer {
    match outcome {
        Ok(control) => {
            drop(gains.lent.replace(control));
            Answer::Unit
        }
        Err(fault) => Answer::Fault(fault),
    }
}
