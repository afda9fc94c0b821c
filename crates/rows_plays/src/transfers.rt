//! The transfers of a face that makes calls by methods: the one that is live, the receipt of one that was left, and what
//! was written to the data connections that are over.

use crate::session::uploaded;
use ftp_base::types::{Bytes, ConnectionError, FtpError, FtpResult, Response};
use ftp_calls::exchange::drains_first;
use ftp_session::session::{Answer, Call};
use ftp_transfer::mark::Left;
use ftp_transport::MemoryConn;
use std::alloc::{AllocError, Global};
use std::random::RandomSource;
use std::sync::Wait;
use std::{io, mem};

/// A transfer over memory.
pub trait Held: Drop {
    /// What a client opens.
    type Stream: Drop;

    /// The transfer that was opened.
    fn of(stream: Self::Stream) -> Self;

    /// What was written to its data connection.
    fn sent(&self) -> &[u8];

    /// Reads from it, in one read.
    fn take_in<R>(&mut self, rt: &R, buffer: &mut [u8]) -> io::Result<usize>
    where
        R: Wait + RandomSource + AllocGlobal;

    /// Writes to it, in one write.
    fn put_out<R>(&mut self, rt: &R, bytes: &[u8]) -> io::Result<usize>
    where
        R: Wait + RandomSource + AllocGlobal;

    /// Leaves it.
    fn left(self) -> Left;
}

/// What a face holds of its transfers.
pub struct Transfers<T: Drop> {
    live: Option<T>,
    receipt: Option<Left>,
    uploaded: Vec<Vec<u8>>,
}

impl<T: Drop> Drop for Transfers<T> {
    fn drop(self) {
        let Self {
            live,
            receipt,
            uploaded,
        } = self;
        drop(live);
        drop(receipt);
        drop(uploaded);
    }
}

impl<T: Held> Transfers<T> {
    /// None was opened.
    pub fn new(alloc: Global) -> Transfers<T> {
        Transfers {
            live: None,
            receipt: None,
            uploaded: Vec::new(alloc),
        }
    }

    /// The live transfer.
    pub fn live(&self) -> Option<&T> {
        self.live.as_ref()
    }

    /// Takes what was written to the data connections that are over.
    pub fn take_uploaded(&mut self, alloc: Global) -> Vec<Vec<u8>> {
        mem::replace(&mut self.uploaded, Vec::new(alloc))
    }

    /// The answer of a call that opens a transfer.
    pub fn opened(&mut self, outcome: FtpResult<T::Stream>) -> Answer {
        match outcome {
            Ok(stream) => {
                drop(self.live.replace(T::of(stream)));
                Answer::Opened
            }
            Err(fault) => Answer::Fault(fault),
        }
    }

    /// The answer of a call that opens a transfer and returns its reply.
    pub fn opened_with(&mut self, outcome: FtpResult<(Response, T::Stream)>) -> Answer {
        match outcome {
            Ok((reply, stream)) => {
                drop(self.live.replace(T::of(stream)));
                Answer::OpenedWith(reply)
            }
            Err(fault) => Answer::Fault(fault),
        }
    }

    /// Takes the receipt of a transfer that was left and whose last reply is still to come.
    pub fn receipt(&mut self) -> Option<Left> {
        self.receipt.take()
    }

    /// Keeps the receipt of a transfer whose last reply a session that has failed didn't read.
    pub fn keep(&mut self, receipt: Left, answer: &Answer) {
        if is_failed(answer) {
            drop(self.receipt.replace(receipt));
        }
    }

    /// Adds the answer of a call, which has read the last reply of a transfer that was left, where it does that first.
    ///
    /// # Errors
    /// `OutOfMemory`.
    pub fn add(
        &mut self,
        call: &Call,
        answer: Answer,
        answers: &mut Vec<Answer>,
    ) -> Result<(), AllocError> {
        if drains_first(call) && !is_failed(&answer) {
            drop(self.receipt.take());
        }
        Ok(answers.push(answer)?)
    }

    /// Reads at most so many bytes from the live transfer, in one read.
    ///
    /// # Errors
    /// `OutOfMemory`.
    pub fn receive<R>(&mut self, rt: &R, most: usize) -> Result<Answer, AllocError>
    where
        R: Wait + RandomSource + AllocGlobal,
    {
        let Some(transfer) = &mut self.live else {
            return Ok(Answer::NoTransfer);
        };
        let mut buffer = vec![in rt.alloc(); 0u8; most]?;
        Ok(match transfer.take_in(rt, &mut buffer[..]) {
            Ok(count) => {
                buffer.truncate(count);
                Answer::Bytes(Bytes::from_vec(buffer))
            }
            Err(error) => failed(error),
        })
    }

    /// Writes these bytes to the live transfer, in one write.
    pub fn send<R>(&mut self, rt: &R, bytes: &[u8]) -> Answer
    where
        R: Wait + RandomSource + AllocGlobal,
    {
        let Some(transfer) = &mut self.live else {
            return Answer::NoTransfer;
        };
        match transfer.put_out(rt, bytes) {
            Ok(count) => Answer::Count(count as u64),
            Err(error) => failed(error),
        }
    }

    /// Takes the live transfer to its end, and notes what was written to its data connection.
    ///
    /// # Errors
    /// `OutOfMemory`.
    pub fn take(&mut self, alloc: Global) -> Result<Option<T>, AllocError> {
        if let Some(transfer) = &self.live {
            let sent = Vec::from_slice(alloc, transfer.sent())?;
            self.uploaded.push(sent)?;
        }
        Ok(self.live.take())
    }

    /// Notes what was written to data connections that are over, but for so many of them.
    ///
    /// # Errors
    /// `OutOfMemory`.
    pub fn note(
        &mut self,
        alloc: Global,
        conns: &[MemoryConn],
        noted: usize,
    ) -> Result<(), AllocError> {
        let mut more = uploaded(alloc, conns.get(noted..).unwrap_or(&[]))?;
        self.uploaded.append(&mut more)
    }

    /// Leaves the live transfer, and keeps its receipt.
    ///
    /// # Errors
    /// `OutOfMemory`.
    pub fn leave(&mut self, alloc: Global) -> Result<Answer, AllocError> {
        match self.take(alloc)? {
            Some(transfer) => {
                drop(self.receipt.replace(transfer.left()));
                Ok(Answer::Unit)
            }
            None => Ok(Answer::NoTransfer),
        }
    }
}

/// The answer of a read or a write that failed.
fn failed(error: io::Error) -> Answer {
    Answer::Fault(FtpError::ConnectionError(ConnectionError::Io(error.kind())))
}

/// Whether an answer is that of a session that has failed.
fn is_failed(answer: &Answer) -> bool {
    matches!(answer, Answer::Fault(FtpError::SessionFailed))
}
