//! Received bytes that no read has looked at yet.
//!
//! A connection is read only where none is left, and then for as many bytes as the buffer holds, so that replies that came
//! together cost one read.

ghost use Rattle.std.specs.Prelude.{◌≡◌, ◌≤◌, ◌<◌, IfErr, IfOk, Ok, [], drop, take, length, false, true};
ghost use Rattle.futures.specs.declared.task.Poll.TheVariants as poll;
ghost use Rattle.ftp_transport.specs.Memory.{IsGiven};
ghost use Rattle.ftp_control.specs.Inside.Ahead.{Fills, IsPiece};

use ftp_transport::PollConn;
use futures::task::Poll;
use memchr::memchr;
use std::alloc::{AllocError, Global};
use std::io::ErrorKind;
use std::marker::Model;

/// How many bytes a connection is asked for at once.
pub(crate) const AHEAD_LIMIT: usize = 8_192;

/// The bytes that were received and not looked at: a part of a buffer.
pub(crate) struct ReadAhead {
    buffer: Vec<u8>,
    start: usize,
    end: usize,
}

impl Drop for ReadAhead {
    fn drop(self) {
        let Self {
            buffer,
            start: _,
            end: _,
        } = self;
        drop(buffer);
    }
}

impl Model for ReadAhead {
    ghost use Rattle.std.specs.Prelude.{◌≡◌, ◌≤◌, ◌-◌, ℕ, List, drop, take, length};

    ghost Value = { List ℕ };

    ghost view = { λ a. take (a.end - a.start) (drop a.start a.buffer.items) };

    ghost invariant = { λ a. (a.start ≤ a.end) × (a.end ≤ length a.buffer.items) ×
        (length a.buffer.items ≡ 8192) };
}

impl ReadAhead {
    /// No bytes, and the buffer for them.
    ///
    /// # Errors
    /// There is no memory for the buffer.
    pub(crate) fn new(alloc: Global) -> Result<ReadAhead, AllocError>
        ensures { IfOk result (λ ahead. ahead ≡ []) }
    {
        Ok(ReadAhead {
            buffer: vec![in alloc; 0u8; AHEAD_LIMIT]?,
            start: 0,
            end: 0,
        })
    }

    /// None is left: those that weren't looked at are dropped.
    pub(crate) fn clear(&mut self)
        ensures { self.new ≡ [] }
    {
        self.start = self.end;
    }

    /// The bytes.
    pub(crate) fn bytes(&self) -> &[u8]
        ensures value { result.now ≡ self.now }
        ensures bound { length self.now ≤ 8192 }
    {
        &self.buffer.as_slice()[self.start..self.end]
    }

    /// So many bytes from the front were looked at.
    pub(crate) fn consume(&mut self, count: usize)
        requires { count ≤ length self.old }
        ensures { self.new ≡ drop count self.old }
    {
        self.start += count;
    }

    /// Reads bytes, where none is left. Returns whether any came, and not the end of the input.
    ///
    /// # Errors
    /// An error of the connection.
    pub(crate) fn fill<W, C: PollConn<W>>(
        &mut self,
        conn: &mut C,
        w: &mut W,
    ) -> Result<Poll<bool>, ErrorKind>
        requires { self.old ≡ [] }
        ensures bound { length self.new ≤ 8192 }
        ensures waits { result ≡ Ok poll.Pending → C.may_wait }
        ensures end { C.Tells.tells → C.may_wait → result ≡ Ok (poll.Ready false) →
            (C.Tells.told conn.old).given.closed ≡ true }
        ensures fault { IfErr result (λ kind. C.read_faults kind) }
        ensures given { C.Tells.tells → IsGiven (C.Tells.told conn.old) →
            IsGiven (C.Tells.told conn.new) }
        ensures fills { Fills C.Tells.tells result self.new (C.Tells.told conn.old)
            (C.Tells.told conn.new) }
    {
        self.start = 0;
        self.end = 0;
        match conn.poll_read(w, self.buffer.as_mut_slice()) {
            Ok(Poll::Ready(count)) => {
                self.end = count;
                Ok(Poll::Ready(count > 0))
            }
            Ok(Poll::Pending) => Ok(Poll::Pending),
            Err(kind) => Err(kind),
        }
    }
}

/// How many bytes at the front are looked at together, this many at most: those to the first LF, or all.
pub(crate) fn piece_len(bytes: &[u8], most: usize) -> usize
    requires some { 0 < length bytes.now }
    requires most { 0 < most }
    ensures within { result ≤ length bytes.now }
    ensures most { result ≤ most }
    ensures piece { IsPiece (take result bytes.now) }
{
    if bytes.len() <= most {
        line_len(bytes)
    } else {
        line_len(&bytes[..most])
    }
}

/// How many bytes there are to the first LF, with it, or in all.
fn line_len(bytes: &[u8]) -> usize
    requires some { 0 < length bytes.now }
    ensures within { result ≤ length bytes.now }
    ensures piece { IsPiece (take result bytes.now) }
{
    match memchr(b'\n', bytes) {
        Some(place) => place + 1,
        None => bytes.len(),
    }
}
