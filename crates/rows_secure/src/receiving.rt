//! A transfer of the polled client, and calls that are polled to their answers.

use crate::polled::Client;
use ftp_base::encoding::Utf8Encoding;
use ftp_base::types::{FtpError, FtpResult};
use ftp_polled::{Dialogue, OpenTransfer, Secure, TransferStream};
use ftp_session::session::{Answer, NoStreamBuilder};
use ftp_transfer::mark::Left;
use futures::Future;
use futures::executor::block_on;
use futures::task::{Context, Poll};
use rows_plays::{Held, Transfers};
use rows_tls::{Line, Net, Seal};
use std::io;
use std::io::ErrorKind;
use std::random::RandomSource;
use std::sync::Wait;

/// A transfer of a polled client.
type Stream = TransferStream<Net, Seal>;

/// The outcome of a state that is polled until it has one.
pub fn done<R, F, T>(rt: &R, state: F) -> FtpResult<T>
where
    R: Wait + RandomSource + AllocGlobal,
    F: Future<Output = FtpResult<T>>,
    requires { F.can_poll state }
{
    match block_on(rt, state) {
        Ok(outcome) => outcome,
        Err(_) => Err(FtpError::OutOfMemory),
    }
}

/// A call that returns an `A`.
type Made<'r, R, A> = Dialogue<'r, R, Net, Seal, Utf8Encoding, NoStreamBuilder, A>;

/// The answer of a call that returns nothing: a function for each kind of future is cheaper to prove where it is called
/// than `done` is.
pub fn unit<R>(rt: &R, state: Made<'_, R, ()>) -> Answer
where
    R: Wait + RandomSource + AllocGlobal,
{
    rows_plays::unit(done(rt, state))
}

/// The answer of a call that opens a transfer.
pub fn opened<R>(
    rt: &R,
    transfers: &mut Transfers<Live>,
    state: OpenTransfer<'_, R, Net, Seal, Utf8Encoding, NoStreamBuilder>,
) -> Answer
where
    R: Wait + RandomSource + AllocGlobal,
{
    transfers.opened(done(rt, state))
}

/// The client that a change to TLS or from it leaves.
pub fn changed<R>(
    rt: &R,
    state: Secure<'_, R, Net, Seal, Utf8Encoding, NoStreamBuilder>,
) -> FtpResult<Client>
where
    R: Wait + RandomSource + AllocGlobal,
{
    done(rt, state)
}

/// One read of a transfer.
#[derive(Drop)]
struct Receiving<'s> {
    stream: &'s mut Stream,
    buffer: &'s mut [u8],
}

impl Future for Receiving<'_> {
    type Output = Result<usize, ErrorKind>;

    fn poll(&mut self, cx: &mut Context<'_>) -> Poll<Result<usize, ErrorKind>> {
        match self.stream.poll_read(cx, self.buffer) {
            Ok(Poll::Ready(count)) => Poll::Ready(Ok(count)),
            Ok(Poll::Pending) => Poll::Pending,
            Err(kind) => Poll::Ready(Err(kind)),
        }
    }
}

/// One write to a transfer.
#[derive(Drop)]
struct Sending<'s> {
    stream: &'s mut Stream,
    bytes: &'s [u8],
}

impl Future for Sending<'_> {
    type Output = Result<usize, ErrorKind>;

    fn poll(&mut self, cx: &mut Context<'_>) -> Poll<Result<usize, ErrorKind>> {
        match self.stream.poll_write(cx, self.bytes) {
            Ok(Poll::Ready(count)) => Poll::Ready(Ok(count)),
            Ok(Poll::Pending) => Poll::Pending,
            Err(kind) => Poll::Ready(Err(kind)),
        }
    }
}

/// A transfer that is held.
#[derive(Drop)]
pub struct Live {
    /// The client's transfer.
    pub stream: Stream,
}

impl Live {
    /// Its data connection.
    pub fn conn(&self) -> &Line {
        self.stream.get_ref()
    }
}

impl Held for Live {
    type Stream = Stream;

    fn of(stream: Stream) -> Live {
        Live { stream }
    }

    fn sent(&self) -> &[u8] {
        self.conn().sent()
    }

    fn take_in<R>(&mut self, rt: &R, buffer: &mut [u8]) -> io::Result<usize>
    where
        R: Wait + RandomSource + AllocGlobal,
    {
        let stream = &mut self.stream;
        moved(block_on(rt, Receiving { stream, buffer }))
    }

    fn put_out<R>(&mut self, rt: &R, bytes: &[u8]) -> io::Result<usize>
    where
        R: Wait + RandomSource + AllocGlobal,
    {
        let stream = &mut self.stream;
        moved(block_on(rt, Sending { stream, bytes }))
    }

    fn left(self) -> Left {
        let Live { stream } = self;
        stream.leave()
    }
}

/// What a read or a write resulted in.
fn moved(outcome: io::Result<Result<usize, ErrorKind>>) -> io::Result<usize> {
    match outcome {
        Ok(Ok(count)) => Ok(count),
        Ok(Err(kind)) => Err(kind.into()),
        Err(error) => Err(error),
    }
}
