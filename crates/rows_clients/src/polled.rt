//! The futures of the polled client over memory, each polled to its answer: a function for each kind of future, which is
//! cheaper to prove where it is called than one for all.

use ftp_base::types::{Features, FtpError, FtpResult, Response};
use ftp_polled::{
    Abort, Adjust, ControlSocket, Dialogue, Finish, ImplAsyncFtpStream, OpenTransfer,
    TransferStream, Upload,
};
use ftp_session::session::{Answer, NoTlsConnector};
use ftp_transport::MemoryTransport;
use futures::Future;
use futures::executor::block_on;
use jiff::civil::DateTime;
use rows_plays::{Named, RowBuilder, had};
use rows_text::RowError;
use std::random::RandomSource;
use std::sync::Wait;

/// A polled client over memory whose encoding a row may choose.
pub type Client = ImplAsyncFtpStream<MemoryTransport, NoTlsConnector, Named, RowBuilder>;

/// A transfer of such a client.
pub type Stream = TransferStream<MemoryTransport, NoTlsConnector, Named, RowBuilder>;

/// The control connection of such a client.
pub type Control = ControlSocket<MemoryTransport, NoTlsConnector, Named, RowBuilder>;

/// A call that returns an `A`.
type Made<'r, R, A> = Dialogue<'r, R, MemoryTransport, NoTlsConnector, Named, RowBuilder, A>;

/// The outcome of a state that is polled until it has one.
pub fn done<R, F, T>(rt: &R, state: F) -> FtpResult<T>
where
    R: Wait + RandomSource + AllocGlobal,
    F: Future<Output = FtpResult<T>>,
    requires { F.can_poll state }
{
    match block_on(rt, state) {
        Ok(outcome) => outcome,
        Err(_) => Err(FtpError::OutOfMemory),
    }
}

/// The answer of a call that returns nothing.
pub fn unit<R>(rt: &R, state: Made<'_, R, ()>) -> Answer
where
    R: Wait + RandomSource + AllocGlobal,
{
    rows_plays::unit(done(rt, state))
}

/// The answer of a call that returns its reply.
pub fn reply<R>(rt: &R, state: Made<'_, R, Response>) -> Answer
where
    R: Wait + RandomSource + AllocGlobal,
{
    rows_plays::reply(done(rt, state))
}

/// The answer of a call that returns a text.
pub fn text<R>(rt: &R, state: Made<'_, R, String>) -> Answer
where
    R: Wait + RandomSource + AllocGlobal,
{
    rows_plays::text(done(rt, state))
}

/// The answer of a call that returns a time.
pub fn time<R>(rt: &R, state: Made<'_, R, DateTime>) -> Answer
where
    R: Wait + RandomSource + AllocGlobal,
{
    rows_plays::time(done(rt, state))
}

/// The answer of a call that returns a size.
pub fn size<R>(rt: &R, state: Made<'_, R, usize>) -> Answer
where
    R: Wait + RandomSource + AllocGlobal,
{
    rows_plays::size(done(rt, state))
}

/// The answer of a call that returns the server's features.
pub fn features<R>(rt: &R, state: Made<'_, R, Features>) -> Answer
where
    R: Wait + RandomSource + AllocGlobal,
{
    rows_plays::features(done(rt, state))
}

/// The answer of a call that returns a whole file.
pub fn bytes<R>(rt: &R, state: Made<'_, R, Vec<u8>>) -> Answer
where
    R: Wait + RandomSource + AllocGlobal,
{
    rows_plays::bytes(done(rt, state))
}

/// The answer of a call that returns a listing.
pub fn lines<R>(rt: &R, state: Made<'_, R, Vec<String>>) -> Answer
where
    R: Wait + RandomSource + AllocGlobal,
{
    rows_plays::lines(done(rt, state))
}

/// The answer of an upload of these bytes.
pub fn count<'r, R>(
    rt: &R,
    state: Upload<'r, R, MemoryTransport, NoTlsConnector, Named, RowBuilder, &'r [u8]>,
) -> Answer
where
    R: Wait + RandomSource + AllocGlobal,
{
    rows_plays::count(done(rt, state))
}

/// The transfer that a call opens.
pub fn opened<R>(
    rt: &R,
    state: OpenTransfer<'_, R, MemoryTransport, NoTlsConnector, Named, RowBuilder>,
) -> FtpResult<Stream>
where
    R: Wait + RandomSource + AllocGlobal,
{
    done(rt, state)
}

/// The answer of a setting that changes.
pub fn adjusted<R>(
    rt: &R,
    state: Adjust<'_, R, MemoryTransport, NoTlsConnector, Named, RowBuilder>,
) -> Answer
where
    R: Wait + RandomSource + AllocGlobal,
{
    rows_plays::unit(done(rt, state))
}

/// The answer of a transfer that is finished.
pub fn finished<R>(
    rt: &R,
    state: Finish<'_, R, MemoryTransport, NoTlsConnector, Named, RowBuilder>,
) -> Answer
where
    R: Wait + RandomSource + AllocGlobal,
{
    rows_plays::unit(done(rt, state))
}

/// The answer of a transfer that is aborted.
pub fn aborted<R>(
    rt: &R,
    state: Abort<'_, R, MemoryTransport, NoTlsConnector, Named, RowBuilder>,
) -> Answer
where
    R: Wait + RandomSource + AllocGlobal,
{
    rows_plays::unit(done(rt, state))
}

/// The control connection, once the lock is free.
///
/// # Errors
/// `OutOfMemory`.
pub fn control<R>(rt: &R, client: &Client) -> Result<Control, RowError>
where
    R: Wait + RandomSource + AllocGlobal,
{
    had(done(rt, client.get_ref()))
}
