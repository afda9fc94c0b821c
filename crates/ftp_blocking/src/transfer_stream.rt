//! The transfers of the blocking client.
//!
//! A transfer needs no lock to be read, written, left or dropped, so it goes on while another thread holds its client.
//! Only `finish` takes the lock, since it reads a reply.

use ftp_base::encoding::{Encoding, Utf8Encoding};
use ftp_base::types::FtpResult;
use ftp_session::session::{NoStreamBuilder, NoTlsConnector, Session};
use ftp_transfer::mark::Left;
pub use ftp_transfer::{Direction, Transfer};
use ftp_transport::{Conn, Network};
use std::alloc::Global;
use std::io;
use std::io::{Read, Write};
use std::sync::{Arc, Mutex, Wait};

/// A transfer of an [`ImplFtpStream`](crate::ImplFtpStream): its data connection, and the client's session.
///
/// It is read and written as a stream of std. One that is dropped is left, as by [`TransferStream::leave`].
pub struct TransferStream<
    Tr: Network,
    K: Drop = NoTlsConnector,
    E: Encoding = Utf8Encoding,
    B: Drop = NoStreamBuilder,
> {
    transfer: Transfer<Tr::Conn>,
    session: Arc<Mutex<Session<Tr, K, E, B>>, Global>,
}

impl<Tr: Network, K: Drop, E: Encoding, B: Drop> Drop for TransferStream<Tr, K, E, B> {
    fn drop(self) {
        let Self { transfer, session } = self;
        drop(transfer);
        drop(session);
    }
}

impl<Tr: Network, K: Drop, E: Encoding, B: Drop> TransferStream<Tr, K, E, B> {
    /// A transfer that this session opened.
    pub(crate) fn new(
        transfer: Transfer<Tr::Conn>,
        session: Arc<Mutex<Session<Tr, K, E, B>>, Global>,
    ) -> Self {
        TransferStream { transfer, session }
    }

    /// The data connection.
    pub fn get_ref(&self) -> &Tr::Conn {
        self.transfer.get_ref()
    }

    /// The data connection, to be changed.
    pub fn get_mut(&mut self) -> &mut Tr::Conn {
        self.transfer.get_mut()
    }

    /// The number by which the session knows the transfer.
    pub fn number(&self) -> u64 {
        self.transfer.number()
    }

    /// Which way the bytes go.
    pub fn direction(&self) -> Direction {
        self.transfer.direction()
    }

    /// Leaves the transfer: closes the data connection, and stores that it was left. The client's next command reads the
    /// transfer's last reply before anything of its own. The receipt is for `settle`.
    pub fn leave(self) -> Left {
        let TransferStream { transfer, session } = self;
        drop(session);
        transfer.leave()
    }
}

impl<Tr: Network, K: Drop, E: Encoding, B: Drop> TransferStream<Tr, K, E, B>
where
    Tr::Conn: Conn,
{
    /// Brings the transfer to its end: closes the data connection, which ends an upload's file, and reads the transfer's
    /// last reply (226, 250; RFC 959, section 5.4). Whatever that is, the transfer is over.
    ///
    /// # Errors
    /// Those of a read of one reply; before them, of an upload, the error of the close.
    pub fn finish<R: Wait + AllocGlobal>(self, rt: &R) -> FtpResult<()> {
        let TransferStream { transfer, session } = self;
        let mut held = session.lock(rt);
        held.finish(rt.alloc(), transfer)
    }

    /// Aborts the transfer: `ABOR` goes out, the data connection is closed, and what the server replies is read (226,
    /// or 426 and then 226; RFC 959, section 4.1.3). Once `ABOR` is out the transfer is over, whatever is read.
    ///
    /// # Errors
    /// Those of a command that goes out: where it can't, the transfer is left, and the client's next command reads its
    /// last reply first. Those of a read of one reply.
    pub fn abort<R: Wait + AllocGlobal>(self, rt: &R) -> FtpResult<()> {
        let TransferStream { transfer, session } = self;
        let mut held = session.lock(rt);
        held.abort(rt.alloc(), transfer)
    }
}

impl<Tr: Network, K: Drop, E: Encoding, B: Drop> Read for TransferStream<Tr, K, E, B>
where
    Tr::Conn: Conn,
{
    fn read(&mut self, buf: &mut [u8]) -> io::Result<usize> {
        Read::read(&mut self.transfer, buf)
    }
}

impl<Tr: Network, K: Drop, E: Encoding, B: Drop> Write for TransferStream<Tr, K, E, B>
where
    Tr::Conn: Conn,
{
    fn write(&mut self, buf: &[u8]) -> io::Result<usize> {
        Write::write(&mut self.transfer, buf)
    }

    /// Nothing is held back, so there is nothing to flush.
    fn flush(&mut self) -> io::Result<()> {
        Ok(())
    }
}
