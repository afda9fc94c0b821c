//! The calls that open data connections, a method each: the session's call of that name, in one hold of the lock.
//!
//! Each fails with `DataConnectionAlreadyOpen` while a transfer is live, and sends nothing then. The transfer of before
//! is over once it was finished, or once it was left: a call reads the last reply of one that was left before anything
//! of its own.

use super::ImplFtpStream;
use crate::TransferStream;
use ftp_base::encoding::Encoding;
use ftp_base::status::Status;
use ftp_base::types::{FtpResult, Response};
use ftp_transfer::mark::Left;
use ftp_transport::{Conn, Network, PassiveStreamBuilder, Transport};
use std::sync::Wait;

impl<Tr: Network, K: Drop, E: Encoding, B: PassiveStreamBuilder<Tr::Conn>> ImplFtpStream<
    Tr,
    K,
    E,
    B,
>
where
    Tr::Conn: Conn,
{
    /// Opens a download of this file: `RETR` (150, 125; RFC 959, section 4.1.3). It begins at the offset that
    /// `resume_transfer` set, if it did; the offset is taken away.
    ///
    /// # Errors
    /// Those of a data command.
    pub fn retr_as_stream<R: Wait + AllocGlobal>(
        &self,
        rt: &R,
        path: &str,
    ) -> FtpResult<TransferStream<Tr, K, E, B>>
    where
        Tr: Transport<R>,
    {
        let session = self.session.clone()?;
        let transfer = self.opening(rt).retr_as_stream(rt.alloc(), rt, path)?;
        Ok(TransferStream::new(transfer, session))
    }

    /// Opens an upload to this file: `STOR` (125, 150; RFC 959, section 4.1.3). The offset is used as by
    /// `retr_as_stream`.
    ///
    /// # Errors
    /// Those of a data command.
    pub fn put_with_stream<R: Wait + AllocGlobal>(
        &self,
        rt: &R,
        path: &str,
    ) -> FtpResult<TransferStream<Tr, K, E, B>>
    where
        Tr: Transport<R>,
    {
        let session = self.session.clone()?;
        let transfer = self.opening(rt).put_with_stream(rt.alloc(), rt, path)?;
        Ok(TransferStream::new(transfer, session))
    }

    /// Opens an upload to the end of this file: `APPE` (125, 150; RFC 959, section 4.1.3). The offset is used as by
    /// `retr_as_stream`.
    ///
    /// # Errors
    /// Those of a data command.
    pub fn append_with_stream<R: Wait + AllocGlobal>(
        &self,
        rt: &R,
        path: &str,
    ) -> FtpResult<TransferStream<Tr, K, E, B>>
    where
        Tr: Transport<R>,
    {
        let session = self.session.clone()?;
        let transfer = self.opening(rt).append_with_stream(rt.alloc(), rt, path)?;
        Ok(TransferStream::new(transfer, session))
    }

    /// Opens a data connection by a caller-supplied line, whose reply's status is among the expected, and returns that
    /// reply. The offset is used as by `retr_as_stream`.
    ///
    /// # Errors
    /// Those of a data command: `LineBreak` where CR or LF stands in the line.
    pub fn custom_data_command<R: Wait + AllocGlobal>(
        &self,
        rt: &R,
        line: &str,
        expected: &[Status],
    ) -> FtpResult<(Response, TransferStream<Tr, K, E, B>)>
    where
        Tr: Transport<R>,
    {
        let session = self.session.clone()?;
        let (reply, transfer) = self
            .opening(rt)
            .custom_data_command(rt.alloc(), rt, line, expected)?;
        Ok((reply, TransferStream::new(transfer, session)))
    }

    /// Downloads this file, whole and as it is: `RETR` (150, 125; RFC 959, section 4.1.3), its bytes, and the last
    /// reply (226, 250). The offset is used as by `retr_as_stream`.
    ///
    /// # Errors
    /// Those of a data command. An error of the data comes before the last reply's.
    pub fn retr_as_buffer<R: Wait + AllocGlobal>(&self, rt: &R, path: &str) -> FtpResult<Vec<u8>>
    where
        Tr: Transport<R>,
    {
        self.opening(rt).retr_as_buffer(rt.alloc(), rt, path)
    }

    /// The lines of a listing of this path, or of the current directory: `LIST` (150, 125; RFC 959, section 4.1.3).
    /// `File::from_line` reads a line.
    ///
    /// # Errors
    /// Those of a data command; `BadResponse` where the data can't be read to its end, after an error of the last
    /// reply.
    pub fn list<R: Wait + AllocGlobal>(&self, rt: &R, path: Option<&str>) -> FtpResult<Vec<String>>
    where
        Tr: Transport<R>,
    {
        self.opening(rt).list(rt.alloc(), rt, path)
    }

    /// The names in a directory: `NLST` (150, 125; RFC 959, section 4.1.3).
    ///
    /// # Errors
    /// Those of `list`.
    pub fn nlst<R: Wait + AllocGlobal>(&self, rt: &R, path: Option<&str>) -> FtpResult<Vec<String>>
    where
        Tr: Transport<R>,
    {
        self.opening(rt).nlst(rt.alloc(), rt, path)
    }

    /// The facts of a directory's files, a line each: `MLSD` (150, 125; RFC 3659, section 7). `ListParser::parse_mlsd`
    /// reads a line.
    ///
    /// # Errors
    /// Those of `list`.
    pub fn mlsd<R: Wait + AllocGlobal>(&self, rt: &R, path: Option<&str>) -> FtpResult<Vec<String>>
    where
        Tr: Transport<R>,
    {
        self.opening(rt).mlsd(rt.alloc(), rt, path)
    }
}

impl<Tr: Network, K: Drop, E: Encoding, B: Drop> ImplFtpStream<Tr, K, E, B>
where
    Tr::Conn: Conn,
{
    /// Reads the last reply of a transfer of this client that was left (226, 250), by its receipt. One whose last reply
    /// was read before is over, and nothing is read.
    ///
    /// # Errors
    /// Those of a read of one reply, but for `UnexpectedResponse`.
    pub fn settle<R: Wait + AllocGlobal>(&self, rt: &R, left: &mut Left) -> FtpResult<()> {
        self.session.lock(rt).settle(rt.alloc(), left)
    }

    /// Brings a transfer to its end, as its own `finish` does: on the control connection of the client that opened it.
    ///
    /// # Errors
    /// Those of `TransferStream::finish`.
    pub fn finish<R: Wait + AllocGlobal>(
        &self,
        rt: &R,
        stream: TransferStream<Tr, K, E, B>,
    ) -> FtpResult<()> {
        stream.finish(rt)
    }

    /// Aborts a transfer, as its own `abort` does: `ABOR` goes out on the control connection of the client that opened it.
    ///
    /// # Errors
    /// Those of `TransferStream::abort`.
    pub fn abort<R: Wait + AllocGlobal>(
        &self,
        rt: &R,
        stream: TransferStream<Tr, K, E, B>,
    ) -> FtpResult<()> {
        stream.abort(rt)
    }
}
