//! The calls of a client, a method each: the session's call of that name, in one hold of the lock.
//!
//! What each sends and receives is its row in `ftp_calls::exchange`. A call fails with `LineBreak`,
//! `EncodedWithoutCrlf`, `EncodedLineBreak` or `Encoding` where its command has no line that can be sent, with
//! `UnexpectedResponse` or `BadResponse` where the server's reply isn't accepted, with `OutOfMemory`, and with another
//! `ConnectionError` where the connection fails; each later call then fails with `SessionFailed`.

use super::ImplFtpStream;
use ftp_base::encoding::Encoding;
use ftp_base::status::Status;
use ftp_base::types::{FileType, FtpResult, Response};
use ftp_transport::{Conn, Network};
use jiff::civil::DateTime;
use std::net::SocketAddr;
use std::sync::Wait;

impl<Tr: Network, K: Drop, E: Encoding, B: Drop> ImplFtpStream<Tr, K, E, B> {
    /// A copy of the text that the server greeted with, if the greeting was read (RFC 959, section 5.4).
    ///
    /// # Errors
    /// `OutOfMemory`.
    pub fn get_welcome_msg<R: Wait + AllocGlobal>(&self, rt: &R) -> FtpResult<Option<String>> {
        let session = self.session.lock(rt);
        match session.get_welcome_msg() {
            Some(text) => Ok(Some(String::from_str(rt.alloc(), text)?)),
            None => Ok(None),
        }
    }

    /// Sets the encoding of texts on the control connection (RFC 2640, section 2.1, has UTF-8); the text of the
    /// greeting is read again under it.
    ///
    /// # Errors
    /// `OutOfMemory`, and nothing changes.
    pub fn set_encoding<R: Wait + AllocGlobal>(&self, rt: &R, encoding: E) -> FtpResult<()> {
        self.session.lock(rt).set_encoding(rt.alloc(), encoding)
    }
}

impl<Tr: Network, K: Drop, E: Encoding, B: Drop> ImplFtpStream<Tr, K, E, B>
where
    Tr::Conn: Conn,
{
    /// Logs in: `USER` (230, 331), and where the server asks for a password `PASS` (230; RFC 959, section 4.1.1).
    /// The password is looked at only then.
    ///
    /// # Errors
    /// Those of a command and its reply: `LineBreak` where CR or LF stands in the user's name or the password.
    pub fn login<R: Wait + AllocGlobal>(
        &self,
        rt: &R,
        user: &str,
        password: &str,
    ) -> FtpResult<()> {
        self.session.lock(rt).login(rt.alloc(), user, password)
    }

    /// Changes to this directory: `CWD` (200, 250; RFC 959, section 4.1.1).
    ///
    /// # Errors
    /// Those of a command and its reply.
    pub fn cwd<R: Wait + AllocGlobal>(&self, rt: &R, path: &str) -> FtpResult<()> {
        self.session.lock(rt).cwd(rt.alloc(), path)
    }

    /// Changes to the directory above: `CDUP` (200, 250; RFC 959, section 4.1.1).
    ///
    /// # Errors
    /// Those of a command and its reply.
    pub fn cdup<R: Wait + AllocGlobal>(&self, rt: &R) -> FtpResult<()> {
        self.session.lock(rt).cdup(rt.alloc())
    }

    /// Does nothing but to have the server answer: `NOOP` (200; RFC 959, section 4.1.3).
    ///
    /// # Errors
    /// Those of a command and its reply.
    pub fn noop<R: Wait + AllocGlobal>(&self, rt: &R) -> FtpResult<()> {
        self.session.lock(rt).noop(rt.alloc())
    }

    /// Comes back into step with a server that has sent more replies than were read, as some do after `ABOR`: `NOOP`, and
    /// replies are read until its own (200), at most eight; those before it are passed over. A 200 among them ends it
    /// early (RFC 959, section 4.1.3).
    ///
    /// # Errors
    /// Those of a command and its reply: `UnexpectedResponse` with a 421 or a 530 (`NOOP` before a login) that is read, or
    /// with the eighth other reply; the session goes on. Beside a live transfer `DataConnectionAlreadyOpen`, and nothing is sent or read.
    pub fn resync<R: Wait + AllocGlobal>(&self, rt: &R) -> FtpResult<()> {
        self.session.lock(rt).resync(rt.alloc())
    }

    /// Names the address that the server is to open data connections to: `EPRT` (200; RFC 2428, section 2).
    ///
    /// # Errors
    /// Those of a command and its reply.
    pub fn eprt<R: Wait + AllocGlobal>(&self, rt: &R, address: SocketAddr) -> FtpResult<()> {
        self.session.lock(rt).eprt(rt.alloc(), address)
    }

    /// Sets an option of the server, to a value or without one: `OPTS` (200; RFC 2389, section 4).
    ///
    /// # Errors
    /// Those of a command and its reply.
    pub fn opts<R: Wait + AllocGlobal>(
        &self,
        rt: &R,
        option: &str,
        value: Option<&str>,
    ) -> FtpResult<()> {
        self.session.lock(rt).opts(rt.alloc(), option, value)
    }

    /// Sends a command of the server's own: `SITE` (200; RFC 959, section 4.1.3).
    ///
    /// # Errors
    /// Those of a command and its reply.
    pub fn site<R: Wait + AllocGlobal>(&self, rt: &R, command: &str) -> FtpResult<Response> {
        self.session.lock(rt).site(rt.alloc(), command)
    }

    /// Sets the type of data: `TYPE` (200; RFC 959, section 4.1.2). After it, transfers are of text where the type is
    /// ASCII.
    ///
    /// # Errors
    /// Those of a command and its reply.
    pub fn transfer_type<R: Wait + AllocGlobal>(&self, rt: &R, kind: FileType) -> FtpResult<()> {
        self.session.lock(rt).transfer_type(rt.alloc(), kind)
    }

    /// Makes a directory: `MKD` (257, 200; RFC 959, section 4.1.3).
    ///
    /// # Errors
    /// Those of a command and its reply.
    pub fn mkdir<R: Wait + AllocGlobal>(&self, rt: &R, path: &str) -> FtpResult<()> {
        self.session.lock(rt).mkdir(rt.alloc(), path)
    }

    /// Removes a directory: `RMD` (250, 200; RFC 959, section 4.1.3).
    ///
    /// # Errors
    /// Those of a command and its reply.
    pub fn rmdir<R: Wait + AllocGlobal>(&self, rt: &R, path: &str) -> FtpResult<()> {
        self.session.lock(rt).rmdir(rt.alloc(), path)
    }

    /// Deletes a file: `DELE` (250, 200; RFC 959, section 4.1.3).
    ///
    /// # Errors
    /// Those of a command and its reply.
    pub fn rm<R: Wait + AllocGlobal>(&self, rt: &R, path: &str) -> FtpResult<()> {
        self.session.lock(rt).rm(rt.alloc(), path)
    }

    /// Renames a file or directory: `RNFR` (350), then `RNTO` (250, 200; RFC 959, section 4.1.3), both in one hold.
    /// The new name is looked at only after 350.
    ///
    /// # Errors
    /// Those of a command and its reply.
    pub fn rename<R: Wait + AllocGlobal>(&self, rt: &R, from: &str, to: &str) -> FtpResult<()> {
        self.session.lock(rt).rename(rt.alloc(), from, to)
    }

    /// Sets when a file was last changed, in UTC: `MFMT` (213; draft-somers-ftp-mfxx-04, section 3), where `feat` names it. The
    /// fraction of a second isn't sent; a year before 0 goes out with its sign, and a server refuses it.
    ///
    /// # Errors
    /// Those of a command and its reply.
    pub fn set_modified<R: Wait + AllocGlobal>(
        &self,
        rt: &R,
        path: &str,
        moment: DateTime,
    ) -> FtpResult<()> {
        self.session.lock(rt).set_modified(rt.alloc(), path, moment)
    }

    /// Ends the session: `QUIT` (221; RFC 959, section 4.1.1).
    ///
    /// # Errors
    /// Those of a command and its reply.
    pub fn quit<R: Wait + AllocGlobal>(&self, rt: &R) -> FtpResult<()> {
        self.session.lock(rt).quit(rt.alloc())
    }

    /// Sends a caller-supplied line and reads its reply, whose status is among the expected (RFC 959, section 4.2).
    ///
    /// # Errors
    /// Those of a command and its reply: `LineBreak` where CR or LF stands in the line.
    pub fn custom_command<R: Wait + AllocGlobal>(
        &self,
        rt: &R,
        line: &str,
        expected: &[Status],
    ) -> FtpResult<Response> {
        self.session
            .lock(rt)
            .custom_command(rt.alloc(), line, expected)
    }

    /// The next transfer begins at this offset, in bytes (`REST`; RFC 3659, section 5). 0 takes an earlier offset away.
    ///
    /// # Errors
    /// `SessionFailed`; or those of the last reply of a transfer that was left. The offset of before stays.
    pub fn resume_transfer<R: Wait + AllocGlobal>(&self, rt: &R, offset: u64) -> FtpResult<()> {
        self.session.lock(rt).resume_transfer(rt.alloc(), offset)
    }
}
