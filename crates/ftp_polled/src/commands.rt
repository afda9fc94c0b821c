//! The commands of a client, a method each, which makes the state of that call. Nothing is sent before a state is polled.

use crate::calling::Calling;
use crate::client::ImplAsyncFtpStream;
use crate::dialogue::{Dialogue, ReadReply};
use ftp_base::encoding::Encoding;
use ftp_base::status::Status;
use ftp_base::types::{Features, FileType, Response};
use ftp_calls::call::BorrowedCall;
use ftp_transport::{TaskConn, TaskTransport};
use jiff::civil::DateTime;
use std::net::SocketAddr;

impl<Tr: TaskTransport, K: Drop, E: Encoding, B: Drop> ImplAsyncFtpStream<Tr, K, E, B>
where
    Tr::Conn: TaskConn,
{
    /// The state of a call.
    pub(crate) fn dialogue<'r, R: AllocGlobal, A>(
        &self,
        rt: &'r R,
        call: BorrowedCall<'_>,
    ) -> Dialogue<'r, R, Tr, K, E, B, A> {
        Dialogue::new(Calling::new(rt, &self.session, call))
    }

    /// Logs in: `USER` (230, 331), and where the server asks for a password `PASS` (230; RFC 959, section 4.1.1). The
    /// password is looked at only then.
    ///
    /// # Errors
    /// Those of a command and its reply: `LineBreak` where CR or LF stands in the user's name or the password.
    pub fn login<'r, R: AllocGlobal>(
        &self,
        rt: &'r R,
        user: &str,
        password: &str,
    ) -> Dialogue<'r, R, Tr, K, E, B, ()> {
        self.dialogue(rt, BorrowedCall::Login(user, password))
    }

    /// Changes to this directory: `CWD` (200, 250).
    ///
    /// # Errors
    /// Those of a command and its reply.
    pub fn cwd<'r, R: AllocGlobal>(
        &self,
        rt: &'r R,
        path: &str,
    ) -> Dialogue<'r, R, Tr, K, E, B, ()> {
        self.dialogue(rt, BorrowedCall::Cwd(path))
    }

    /// Changes to the directory above: `CDUP` (200, 250).
    ///
    /// # Errors
    /// Those of a command and its reply.
    pub fn cdup<'r, R: AllocGlobal>(&self, rt: &'r R) -> Dialogue<'r, R, Tr, K, E, B, ()> {
        self.dialogue(rt, BorrowedCall::Cdup)
    }

    /// Does nothing but to have the server answer: `NOOP` (200).
    ///
    /// # Errors
    /// Those of a command and its reply.
    pub fn noop<'r, R: AllocGlobal>(&self, rt: &'r R) -> Dialogue<'r, R, Tr, K, E, B, ()> {
        self.dialogue(rt, BorrowedCall::Noop)
    }

    /// Comes back into step with a server that has sent more replies than were read, as some do after `ABOR`: `NOOP`, and
    /// replies are read until its own (200), at most eight; those before it are passed over. A 200 among them ends it
    /// early. One that is dropped is to be called again (RFC 959, section 4.1.3).
    ///
    /// # Errors
    /// Those of a command and its reply: `UnexpectedResponse` with a 421 or a 530 (`NOOP` before a login) that is read, or
    /// with the eighth other reply; the session goes on. Beside a live transfer `DataConnectionAlreadyOpen`, and nothing is sent or read.
    pub fn resync<'r, R: AllocGlobal>(&self, rt: &'r R) -> Dialogue<'r, R, Tr, K, E, B, ()> {
        self.dialogue(rt, BorrowedCall::Resync)
    }

    /// Names the address that the server is to open data connections to: `EPRT` (200; RFC 2428, section 2).
    ///
    /// # Errors
    /// Those of a command and its reply.
    pub fn eprt<'r, R: AllocGlobal>(
        &self,
        rt: &'r R,
        address: SocketAddr,
    ) -> Dialogue<'r, R, Tr, K, E, B, ()> {
        self.dialogue(rt, BorrowedCall::Eprt(address))
    }

    /// Sets an option of the server's, to a value or without one: `OPTS` (200; RFC 2389, section 4).
    ///
    /// # Errors
    /// Those of a command and its reply.
    pub fn opts<'r, R: AllocGlobal>(
        &self,
        rt: &'r R,
        option: &str,
        value: Option<&str>,
    ) -> Dialogue<'r, R, Tr, K, E, B, ()> {
        self.dialogue(rt, BorrowedCall::Opts(option, value))
    }

    /// Sends a command of the server's own: `SITE` (200).
    ///
    /// # Errors
    /// Those of a command and its reply.
    pub fn site<'r, R: AllocGlobal>(
        &self,
        rt: &'r R,
        command: &str,
    ) -> Dialogue<'r, R, Tr, K, E, B, Response> {
        self.dialogue(rt, BorrowedCall::Site(command))
    }

    /// Sets the type of data: `TYPE` (200). After it, transfers are of text where the type is ASCII.
    ///
    /// # Errors
    /// Those of a command and its reply.
    pub fn transfer_type<'r, R: AllocGlobal>(
        &self,
        rt: &'r R,
        kind: FileType,
    ) -> Dialogue<'r, R, Tr, K, E, B, ()> {
        self.dialogue(rt, BorrowedCall::TransferType(&kind))
    }

    /// Makes a directory: `MKD` (257, 200).
    ///
    /// # Errors
    /// Those of a command and its reply.
    pub fn mkdir<'r, R: AllocGlobal>(
        &self,
        rt: &'r R,
        path: &str,
    ) -> Dialogue<'r, R, Tr, K, E, B, ()> {
        self.dialogue(rt, BorrowedCall::Mkdir(path))
    }

    /// Removes a directory: `RMD` (250, 200).
    ///
    /// # Errors
    /// Those of a command and its reply.
    pub fn rmdir<'r, R: AllocGlobal>(
        &self,
        rt: &'r R,
        path: &str,
    ) -> Dialogue<'r, R, Tr, K, E, B, ()> {
        self.dialogue(rt, BorrowedCall::Rmdir(path))
    }

    /// Deletes a file: `DELE` (250, 200).
    ///
    /// # Errors
    /// Those of a command and its reply.
    pub fn rm<'r, R: AllocGlobal>(
        &self,
        rt: &'r R,
        path: &str,
    ) -> Dialogue<'r, R, Tr, K, E, B, ()> {
        self.dialogue(rt, BorrowedCall::Rm(path))
    }

    /// Renames a file or directory: `RNFR` (350), then `RNTO` (250, 200). The new name is looked at only after 350.
    /// One that is dropped after `RNFR` leaves some servers waiting for `RNTO`: they refuse later commands by 501 or 503,
    /// until `custom_command` sends `RNTO` and the old name.
    ///
    /// # Errors
    /// Those of a command and its reply.
    pub fn rename<'r, R: AllocGlobal>(
        &self,
        rt: &'r R,
        from: &str,
        to: &str,
    ) -> Dialogue<'r, R, Tr, K, E, B, ()> {
        self.dialogue(rt, BorrowedCall::Rename(from, to))
    }

    /// Sets when a file was last changed, in UTC: `MFMT` (213; draft-somers-ftp-mfxx-04, section 3), where `feat` names it. The
    /// fraction of a second isn't sent; a year before 0 goes out with its sign, and a server refuses it.
    ///
    /// # Errors
    /// Those of a command and its reply.
    pub fn set_modified<'r, R: AllocGlobal>(
        &self,
        rt: &'r R,
        path: &str,
        moment: DateTime,
    ) -> Dialogue<'r, R, Tr, K, E, B, ()> {
        self.dialogue(rt, BorrowedCall::SetModified(path, &moment))
    }

    /// Ends the session: `QUIT` (221).
    ///
    /// # Errors
    /// Those of a command and its reply.
    pub fn quit<'r, R: AllocGlobal>(&self, rt: &'r R) -> Dialogue<'r, R, Tr, K, E, B, ()> {
        self.dialogue(rt, BorrowedCall::Quit)
    }

    /// Sends a caller-supplied line and reads its reply, whose status is among the expected.
    ///
    /// # Errors
    /// Those of a command and its reply: `LineBreak` where CR or LF stands in the line.
    pub fn custom_command<'r, R: AllocGlobal>(
        &self,
        rt: &'r R,
        line: &str,
        expected: &[Status],
    ) -> Dialogue<'r, R, Tr, K, E, B, Response> {
        self.dialogue(rt, BorrowedCall::CustomCommand(line, expected))
    }

    /// Reads one reply of this status. Nothing is sent.
    ///
    /// # Errors
    /// Those of a read of one reply.
    pub fn read_response<'r, R: AllocGlobal>(
        &self,
        rt: &'r R,
        expected: Status,
    ) -> ReadReply<'r, R, Tr, K, E, B> {
        self.dialogue(rt, BorrowedCall::ReadResponse(expected))
    }

    /// Reads one reply whose status is among the expected. Nothing is sent.
    ///
    /// # Errors
    /// Those of a read of one reply.
    pub fn read_response_in<'r, R: AllocGlobal>(
        &self,
        rt: &'r R,
        expected: &[Status],
    ) -> ReadReply<'r, R, Tr, K, E, B> {
        self.dialogue(rt, BorrowedCall::ReadResponseIn(expected))
    }

    /// The next transfer begins at this offset, in bytes (`REST`; RFC 3659, section 5). 0 takes an earlier offset away.
    ///
    /// # Errors
    /// `SessionFailed`; or those of the last reply of a transfer that was left. The offset of before stays.
    pub fn resume_transfer<'r, R: AllocGlobal>(
        &self,
        rt: &'r R,
        offset: u64,
    ) -> Dialogue<'r, R, Tr, K, E, B, ()> {
        self.dialogue(rt, BorrowedCall::ResumeTransfer(offset))
    }

    /// The current directory: `PWD` (257; RFC 959, appendix II).
    ///
    /// # Errors
    /// Those of a command and its reply; `UnexpectedResponse` where no path stands between quotes.
    pub fn pwd<'r, R: AllocGlobal>(&self, rt: &'r R) -> Dialogue<'r, R, Tr, K, E, B, String> {
        self.dialogue(rt, BorrowedCall::Pwd)
    }

    /// The facts of a path, or of the current directory: `MLST` (250; RFC 3659, section 7). `ListParser::parse_mlst` reads
    /// them.
    ///
    /// # Errors
    /// Those of a command and its reply; `BadResponse` where its second line is empty.
    pub fn mlst<'r, R: AllocGlobal>(
        &self,
        rt: &'r R,
        path: Option<&str>,
    ) -> Dialogue<'r, R, Tr, K, E, B, String> {
        self.dialogue(rt, BorrowedCall::Mlst(path))
    }

    /// When a file was last changed, in UTC: `MDTM` (213; RFC 3659, section 3).
    ///
    /// # Errors
    /// Those of a command and its reply; `BadResponse` where no date and time stand there.
    pub fn mdtm<'r, R: AllocGlobal>(
        &self,
        rt: &'r R,
        path: &str,
    ) -> Dialogue<'r, R, Tr, K, E, B, DateTime> {
        self.dialogue(rt, BorrowedCall::Mdtm(path))
    }

    /// The size of a file, in bytes: `SIZE` (213; RFC 3659, section 4).
    ///
    /// # Errors
    /// Those of a command and its reply; `BadResponse` where no size stands there.
    pub fn size<'r, R: AllocGlobal>(
        &self,
        rt: &'r R,
        path: &str,
    ) -> Dialogue<'r, R, Tr, K, E, B, usize> {
        self.dialogue(rt, BorrowedCall::Size(path))
    }

    /// What the server can do beyond the basics: `FEAT` (211; RFC 2389, section 3).
    ///
    /// # Errors
    /// Those of a command and its reply; `BadResponse` where a line of the list is no feature.
    pub fn feat<'r, R: AllocGlobal>(&self, rt: &'r R) -> Dialogue<'r, R, Tr, K, E, B, Features> {
        self.dialogue(rt, BorrowedCall::Feat)
    }
}
