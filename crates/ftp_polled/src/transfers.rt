//! The calls that open data connections, a method each, which makes the state of that call.
//!
//! Each fails with `DataConnectionAlreadyOpen` while a transfer is live, and sends nothing then.

use crate::calling::Calling;
use crate::client::ImplAsyncFtpStream;
use crate::dialogue::{Dialogue, Lines};
use crate::ending::{Abort, Finish};
use crate::opening::{OpenTransfer, OpenWithReply, Opening};
use crate::transfer_stream::TransferStream;
use ftp_base::encoding::Encoding;
use ftp_base::status::Status;
use ftp_calls::call::BorrowedCall;
use ftp_transfer::Direction;
use ftp_transport::{TaskConn, TaskTransport};

impl<Tr: TaskTransport, K: Drop, E: Encoding, B: Drop> ImplAsyncFtpStream<Tr, K, E, B>
where
    Tr::Conn: TaskConn,
{
    /// The state of a call that opens a transfer.
    fn open<'r, R: AllocGlobal>(
        &self,
        rt: &'r R,
        call: BorrowedCall<'_>,
        direction: Direction,
    ) -> OpenTransfer<'r, R, Tr, K, E, B> {
        let opening = Opening::new(rt, &self.session, call, false, direction);
        OpenTransfer::new(opening, &self.session)
    }

    /// Opens a download of this file: `RETR` (150, 125; RFC 959, section 4.1.3). It begins at the offset that
    /// `resume_transfer` set, if it did; the offset is taken away.
    ///
    /// # Errors
    /// Those of a data command.
    pub fn retr_as_stream<'r, R: AllocGlobal>(
        &self,
        rt: &'r R,
        path: &str,
    ) -> OpenTransfer<'r, R, Tr, K, E, B> {
        let call = BorrowedCall::RetrAsStream(path);
        self.open(rt, call, Direction::Download)
    }

    /// Opens an upload to this file: `STOR` (125, 150; RFC 959, section 4.1.3). The offset is used as by
    /// `retr_as_stream`.
    ///
    /// # Errors
    /// Those of a data command.
    pub fn put_with_stream<'r, R: AllocGlobal>(
        &self,
        rt: &'r R,
        path: &str,
    ) -> OpenTransfer<'r, R, Tr, K, E, B> {
        self.open(rt, BorrowedCall::PutWithStream(path), Direction::Upload)
    }

    /// Opens an upload to the end of this file: `APPE` (125, 150; RFC 959, section 4.1.3). The offset is used as by
    /// `retr_as_stream`.
    ///
    /// # Errors
    /// Those of a data command.
    pub fn append_with_stream<'r, R: AllocGlobal>(
        &self,
        rt: &'r R,
        path: &str,
    ) -> OpenTransfer<'r, R, Tr, K, E, B> {
        self.open(rt, BorrowedCall::AppendWithStream(path), Direction::Upload)
    }

    /// Opens a data connection by a caller-supplied line, whose reply's status is among the expected, and returns that
    /// reply. The offset is used as by `retr_as_stream`.
    ///
    /// # Errors
    /// Those of a data command: `LineBreak` where CR or LF stands in the line.
    pub fn custom_data_command<'r, R: AllocGlobal>(
        &self,
        rt: &'r R,
        line: &str,
        expected: &[Status],
    ) -> OpenWithReply<'r, R, Tr, K, E, B> {
        let call = BorrowedCall::CustomDataCommand(line, expected);
        let opening = Opening::new(rt, &self.session, call, true, Direction::Download);
        OpenWithReply::new(opening, &self.session)
    }

    /// Downloads this file, whole and as it is: `RETR` (150, 125; RFC 959, section 4.1.3), its bytes, and the last
    /// reply (226, 250). The offset is used as by `retr_as_stream`.
    ///
    /// # Errors
    /// Those of a data command. An error of the data comes before the last reply's.
    pub fn retr_as_buffer<'r, R: AllocGlobal>(
        &self,
        rt: &'r R,
        path: &str,
    ) -> Dialogue<'r, R, Tr, K, E, B, Vec<u8>> {
        Dialogue::new(Calling::new(rt, &self.session, BorrowedCall::Retr(path)))
    }

    /// The lines of a listing of this path, or of the current directory: `LIST` (150, 125; RFC 959, section 4.1.3).
    /// `File::from_line` reads a line.
    ///
    /// # Errors
    /// Those of a data command; `BadResponse` where the data can't be read to its end, after an error of the last
    /// reply.
    pub fn list<'r, R: AllocGlobal>(
        &self,
        rt: &'r R,
        path: Option<&str>,
    ) -> Lines<'r, R, Tr, K, E, B> {
        self.dialogue(rt, BorrowedCall::List(path))
    }

    /// The names in a directory: `NLST` (150, 125; RFC 959, section 4.1.3).
    ///
    /// # Errors
    /// Those of `list`.
    pub fn nlst<'r, R: AllocGlobal>(
        &self,
        rt: &'r R,
        path: Option<&str>,
    ) -> Lines<'r, R, Tr, K, E, B> {
        self.dialogue(rt, BorrowedCall::Nlst(path))
    }

    /// The facts of a directory's files, a line each: `MLSD` (150, 125; RFC 3659, section 7). `ListParser::parse_mlsd`
    /// reads a line.
    ///
    /// # Errors
    /// Those of `list`.
    pub fn mlsd<'r, R: AllocGlobal>(
        &self,
        rt: &'r R,
        path: Option<&str>,
    ) -> Lines<'r, R, Tr, K, E, B> {
        self.dialogue(rt, BorrowedCall::Mlsd(path))
    }

    /// Brings a transfer to its end, as its own `finish` does: on the control connection of the client that opened it.
    ///
    /// # Errors
    /// Those of `TransferStream::finish`.
    pub fn finish<'r, R>(
        &self,
        rt: &'r R,
        stream: TransferStream<Tr, K, E, B>,
    ) -> Finish<'r, R, Tr, K, E, B> {
        stream.finish(rt)
    }

    /// Aborts a transfer, as its own `abort` does: `ABOR` goes out on the control connection of the client that opened it.
    ///
    /// # Errors
    /// Those of `TransferStream::abort`.
    pub fn abort<'r, R>(
        &self,
        rt: &'r R,
        stream: TransferStream<Tr, K, E, B>,
    ) -> Abort<'r, R, Tr, K, E, B> {
        stream.abort(rt)
    }
}
