//! Replies that are read by themselves: the session's call of that name, in one hold of the lock. Nothing is sent.

use super::ImplFtpStream;
use ftp_base::encoding::Encoding;
use ftp_base::status::Status;
use ftp_base::types::{FtpResult, Response};
use ftp_transport::{Conn, Network};
use std::sync::Wait;

impl<Tr: Network, K: Drop, E: Encoding, B: Drop> ImplFtpStream<Tr, K, E, B>
where
    Tr::Conn: Conn,
{
    /// Reads one reply of this status (RFC 959, section 4.2), as of a server that sends a reply unasked, or more than one
    /// for a command. Where no reply comes, it waits.
    ///
    /// # Errors
    /// Those of a read of one reply: `UnexpectedResponse` where its status is another, `BadResponse` where what came is no
    /// reply; `UnexpectedEof`, `ReplyTooLarge` and the connection's own, after which the session has failed; `OutOfMemory`;
    /// `SessionFailed`.
    pub fn read_response<R: Wait + AllocGlobal>(
        &self,
        rt: &R,
        expected: Status,
    ) -> FtpResult<Response> {
        self.session.lock(rt).read_response(rt.alloc(), expected)
    }

    /// Reads one reply whose status is among the expected, as `read_response` does.
    ///
    /// # Errors
    /// Those of `read_response`.
    pub fn read_response_in<R: Wait + AllocGlobal>(
        &self,
        rt: &R,
        expected: &[Status],
    ) -> FtpResult<Response> {
        self.session.lock(rt).read_response_in(rt.alloc(), expected)
    }
}
