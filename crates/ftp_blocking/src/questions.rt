//! The calls of a client that ask the server something: the session's call of that name, in one hold of the lock.
//!
//! The result is in the reply's text. A reply that doesn't hold it is an error, after which the session goes on.

use super::ImplFtpStream;
use ftp_base::encoding::Encoding;
use ftp_base::types::{Features, FtpResult};
use ftp_transport::{Conn, Network};
use jiff::civil::DateTime;
use std::sync::Wait;

impl<Tr: Network, K: Drop, E: Encoding, B: Drop> ImplFtpStream<Tr, K, E, B>
where
    Tr::Conn: Conn,
{
    /// The current directory: `PWD` (257; RFC 959, section 4.1.3), the reply's text between its first quote and its
    /// last. Doubled quotes stay doubled.
    ///
    /// # Errors
    /// Those of a command and its reply; `UnexpectedResponse` where the reply has fewer than two quotes.
    pub fn pwd<R: Wait + AllocGlobal>(&self, rt: &R) -> FtpResult<String> {
        self.session.lock(rt).pwd(rt.alloc())
    }

    /// The facts of a file, or of the current directory: `MLST` (250; RFC 3659, section 7), the second line of the
    /// reply. `ListParser::parse_mlst` reads it.
    ///
    /// # Errors
    /// Those of a command and its reply; `BadResponse` where the second line is absent or empty.
    pub fn mlst<R: Wait + AllocGlobal>(&self, rt: &R, path: Option<&str>) -> FtpResult<String> {
        self.session.lock(rt).mlst(rt.alloc(), path)
    }

    /// When a file was last changed, in UTC: `MDTM` (213; RFC 3659, section 3).
    ///
    /// # Errors
    /// Those of a command and its reply; `BadResponse` where the reply isn't UTF-8 or holds no date and time.
    pub fn mdtm<R: Wait + AllocGlobal>(&self, rt: &R, path: &str) -> FtpResult<DateTime> {
        self.session.lock(rt).mdtm(rt.alloc(), path)
    }

    /// How many bytes a file has: `SIZE` (213; RFC 3659, section 4).
    ///
    /// # Errors
    /// Those of a command and its reply; `BadResponse` where the reply isn't UTF-8 or its last word is no number below
    /// 2^64.
    pub fn size<R: Wait + AllocGlobal>(&self, rt: &R, path: &str) -> FtpResult<usize> {
        self.session.lock(rt).size(rt.alloc(), path)
    }

    /// What the server can do beyond RFC 959: `FEAT` (211; RFC 2389, section 3).
    ///
    /// # Errors
    /// Those of a command and its reply, the list being part of the reply; `BadResponse` where a line of the list
    /// doesn't begin with a space.
    pub fn feat<R: Wait + AllocGlobal>(&self, rt: &R) -> FtpResult<Features> {
        self.session.lock(rt).feat(rt.alloc())
    }
}
