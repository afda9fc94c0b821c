//! A reply of the server (RFC 959, section 4.2).
//!
//! A reply keeps every byte that the server sent, line ends too, since what it means may stand anywhere in it and
//! servers send what they like. Its status is that of the line that ended it. Text is made of it on demand, and only
//! where the bytes are UTF-8: a caller who knows another encoding has the bytes.

ghost use Rattle.std.specs.Prelude.{◌≡◌, Some, None, IsSome, MatchOption, IsErrOf, IfOk, string_bytes};
ghost use Rattle.ftp_base.specs.Reply.{after_feeds, begins_with_one, body_error_text, is_preliminary, strict_text, printed_reply};

use super::Bytes;
use crate::status::Status;
use memchr::memrchr;
use std::alloc::{AllocError, Global};
use std::error::Error;
use std::fmt;

/// A whole reply: the status of the line that ended it, and all its bytes, line ends too.
#[derive(Clone, Debug, Drop)]
pub struct Response {
    /// The status of the line that ended the reply.
    pub status: Status,
    /// The bytes of the reply, from its first to the LF of its last line.
    pub body: Bytes,
}

/// Why a reply's body has no text.
#[derive(Clone, Copy, Debug, PartialEq, Eq)]
pub enum BodyError {
    /// The body isn't UTF-8.
    NotUtf8,
    /// An allocation failed.
    OutOfMemory,
}

impl Response {
    /// A reply of this status and this body.
    pub fn new(status: Status, body: Vec<u8>) -> Response
        ensures status { result.status ≡ status }
        ensures body { result.body ≡ body.items }
    {
        Response {
            status,
            body: Bytes::from_vec(body),
        }
    }

    /// The status of the line that ended the reply.
    pub fn status(&self) -> Status
        ensures { result ≡ self.now.status }
    {
        self.status
    }

    /// Whether the server sends another reply after this one: the first digit of its code is 1, whatever the others are
    /// (RFC 959, section 4.2.1).
    pub fn is_preliminary(&self) -> bool
        ensures { result ≡ is_preliminary self.now }
    {
        match self.body.as_slice().split_last() {
            Some((_, front)) => begins_with_one(after_feeds(front)),
            None => false,
        }
    }

    /// The body as text, white space cut at its end.
    ///
    /// # Errors
    /// [`BodyError::NotUtf8`] where the body isn't UTF-8, [`BodyError::OutOfMemory`] where an
    /// allocation fails.
    pub fn as_string(&self, alloc: Global) -> Result<String, BodyError>
        ensures text { IfOk result (λ text. strict_text self.now.body ≡ Some (string_bytes text)) }
        ensures not_utf8 { IsErrOf result BodyError.NotUtf8 → strict_text self.now.body ≡ None }
        ensures memory { IsErrOf result BodyError.OutOfMemory → IsSome (strict_text self.now.body) }
    {
        match self.text() {
            Some(text) => match String::from_str(alloc, text) {
                Ok(copy) => Ok(copy),
                Err(AllocError) => Err(BodyError::OutOfMemory),
            },
            None => Err(BodyError::NotUtf8),
        }
    }

    /// The body as text, white space cut at its end, or `None` where it isn't UTF-8. Allocates nothing.
    fn text(&self) -> Option<&str>
        ensures { MatchOption result (strict_text self.now.body ≡ None)
            (λ text. strict_text self.now.body ≡ Some text.now) }
    {
        match str::from_utf8(self.body.as_slice()) {
            Ok(text) => Some(text.trim_end()),
            Err(_) => None,
        }
    }
}

/// What follows the last LF.
fn after_feeds(bytes: &[u8]) -> &[u8]
    ensures { result.now ≡ after_feeds bytes.now }
{
    match memrchr(b'\n', bytes) {
        Some(place) => &bytes[place + 1..],
        None => bytes,
    }
}

/// Whether the first byte of a line is the digit 1.
fn begins_with_one(line: &[u8]) -> bool
    ensures { result ≡ begins_with_one line.now }
{
    match line.first() {
        Some(digit) => *digit == b'1',
        None => false,
    }
}

impl fmt::Display for Response {
    ghost output = { λ reply. Some (printed_reply reply) };

    fn fmt<W: fmt::Write>(&self, f: &mut fmt::Formatter<W>) -> fmt::Result {
        let code = self.status.code();
        let text = self.text().unwrap_or("");
        write!(f, "[{code}] {text}")
    }
}

impl Error for Response {}

impl fmt::Display for BodyError {
    ghost output = { λ fault. Some (body_error_text fault) };

    fn fmt<W: fmt::Write>(&self, f: &mut fmt::Formatter<W>) -> fmt::Result {
        f.write_str(match self {
            BodyError::NotUtf8 => "the reply is not UTF-8",
            BodyError::OutOfMemory => "out of memory",
        })
    }
}

impl Error for BodyError {}
