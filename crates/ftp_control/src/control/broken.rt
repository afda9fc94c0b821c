//! How a read fails where the server did nothing wrong.
//!
//! What a server does wrong is an `Outcome`, since it consumes bytes and the next read begins after them. An error of
//! the connection or a failed allocation consumes none, and says nothing of the reply.

use std::io::ErrorKind;

/// Why a call of the channel failed.
#[derive(Clone, Copy, Debug, PartialEq, Eq)]
pub enum Broken {
    /// The connection failed, with an error of this kind.
    Connection(ErrorKind),
    /// An allocation failed.
    OutOfMemory,
}
