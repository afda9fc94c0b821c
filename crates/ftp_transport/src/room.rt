//! How much may be written.
//!
//! A connection over memory can be set to accept so many bytes and no more, which is how a full send buffer is played.

/// How many bytes may be written on a connection before a write has to wait.
#[derive(Clone, Copy, Debug, PartialEq, Eq)]
pub enum Room {
    /// Any number of bytes.
    Any,
    /// So many bytes in all since the channel began.
    UpTo(u64),
}
