//! What a read of a reply results in.
//!
//! Each outcome but `Waits` is settled: bytes that come later don't change it, and it says which bytes it has consumed,
//! so that the next read begins after them.

use ftp_base::types::Bytes;

/// What the bytes received since the reply began hold, one of five.
#[derive(Debug, Drop)]
pub enum Outcome {
    /// A whole reply: its bytes, and the code of the line that ended it.
    Whole(Bytes, u32),
    /// A first line that opens no reply.
    Bad(Bytes),
    /// More bytes than a reply may have.
    TooLarge,
    /// The input ended before the reply did.
    Ended,
    /// Nothing yet.
    Waits,
}
