//! Transfers: what a session hands out, and what the blocking client does, which keeps it with its channel. That of the
//! polled client is in [`polled_ftp`](crate::polled_ftp).

pub use ftp_blocking::{Direction, Transfer, TransferStream};
