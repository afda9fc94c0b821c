//! What the polled client's whole files are made of and no session is needed for: a source that is copied to a transfer, some
//! reads and writes a poll, and readers and writers of `std` as those of `tokio`.
#![tactic(auto)]

mod copying;
mod std_io;

pub use copying::{Copying, STEPS, behind, front, io_fault};
pub use std_io::AllowStdIo;
