//! The transfer that an opening call hands to its caller: RFC 959, section 3.2; and how a whole file goes over it, from a
//! caller's source or to a caller's writer, with what reports how far it has come.
//!
//! A transfer owns its data connection, and its end of the `mark` by which its session learns that it was left. It knows
//! nothing of the session, so it may be left or dropped while another thread holds that. Neither takes an allocator, or
//! a handle that may wait.
#![tactic(auto)]

mod copying;
mod direction;
pub mod mark;
mod progress;
mod saving;
mod transfer;

pub use copying::copy;
pub use direction::Direction;
pub use progress::{NoProgress, Progress, Watch};
pub use saving::save;
pub use transfer::{Transfer, TransferParts};
