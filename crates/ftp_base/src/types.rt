//! What every layer speaks of: bytes and text, replies, errors.
//!
//! What a reply, a command or an error holds is of types that a contract sees as lists of bytes. An error's variant
//! is its cause. Modes, types of data and checks of peers are what a caller chooses.

mod content;
mod fault;
mod features;
mod file_type;
mod items;
mod mode;
mod reply;

pub use content::{Bytes, Text};
pub use fault::{ConnectionError, FtpError, FtpResult, ReplyTooLarge};
pub use features::Features;
pub use file_type::{FileType, FormatControl};
pub use items::Items;
pub use mode::{ActivePeerCheck, Mode};
pub use reply::{BodyError, Response};
