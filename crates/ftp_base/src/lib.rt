//! The base of an FTP client: what is sent and what it means, without any connection.
//!
//! Status codes, errors, the line of each command, what is found in the text of a reply, text encodings, and text
//! uploads. Nothing here waits, and little keeps a state, so that nearly every call is a function whose contract gives
//! its result. Where an allocation may fail, the call's `# Errors` names what is returned and what stays as it was.
#![tactic(auto)]

pub mod ascii;
pub mod command;
pub mod encoding;
pub mod laws;
pub mod retry;
pub mod status;
pub mod types;
