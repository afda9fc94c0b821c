//! The session that a client holds (RFC 959, sections 5.4 and 6).
//!
//! Its dialogues are played by the machine of `ftp_dialogue`. `model` has the records that the definitions of runs
//! speak of, and `laws` what holds of every call that opens a data connection; both are those of `ftp_dialogue`.
#![tactic(auto)]

pub mod session;

pub use ftp_dialogue::{laws, model};
