//! The control connection of an FTP client: RFC 959, sections 2.3, 4.2 and 5.4.
//!
//! `control` is the channel that delivers replies and sends commands over a connection of `ftp_transport`, and `plain`
//! computes the grammar of replies as it is defined, for tests to compare the channel with. Nothing here knows a call or
//! a dialogue: that is the session's, above.
#![tactic(auto)]

pub mod control;
pub mod plain;
