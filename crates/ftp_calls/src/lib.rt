//! The calls of an FTP session, what each sends and receives, and what its reply says: RFC 959, sections 4.1, 5.4 and 6.
//!
//! This is all of a dialogue that is data: no connection and no state occurs here. The session plays it. Beside it
//! stands the command that tells where a client listens, whose text is made of an address.
#![tactic(auto)]

pub mod active;
pub mod answers;
pub mod call;
pub mod exchange;
pub mod lines;
mod row;
mod time_value;
