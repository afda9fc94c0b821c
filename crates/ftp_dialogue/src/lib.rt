//! The dialogues of RFC 959 on one control connection (sections 5.4 and 6), and the machine that plays them.
//!
//! Each dialogue is a row of `ftp_calls::exchange`: what is sent, which statuses are accepted, how it ends. One
//! `Machine` plays all of them, polled; a blocking call is the same poll over a connection that never waits. It is a
//! session without its encoding, without its caller's builder and without the marks of the transfers that were handed
//! out: those are the session's (`ftp_session`), which passes them to the machine call by call.
//!
//! `model` has the records that the definitions of runs speak of, which programs that compute these definitions use,
//! too. `laws` has what holds of every call that opens a data connection.
#![tactic(auto)]

mod admitting;
pub mod answers;
mod catching_up;
mod closing;
pub mod data_path;
mod draining;
mod dropping;
mod failures;
mod fetching;
pub mod gathered;
pub mod laws;
mod local_calls;
pub mod machine;
pub mod model;
mod negotiation;
mod nodes;
mod questions;
mod readiness;
mod recovering;
mod requests;
mod sending;
pub mod stage;
mod starting;
pub mod state;
mod transitions;
pub mod unsent;

pub use draining::unless_unit;
pub use failures::Failure;
pub use ftp_calls::call::{Answer, Call, Setting};
pub use state::{Counts, Owed, Settings, State, rule_by};
