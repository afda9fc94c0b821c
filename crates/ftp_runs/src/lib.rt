//! Lists of calls, made by one session, and lists of events, which happen to a session over memory (RFC 959, section
//! 5.4).
//!
//! `RunCalls::run` and `RunEvents::run_polled` are methods of a [`Session`](ftp_session::session::Session) once their
//! traits are in scope. What they return is defined over all that the server sends, at once; a session reads each byte
//! once. `model` has the records that those definitions speak of.
#![tactic(auto)]

mod calls;
mod dropping;
mod events;
pub mod laws;
pub mod model;

pub use calls::RunCalls;
pub use events::RunEvents;
pub use ftp_calls::call::Event;
