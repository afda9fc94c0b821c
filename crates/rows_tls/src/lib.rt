//! TLS over memory, for tests and worked rows: a connector that is handed what comes in clear on each of its streams.
//!
//! Nothing is encrypted. A stream holds its connection, to which nothing more is written and of which nothing more is read,
//! and beside it another one for what goes over it in clear. `Net` is a transport over connections that were supplied, and
//! writes down in a `Log` what it is asked and what is sent; its connections, each a `Line`, may be put under TLS.
#![tactic(auto)]

mod covers;
mod line;
mod log;
mod net;
mod seal;
mod sealed;
mod sealed_poll;
mod wire;
mod wires;

pub use covers::Covers;
pub use line::Line;
pub use log::Log;
pub use net::Net;
pub use seal::Seal;
pub use sealed::Sealed;
pub use sealed_poll::{Outcome, Sealing};
pub use wire::Wire;
pub use wires::Wires;
