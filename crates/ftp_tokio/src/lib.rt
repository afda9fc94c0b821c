//! Connections of the polled client over tokio's sockets.
//!
//! A poll of the client needs no task: it tries its sockets, and a wait is the result `Pending`. After a poll that
//! waits the task is registered for what the connections and the transport wait for (`TaskConn`, `TaskTransport`), and
//! is polled again once it has come.
//!
//! The sockets belong to one tokio runtime, whose handle the transport has, and the client has to be polled by that
//! runtime. The sockets of a `LocalRuntime` that are polled elsewhere register no task: every wait is reported as over,
//! and the client is polled again and again.
#![tactic(auto)]

mod alarm;
mod attempt;
mod conn;
mod limits;
mod listener;
mod transport;
mod watch;

pub use conn::TokioConn;
pub use listener::TokioListener;
pub use transport::TokioTransport;
