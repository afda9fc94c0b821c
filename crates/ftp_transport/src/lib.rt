//! Connections, as the control channel uses them, and the transports that make them.
//!
//! There are two ways to wait, a trait each: `Conn` blocks, `PollConn` says through a `W` that it waits. A blanket impl
//! makes a `PollConn` of every `Conn`, so whatever stands above is written once, over `PollConn`. A `TaskConn` can
//! register a task of an event loop for what a poll of it waits for. `MemoryConn` records all its traffic, and what is
//! proved of a client is stated of such a record; `TcpConn` is a socket, of which nothing can be proved.
#![tactic(auto)]

mod builder;
mod connecting;
mod connection;
mod memory;
mod memory_transport;
mod network;
mod polled_memory;
mod registrar;
mod request;
mod room;
mod socket;
mod socket_limits;
mod socket_listener;
mod supply;
mod task;
mod task_memory;
mod waiting;

pub use builder::PassiveStreamBuilder;
pub use connecting::{Tried, poll_connect_in_turn};
pub use connection::{Conn, NeverWaits, PollConn, Tells};
pub use memory::MemoryConn;
pub use memory_transport::{MemoryListener, MemoryTransport};
pub use network::{Accepted, Connected, Handshaken, Listening, Network, PollTransport, Transport};
pub use registrar::{AsksItself, Registrar};
pub use request::{Asked, Request, RequestOutcome};
pub use room::Room;
pub use socket::{TcpConn, TcpTransport};
pub use socket_listener::TcpConnListener;
pub use supply::Supply;
pub use task::{TaskConn, TaskTransport};
pub use waiting::Waiting;
