//! One bound for what a client needs of a runtime.

use std::net::{Net, TcpListener, TcpStream};
use std::time::Clock;

/// A runtime that has what a client connects by: sockets, a clock and memory. `R: Host + Wait` is enough for each call
/// of the blocking client; a `tokio` runtime, which polls the other, needs `RandomSource` besides.
///
/// The runtime that `main` is passed is one.
pub trait Host: Net<Listener = TcpListener, Stream = TcpStream> + Clock + AllocGlobal {}

impl Host for HostRuntime {}
