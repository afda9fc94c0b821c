//! What tests over `tokio`'s sockets share: a runtime of one task, listeners, and the two ends of a connection, on loopback.
#![tactic(auto)]

use ftp_tokio::{TokioConn, TokioTransport};
use std::alloc::AllocGlobal;
use std::io;
use std::io::Write;
use std::net::{Net, SocketAddr, TcpListener, TcpStream};
use std::random::RandomSource;
use std::sync::Wait;
use std::time::Clock;
use tokio::runtime::{Handle, LocalRuntime};

/// A runtime of one task, in a box. It has a drop of its own, so that a crate above proves none of what is in it.
pub struct Runtime(Box<LocalRuntime>);

impl Runtime {
    /// The runtime itself.
    pub fn local(&mut self) -> &mut LocalRuntime {
        &mut self.0
    }

    /// A handle to it.
    pub fn handle(&self) -> &Handle {
        self.0.handle()
    }
}

impl Drop for Runtime {
    fn drop(self) {
        let Self(runtime) = self;
        drop(runtime);
    }
}

/// Such a runtime.
pub fn running<R>(rt: &R) -> io::Result<Runtime>
where
    R: Net + Wait + Clock + RandomSource + AllocGlobal,
{
    Ok(Runtime(Box::new(rt.alloc(), LocalRuntime::new(rt)?)?))
}

/// The transport of a runtime.
pub fn transport(runtime: &Runtime) -> io::Result<TokioTransport> {
    Ok(TokioTransport::of_runtime(runtime.handle())?)
}

/// A listener on the loopback address, and its address.
pub fn listening<R>(rt: &R) -> io::Result<(TcpListener, SocketAddr)>
where
    R: Net<Listener = TcpListener, Stream = TcpStream>,
{
    let listener = TcpListener::bind(rt, "127.0.0.1:0")?;
    let address = listener.local_addr()?;
    Ok((listener, address))
}

/// A connection of a runtime's, and the socket at its other end, which has sent this.
pub fn pair<R>(rt: &R, runtime: &Runtime, sent: &[u8]) -> io::Result<(TokioConn, TcpStream)>
where
    R: Net<Listener = TcpListener, Stream = TcpStream>,
{
    let (near, far) = ends(rt, sent)?;
    let stream = tokio::net::TcpStream::from_std(near, runtime.handle().reactor())?;
    Ok((TokioConn::new(stream), far))
}

/// Two sockets that are connected, the second of which has sent this.
fn ends<R>(rt: &R, sent: &[u8]) -> io::Result<(TcpStream, TcpStream)>
where
    R: Net<Listener = TcpListener, Stream = TcpStream>,
{
    let (listener, address) = listening(rt)?;
    let near = TcpStream::connect(rt, address)?;
    Ok((near, accepted(&listener, sent)?))
}

/// The next peer of a listener, which was sent this.
fn accepted(listener: &TcpListener, sent: &[u8]) -> io::Result<TcpStream> {
    let (mut far, _address) = listener.accept()?;
    far.write_all(sent)?;
    Ok(far)
}
