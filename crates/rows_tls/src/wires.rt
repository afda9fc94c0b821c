//! A transport that hands out connections in order, and writes down what it is asked.

ghost use Rattle.std.specs.Prelude.{◌≡◌, [], Ok};

use crate::log::Log;
use crate::wire::Wire;
use ftp_base::types::ConnectionError;
use ftp_transport::{
    Accepted, Connected, Handshaken, Listening, Network, PollTransport, TaskTransport, Transport,
    Waiting,
};
use futures::task::{Context, Poll};
use std::alloc::{AllocError, Global};
use std::collections::VecDeque;
use std::io::ErrorKind;
use std::net::SocketAddr;
use std::time::Duration;

/// What the next request results in: a connect in this connection, or an accept, where it is from a peer at an address.
#[derive(Drop)]
struct Supplied {
    peer: Option<SocketAddr>,
    conn: Wire,
}

/// A transport that was supplied with connections. Its listeners get port 0, and a listener is its address.
pub struct Wires {
    alloc: Global,
    ready: VecDeque<Supplied>,
    log: Log,
}

impl Drop for Wires {
    fn drop(self) {
        let Self {
            alloc: _,
            ready,
            log,
        } = self;
        drop(ready);
        drop(log);
    }
}

impl Wires {
    /// A transport without connections.
    ///
    /// # Errors
    /// Where an allocation fails.
    pub fn new(alloc: Global, log: &Log) -> Result<Wires, AllocError> {
        Ok(Wires {
            alloc,
            ready: VecDeque::new(alloc),
            log: log.share()?,
        })
    }

    /// A request after those that have connections results in this one: an accept, where it is from a peer at an address,
    /// else a connect.
    ///
    /// # Errors
    /// Where an allocation fails.
    pub fn supply(&mut self, peer: Option<SocketAddr>, conn: Wire) -> Result<(), AllocError> {
        Ok(self.ready.push_back(Supplied { peer, conn })?)
    }

    /// An address was asked for, or came.
    fn note(&self, letter: char, address: SocketAddr) -> Result<(), AllocError> {
        let text = format!(in self.alloc; "{address}")?;
        self.log.note(letter, text.as_str());
        Ok(())
    }

    /// The connection to an address.
    fn connected(&mut self, address: SocketAddr) -> Connected<Wire> {
        self.note('D', address)?;
        match self.ready.pop_front() {
            Some(Supplied { peer: None, conn }) => Ok(Ok(conn)),
            other => {
                drop(other);
                Ok(Err(ConnectionError::Io(ErrorKind::ConnectionRefused)))
            }
        }
    }

    /// A listener at an address.
    fn listening(&self, address: SocketAddr) -> Listening<SocketAddr> {
        self.note('L', address)?;
        Ok(Ok((address, address)))
    }

    /// The connection of a peer.
    fn accepted(&mut self) -> Accepted<Wire> {
        match self.ready.pop_front() {
            Some(
                Supplied {
                    peer: Some(address),
                    conn,
                },
            ) => {
                self.note('P', address)?;
                Ok(Ok((conn, address)))
            }
            other => {
                drop(other);
                Ok(Err(ConnectionError::TimedOut))
            }
        }
    }
}

impl Network for Wires {
    type Conn = Wire;

    type Listener = SocketAddr;

    ghost asked = { λ _. [] };

    ghost ready = { λ _. [] };

    ghost refuses = { λ _ _. Unit {0} };

    ghost accept_refuses = { λ _ _. Unit {0} };

    ghost port = { λ _. 0 };

    ghost binds = { λ _ _ _. Unit {0} };

    ghost closed = { λ _. [] };

    ghost handshake = { λ _ conn outcome. outcome ≡ Ok conn.conn };

    ghost has_room = { λ _. Unit {0} };

    fn make_room(&mut self) -> Result<(), AllocError> {
        Ok(())
    }

    fn note_build(&mut self, _address: SocketAddr) -> Result<(), AllocError> {
        Ok(())
    }

    fn closed(&mut self, conn: Wire) {
        drop(conn);
    }
}

impl<R> Transport<R> for Wires {
    fn connect(&mut self, _rt: &R, address: SocketAddr) -> Connected<Wire> {
        self.connected(address)
    }

    fn connect_timeout(
        &mut self,
        _rt: &R,
        address: SocketAddr,
        _limit: Duration,
    ) -> Connected<Wire> {
        self.connected(address)
    }

    fn listen(&mut self, _rt: &R, address: SocketAddr) -> Listening<SocketAddr> {
        self.listening(address)
    }

    fn accept(
        &mut self,
        _rt: &R,
        _listener: &mut SocketAddr,
        _deadline: Duration,
    ) -> Accepted<Wire> {
        self.accepted()
    }

    fn secure(&mut self, _rt: &R, conn: Wire) -> Handshaken<Wire> {
        Ok(Ok(conn))
    }
}

impl<R> PollTransport<R, ()> for Wires {
    ghost may_wait = { ⊥ };

    fn poll_connect(
        &mut self,
        _rt: &R,
        _w: &mut (),
        address: SocketAddr,
        _limit: Option<Duration>,
    ) -> Poll<Connected<Wire>> {
        Poll::Ready(self.connected(address))
    }

    fn poll_listen(
        &mut self,
        _rt: &R,
        _w: &mut (),
        address: SocketAddr,
    ) -> Poll<Listening<SocketAddr>> {
        Poll::Ready(self.listening(address))
    }

    fn poll_accept(
        &mut self,
        _rt: &R,
        _w: &mut (),
        _listener: &mut SocketAddr,
        _deadline: Duration,
    ) -> Poll<Accepted<Wire>> {
        Poll::Ready(self.accepted())
    }

    fn poll_secure(&mut self, _rt: &R, _w: &mut (), conn: Wire) -> Poll<Handshaken<Wire>> {
        Poll::Ready(Ok(Ok(conn)))
    }

    fn poll_secured(&mut self, _rt: &R, _w: &mut ()) -> Poll<Handshaken<Wire>> {
        Poll::Ready(Err(AllocError))
    }
}

impl TaskTransport for Wires {
    fn forget(&mut self) {}

    fn poll_connect_ready(&mut self, _cx: &mut Context<'_>) -> Waiting {
        Waiting::Nothing
    }

    fn poll_secure_ready(&mut self, _cx: &mut Context<'_>) -> Waiting {
        Waiting::Nothing
    }

    fn poll_accept_ready(_listener: &mut SocketAddr, _cx: &mut Context<'_>) -> Waiting {
        Waiting::Nothing
    }
}
