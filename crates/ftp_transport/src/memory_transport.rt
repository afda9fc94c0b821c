//! The transport over memory, which is handed what its requests result in, and records them.
//!
//! A test, or a program that replays a dialogue, supplies connections, peers and errors, and looks at what was asked
//! and at the data connections that are over.

ghost use Rattle.std.specs.Prelude.{◌≡◌, ◌<◌, OnErr, OnOk, [], ◌∷◌, ◌++◌, length, Ok};
ghost use Rattle.futures.specs.declared.task.Poll.TheVariants as poll;
ghost use Rattle.ftp_transport.specs.Asking.{Asks, Supplies, comes_as, connects_as, done};
ghost use Rattle.ftp_transport.specs.Memory.{accepts_over_memory, addresses_of, binds_over_memory, nothing_asked, over_memory};

use super::{
    Accepted, Asked, Connected, Handshaken, Listening, MemoryConn, Network, Request,
    RequestOutcome, Supply, Transport,
};
use ftp_base::types::ConnectionError;
use std::alloc::{AllocError, Global};
use std::collections::VecDeque;
use std::io::ErrorKind;
use std::marker::Model;
use std::net::SocketAddr;
use std::time::Duration;

/// A transport over memory. A connect returns the next item that it was supplied with where that is a connection or an
/// error, and else is refused; an accept returns the next item where that is a peer or an error, and else its deadline
/// passes at once. A listen consumes no item.
pub struct MemoryTransport {
    ready: VecDeque<Supply>,
    requests: Vec<Asked>,
    addresses: Vec<SocketAddr>,
    closed: Vec<MemoryConn>,
    port: u16,
}

impl Drop for MemoryTransport {
    fn drop(self) {
        let Self {
            ready,
            requests,
            addresses,
            closed,
            port: _,
        } = self;
        drop(ready);
        drop(requests);
        drop(addresses);
        drop(closed);
    }
}

/// A listener over memory, to which the peers come that its transport was supplied with.
#[derive(Drop)]
pub struct MemoryListener;

impl Model for MemoryTransport {
    ghost use Rattle.std.specs.Prelude.{◌≡◌, vec_capacity};
    ghost use Rattle.ftp_transport.specs.Memory.{Asking, addresses_of};

    ghost Value = { Asking };

    ghost view = { λ t. record {
      answered = t.requests.items;
      ready = t.ready.items;
      closed = t.closed.items;
      room = vec_capacity t.closed;
      port = t.port;
    } };

    ghost invariant = { λ t. t.addresses.items ≡ addresses_of t.requests.items };
}

impl MemoryTransport {
    /// A transport on which each connect is refused, and whose listeners get port 0. Nothing is allocated.
    pub fn new(alloc: Global) -> MemoryTransport
        ensures { result ≡ nothing_asked }
    {
        MemoryTransport {
            ready: VecDeque::new(alloc),
            requests: Vec::new(alloc),
            addresses: Vec::new(alloc),
            closed: Vec::new(alloc),
            port: 0,
        }
    }

    /// Adds what a request results in, after those that were supplied before.
    ///
    /// # Errors
    /// Where an allocation fails, and nothing changes.
    pub fn supply(&mut self, supply: Supply) -> Result<(), AllocError>
        ensures ok { OnOk result
            (self.new ≡ record self.old { ready = self.old.ready ++ supply ∷ [] }) }
        ensures err { OnErr result (self.new ≡ self.old) }
    {
        match self.ready.push_back(supply) {
            Ok(()) => Ok(()),
            Err(_) => Err(AllocError),
        }
    }

    /// From now on listeners get this port.
    pub fn listens_on(&mut self, port: u16)
        ensures { self.new ≡ record self.old { port = port } }
    {
        self.port = port;
    }

    /// The addresses that were asked for, in order: those of connections, and those of listeners, which ask for port 0.
    pub fn asked(&self) -> &[SocketAddr]
        ensures { result.now ≡ addresses_of self.now.answered }
    {
        self.addresses.as_slice()
    }

    /// All that was asked, with its outcome, in order: accepts, and what a builder was asked for in the transport's place,
    /// too.
    pub fn requests(&self) -> &[Asked]
        ensures { result.now ≡ self.now.answered }
    {
        self.requests.as_slice()
    }

    /// The data connections that are over, in order; `sent` of each is what was uploaded on it.
    pub fn uploaded(&self) -> &[MemoryConn]
        ensures { result.now ≡ self.now.closed }
    {
        self.closed.as_slice()
    }

    /// What a connect results in. Where an allocation fails nothing was asked.
    fn answer_connect(
        &mut self,
        address: SocketAddr,
        limit: Option<Duration>,
    ) -> Connected<MemoryConn>
        ensures asks { Asks (Request.Connect address limit) done (poll.Ready result)
            self.old.answered self.new.answered }
        ensures supplies { Supplies (connects_as (λ c. c)) over_memory (poll.Ready result)
            self.old.ready self.new.ready }
        ensures others { self.new ≡
            record self.old { answered = self.new.answered; ready = self.new.ready } }
    {
        self.requests.reserve(1)?;
        self.addresses.reserve(1)?;
        let made = next_connection(&mut self.ready);
        let outcome = match &made {
            Ok(_) => RequestOutcome::Done,
            Err(fault) => RequestOutcome::Refused(*fault),
        };
        let request = Request::Connect(address, limit);
        self.requests.push(Asked { request, outcome }).unwrap();
        self.addresses.push(address).unwrap();
        Ok(made)
    }
}

/// The next connection, or its error; a refusal where none is next, and then nothing is consumed.
fn next_connection(ready: &mut VecDeque<Supply>) -> Result<MemoryConn, ConnectionError>
    ensures { Supplies (connects_as (λ c. c)) over_memory (poll.Ready (Ok result)) ready.old.items
        ready.new.items }
{
    if let Some(Supply::Peer(..)) = ready.front() {
        return Err(ConnectionError::Io(ErrorKind::ConnectionRefused));
    }
    match ready.pop_front() {
        Some(Supply::Connects(conn)) => Ok(conn),
        Some(Supply::Refuses(kind)) => Err(ConnectionError::Io(kind)),
        Some(Supply::Peer(..)) => unreachable!(),
        None => Err(ConnectionError::Io(ErrorKind::ConnectionRefused)),
    }
}

/// The next peer with its address, or its error; where none is next the deadline passes, and nothing is consumed.
fn next_peer(ready: &mut VecDeque<Supply>) -> Result<(MemoryConn, SocketAddr), ConnectionError>
    ensures { Supplies (comes_as (λ c. c)) accepts_over_memory (poll.Ready (Ok result))
        ready.old.items ready.new.items }
{
    if let Some(Supply::Connects(_)) = ready.front() {
        return Err(ConnectionError::TimedOut);
    }
    match ready.pop_front() {
        Some(Supply::Peer(address, conn)) => Ok((conn, address)),
        Some(Supply::Refuses(kind)) => Err(ConnectionError::Io(kind)),
        Some(Supply::Connects(_)) => unreachable!(),
        None => Err(ConnectionError::TimedOut),
    }
}

impl Network for MemoryTransport {
    type Conn = MemoryConn;

    type Listener = MemoryListener;

    ghost asked = { λ t. t.answered };

    ghost ready = { λ t. t.ready };

    ghost refuses = { over_memory };

    ghost accept_refuses = { accepts_over_memory };

    ghost port = { λ t. t.port };

    ghost binds = { binds_over_memory };

    ghost closed = { λ t. t.closed };

    ghost handshake = { λ _ conn outcome. outcome ≡ Ok conn };

    ghost has_room = { λ t. length t.closed < t.room };

    fn make_room(&mut self) -> Result<(), AllocError> {
        self.closed.reserve(1)
    }

    fn note_build(&mut self, address: SocketAddr) -> Result<(), AllocError> {
        self.requests.reserve(1)?;
        let request = Request::Build(address);
        let outcome = RequestOutcome::Done;
        self.requests.push(Asked { request, outcome }).unwrap();
        Ok(())
    }

    fn closed(&mut self, conn: MemoryConn) {
        let _ = self.closed.push(conn);
    }
}

impl<R> Transport<R> for MemoryTransport {
    fn connect(&mut self, _rt: &R, address: SocketAddr) -> Connected<MemoryConn> {
        self.answer_connect(address, None)
    }

    fn connect_timeout(
        &mut self,
        _rt: &R,
        address: SocketAddr,
        limit: Duration,
    ) -> Connected<MemoryConn> {
        self.answer_connect(address, Some(limit))
    }

    fn listen(&mut self, _rt: &R, address: SocketAddr) -> Listening<MemoryListener> {
        self.requests.reserve(1)?;
        self.addresses.reserve(1)?;
        let mut bound = address;
        bound.set_port(self.port);
        let outcome = RequestOutcome::Address(bound);
        let request = Request::Listen(address);
        self.requests.push(Asked { request, outcome }).unwrap();
        self.addresses.push(address).unwrap();
        Ok(Ok((MemoryListener, bound)))
    }

    fn accept(
        &mut self,
        _rt: &R,
        _listener: &mut MemoryListener,
        deadline: Duration,
    ) -> Accepted<MemoryConn> {
        self.requests.reserve(1)?;
        let made = next_peer(&mut self.ready);
        let outcome = match &made {
            Ok((_, address)) => RequestOutcome::Address(*address),
            Err(fault) => RequestOutcome::Refused(*fault),
        };
        let request = Request::Accept(deadline);
        self.requests.push(Asked { request, outcome }).unwrap();
        Ok(made)
    }

    fn secure(&mut self, _rt: &R, conn: MemoryConn) -> Handshaken<MemoryConn> {
        Ok(Ok(conn))
    }
}
