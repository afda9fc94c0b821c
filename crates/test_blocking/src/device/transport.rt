//! A transport whose calls may fail.

ghost use Rattle.std.specs.Prelude.{◌≡◌, ◌<◌, IfOk, Ok, length, map, vec_capacity};
ghost use Rattle.ftp_transport.specs.Asking.{done, outcome_of};
ghost use Rattle.test_blocking.specs.Failing.{uncounted_supplies};
ghost use Rattle.test_blocking.specs.Over.{told_over};

use crate::device::{Device, FailingConn, Place};
use ftp_base::types::ConnectionError;
use ftp_transport::{
    Accepted, Asked, Connected, Handshaken, Listening, Network, Request, RequestOutcome, Transport,
};
use std::alloc::{AllocError, Global};
use std::net::SocketAddr;
use std::time::Duration;

/// A transport over another one, for sessions without TLS. It records what it is asked itself, since the one below isn't asked
/// where a call fails, and keeps the data connections that are over.
pub struct FailingTransport<'d, Tr: Network> {
    below: Tr,
    device: &'d Device,
    asked: Vec<Asked>,
    over: Vec<FailingConn<'d, Tr::Conn>>,
}

impl<Tr: Network> Drop for FailingTransport<'_, Tr> {
    fn drop(self) {
        let Self {
            below,
            device: _,
            asked,
            over,
        } = self;
        drop(below);
        drop(asked);
        drop(over);
    }
}

impl<'d, Tr: Network> FailingTransport<'d, Tr> {
    /// A transport over this one, which was asked nothing yet. Nothing is allocated.
    pub fn new(alloc: Global, below: Tr, device: &'d Device) -> FailingTransport<'d, Tr> {
        FailingTransport {
            below,
            device,
            asked: Vec::new(alloc),
            over: Vec::new(alloc),
        }
    }
}

impl<'d, Tr: Network> Network for FailingTransport<'d, Tr> {
    type Conn = FailingConn<'d, Tr::Conn>;

    type Listener = Tr::Listener;

    ghost asked = { λ t. t.asked.items };

    ghost ready = { λ t. uncounted_supplies (Tr.ready t.below) };

    ghost refuses = { λ _ _. Unit {0} };

    ghost accept_refuses = { λ _ _. Unit {0} };

    ghost port = { λ t. Tr.port t.below };

    ghost binds = { λ port address made.
        IfOk made (λ bound. Tr.binds port address (Ok bound)) };

    ghost closed = { λ t. map (told_over Tr.Conn.told) t.over.items };

    ghost handshake = { λ _ conn made. made ≡ Ok (told_over Tr.Conn.told conn) };

    ghost has_room = { λ t. length t.over.items < vec_capacity t.over };

    fn make_room(&mut self) -> Result<(), AllocError> {
        self.over.reserve(1)
    }

    fn note_build(&mut self, address: SocketAddr) -> Result<(), AllocError> {
        self.asked.reserve(1)?;
        let request = Request::Build(address);
        let outcome = RequestOutcome::Done;
        self.asked.push(Asked { request, outcome }).unwrap();
        Ok(())
    }

    fn closed(&mut self, conn: FailingConn<'d, Tr::Conn>) {
        let _ = self.over.push(conn);
    }
}

/// What is on record of a request for a connection.
fn outcome_of_connect<C>(made: &Result<C, ConnectionError>) -> RequestOutcome
    ensures { result ≡ outcome_of done made.now }
{
    match made {
        Ok(_) => RequestOutcome::Done,
        Err(fault) => RequestOutcome::Refused(*fault),
    }
}

impl<'d, R, Tr: Transport<R>> Transport<R> for FailingTransport<'d, Tr> {
    fn connect(&mut self, rt: &R, address: SocketAddr) -> Connected<FailingConn<'d, Tr::Conn>> {
        self.asked.reserve(1)?;
        let made = match self.device.failure(Place::Request) {
            Some(kind) => Err(ConnectionError::Io(kind)),
            None => match self.below.connect(rt, address)? {
                Ok(conn) => Ok(FailingConn::data(conn, self.device)),
                Err(fault) => Err(fault),
            },
        };
        let request = Request::Connect(address, None);
        let outcome = outcome_of_connect(&made);
        self.asked.push(Asked { request, outcome }).unwrap();
        Ok(made)
    }

    fn connect_timeout(
        &mut self,
        rt: &R,
        address: SocketAddr,
        limit: Duration,
    ) -> Connected<FailingConn<'d, Tr::Conn>> {
        self.asked.reserve(1)?;
        let made = match self.device.failure(Place::Request) {
            Some(kind) => Err(ConnectionError::Io(kind)),
            None => match self.below.connect_timeout(rt, address, limit)? {
                Ok(conn) => Ok(FailingConn::data(conn, self.device)),
                Err(fault) => Err(fault),
            },
        };
        let request = Request::Connect(address, Some(limit));
        let outcome = outcome_of_connect(&made);
        self.asked.push(Asked { request, outcome }).unwrap();
        Ok(made)
    }

    fn listen(&mut self, rt: &R, address: SocketAddr) -> Listening<Tr::Listener> {
        self.asked.reserve(1)?;
        let made = match self.device.failure(Place::Request) {
            Some(kind) => Err(ConnectionError::Io(kind)),
            None => self.below.listen(rt, address)?,
        };
        let outcome = match &made {
            Ok((_, bound)) => RequestOutcome::Address(*bound),
            Err(fault) => RequestOutcome::Refused(*fault),
        };
        let request = Request::Listen(address);
        self.asked.push(Asked { request, outcome }).unwrap();
        Ok(made)
    }

    fn accept(
        &mut self,
        rt: &R,
        listener: &mut Tr::Listener,
        deadline: Duration,
    ) -> Accepted<FailingConn<'d, Tr::Conn>> {
        self.asked.reserve(1)?;
        let made = match self.device.failure(Place::Request) {
            Some(kind) => Err(ConnectionError::Io(kind)),
            None => match self.below.accept(rt, listener, deadline)? {
                Ok((conn, peer)) => Ok((FailingConn::data(conn, self.device), peer)),
                Err(fault) => Err(fault),
            },
        };
        let outcome = match &made {
            Ok((_, peer)) => RequestOutcome::Address(*peer),
            Err(fault) => RequestOutcome::Refused(*fault),
        };
        let request = Request::Accept(deadline);
        self.asked.push(Asked { request, outcome }).unwrap();
        Ok(made)
    }

    fn secure(
        &mut self,
        _rt: &R,
        conn: FailingConn<'d, Tr::Conn>,
    ) -> Handshaken<FailingConn<'d, Tr::Conn>> {
        Ok(Ok(conn))
    }
}
