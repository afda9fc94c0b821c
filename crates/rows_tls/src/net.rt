//! The transport of a row, whose connections may be put under TLS, as one type. Nothing of it is on record.

ghost use Rattle.std.specs.Prelude.{[], None};
ghost use Rattle.ftp_secure.specs.Gone.{gone_after};

use crate::line::{Held, Line};
use crate::seal::Seal;
use crate::wires::Wires;
use ftp_base::types::FtpResult;
use ftp_secure::{SecureNetwork, SecureTransport, Secured};
use ftp_transport::{
    Accepted, Connected, Handshaken, Listening, Network, PollTransport, TaskTransport, Transport,
    Waiting,
};
use futures::task::{Context, Poll};
use std::alloc::{AllocError, Global};
use std::net::SocketAddr;
use std::time::Duration;

/// What a transport holds.
type Below = Secured<Wires, Seal>;

/// A transport over connections that were supplied, whose connections may be put under TLS.
pub struct Net {
    below: Below,
}

impl Drop for Net {
    fn drop(self) {
        let Self { below } = self;
        drop(below);
    }
}

impl Net {
    /// A transport over this one, without a connector.
    pub fn new(alloc: Global, wires: Wires) -> Net {
        Net {
            below: Secured::new(alloc, wires),
        }
    }
}

/// What was made, with its connection as a line.
fn lined<E>(made: Result<Result<Held, E>, AllocError>) -> Result<Result<Line, E>, AllocError> {
    match made {
        Ok(Ok(conn)) => Ok(Ok(Line::of(conn))),
        Ok(Err(fault)) => Ok(Err(fault)),
        Err(full) => Err(full),
    }
}

/// What was accepted, with its connection as a line.
fn accepted(made: Accepted<Held>) -> Accepted<Line> {
    match made {
        Ok(Ok((conn, peer))) => Ok(Ok((Line::of(conn), peer))),
        Ok(Err(fault)) => Ok(Err(fault)),
        Err(full) => Err(full),
    }
}

/// A connection that came back, as a line.
fn back(made: FtpResult<Held>) -> FtpResult<Line> {
    match made {
        Ok(conn) => Ok(Line::of(conn)),
        Err(fault) => Err(fault),
    }
}

impl Network for Net {
    type Conn = Line;

    type Listener = SocketAddr;

    ghost asked = { λ _. [] };

    ghost ready = { λ _. [] };

    ghost refuses = { λ _ _. Unit {0} };

    ghost accept_refuses = { λ _ _. Unit {0} };

    ghost port = { λ _. 0 };

    ghost binds = { λ _ _ _. Unit {0} };

    ghost closed = { λ _. [] };

    ghost handshake = { λ _ _ _. Unit {0} };

    ghost has_room = { λ _. Unit {0} };

    fn make_room(&mut self) -> Result<(), AllocError> {
        self.below.make_room()
    }

    fn note_build(&mut self, address: SocketAddr) -> Result<(), AllocError> {
        self.below.note_build(address)
    }

    fn closed(&mut self, conn: Line) {
        self.below.closed(conn.into_held());
    }
}

impl SecureNetwork<Seal> for Net {
    ghost told_below = { λ _. gone_after 0 None };

    ghost gives = { λ _ _. Unit {0} };

    ghost answers = { λ _ _ _ _. Unit {0} };

    ghost kept = { λ net. ⟦<Secured<Wires, Seal> as SecureNetwork<Seal>>⟧.kept net.below };

    fn gone() -> Line {
        Line::of(<Below as SecureNetwork<Seal>>::gone())
    }

    fn take_off(conn: Line) -> FtpResult<Line> {
        back(<Below as SecureNetwork<Seal>>::take_off(conn.into_held()))
    }

    fn keep(&mut self, connector: Seal, domain: String) {
        self.below.keep(connector, domain);
    }
}

impl SecureTransport<Seal> for Net {
    fn put_under(connector: &Seal, domain: &str, conn: Line) -> FtpResult<Line> {
        let conn = conn.into_held();
        back(<Below as SecureTransport<Seal>>::put_under(connector, domain, conn))
    }
}

impl<R> Transport<R> for Net {
    fn connect(&mut self, rt: &R, address: SocketAddr) -> Connected<Line> {
        lined(self.below.connect(rt, address))
    }

    fn connect_timeout(&mut self, rt: &R, address: SocketAddr, limit: Duration) -> Connected<Line> {
        lined(self.below.connect_timeout(rt, address, limit))
    }

    fn listen(&mut self, rt: &R, address: SocketAddr) -> Listening<SocketAddr> {
        self.below.listen(rt, address)
    }

    fn accept(&mut self, rt: &R, listener: &mut SocketAddr, deadline: Duration) -> Accepted<Line> {
        accepted(self.below.accept(rt, listener, deadline))
    }

    fn secure(&mut self, rt: &R, conn: Line) -> Handshaken<Line> {
        lined(self.below.secure(rt, conn.into_held()))
    }
}

/// A poll's outcome, with its connection as a line.
fn polled<E>(
    made: Poll<Result<Result<Held, E>, AllocError>>,
) -> Poll<Result<Result<Line, E>, AllocError>> {
    match made {
        Poll::Ready(made) => Poll::Ready(lined(made)),
        Poll::Pending => Poll::Pending,
    }
}

impl<R> PollTransport<R, ()> for Net {
    ghost may_wait = { Unit {0} };

    fn poll_connect(
        &mut self,
        rt: &R,
        w: &mut (),
        address: SocketAddr,
        limit: Option<Duration>,
    ) -> Poll<Connected<Line>> {
        polled(self.below.poll_connect(rt, w, address, limit))
    }

    fn poll_listen(
        &mut self,
        rt: &R,
        w: &mut (),
        address: SocketAddr,
    ) -> Poll<Listening<SocketAddr>> {
        self.below.poll_listen(rt, w, address)
    }

    fn poll_accept(
        &mut self,
        rt: &R,
        w: &mut (),
        listener: &mut SocketAddr,
        deadline: Duration,
    ) -> Poll<Accepted<Line>> {
        match self.below.poll_accept(rt, w, listener, deadline) {
            Poll::Ready(made) => Poll::Ready(accepted(made)),
            Poll::Pending => Poll::Pending,
        }
    }

    fn poll_secure(&mut self, rt: &R, w: &mut (), conn: Line) -> Poll<Handshaken<Line>> {
        polled(self.below.poll_secure(rt, w, conn.into_held()))
    }

    fn poll_secured(&mut self, rt: &R, w: &mut ()) -> Poll<Handshaken<Line>> {
        polled(self.below.poll_secured(rt, w))
    }
}

impl TaskTransport for Net {
    fn forget(&mut self) {
        self.below.forget();
    }

    fn poll_connect_ready(&mut self, cx: &mut Context<'_>) -> Waiting {
        self.below.poll_connect_ready(cx)
    }

    fn poll_secure_ready(&mut self, cx: &mut Context<'_>) -> Waiting {
        self.below.poll_secure_ready(cx)
    }

    fn poll_accept_ready(listener: &mut SocketAddr, cx: &mut Context<'_>) -> Waiting {
        Below::poll_accept_ready(listener, cx)
    }
}
