//! The transport over memory as one that may be polled beside connections that wait.
//!
//! What a request results in was handed in before, so a poll is the call that blocks, and never waits.

use super::{
    Accepted, Connected, Handshaken, Listening, MemoryConn, MemoryListener, MemoryTransport,
    PollTransport, Transport,
};
use futures::task::Poll;
use std::alloc::AllocError;
use std::net::SocketAddr;
use std::time::Duration;

impl<R> PollTransport<R, ()> for MemoryTransport {
    ghost may_wait = { ⊥ };

    fn poll_connect(
        &mut self,
        rt: &R,
        _w: &mut (),
        address: SocketAddr,
        limit: Option<Duration>,
    ) -> Poll<Connected<MemoryConn>> {
        match limit {
            None => Poll::Ready(self.connect(rt, address)),
            Some(limit) => Poll::Ready(self.connect_timeout(rt, address, limit)),
        }
    }

    fn poll_listen(
        &mut self,
        rt: &R,
        _w: &mut (),
        address: SocketAddr,
    ) -> Poll<Listening<MemoryListener>> {
        Poll::Ready(self.listen(rt, address))
    }

    fn poll_accept(
        &mut self,
        rt: &R,
        _w: &mut (),
        listener: &mut MemoryListener,
        deadline: Duration,
    ) -> Poll<Accepted<MemoryConn>> {
        Poll::Ready(self.accept(rt, listener, deadline))
    }

    fn poll_secure(
        &mut self,
        _rt: &R,
        _w: &mut (),
        conn: MemoryConn,
    ) -> Poll<Handshaken<MemoryConn>> {
        Poll::Ready(Ok(Ok(conn)))
    }

    fn poll_secured(&mut self, _rt: &R, _w: &mut ()) -> Poll<Handshaken<MemoryConn>> {
        Poll::Ready(Err(AllocError))
    }
}
