//! Requests for connections as futures, the way the polled client waits for them.

use ftp_base::types::ConnectionError;
use ftp_tokio::{TokioConn, TokioListener, TokioTransport};
use ftp_transport::{PollTransport, TaskTransport, Waiting};
use futures::Future;
use futures::task::{Context, Poll};
use std::io::ErrorKind;
use std::net::{Net, SocketAddr};
use std::time::{Clock, Duration};

/// A connect to an address.
#[derive(Drop)]
pub struct Connect<'a, R> {
    pub rt: &'a R,
    pub transport: TokioTransport,
    pub address: SocketAddr,
    pub limit: Option<Duration>,
}

impl<R: Net + Clock + AllocGlobal> Future for Connect<'_, R> {
    type Output = Result<TokioConn, ConnectionError>;

    fn poll(&mut self, cx: &mut Context<'_>) -> Poll<Result<TokioConn, ConnectionError>> {
        match self
            .transport
            .poll_connect(self.rt, &mut (), self.address, self.limit)
        {
            Poll::Ready(Ok(made)) => return Poll::Ready(made),
            Poll::Ready(Err(_)) => {
                return Poll::Ready(Err(ConnectionError::Io(ErrorKind::OutOfMemory)));
            }
            Poll::Pending => {}
        }
        match self.transport.poll_connect_ready(cx) {
            Waiting::Registered => Poll::Pending,
            Waiting::Over | Waiting::Nothing => cx.yield_now(),
        }
    }
}

/// An accept of a peer, within a deadline.
#[derive(Drop)]
pub struct Accept<'a, R> {
    pub rt: &'a R,
    pub transport: TokioTransport,
    pub listener: TokioListener,
    pub deadline: Duration,
}

impl<R: Net + Clock + AllocGlobal> Future for Accept<'_, R> {
    type Output = Result<SocketAddr, ConnectionError>;

    fn poll(&mut self, cx: &mut Context<'_>) -> Poll<Result<SocketAddr, ConnectionError>> {
        match self
            .transport
            .poll_accept(self.rt, &mut (), &mut self.listener, self.deadline)
        {
            Poll::Ready(Ok(Ok((_conn, peer)))) => return Poll::Ready(Ok(peer)),
            Poll::Ready(Ok(Err(fault))) => return Poll::Ready(Err(fault)),
            Poll::Ready(Err(_)) => {
                return Poll::Ready(Err(ConnectionError::Io(ErrorKind::OutOfMemory)));
            }
            Poll::Pending => {}
        }
        match TokioTransport::poll_accept_ready(&mut self.listener, cx) {
            Waiting::Registered => Poll::Pending,
            Waiting::Over | Waiting::Nothing => cx.yield_now(),
        }
    }
}
