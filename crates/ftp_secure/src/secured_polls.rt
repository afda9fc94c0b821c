//! A transport whose connections may be under TLS, as one that is polled, and in a task.

ghost use Rattle.std.specs.Prelude.{◌≡◌, ◌⊎◌, IfOk};
ghost use Rattle.futures.specs.Poll.{IfReady};
ghost use Rattle.futures.specs.declared.task.Poll.TheVariants as Poll;
ghost use Rattle.ftp_transport.specs.Asking.{Secures, built_as};
ghost use Rattle.ftp_secure.specs.Continues.{Continues};
ghost use Rattle.ftp_secure.specs.Securing.{ComesAs};
ghost use Rattle.ftp_secure.specs.Streams.{told_below, told_in_clear};

use crate::data_stream::DataStream;
use crate::polled_connector::AsyncTlsConnector;
use crate::secured::Secured;
use ftp_base::types::{FtpError, Text};
use ftp_transport::{
    Accepted, Connected, Handshaken, Listening, Network, PollTransport, TaskTransport, Waiting,
};
use futures::task::{Context, Poll};
use std::alloc::AllocError;
use std::net::SocketAddr;
use std::time::Duration;

impl<R, Tr: PollTransport<R, ()>, K: AsyncTlsConnector<Tr::Conn>> PollTransport<R, ()>
    for Secured<Tr, K> {
    ghost may_wait = { Tr.may_wait ⊎ K.may_wait };

    fn poll_connect(
        &mut self,
        rt: &R,
        w: &mut (),
        address: SocketAddr,
        limit: Option<Duration>,
    ) -> Poll<Connected<DataStream<Tr::Conn, K::Stream>>> {
        match self.below.poll_connect(rt, w, address, limit) {
            Poll::Ready(Ok(Ok(conn))) => Poll::Ready(Ok(Ok(DataStream::Tcp(conn)))),
            Poll::Ready(Ok(Err(fault))) => Poll::Ready(Ok(Err(fault))),
            Poll::Ready(Err(full)) => Poll::Ready(Err(full)),
            Poll::Pending => Poll::Pending,
        }
    }

    fn poll_listen(
        &mut self,
        rt: &R,
        w: &mut (),
        address: SocketAddr,
    ) -> Poll<Listening<Tr::Listener>> {
        self.below.poll_listen(rt, w, address)
    }

    fn poll_accept(
        &mut self,
        rt: &R,
        w: &mut (),
        listener: &mut Tr::Listener,
        deadline: Duration,
    ) -> Poll<Accepted<DataStream<Tr::Conn, K::Stream>>> {
        match self.below.poll_accept(rt, w, listener, deadline) {
            Poll::Ready(Ok(Ok((conn, peer)))) => Poll::Ready(Ok(Ok((DataStream::Tcp(conn), peer)))),
            Poll::Ready(Ok(Err(fault))) => Poll::Ready(Ok(Err(fault))),
            Poll::Ready(Err(full)) => Poll::Ready(Err(full)),
            Poll::Pending => Poll::Pending,
        }
    }

    fn poll_secure(
        &mut self,
        _rt: &R,
        _w: &mut (),
        conn: DataStream<Tr::Conn, K::Stream>,
    ) -> Poll<Handshaken<DataStream<Tr::Conn, K::Stream>>> {
        match &self.connector {
            Some((connector, domain)) => match conn.into_tcp_stream() {
                Ok(bare) => {
                    let connecting = connector.connect(domain.as_str(), bare);
                    self.resume(connecting)
                }
                Err(fault) => Poll::Ready(Ok(Err(fault))),
            },
            None => Poll::Ready(Ok(Ok(conn))),
        }
    }

    fn poll_secured(
        &mut self,
        _rt: &R,
        _w: &mut (),
    ) -> Poll<Handshaken<DataStream<Tr::Conn, K::Stream>>> {
        match self.connecting.take() {
            Some(connecting) => self.resume(connecting),
            None => Poll::Ready(Err(AllocError)),
        }
    }
}

impl<Tr: Network, K: AsyncTlsConnector<Tr::Conn>> Secured<Tr, K> {
    /// Resumes a handshake, and keeps it where it waits.
    fn resume(
        &mut self,
        mut connecting: K::Connecting,
    ) -> Poll<Handshaken<DataStream<Tr::Conn, K::Stream>>>
        ensures ends { IfReady result (λ made. IfOk made (λ outcome. ComesAs (K.may_answer
            connecting)
            (built_as (told_in_clear Tr.Conn.told K.Stream.told) outcome))) }
        ensures continues { Tr.Conn.tells → IfReady result (λ made. IfOk made (λ outcome. IfOk
            outcome
            (λ conn. Continues (K.handed connecting) (told_below Tr.Conn.told K.Stream.below
            conn)))) }
        ensures secures { Secures (told_in_clear Tr.Conn.told K.Stream.told) (λ _. Unit {0}) result }
        ensures waits { result ≡ Poll.Pending → K.may_wait }
        ensures below { self.new.below ≡ self.old.below }
        ensures over { self.new.over ≡ self.old.over }
        ensures connector { self.new.connector ≡ self.old.connector }
    {
        match K::poll(&mut connecting) {
            Poll::Ready(Ok(stream)) => Poll::Ready(Ok(Ok(DataStream::Ssl(stream)))),
            Poll::Ready(Err(text)) => {
                Poll::Ready(Ok(Err(FtpError::SecureError(Text::from_string(text)))))
            }
            Poll::Pending => {
                self.connecting = Some(connecting);
                Poll::Pending
            }
        }
    }
}

impl<Tr: TaskTransport, K: AsyncTlsConnector<Tr::Conn>> TaskTransport for Secured<Tr, K> {
    fn forget(&mut self) {
        self.connecting = None;
        self.below.forget();
    }

    fn poll_secure_ready(&mut self, cx: &mut Context<'_>) -> Waiting {
        match &mut self.connecting {
            Some(connecting) => K::poll_ready(connecting, cx),
            None => Waiting::Nothing,
        }
    }

    fn poll_connect_ready(&mut self, cx: &mut Context<'_>) -> Waiting {
        self.below.poll_connect_ready(cx)
    }

    fn poll_accept_ready(listener: &mut Tr::Listener, cx: &mut Context<'_>) -> Waiting {
        Tr::poll_accept_ready(listener, cx)
    }
}
