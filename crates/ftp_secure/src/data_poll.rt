//! A connection that may be under TLS, as one that is polled, and in a task.

ghost use Rattle.ftp_secure.specs.Streams.{AnyFault, StreamNeeds};

use crate::data_stream::DataStream;
use crate::stream::{AsyncTlsStream, TlsStream};
use ftp_transport::{PollConn, TaskConn, Waiting};
use futures::task::{Context, Poll};
use std::io::ErrorKind;

impl<C: PollConn<()> + Drop, S: AsyncTlsStream<C>> PollConn<()> for DataStream<C, S> {
    ghost may_wait = { C.may_wait };

    ghost read_faults = { AnyFault C.read_faults S.read_faults };

    ghost write_faults = { λ told. AnyFault (C.write_faults told) (S.write_faults told) };

    fn poll_read(&mut self, w: &mut (), buffer: &mut [u8]) -> Result<Poll<usize>, ErrorKind> {
        match self {
            DataStream::Tcp(conn) => conn.poll_read(w, buffer),
            DataStream::Ssl(stream) => stream.poll_read(w, buffer),
            DataStream::Gone(gone) => gone.poll_read(w, buffer),
        }
    }

    fn poll_write(&mut self, w: &mut (), bytes: &[u8]) -> Result<Poll<usize>, ErrorKind> {
        match self {
            DataStream::Tcp(conn) => conn.poll_write(w, bytes),
            DataStream::Ssl(stream) => stream.poll_write(w, bytes),
            DataStream::Gone(gone) => gone.poll_write(w, bytes),
        }
    }
}

impl<C: TaskConn + Drop, S: TlsStream<C> + TaskConn> TaskConn for DataStream<C, S> {
    ghost needs = { StreamNeeds C.needs S.needs };

    fn poll_ready(&mut self, cx: &mut Context<'_>) -> Waiting {
        match self {
            DataStream::Tcp(conn) => conn.poll_ready(cx),
            DataStream::Ssl(stream) => stream.poll_ready(cx),
            DataStream::Gone(_) => Waiting::Nothing,
        }
    }
}
