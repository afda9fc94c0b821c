//! A connection that may be under TLS, as one whose calls block.

ghost use Rattle.ftp_secure.specs.Streams.{AnyFault, told_in_clear};

use crate::data_stream::DataStream;
use crate::stream::TlsStream;
use ftp_transport::{Conn, Tells};
use std::io::ErrorKind;
use std::net::SocketAddr;

impl<C: Tells + Drop, S: TlsStream<C>> Tells for DataStream<C, S> {
    ghost tells = { C.tells × S.tells };

    ghost told = { told_in_clear C.told S.told };

    fn begin(&mut self) {
        match self {
            DataStream::Tcp(conn) => conn.begin(),
            DataStream::Ssl(stream) => stream.begin(),
            DataStream::Gone(gone) => gone.begin(),
        }
    }

    ghost end_faults = { AnyFault C.end_faults S.end_faults };

    fn local_addr(&mut self) -> Result<SocketAddr, ErrorKind> {
        match self {
            DataStream::Tcp(conn) => conn.local_addr(),
            DataStream::Ssl(stream) => stream.local_addr(),
            DataStream::Gone(gone) => gone.local_addr(),
        }
    }

    fn peer_addr(&mut self) -> Result<SocketAddr, ErrorKind> {
        match self {
            DataStream::Tcp(conn) => conn.peer_addr(),
            DataStream::Ssl(stream) => stream.peer_addr(),
            DataStream::Gone(gone) => gone.peer_addr(),
        }
    }

    fn close(&mut self) -> Result<(), ErrorKind> {
        match self {
            DataStream::Tcp(conn) => conn.close(),
            DataStream::Ssl(stream) => stream.close(),
            DataStream::Gone(gone) => gone.close(),
        }
    }
}

impl<C: Conn + Drop, S: TlsStream<C> + Conn> Conn for DataStream<C, S> {
    ghost blocking_read_faults = { AnyFault C.blocking_read_faults S.blocking_read_faults };

    ghost blocking_write_faults = { λ told.
        AnyFault (C.blocking_write_faults told) (S.blocking_write_faults told) };

    fn read(&mut self, buffer: &mut [u8]) -> Result<usize, ErrorKind> {
        match self {
            DataStream::Tcp(conn) => conn.read(buffer),
            DataStream::Ssl(stream) => stream.read(buffer),
            DataStream::Gone(gone) => gone.read(buffer),
        }
    }

    fn write(&mut self, bytes: &[u8]) -> Result<usize, ErrorKind> {
        match self {
            DataStream::Tcp(conn) => conn.write(bytes),
            DataStream::Ssl(stream) => stream.write(bytes),
            DataStream::Gone(gone) => gone.write(bytes),
        }
    }
}
