//! A connection as it is, under TLS, and taken by a connector.

use crate::scene::number;
use ftp_base::types::{FtpError, FtpResult, Text};
use ftp_secure::{DataStream, SecureNetwork, SecureTransport, Secured, TlsStream};
use ftp_transport::{Conn, MemoryConn, MemoryTransport, Tells};
use rows_tls::{Seal, Sealed};
use std::alloc::{AllocError, Global};
use std::io::ErrorKind;
use std::test::Fail;

/// A connection that may be under the TLS of the tests.
pub type Stream = DataStream<MemoryConn, Sealed<MemoryConn>>;

/// The transport of the tests.
pub type Network = Secured<MemoryTransport, Seal>;

/// A connection over memory on which `plain` comes.
pub fn plain(alloc: Global) -> Result<MemoryConn, AllocError> {
    let mut conn = MemoryConn::new(alloc);
    conn.feed(b"plain")?;
    Ok(conn)
}

/// A connection on which `plain` comes, and `clear` under TLS, to a server of this name; or as it is, where that is none.
pub fn stream_to(alloc: Global, domain: Option<&str>) -> FtpResult<Box<Stream>> {
    let conn = DataStream::Tcp(plain(alloc)?);
    let stream = match domain {
        None => conn,
        Some(domain) => {
            let seal = Seal::new(alloc, "clear")?;
            <Network as SecureTransport<Seal>>::put_under(&seal, domain, conn)?
        }
    };
    Ok(Box::new(alloc, stream)?)
}

/// What is read of a connection in one read of up to eight bytes.
pub fn read<C: Conn>(
    alloc: Global,
    conn: &mut C,
) -> Result<Result<Vec<u8>, ErrorKind>, AllocError> {
    let mut buffer = [0; 8];
    match conn.read(&mut buffer) {
        Ok(count) => {
            let mut bytes = Vec::new(alloc);
            bytes.extend_from_slice(&buffer[..count])?;
            Ok(Ok(bytes))
        }
        Err(kind) => Ok(Err(kind)),
    }
}

/// Whether one read of a connection returns these bytes, and a write of `sent` consumes them all.
fn carries(alloc: Global, stream: &mut Stream, bytes: &[u8]) -> Result<(bool, bool), AllocError> {
    let gives = match read(alloc, stream)? {
        Ok(came) => came.as_slice() == bytes,
        Err(_) => false,
    };
    Ok((gives, matches!(stream.write(b"sent"), Ok(4))))
}

/// How many bytes were received and sent on the connection itself; none where it was taken.
fn counts_below(stream: &Stream) -> Option<(usize, usize)> {
    match stream.get_ref() {
        Some(conn) => Some((conn.received(), conn.sent().len())),
        None => None,
    }
}

#[test]
fn a_plain_connection_is_read_and_written_as_it_is(rt: HostRuntime) -> Result<(), Fail> {
    let mut stream = stream_to(rt.alloc(), None)?;
    let came = carries(rt.alloc(), &mut stream, b"plain")?;
    let below = counts_below(&stream);
    drop(stream);
    assert_eq!(rt; (came, below), ((true, true), Some((5, 4))));
    Ok(())
}

#[test]
fn a_secured_one_is_read_and_written_in_clear(rt: HostRuntime) -> Result<(), Fail> {
    let mut stream = stream_to(rt.alloc(), Some("ftp.example"))?;
    let came = carries(rt.alloc(), &mut stream, b"clear")?;
    let below = counts_below(&stream);
    drop(stream);
    assert_eq!(rt; (came, below), ((true, true), Some((0, 0))));
    Ok(())
}

/// What a read, a write and a close of a connection that a connector took return.
fn calls_of_one_gone() -> (
    Result<usize, ErrorKind>,
    Result<usize, ErrorKind>,
    Result<(), ErrorKind>,
) {
    let mut gone = <Network as SecureNetwork<Seal>>::gone();
    (gone.read(&mut [0; 8]), gone.write(b"sent"), gone.close())
}

#[test]
fn one_that_a_connector_took_is_not_connected(rt: HostRuntime) -> Result<(), Fail> {
    let came = calls_of_one_gone();
    let due = (
        Err(ErrorKind::NotConnected),
        Err(ErrorKind::NotConnected),
        Ok(()),
    );
    assert_eq!(rt; came, due);
    let below = counts_below(&<Network as SecureNetwork<Seal>>::gone());
    assert_eq!(rt; below, None);
    Ok(())
}

/// How many bytes are left to read on the connection that is taken from under TLS, to a server of this name; the number of
/// the error where it can't be.
fn taken_back(alloc: Global, domain: Option<&str>) -> Result<(usize, u8), FtpError> {
    let stream = stream_to(alloc, domain)?;
    match Box::into_inner(stream).into_tcp_stream() {
        Ok(conn) => Ok((conn.unread(), 0)),
        Err(fault) => Ok((0, fault.number())),
    }
}

#[test]
fn the_connection_is_taken_back_from_under_tls(rt: HostRuntime) -> Result<(), Fail> {
    let plain = taken_back(rt.alloc(), None)?;
    let sealed = taken_back(rt.alloc(), Some("ftp.example"))?;
    let stuck = taken_back(rt.alloc(), Some("ftp.example."))?;
    let gone = number(<Network as SecureNetwork<Seal>>::gone().into_tcp_stream());
    assert_eq!(rt; (plain, sealed, stuck, gone), ((5, 0), (5, 0), (0, 11), 1));
    Ok(())
}

/// How many bytes are left to read on the connection below a stream, once four more have come on it.
fn fed_below<S: TlsStream<MemoryConn>>(mut stream: S) -> FtpResult<usize> {
    stream.mut_ref().feed(b"more")?;
    Ok(stream.tcp_stream()?.unread())
}

#[test]
fn the_connection_below_can_be_changed(rt: HostRuntime) -> Result<(), Fail> {
    let stream = stream_to(rt.alloc(), Some("ftp.example"))?;
    let count = match Box::into_inner(stream) {
        DataStream::Ssl(stream) => fed_below(stream)?,
        _ => 0,
    };
    assert_eq!(rt; count, 9);
    Ok(())
}

/// The text of a connector's error for a server of this name, and the number of the error.
fn refused(alloc: Global, domain: &str) -> FtpResult<(Option<Text>, u8)> {
    match stream_to(alloc, Some(domain)) {
        Ok(_) => Ok((None, 0)),
        Err(FtpError::SecureError(text)) => Ok((Some(text), 9)),
        Err(fault) => Ok((None, fault.number())),
    }
}

#[test]
fn a_refusal_comes_back_with_its_text(rt: HostRuntime) -> Result<(), Fail> {
    let (text, number) = refused(rt.alloc(), "localhost")?;
    let is_due = match &text {
        Some(text) => text.as_str() == "localhost",
        None => false,
    };
    drop(text);
    assert_eq!(rt; (is_due, number), (true, 9));
    Ok(())
}
