//! Blocking clients over memory whose data connections a peer opens, or a caller's builder makes.

use crate::scene::{MemoryClient, boxed, conn_with};
use ftp_base::encoding::Utf8Encoding;
use ftp_base::types::FtpResult;
use ftp_blocking::ImplFtpStream;
use ftp_session::session::{NoTlsConnector, Session};
use ftp_transport::{Asked, MemoryConn, MemoryTransport, PassiveStreamBuilder, Request, Supply};
use std::alloc::Global;
use std::net::SocketAddr;
use std::sync::Wait;
use std::test::Fail;
use std::time::Duration;

/// Adds what a transport was asked for.
fn add_asked(text: &mut String, asked: &[Asked]) -> Result<(), Fail> {
    for one in asked {
        match one.request {
            Request::Connect(address, _limit) => write!(text, "connect {address}|")?,
            Request::Listen(address) => write!(text, "listen {}|", address.ip())?,
            Request::Accept(limit) => write!(text, "accept {}|", limit.as_secs())?,
            Request::Build(address) => write!(text, "build {address}|")?,
        }
    }
    Ok(())
}

/// The server, and the peer of the control connection.
fn server() -> SocketAddr {
    SocketAddr::from(([192, 0, 2, 7], 21))
}

/// A client whose server accepts an active download, and opens its data connection.
fn approached(alloc: Global) -> FtpResult<Box<MemoryClient>> {
    let mut transport = MemoryTransport::new(alloc);
    transport.supply(Supply::Peer(server(), conn_with(alloc, b"hello")?))?;
    let near = SocketAddr::from(([192, 0, 2, 1], 50_000));
    let mut conn = MemoryConn::between(alloc, near, server());
    conn.feed(b"220 r\r\n200 ok\r\n150 b\r\n226 d\r\n")?;
    let session = Session::connect_with_stream(alloc, transport, conn)?;
    boxed(alloc, ImplFtpStream::new(alloc, session)?)
}

/// How many bytes a download of an active client has that waits seven seconds, and what its transport was asked for.
fn fetched<R: Wait + AllocGlobal>(rt: &R) -> Result<(usize, String), Fail> {
    let client = Box::into_inner(approached(rt.alloc())?);
    let active = boxed(rt.alloc(), client.active_mode(rt, Duration::from_secs(7)))?;
    let count = active.retr_as_buffer(rt, "a")?.len();
    let mut text = String::new(rt.alloc());
    add_asked(&mut text, active.get_ref(rt).transport().requests())?;
    Ok((count, text))
}

#[test]
fn an_active_client_listens_and_waits_as_long_as_it_was_set_to(
    rt: HostRuntime,
) -> Result<(), Fail> {
    let (count, asked) = fetched(&rt)?;
    assert_eq!(rt; (count, asked.as_str()), (5, "listen 192.0.2.1|accept 7|"));
    Ok(())
}

/// A builder of connections on which three bytes come.
#[derive(Drop)]
struct Builds {
    alloc: Global,
}

impl PassiveStreamBuilder<MemoryConn> for Builds {
    ghost answers = { λ _ _ _. Unit {0} };

    fn build(&self, _address: SocketAddr) -> FtpResult<MemoryConn> {
        Ok(conn_with(self.alloc, b"abc")?)
    }
}

/// A client with such a builder.
type Building = ImplFtpStream<MemoryTransport, NoTlsConnector, Utf8Encoding, Builds>;

/// A client whose server accepts a download, and whose transport has no data connection.
fn accepted(alloc: Global) -> FtpResult<Box<Building>> {
    let conn = conn_with(
        alloc,
        b"220 r\r\n227 x (10,0,0,1,4,0).\r\n150 b\r\n226 d\r\n",
    )?;
    let session = Session::connect_with_stream(alloc, MemoryTransport::new(alloc), conn)?;
    boxed(alloc, ImplFtpStream::new(alloc, session)?)
}

/// How many bytes a download has of a client that was handed a builder, by either method, and what was asked for.
fn built<R: Wait + AllocGlobal>(rt: &R, sets: bool) -> Result<(usize, String), Fail> {
    let mut client = accepted(rt.alloc())?;
    let builder = Builds { alloc: rt.alloc() };
    if sets {
        client.set_passive_stream_builder(rt, builder);
    } else {
        let plain = Box::into_inner(client);
        client = boxed(rt.alloc(), plain.passive_stream_builder(rt, builder))?;
    }
    let count = client.retr_as_buffer(rt, "a")?.len();
    let mut text = String::new(rt.alloc());
    add_asked(&mut text, client.get_ref(rt).transport().requests())?;
    Ok((count, text))
}

#[test]
fn a_builder_makes_the_passive_data_connections(rt: HostRuntime) -> Result<(), Fail> {
    let (first, asked_first) = built(&rt, true)?;
    let (second, asked_second) = built(&rt, false)?;
    let due = "build 10.0.0.1:1024|";
    assert_eq!(rt;
        (
            (first, asked_first.as_str()),
            (second, asked_second.as_str())
        ),
        ((3, due), (3, due))
    );
    Ok(())
}
