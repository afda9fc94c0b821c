//! Transfers of a polled client over tokio's sockets: what they tell, and how their client aborts them.

use crate::clients::write_passive;
use crate::scene::{Live, Scene, done, greeted, next};
use ftp_base::types::FtpResult;
use ftp_polled::TransferStream;
use ftp_tokio::TokioTransport;
use ftp_transfer::Direction;
use ftp_transport::Tells;
use std::alloc::AllocGlobal;
use std::io;
use std::io::{Read, Write};
use std::net::{Net, SocketAddr, TcpListener, TcpStream};
use std::random::RandomSource;
use std::sync::Wait;
use std::test::Fail;
use std::time::{Clock, Duration};
use test_loopback::listening;

/// Opens an upload or a download whose data connection goes to this port.
fn opened<R>(rt: &R, scene: &mut Scene, port: u16, uploads: bool) -> Result<Live, Fail>
where
    R: Net + Wait + Clock + RandomSource + AllocGlobal,
{
    write_passive(&mut scene.server, port)?;
    let opening = if uploads {
        scene.client.put_with_stream(rt, "a")
    } else {
        scene.client.retr_as_stream(rt, "a")
    };
    let transfer: FtpResult<TransferStream<TokioTransport>> = scene
        .runtime
        .local()
        .block_on(rt, opening)?;
    Ok(Box::new(rt.alloc(), transfer?)?)
}

/// The four lines that come on a socket. They are waited for: a socket may hold back a line until the one before it was
/// acknowledged (RFC 9293, section 3.7.4).
fn received(socket: &mut TcpStream) -> io::Result<[u8; 26]> {
    let mut lines = [0u8; 26];
    socket.set_read_timeout(Some(Duration::from_secs(5)))?;
    socket.read_exact(&mut lines)?;
    Ok(lines)
}

/// What a transfer tells: which way it goes, and where its connection leads to; that address; the numbers of the errors of its
/// abort and of the command after it; and what was sent.
type Came = (
    (Direction, Option<SocketAddr>),
    Option<SocketAddr>,
    [u8; 2],
    [u8; 26],
);

/// Opens a transfer, and aborts it.
fn aborted<R>(rt: &R, uploads: bool) -> Result<Came, Fail>
where
    R: Net<Listener = TcpListener, Stream = TcpStream> + Wait + Clock + RandomSource + AllocGlobal,
{
    let mut scene = greeted(rt)?;
    let (_listener, address) = listening(rt)?;
    let mut transfer = opened(rt, &mut scene, address.port(), uploads)?;
    let told = (transfer.direction(), transfer.get_mut().peer_addr().ok());
    // RFC 959, section 5.4
    scene.server.write_all(b"426 a\r\n226 b\r\n200 ok\r\n")?;
    let abort = scene.client.abort(rt, Box::into_inner(transfer));
    let abort = done(rt, &mut scene.runtime, abort);
    let after = next(rt, &mut scene);
    let sent = received(&mut scene.server)?;
    Ok((told, Some(address), [abort, after], sent))
}

#[test]
fn a_client_aborts_its_download_and_goes_on(rt: HostRuntime) -> Result<(), Fail> {
    let (told, address, numbers, sent) = aborted(&rt, false)?;
    let due = *b"PASV\r\nRETR a\r\nABOR\r\nNOOP\r\n";
    assert_eq!(rt;
        (told, numbers, sent),
        ((Direction::Download, address), [0, 0], due)
    );
    Ok(())
}

#[test]
fn a_client_aborts_its_upload_and_goes_on(rt: HostRuntime) -> Result<(), Fail> {
    let (told, address, numbers, sent) = aborted(&rt, true)?;
    let due = *b"PASV\r\nSTOR a\r\nABOR\r\nNOOP\r\n";
    assert_eq!(rt;
        (told, numbers, sent),
        ((Direction::Upload, address), [0, 0], due)
    );
    Ok(())
}
