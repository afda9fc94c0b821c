//! An upload that `tokio`'s own writing writes.

use crate::clients::write_passive;
use crate::scene::{Live, Scene, finished, greeted};
use ftp_base::types::FtpResult;
use ftp_polled::TransferStream;
use ftp_tokio::TokioTransport;
use std::alloc::AllocGlobal;
use std::io;
use std::io::{Read, Write};
use std::net::{Net, TcpListener, TcpStream};
use std::random::RandomSource;
use std::sync::Wait;
use std::test::Fail;
use std::time::Clock;
use test_loopback::listening;
use tokio::io::{shutdown, write_all};

/// An upload whose data connection goes to this port.
fn uploading<R>(rt: &R, scene: &mut Scene, port: u16) -> Result<Live, Fail>
where
    R: Net + Wait + Clock + RandomSource + AllocGlobal,
{
    write_passive(&mut scene.server, port)?;
    let opening = scene.client.put_with_stream(rt, "a");
    let upload: FtpResult<TransferStream<TokioTransport>> = scene
        .runtime
        .local()
        .block_on(rt, opening)?;
    Ok(Box::new(rt.alloc(), upload?)?)
}

/// Writes a text to a transfer, and ends the writing, which leaves the transfer open.
fn write_whole<R>(rt: &R, scene: &mut Scene, transfer: &mut Live, text: &str) -> io::Result<()>
where
    R: Net + Wait + Clock + RandomSource + AllocGlobal,
{
    let writing = write_all(&mut **transfer, text.as_bytes());
    let (writer, _rest) = scene.runtime.local().block_on(rt, writing)??;
    scene.runtime.local().block_on(rt, shutdown(writer))??;
    Ok(())
}

/// What came on the next connection, until it was closed.
fn received<R: AllocGlobal>(rt: &R, listener: &TcpListener) -> io::Result<Vec<u8>> {
    let (mut peer, _address) = listener.accept()?;
    let mut bytes = Vec::new(rt.alloc());
    peer.read_to_end(&mut bytes)?;
    Ok(bytes)
}

#[test]
fn an_upload_is_written_by_what_writes_to_tokios_writers(rt: HostRuntime) -> Result<(), Fail> {
    let mut scene = greeted(&rt)?;
    let (listener, address) = listening(&rt)?;
    let mut transfer = uploading(&rt, &mut scene, address.port())?;
    write_whole(&rt, &mut scene, &mut transfer, "a line\r\n")?;
    scene.server.write_all(b"226 done\r\n")?;
    let finished = finished(&rt, &mut scene, transfer);
    let bytes = received(&rt, &listener)?;
    drop(scene);
    assert_eq!(rt; (finished, bytes.as_slice()), (0, b"a line\r\n".as_slice()));
    Ok(())
}
