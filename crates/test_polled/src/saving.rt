//! Downloads to a writer, uploads, and what they report their progress to.

use crate::clients::write_passive;
use crate::scene::{Scene, answered, done, greeted, next};
use ftp_base::types::{FileType, FtpResult};
use ftp_polled::{AllowStdIo, Sink};
use ftp_session::session::Failure;
use ftp_transfer::{NoProgress, Progress};
use std::alloc::AllocGlobal;
use std::io::{ErrorKind, Read, Write};
use std::net::{Net, SocketAddr, TcpListener, TcpStream};
use std::random::RandomSource;
use std::sync::Wait;
use std::test::Fail;
use std::time::Clock;
use std::{io, thread};
use test_loopback::listening;

/// What was reported last.
#[derive(Drop)]
struct Told(u64);

impl Progress for Told {
    fn went(&mut self, so_far: u64) {
        self.0 = so_far;
    }
}

/// Sends these bytes on the next connection, and closes it.
fn give(listener: &TcpListener, bytes: &[u8]) -> io::Result<()> {
    let (mut peer, _address) = listener.accept()?;
    peer.write_all(bytes)
}

/// A client whose server accepts a data command, whose data connection goes to this port, and the next command.
fn agreed<R>(rt: &R, port: u16) -> Result<Box<Scene>, Fail>
where
    R: Net<Listener = TcpListener, Stream = TcpStream> + Wait + Clock + RandomSource + AllocGlobal,
{
    let mut scene = greeted(rt)?;
    write_passive(&mut scene.server, port)?;
    scene.server.write_all(b"226 done\r\n200 ok\r\n")?;
    Ok(scene)
}

/// A download to a `Vec`, by `write_to` or by a sink that reads it: how many bytes it returns and reports, and the number of
/// the error of the command after it.
fn saved<R>(
    rt: &R,
    scene: &mut Scene,
    bytes: &mut Vec<u8>,
    by_sink: bool,
) -> Result<(u64, u64, u8), Fail>
where
    R: Net + Wait + Clock + RandomSource + AllocGlobal,
{
    let mut told = Told(0);
    let write = if by_sink {
        let sink = Sink::new(rt.alloc(), bytes, &mut told);
        scene.client.retr(rt, "a", sink)
    } else {
        scene.client.write_to(rt, "a", bytes, &mut told)
    };
    let count: FtpResult<u64> = scene.runtime.local().block_on(rt, write)?;
    let answer = next(rt, scene);
    Ok((count?, told.0, answer))
}

#[test]
fn a_download_goes_to_a_writer_and_tells_how_far_it_has_come(rt: HostRuntime) -> Result<(), Fail> {
    for by_sink in [false, true] {
        let (listener, address) = listening(&rt)?;
        let giving = thread::spawn(&rt, move || give(&listener, b"hello"))?;
        let mut scene = agreed(&rt, address.port())?;
        let mut bytes = Vec::new(rt.alloc());
        let came = saved(&rt, &mut scene, &mut bytes, by_sink)?;
        drop(scene);
        let gave = giving.join(&rt).is_ok();
        assert_eq!(rt;
            (bytes.as_slice(), came, gave),
            (&b"hello"[..], (5, 5, 0), true)
        );
    }
    Ok(())
}

/// A writer of `std` that takes nothing.
#[derive(Drop)]
struct Full;

impl Write for Full {
    fn write(&mut self, _buf: &[u8]) -> io::Result<usize> {
        Ok(0)
    }

    fn flush(&mut self) -> io::Result<()> {
        Ok(())
    }
}

/// Where the client's last failure was.
fn failure<R>(rt: &R, scene: &mut Scene) -> Result<Option<Failure>, Fail>
where
    R: Net + Wait + Clock + RandomSource + AllocGlobal,
{
    let place: FtpResult<Option<Failure>> = scene
        .runtime
        .local()
        .block_on(rt, scene.client.last_failure())?;
    Ok(place?)
}

#[test]
fn a_writer_that_fails_leaves_its_download(rt: HostRuntime) -> Result<(), Fail> {
    let (listener, address) = listening(&rt)?;
    let giving = thread::spawn(&rt, move || give(&listener, b"hello"))?;
    let mut scene = agreed(&rt, address.port())?;
    let write = scene
        .client
        .write_to(&rt, "a", AllowStdIo(Full), NoProgress);
    let full = done(&rt, &mut scene.runtime, write);
    let place = failure(&rt, &mut scene)?;
    let answer = next(&rt, &mut scene);
    drop(scene);
    let gave = giving.join(&rt).is_ok();
    assert_eq!(rt;
        (full, place, answer, gave),
        (1, Some(Failure::Caller), 0, true)
    );
    Ok(())
}

/// How many bytes come on the next connection, until it is closed.
fn taken<R: AllocGlobal>(rt: &R, listener: &TcpListener) -> io::Result<usize> {
    let (mut peer, _address) = listener.accept()?;
    let mut bytes = Vec::new(rt.alloc());
    peer.read_to_end(&mut bytes)
}

/// An upload of a text by a `std` reader, in the place of a file or at its end: how many bytes it returns and reports.
fn put<R>(rt: &R, scene: &mut Scene, appends: bool) -> Result<(u64, u64), Fail>
where
    R: Net + Wait + Clock + RandomSource + AllocGlobal,
{
    let mut told = Told(0);
    let source = AllowStdIo(&b"a\nb"[..]);
    let upload = if appends {
        scene.client.append_file_with(rt, "a", source, &mut told)
    } else {
        scene.client.put_file_with(rt, "a", source, &mut told)
    };
    let count: FtpResult<u64> = scene.runtime.local().block_on(rt, upload)?;
    Ok((count?, told.0))
}

#[test]
fn an_upload_tells_how_many_bytes_have_gone_out(rt: HostRuntime) -> Result<(), Fail> {
    for appends in [false, true] {
        let (listener, address) = listening(&rt)?;
        let taking = thread::spawn(&rt, move || taken(&rt, &listener))?;
        let mut scene = agreed(&rt, address.port())?;
        let came = put(&rt, &mut scene, appends)?;
        drop(scene);
        let took = taking.join(&rt)?;
        // CR is put before the LF: RFC 959, section 3.1.1.1
        assert_eq!(rt; (came, took), ((4, 4), 4));
    }
    Ok(())
}

/// A source that fails after so many bytes; and the most that it was asked for at once.
#[derive(Drop)]
struct Failing {
    left: usize,
    most: usize,
}

impl Read for Failing {
    fn read(&mut self, buf: &mut [u8]) -> io::Result<usize> {
        self.most = self.most.max(buf.len());
        if self.left == 0 {
            return Err(ErrorKind::BrokenPipe.into());
        }
        let count = buf.len().min(self.left);
        self.left -= count;
        Ok(count)
    }
}

/// An upload from a source that fails after 150,000 bytes: the number of its error, the most that the source was asked
/// for at once, and what was reported last.
fn broken_off<R>(rt: &R, port: u16) -> Result<(u8, usize, u64), Fail>
where
    R: Net<Listener = TcpListener, Stream = TcpStream> + Wait + Clock + RandomSource + AllocGlobal,
{
    let mut scene = greeted(rt)?;
    scene.server.write_all(b"200 ok\r\n")?;
    write_passive(&mut scene.server, port)?;
    let binary = scene.client.transfer_type(rt, FileType::Binary);
    let binary = answered(rt, &mut scene.runtime, binary);
    let mut told = Told(0);
    let mut source = Failing {
        left: 150_000,
        most: 0,
    };
    let upload = scene
        .client
        .put_file_with(rt, "a", AllowStdIo(&mut source), &mut told);
    let refused = done(rt, &mut scene.runtime, upload);
    drop(scene);
    Ok((refused.saturating_add(binary), source.most, told.0))
}

#[test]
fn all_that_a_source_gave_goes_out_before_its_error(rt: HostRuntime) -> Result<(), Fail> {
    let (listener, address) = listening(&rt)?;
    let taking = thread::spawn(&rt, move || taken(&rt, &listener))?;
    let came = broken_off(&rt, address.port())?;
    let took = taking.join(&rt)?;
    assert_eq!(rt; (came, took), ((1, 8_192, 150_000), 150_000));
    Ok(())
}

/// The number of the error of a download for which nobody listens at this address, and whether the address is recorded.
fn refused<R>(rt: &R, address: SocketAddr) -> Result<(u8, bool), Fail>
where
    R: Net<Listener = TcpListener, Stream = TcpStream> + Wait + Clock + RandomSource + AllocGlobal,
{
    let mut scene = agreed(rt, address.port())?;
    let fetch = scene.client.retr_as_buffer(rt, "a");
    let refused = done(rt, &mut scene.runtime, fetch);
    let place = failure(rt, &mut scene)?;
    Ok((refused, place == Some(Failure::Data(Some(address)))))
}

#[test]
fn where_a_data_connection_failed_is_told(rt: HostRuntime) -> Result<(), Fail> {
    let (listener, address) = listening(&rt)?;
    drop(listener);
    let came = refused(&rt, address)?;
    assert_eq!(rt; came, (1, true));
    Ok(())
}
