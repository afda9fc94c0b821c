//! Downloads of what follows an offset, over tokio's sockets.

use crate::clients::write_passive;
use crate::scene::{Scene, came, done, greeted, next, send, waits};
use ftp_base::types::FtpResult;
use ftp_transfer::{NoProgress, Progress};
use std::alloc::AllocGlobal;
use std::io::Write;
use std::net::{Net, TcpListener};
use std::random::RandomSource;
use std::sync::Wait;
use std::test::Fail;
use std::time::Clock;
use std::{io, thread};
use test_loopback::listening;

/// What was reported last.
#[derive(Drop)]
struct Told(u64);

impl Progress for Told {
    fn went(&mut self, so_far: u64) {
        self.0 = so_far;
    }
}

/// Sends the end of a file on the next connection, and closes it.
fn give(listener: &TcpListener) -> io::Result<()> {
    let (mut peer, _address) = listener.accept()?;
    peer.write_all(b"lo")
}

/// A download from an offset, after another offset was set: how many bytes came, the place that was reported, and the
/// number of the error of the command after it.
fn downloaded<R>(rt: &R, scene: &mut Scene, offset: u64) -> Result<(u64, u64, u8), Fail>
where
    R: Net + Wait + Clock + RandomSource + AllocGlobal,
{
    let before = scene.client.resume_transfer(rt, 7);
    let set = done(rt, &mut scene.runtime, before);
    let mut bytes = Vec::new(rt.alloc());
    let mut told = Told(0);
    let download = scene
        .client
        .download_to(rt, "f", &mut bytes, offset, &mut told);
    let count: FtpResult<u64> = scene.runtime.local().block_on(rt, download)?;
    Ok((count?, told.0, next(rt, scene).saturating_add(set)))
}

#[test]
fn a_download_begins_at_its_offset_and_tells_the_place_in_the_file(
    rt: HostRuntime,
) -> Result<(), Fail> {
    let (listener, address) = listening(&rt)?;
    let giving = thread::spawn(&rt, move || give(&listener))?;
    let mut scene = greeted(&rt)?;
    let (high, low) = (address.port() / 256, address.port() % 256);
    write!(scene.server, "227 on (127,0,0,1,{high},{low})\r\n")?;
    scene
        .server
        .write_all(b"350 from 3\r\n150 b\r\n226 done\r\n200 ok\r\n")?;
    let came_of_it = downloaded(&rt, &mut scene, 3)?;
    // the offset of before isn't sent
    let sent = came(&mut scene.server, b"PASV\r\nREST 3\r\nRETR f\r\nNOOP\r\n");
    drop(scene);
    let gave = giving.join(&rt).is_ok();
    assert_eq!(rt; (came_of_it, sent, gave), ((2, 5, 0), true, true));
    Ok(())
}

#[test]
fn a_download_of_all_sends_no_offset(rt: HostRuntime) -> Result<(), Fail> {
    let (listener, address) = listening(&rt)?;
    let giving = thread::spawn(&rt, move || give(&listener))?;
    let mut scene = greeted(&rt)?;
    write_passive(&mut scene.server, address.port())?;
    scene.server.write_all(b"226 done\r\n200 ok\r\n")?;
    let came_of_it = downloaded(&rt, &mut scene, 0)?;
    let sent = came(&mut scene.server, b"PASV\r\nRETR f\r\nNOOP\r\n");
    drop(scene);
    let gave = giving.join(&rt).is_ok();
    assert_eq!(rt; (came_of_it, sent, gave), ((2, 2, 0), true, true));
    Ok(())
}

/// The number of the error of a download from an offset, of one of another name after it, and of the command after that.
fn refused<R>(rt: &R, scene: &mut Scene) -> (u8, u8, u8)
where
    R: Net + Wait + Clock + RandomSource + AllocGlobal,
{
    let mut bytes = Vec::new(rt.alloc());
    let download = scene.client.download_to(rt, "f", &mut bytes, 3, NoProgress);
    let first = done(rt, &mut scene.runtime, download);
    let whole = scene.client.retr_as_buffer(rt, "g");
    let second = done(rt, &mut scene.runtime, whole);
    (first, second, next(rt, scene))
}

#[test]
fn an_offset_that_is_refused_is_not_left(rt: HostRuntime) -> Result<(), Fail> {
    let (_listener, address) = listening(&rt)?;
    let mut scene = greeted(&rt)?;
    let (high, low) = (address.port() / 256, address.port() % 256);
    write!(scene.server, "227 on (127,0,0,1,{high},{low})\r\n")?;
    scene.server.write_all(b"502 no\r\n425 no\r\n200 ok\r\n")?;
    let numbers = refused(&rt, &mut scene);
    let sent = came(&mut scene.server, b"PASV\r\nREST 3\r\nPASV\r\nNOOP\r\n");
    drop(scene);
    assert_eq!(rt; (numbers, sent), ((10, 10, 0), true));
    Ok(())
}

/// A download from an offset that waits for the last reply of a transfer that was left, and is dropped; whether it waited.
fn dropped_download<R>(rt: &R, scene: &mut Scene) -> bool
where
    R: Net + Wait + Clock + RandomSource + AllocGlobal,
{
    let opening = scene.client.retr_as_stream(rt, "a");
    let opened = done(rt, &mut scene.runtime, opening);
    let mut bytes = Vec::new(rt.alloc());
    let mut download = scene.client.download_to(rt, "f", &mut bytes, 3, NoProgress);
    waits(rt, &mut scene.runtime, &mut download) && opened == 0
}

#[test]
fn a_download_is_dropped_before_its_offset_is_set(rt: HostRuntime) -> Result<(), Fail> {
    let (listener, address) = listening(&rt)?;
    let giving = thread::spawn(&rt, move || give(&listener))?;
    let mut scene = greeted(&rt)?;
    write_passive(&mut scene.server, address.port())?;
    let waited = dropped_download(&rt, &mut scene);
    let replied = send(&mut scene.server, b"226 left\r\n425 no\r\n");
    let whole = scene.client.retr_as_buffer(&rt, "g");
    let refused = done(&rt, &mut scene.runtime, whole);
    let sent = came(&mut scene.server, b"PASV\r\nRETR a\r\nPASV\r\n");
    drop(scene);
    let gave = giving.join(&rt).is_ok();
    assert_eq!(rt;
        (waited, replied, refused, sent, gave),
        (true, true, 10, true, true)
    );
    Ok(())
}
