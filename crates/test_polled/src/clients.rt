//! The states of a client over tokio's sockets.

use crate::scene::{Scene, answered, came, command_waits, greeted, send, waits};
use std::alloc::AllocGlobal;
use std::io;
use std::io::{Read, Write};
use std::net::{Net, TcpListener, TcpStream};
use std::random::RandomSource;
use std::sync::Wait;
use std::test::Fail;
use std::time::{Clock, Duration};
use test_loopback::listening;

#[test]
fn a_state_that_waits_sends_its_line_and_lets_the_reply_come(rt: HostRuntime) -> Result<(), Fail> {
    let mut scene = greeted(&rt)?;
    let mut noop = scene.client.noop(&rt);
    let waits = command_waits(&rt, &mut scene.runtime, &mut noop);
    let sent = came(&mut scene.server, b"NOOP\r\n");
    let replied = send(&mut scene.server, b"200 ok\r\n221 bye\r\n");
    let first = answered(&rt, &mut scene.runtime, noop);
    let quit = scene.client.quit(&rt);
    let last = answered(&rt, &mut scene.runtime, quit);
    let quitted = came(&mut scene.server, b"QUIT\r\n");
    drop(scene);
    let held = [waits, sent, replied, quitted];
    assert_eq!(rt; (held, first, last), ([true; 4], 0, 0));
    Ok(())
}

/// The reply to PASV that names this port of 127.0.0.1, and the one that agrees to an upload.
pub fn write_passive(server: &mut TcpStream, port: u16) -> io::Result<()> {
    let (high, low) = (port / 256, port % 256);
    write!(server, "227 on (127,0,0,1,{high},{low})\r\n150 go on\r\n")
}

/// A download whose state is polled until its connect has come to this listener, and dropped then; whether it waited, and
/// whether the connection was closed.
fn dropped_connect<R>(rt: &R, scene: &mut Scene, listener: &TcpListener) -> io::Result<(bool, bool)>
where
    R: Net + Wait + Clock + RandomSource + AllocGlobal,
{
    listener.set_nonblocking(true)?;
    let mut opening = scene.client.retr_as_stream(rt, "a");
    for _ in 0..8 {
        let waited = waits(rt, &mut scene.runtime, &mut opening);
        if let Ok((mut data, _address)) = listener.accept() {
            drop(opening);
            data.set_nonblocking(false)?;
            data.set_read_timeout(Some(Duration::from_secs(5)))?;
            return Ok((waited, matches!(data.read(&mut [0u8; 1]), Ok(0))));
        }
    }
    Ok((false, false))
}

#[test]
fn a_connect_is_given_up_with_its_call(rt: HostRuntime) -> Result<(), Fail> {
    let mut scene = greeted(&rt)?;
    let (listener, address) = listening(&rt)?;
    write_passive(&mut scene.server, address.port())?;
    let (waited, closed) = dropped_connect(&rt, &mut scene, &listener)?;
    drop(scene);
    assert_eq!(rt; (waited, closed), (true, true));
    Ok(())
}
