//! Calls that are dropped in the midst of their replies: each piece of the server's bytes is written before the polls that
//! read it.

use crate::clients::write_passive;
use crate::scene::{Call, Scene, answered, came, command_waits, greeted, is_silent, send, waits};
use ftp_base::status::Status;
use ftp_base::types::Response;
use std::alloc::AllocGlobal;
use std::io;
use std::net::{Net, TcpListener, TcpStream};
use std::random::RandomSource;
use std::sync::Wait;
use std::test::Fail;
use std::time::Clock;
use test_loopback::listening;

/// Two commands, the first of which is dropped while it waits for its reply and the second for the lock: whether both
/// waited, and the number of the second's error.
fn second_of_two<R>(rt: &R, scene: &mut Scene) -> (bool, u8)
where
    R: Net + Wait + Clock + RandomSource + AllocGlobal,
{
    let mut first = scene.client.noop(rt);
    let mut second = scene.client.noop(rt);
    let first_waits = command_waits(rt, &mut scene.runtime, &mut first);
    let second_waits = command_waits(rt, &mut scene.runtime, &mut second);
    drop(first);
    let replied = send(&mut scene.server, b"550 no\r\n200 ok\r\n");
    let answer = answered(rt, &mut scene.runtime, second);
    (first_waits && second_waits && replied, answer)
}

#[test]
fn a_state_that_is_dropped_lets_the_lock_go_and_its_reply_is_not_the_next_ones(
    rt: HostRuntime,
) -> Result<(), Fail> {
    let mut scene = greeted(&rt)?;
    let (waited, answer) = second_of_two(&rt, &mut scene);
    let sent = came(&mut scene.server, b"NOOP\r\nNOOP\r\n");
    drop(scene);
    assert_eq!(rt; (waited, answer, sent), (true, 0, true));
    Ok(())
}

/// A read of one reply.
type Reading<'r, R> = Call<'r, R, Response>;

/// Polls a read once, and drops it; whether it waited.
fn dropped<R>(rt: &R, scene: &mut Scene) -> bool
where
    R: Net + Wait + Clock + RandomSource + AllocGlobal,
{
    let mut read: Reading<'_, R> = scene.client.read_response(rt, Status::CommandOk);
    waits(rt, &mut scene.runtime, &mut read)
}

/// Whether the next reply that is read has these bytes.
fn reads<R>(rt: &R, scene: &mut Scene, due: &[u8]) -> bool
where
    R: Net + Wait + Clock + RandomSource + AllocGlobal,
{
    let read = scene.client.read_response(rt, Status::CommandOk);
    let Ok(answer) = scene.runtime.local().block_on(rt, read) else {
        return false;
    };
    let same = match &answer {
        Ok(reply) => reply.body.as_slice() == due,
        Err(_) => false,
    };
    drop(answer);
    same
}

#[test]
fn a_read_that_is_dropped_keeps_what_came(rt: HostRuntime) -> Result<(), Fail> {
    let mut scene = greeted(&rt)?;
    let begun = send(&mut scene.server, b"200-on\r\n2");
    let waited = dropped(&rt, &mut scene);
    let sent = send(&mut scene.server, b"00 off\r\n");
    let whole = reads(&rt, &mut scene, b"200-on\r\n200 off\r\n");
    drop(scene);
    assert_eq!(rt; (begun, waited, sent, whole), (true, true, true, true));
    Ok(())
}

/// What comes of the last reply to an upload before its `finish` is dropped.
const FRONT: &[u8; 44] = b"226-transferred\r\nintermediate line\r\n226 comp";

/// What is left of that reply, and the next one.
const TAIL: &[u8; 16] = b"lete\r\n200 noop\r\n";

/// An upload's `finish` that waits in the midst of its reply, and is dropped; whether it waited. The listener to which the
/// data connection goes is closed at the end.
fn dropped_finish<R>(rt: &R, scene: &mut Scene) -> io::Result<bool>
where
    R: Net<Listener = TcpListener, Stream = TcpStream> + Wait + Clock + RandomSource + AllocGlobal,
{
    let (_listener, address) = listening(rt)?;
    write_passive(&mut scene.server, address.port())?;
    let opening = scene.client.put_with_stream(rt, "a");
    let upload = match scene.runtime.local().block_on(rt, opening)? {
        Ok(upload) => upload,
        Err(fault) => {
            drop(fault);
            return Ok(false);
        }
    };
    let opened = came(&mut scene.server, b"PASV\r\nSTOR a\r\n");
    let mut finish = upload.finish(rt);
    let sent = send(&mut scene.server, FRONT);
    Ok(opened && sent && waits(rt, &mut scene.runtime, &mut finish))
}

/// How many bytes that the client received are part of no reply.
fn untaken<R>(rt: &R, scene: &mut Scene) -> usize
where
    R: Net + Wait + Clock + RandomSource + AllocGlobal,
{
    match scene.runtime.local().block_on(rt, scene.client.get_ref()) {
        Ok(Ok(control)) => control.untaken(),
        _ => usize::MAX,
    }
}

/// A `NOOP` that is polled before the last reply to the upload is whole: whether it waits and sends nothing, and the number
/// of its error once the rest has come.
fn noop_after<R>(rt: &R, scene: &mut Scene) -> (bool, u8)
where
    R: Net + Wait + Clock + RandomSource + AllocGlobal,
{
    let mut noop = scene.client.noop(rt);
    let waits = command_waits(rt, &mut scene.runtime, &mut noop);
    let silent = is_silent(&mut scene.server);
    let sent = send(&mut scene.server, TAIL);
    let answer = answered(rt, &mut scene.runtime, noop);
    (waits && silent && sent, answer)
}

#[test]
fn a_finish_that_is_dropped_is_drained_before_the_next_command(
    rt: HostRuntime,
) -> Result<(), Fail> {
    let mut scene = greeted(&rt)?;
    let finish_waits = dropped_finish(&rt, &mut scene)?;
    let kept = untaken(&rt, &mut scene);
    let (noop_waits, answer) = noop_after(&rt, &mut scene);
    let sent = came(&mut scene.server, b"NOOP\r\n");
    let left = untaken(&rt, &mut scene);
    drop(scene);
    // 60 bytes came since the finish began, and none of them is left
    assert_eq!(rt; (finish_waits, noop_waits, sent), (true, true, true));
    assert_eq!(rt; (answer, kept, left), (0, FRONT.len(), 0));
    assert_eq!(rt; FRONT.len() + TAIL.len(), 60);
    Ok(())
}
