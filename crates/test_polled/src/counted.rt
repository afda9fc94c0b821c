//! How often a call is polled that waits.

ghost use Rattle.std.specs.Prelude.{◌≡◌};

use crate::clients::write_passive;
use crate::scene::{Scene, greeted, number, send};
use ftp_base::types::FtpResult;
use futures::Future;
use futures::task::{Context, Poll};
use std::alloc::AllocGlobal;
use std::io::Write;
use std::net::{TcpListener, TcpStream};
use std::random::RandomSource;
use std::sync::Wait;
use std::test::Fail;
use std::time::{Clock, Duration};
use std::{io, thread};
use test_loopback::{Runtime, listening};
use tokio::io::repeat;

/// A future, and how often it was polled.
#[derive(Drop)]
struct Counted<F: Future> {
    future: F,
    polls: u32,
}

impl<F: Future> Future for Counted<F> {
    type Output = (F::Output, u32);

    ghost can_poll = { λ counted. F.can_poll counted.future };

    ghost needs = { λ counted source. F.needs counted.future source };

    fn poll(&mut self, cx: &mut Context<'_>) -> Poll<(F::Output, u32)> {
        self.polls = self.polls.saturating_add(1);
        match self.future.poll(cx) {
            Poll::Ready(output) => Poll::Ready((output, self.polls)),
            Poll::Pending => Poll::Pending,
        }
    }
}

impl<F: Future> Counted<F> {
    /// This future, which wasn't polled yet.
    fn new(future: F) -> Counted<F>
        ensures { result.future ≡ future }
    {
        Counted { future, polls: 0 }
    }
}

/// Polls a call to its answer: the number of its error, 0 where there is none and 255 where the runtime fails; and how
/// often it was polled.
pub fn polled<R, F, T>(rt: &R, runtime: &mut Runtime, call: F) -> (u8, u32)
where
    R: Wait + Clock + RandomSource + AllocGlobal,
    F: Future<Output = FtpResult<T>>,
    T: Drop,
    requires { F.can_poll call }
{
    match runtime.local().block_on(rt, Counted::new(call)) {
        Ok((answer, polls)) => (number(answer), polls),
        Err(_error) => (255, 0),
    }
}

/// Answers after a fifth of a second.
fn answer_late<R: Clock>(rt: &R, mut server: TcpStream) -> io::Result<()> {
    thread::sleep(rt, Duration::from_millis(200));
    server.write_all(b"200 ok\r\n")
}

#[test]
fn a_call_that_waits_for_its_reply_is_polled_seldom(rt: HostRuntime) -> Result<(), Fail> {
    let scene = greeted(&rt)?;
    let Scene {
        client,
        server,
        mut runtime,
    } = Box::into_inner(scene);
    let serving = thread::spawn(&rt, move || answer_late(&rt, server))?;
    let (answer, polls) = polled(&rt, &mut runtime, client.noop(&rt));
    let served = serving.join(&rt).is_ok();
    drop(client);
    drop(runtime);
    assert_eq!(rt; (answer, polls < 10, served), (0, true, true));
    Ok(())
}

/// Accepts the data connection, sends a byte on it after a fifth of a second, and closes it.
fn send_late<R: Clock>(rt: &R, listener: &TcpListener) -> io::Result<()> {
    let (mut data, _address) = listener.accept()?;
    thread::sleep(rt, Duration::from_millis(200));
    data.write_all(b"x")
}

#[test]
fn a_call_that_waits_for_its_data_is_polled_seldom(rt: HostRuntime) -> Result<(), Fail> {
    let mut scene = greeted(&rt)?;
    let (listener, address) = listening(&rt)?;
    write_passive(&mut scene.server, address.port())?;
    let sent = send(&mut scene.server, b"226 done\r\n");
    let serving = thread::spawn(&rt, move || send_late(&rt, &listener))?;
    let download = scene.client.retr_as_buffer(&rt, "a");
    let (answer, polls) = polled(&rt, &mut scene.runtime, download);
    let served = serving.join(&rt).is_ok();
    drop(scene);
    assert_eq!(rt; (answer, polls < 10, sent, served), (0, true, true, true));
    Ok(())
}

/// Accepts the data connection, and resets it after a second, since nothing was read.
fn reset_late<R: Clock>(rt: &R, listener: &TcpListener) -> io::Result<()> {
    let (data, _address) = listener.accept()?;
    thread::sleep(rt, Duration::from_secs(1));
    drop(data);
    Ok(())
}

#[test]
fn a_call_that_waits_for_room_is_polled_seldom(rt: HostRuntime) -> Result<(), Fail> {
    let mut scene = greeted(&rt)?;
    let (listener, address) = listening(&rt)?;
    write_passive(&mut scene.server, address.port())?;
    let serving = thread::spawn(&rt, move || reset_late(&rt, &listener))?;
    let upload = scene.client.put_file(&rt, "a", repeat(b'x'));
    let (answer, polls) = polled(&rt, &mut scene.runtime, upload);
    let served = serving.join(&rt).is_ok();
    drop(scene);
    // a reset; until there is no room each piece of 8 KiB takes a poll to be read and one to be written
    assert_eq!(rt; (answer, polls < 5000, served), (1, true, true));
    Ok(())
}
