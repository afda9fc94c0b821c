//! Renames of two threads on a polled client.

use crate::threads::renames::{Renames, Rounds, Slow, due, greeted, in_order, paced, play};
use crate::threads::scene::number;
use ftp_polled::ImplAsyncFtpStream;
use ftp_session::session::NoTlsConnector;
use ftp_transport::MemoryTransport;
use futures::executor::block_on;
use std::random::RandomSource;
use std::sync::{Arc, Wait};
use std::test::Fail;
use std::thread::Threads;

/// A polled client that may be encoded slowly.
type Client = ImplAsyncFtpStream<MemoryTransport, NoTlsConnector, Slow>;

impl<R: Wait + RandomSource + AllocGlobal> Renames<R> for Client {
    fn renames(&self, rt: &R, from: &str, to: &str) -> u8 {
        match block_on(rt, self.rename(rt, from, to)) {
            Ok(answer) => number(answer),
            Err(_error) => 255,
        }
    }
}

/// What comes of these rounds.
fn came<R>(rt: &R, rounds: Rounds) -> Result<(u8, usize, (usize, usize)), Fail>
where
    R: Wait + RandomSource + Threads + Sync + AllocGlobal,
{
    let alloc = rt.alloc();
    let pace = paced(alloc)?;
    let session = greeted(alloc, rounds)?;
    let client = Box::new(alloc, Client::new(alloc, session)?)?;
    let setting = client.set_encoding(rt, Slow(Arc::try_clone(&pace)?));
    let set = number(block_on(rt, setting)?);
    let count = play(rt, &*client, &pace, rounds);
    let control = block_on(rt, client.get_ref())??;
    let sent = in_order(control.socket());
    drop(control);
    Ok((set, count, sent))
}

#[test]
fn a_rename_of_another_thread_comes_after_both_lines_from_round_0(
    rt: HostRuntime,
) -> Result<(), Fail> {
    assert_eq!(rt; came(&rt, (0, 160))?, due(160));
    Ok(())
}

#[test]
fn a_rename_of_another_thread_comes_after_both_lines_from_round_160(
    rt: HostRuntime,
) -> Result<(), Fail> {
    assert_eq!(rt; came(&rt, (160, 290))?, due(130));
    Ok(())
}

#[test]
fn a_rename_of_another_thread_comes_after_both_lines_from_round_290(
    rt: HostRuntime,
) -> Result<(), Fail> {
    assert_eq!(rt; came(&rt, (290, 390))?, due(100));
    Ok(())
}

#[test]
fn a_rename_of_another_thread_comes_after_both_lines_from_round_390(
    rt: HostRuntime,
) -> Result<(), Fail> {
    assert_eq!(rt; came(&rt, (390, 480))?, due(90));
    Ok(())
}

#[test]
fn a_rename_of_another_thread_comes_after_both_lines_from_round_480(
    rt: HostRuntime,
) -> Result<(), Fail> {
    assert_eq!(rt; came(&rt, (480, 560))?, due(80));
    Ok(())
}

#[test]
fn a_rename_of_another_thread_comes_after_both_lines_from_round_560(
    rt: HostRuntime,
) -> Result<(), Fail> {
    assert_eq!(rt; came(&rt, (560, 640))?, due(80));
    Ok(())
}

#[test]
fn a_rename_of_another_thread_comes_after_both_lines_from_round_640(
    rt: HostRuntime,
) -> Result<(), Fail> {
    assert_eq!(rt; came(&rt, (640, 710))?, due(70));
    Ok(())
}

#[test]
fn a_rename_of_another_thread_comes_after_both_lines_from_round_710(
    rt: HostRuntime,
) -> Result<(), Fail> {
    assert_eq!(rt; came(&rt, (710, 770))?, due(60));
    Ok(())
}

#[test]
fn a_rename_of_another_thread_comes_after_both_lines_from_round_770(
    rt: HostRuntime,
) -> Result<(), Fail> {
    assert_eq!(rt; came(&rt, (770, 830))?, due(60));
    Ok(())
}

#[test]
fn a_rename_of_another_thread_comes_after_both_lines_from_round_830(
    rt: HostRuntime,
) -> Result<(), Fail> {
    assert_eq!(rt; came(&rt, (830, 890))?, due(60));
    Ok(())
}

#[test]
fn a_rename_of_another_thread_comes_after_both_lines_from_round_890(
    rt: HostRuntime,
) -> Result<(), Fail> {
    assert_eq!(rt; came(&rt, (890, 945))?, due(55));
    Ok(())
}

#[test]
fn a_rename_of_another_thread_comes_after_both_lines_from_round_945(
    rt: HostRuntime,
) -> Result<(), Fail> {
    assert_eq!(rt; came(&rt, (945, 1000))?, due(55));
    Ok(())
}
