//! Polled transfers that one thread leaves, or whose end it drops, while another holds their client's lock.

use crate::threads::scene::{OPENING, conn_with, number, transport};
use crate::threads::turns::Turnstile;
use ftp_polled::{ImplAsyncFtpStream, TransferStream};
use ftp_session::session::Session;
use ftp_transport::MemoryTransport;
use futures::executor::block_on;
use futures::future::poll_immediate;
use std::alloc::AllocGlobal;
use std::random::RandomSource;
use std::sync::Wait;
use std::test::Fail;
use std::thread;
use std::thread::Threads;

/// A polled client over memory.
type Client = ImplAsyncFtpStream<MemoryTransport>;

/// Its transfer.
type Transfer = TransferStream<MemoryTransport>;

/// A client that has opened a download, and the transfer.
#[derive(Drop)]
struct Scene {
    client: Client,
    transfer: Box<Transfer>,
}

/// Such a client, whose server sends this afterwards.
fn opened<R>(rt: &R, replies: &[u8]) -> Result<Box<Scene>, Fail>
where
    R: Wait + RandomSource + AllocGlobal,
{
    let alloc = rt.alloc();
    let conn = conn_with(alloc, OPENING, replies)?;
    let session = Session::connect_with_stream(alloc, transport(alloc)?, conn)?;
    let client = Client::new(alloc, session)?;
    let transfer = Box::new(alloc, block_on(rt, client.retr_as_stream(rt, "a"))??)?;
    Ok(Box::new(alloc, Scene { client, transfer })?)
}

/// Holds a client's lock until the gate is open; whether it was.
fn held<R>(rt: &R, client: &Client, gate: &Turnstile) -> bool
where
    R: Wait + RandomSource + AllocGlobal,
{
    let Ok(Ok(control)) = block_on(rt, client.get_ref()) else {
        return false;
    };
    let passed = gate.opens();
    drop(control);
    passed
}

/// How a transfer is left.
#[derive(Clone, Copy)]
enum Parting {
    /// It is dropped.
    Drop,
    /// By `leave`.
    Leave,
    /// Its `finish` is dropped after a poll.
    Finish,
}

/// Drops the end of a transfer after a poll; whether that waited.
fn drop_finish<R>(rt: &R, transfer: Box<Transfer>) -> bool
where
    R: Wait + RandomSource + AllocGlobal,
{
    let mut finish = Box::into_inner(transfer).finish(rt);
    let waits = match block_on(rt, poll_immediate(&mut finish)) {
        Ok(polled) => polled.is_none(),
        Err(_error) => false,
    };
    drop(finish);
    waits
}

/// Leaves a transfer once the gate was asked, and then opens the gate; whether that was asked, and a `finish` waited.
fn left<R>(rt: &R, transfer: Box<Transfer>, gate: &Turnstile, parting: Parting) -> bool
where
    R: Wait + RandomSource + AllocGlobal,
{
    let asked = gate.was_asked();
    let waited = match parting {
        Parting::Drop => {
            drop(transfer);
            true
        }
        Parting::Leave => {
            drop(Box::into_inner(transfer).leave());
            true
        }
        Parting::Finish => drop_finish(rt, transfer),
    };
    gate.open();
    asked && waited
}

/// What comes of a transfer that is left on one thread while another holds its client: whether the gate was open, whether
/// it was asked, the number of the error of the next command, and the client's transfers: opened, finished and drained.
fn beside<R>(rt: &R, parting: Parting) -> Result<(bool, bool, u8, [u64; 3]), Fail>
where
    R: Wait + RandomSource + Threads + Sync + AllocGlobal,
{
    let Scene { client, transfer } = Box::into_inner(opened(rt, b"226 d\r\n200 ok\r\n")?);
    let gate = Turnstile::new();
    let (passed, waited) = thread::join(
        rt,
        || held(rt, &client, &gate),
        || left(rt, transfer, &gate, parting),
    );
    let next = number(block_on(rt, client.noop(rt))?);
    let control = block_on(rt, client.get_ref())??;
    let counts = control.counts();
    let tally = [counts.opened(), counts.finished(), counts.drained()];
    drop(control);
    Ok((passed, waited, next, tally))
}

#[test]
fn a_finish_that_is_dropped_waits_for_no_lock(rt: HostRuntime) -> Result<(), Fail> {
    assert_eq!(rt; beside(&rt, Parting::Finish)?, (true, true, 0, [1, 0, 1]));
    Ok(())
}

#[test]
fn a_polled_transfer_is_left_without_the_lock(rt: HostRuntime) -> Result<(), Fail> {
    let seen = (beside(&rt, Parting::Drop)?, beside(&rt, Parting::Leave)?);
    let due = (true, true, 0, [1, 0, 1]);
    assert_eq!(rt; seen, (due, due));
    Ok(())
}
