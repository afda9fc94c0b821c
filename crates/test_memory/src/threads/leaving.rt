//! Transfers that one thread leaves while another holds their client's lock.

use crate::threads::scene::{Client, Scene, Tally, Transfer, number, opened, seen};
use crate::threads::turns::Turnstile;
use ftp_blocking::hold;
use std::sync::Wait;
use std::test::Fail;
use std::thread;
use std::thread::Threads;

/// How a client's lock is held.
#[derive(Clone, Copy)]
enum Holder {
    /// By `hold`.
    Hold,
    /// By a `ControlSocket`.
    Socket,
}

/// Holds a client's lock until the gate is open; whether it was.
fn held<R: Wait>(rt: &R, client: &Client, gate: &Turnstile, holder: Holder) -> bool {
    match holder {
        Holder::Hold => hold(rt, client, gate),
        Holder::Socket => {
            let control = client.get_ref(rt);
            let passed = gate.opens();
            drop(control);
            passed
        }
    }
}

/// How a transfer is left.
#[derive(Clone, Copy)]
enum Parting {
    /// It is dropped.
    Drop,
    /// By `leave`.
    Leave,
}

/// Leaves a transfer once the gate was asked, and then opens the gate; whether the gate was asked.
fn left(transfer: Box<Transfer>, gate: &Turnstile, parting: Parting) -> bool {
    let asked = gate.was_asked();
    match parting {
        Parting::Drop => drop(transfer),
        Parting::Leave => drop(Box::into_inner(transfer).leave()),
    }
    gate.open();
    asked
}

/// What comes of a transfer that is left on one thread while another holds its client: whether the gate was open, whether
/// it was asked, the number of the error of the next command, and the client's transfers.
fn beside<R>(rt: &R, holder: Holder, parting: Parting) -> Result<(bool, bool, u8, Tally), Fail>
where
    R: Wait + Threads + Sync + AllocGlobal,
{
    let scene = opened(rt, b"226 d\r\n200 ok\r\n")?;
    let Scene { client, transfer } = Box::into_inner(scene);
    let client = Box::new(rt.alloc(), client)?;
    let transfer = Box::new(rt.alloc(), transfer)?;
    let gate = Turnstile::new();
    let (passed, asked) = thread::join(
        rt,
        || held(rt, &client, &gate, holder),
        || left(transfer, &gate, parting),
    );
    let next = number(client.noop(rt));
    let (_sent, _untaken, tally) = seen(rt, &client);
    Ok((passed, asked, next, tally))
}

#[test]
fn a_transfer_that_is_dropped_waits_for_no_lock(rt: HostRuntime) -> Result<(), Fail> {
    let by_hold = beside(&rt, Holder::Hold, Parting::Drop)?;
    let by_socket = beside(&rt, Holder::Socket, Parting::Drop)?;
    let due = (true, true, 0, [1, 0, 0, 1]);
    assert_eq!(rt; (by_hold, by_socket), (due, due));
    Ok(())
}

#[test]
fn a_transfer_that_is_left_waits_for_no_lock(rt: HostRuntime) -> Result<(), Fail> {
    let by_hold = beside(&rt, Holder::Hold, Parting::Leave)?;
    let by_socket = beside(&rt, Holder::Socket, Parting::Leave)?;
    let due = (true, true, 0, [1, 0, 0, 1]);
    assert_eq!(rt; (by_hold, by_socket), (due, due));
    Ok(())
}

#[test]
fn a_receipt_of_another_thread_is_settled_and_nothing_is_drained_after_it(
    rt: HostRuntime,
) -> Result<(), Fail> {
    let Scene { client, transfer } = Box::into_inner(opened(&rt, b"226 ok\r\n200 ok\r\n")?);
    let child = thread::spawn(&rt, move || transfer.leave())?;
    let mut receipt = child.join(&rt);
    let before = seen(&rt, &client);
    let settled = (number(client.settle(&rt, &mut receipt)), seen(&rt, &client));
    let after = (number(client.noop(&rt)), seen(&rt, &client));
    drop(receipt);
    drop(client);
    // PASV and RETR a; then NOOP
    assert_eq!(rt; before, (14, 16, [1, 0, 0, 0]));
    assert_eq!(rt; settled, (0, (14, 8, [1, 0, 0, 1])));
    assert_eq!(rt; after, (0, (20, 0, [1, 0, 0, 1])));
    Ok(())
}
