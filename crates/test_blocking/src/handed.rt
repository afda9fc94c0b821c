//! Transfers that a session hands out, over memory: how they end, how they are counted, and their leaving.

use crate::memory_scene::{Live, MemorySession, greeted, lines_of, number, opened, sent};
use ftp_base::status::Status;
use ftp_base::types::{FtpResult, Response};
use ftp_runs::RunCalls;
use ftp_session::session::{Call, Counts};
use ftp_transfer::mark::Left;
use futures::task::Poll;
use std::alloc::{AllocError, Global};
use std::io::Write;
use std::sync::Wait;
use std::test::Fail;
use std::thread;
use std::thread::Threads;

/// A situation, what the server sends, what is done, and what is due: the number of each error, 0 where there is
/// none, the counts of the transfers (opened, finished, aborted, drained and owed), and what was sent.
///
/// Of a step the first letter counts: `open` opens a download, and holds it; `drop`, `thread`, `finish`, `abort` and
/// `leave` drop it, on this thread or on another, finish it, abort it, or leave it; `settle` settles the receipt; `noop`
/// and `run` make a command by a method or a run, `poll` and `query` poll a read of one status or of two. `elsewhere` and
/// `broken` have another session finish the transfer that is held, between two commands of its own, with a server that
/// answers them or without; in capitals it aborts it. They show three numbers, and how many bytes that session sent.
const ROWS: &str = "\
== a transfer that was dropped is one that lives, until the session looks
227 x (10,0,0,1,4,0).;150 b;226 d;200 ok
open drop
0 0 1 0 0 0 Live(1)
PASV;RETR a
== the last reply of a dropped transfer is read first
227 x (10,0,0,1,4,0).;150 b;426 d;200 ok
open drop noop
0 0 0 1 0 0 1 Nothing
PASV;RETR a;NOOP
== so it is where another thread drops it
227 x (10,0,0,1,4,0).;150 b;226 d;200 ok
open thread noop
0 0 0 1 0 0 1 Nothing
PASV;RETR a;NOOP
== a run sees a transfer that was left before
227 x (10,0,0,1,4,0).;150 b;226 d;200 ok
open drop run
0 0 0 1 0 0 1 Nothing
PASV;RETR a;NOOP
== so does a polled read, and one more waits
227 x (10,0,0,1,4,0).;150 b;226 d;200 ok
open drop poll query
0 0 0 waits 1 0 0 1 Nothing
PASV;RETR a
== a receipt is settled once
227 x (10,0,0,1,4,0).;150 b;226 d;200 ok
open leave settle settle noop
0 0 0 0 0 1 0 0 1 Nothing
PASV;RETR a;NOOP
== a live transfer refuses another
227 x (10,0,0,1,4,0).;150 b;200 ok;226 d
open open
0 12 1 0 0 0 Live(1)
PASV;RETR a
== a live transfer refuses no other command
227 x (10,0,0,1,4,0).;150 b;200 ok;226 d
open open noop finish
0 12 0 0 1 1 0 0 Nothing
PASV;RETR a;NOOP
== a transfer that was finished is no drained one
227 x (10,0,0,1,4,0).;150 b;226 d;200 ok
open finish noop
0 0 0 1 1 0 0 Nothing
PASV;RETR a;NOOP
== a command that is refused opens nothing
227 x (10,0,0,1,4,0).;550 no
open
10 0 0 0 0 Nothing
PASV;RETR a
== the transfer after a command that was refused is the first
227 x (10,0,0,1,4,0).;550 no;227 x (10,0,0,1,4,0).;150 b
open open
10 0 1 0 0 0 Live(1)
PASV;RETR a;PASV;RETR a
== a failed session leaves the transfer it is to finish
227 x (10,0,0,1,4,0).;150 b
open noop finish
0 2 14 1 0 0 0 Left(1)
PASV;RETR a;NOOP
== an abort hears two replies after 426
227 x (10,0,0,1,4,0).;150 b;426 a;226 b;200 ok
open abort noop
0 0 0 1 0 1 0 Nothing
PASV;RETR a;ABOR;NOOP
== an abort that is refused counts as well
227 x (10,0,0,1,4,0).;150 b;500 no
open abort
0 10 1 0 1 0 Nothing
PASV;RETR a;ABOR
== a transfer that another session is to finish is left
227 x (10,0,0,1,4,0).;150 b;226 d;200 ok
open elsewhere noop
0 0 18 0 12 0 1 0 0 1 Nothing
PASV;RETR a;NOOP
== a transfer that another session is to abort is left
227 x (10,0,0,1,4,0).;150 b;226 d;200 ok
open Elsewhere noop
0 0 18 0 12 0 1 0 0 1 Nothing
PASV;RETR a;NOOP
== a session that has failed says so of any transfer that it is to finish
227 x (10,0,0,1,4,0).;150 b;226 d;200 ok
open broken noop
0 2 14 14 6 0 1 0 0 1 Nothing
PASV;RETR a;NOOP
== a session that has failed says so of any transfer that it is to abort
227 x (10,0,0,1,4,0).;150 b;226 d;200 ok
open Broken noop
0 2 14 14 6 0 1 0 0 1 Nothing
PASV;RETR a;NOOP
";

/// The five lines of a row.
fn fields(row: &'static str) -> [&'static str; 5] {
    let mut lines = row.lines();
    let first = lines.next().unwrap_or("");
    let second = lines.next().unwrap_or("");
    let third = lines.next().unwrap_or("");
    let fourth = lines.next().unwrap_or("");
    let fifth = lines.next().unwrap_or("");
    [first, second, third, fourth, fifth]
}

/// A session, and the transfers and receipts that are held.
#[derive(Drop)]
struct Scene {
    session: Box<MemorySession>,
    held: Vec<Live>,
    receipts: Vec<Left>,
}

/// A session whose server greets, and then sends this.
fn begun(alloc: Global, replies: &str) -> Result<Box<Scene>, Fail> {
    let session = greeted(alloc, replies)?;
    let (held, receipts) = (Vec::new(alloc), Vec::new(alloc));
    let scene = Scene {
        session,
        held,
        receipts,
    };
    Ok(Box::new(alloc, scene)?)
}

/// Opens a download and holds it; the number of the error where there is none.
fn open(alloc: Global, scene: &mut Scene) -> Result<u8, AllocError> {
    match opened(alloc, &mut scene.session) {
        Ok(transfer) => {
            scene.held.push(transfer)?;
            Ok(0)
        }
        refusal => Ok(number(refusal)),
    }
}

/// Does a step that needs no transfer; the number of its error.
fn made(alloc: Global, scene: &mut Scene, letter: u8) -> Result<u8, AllocError> {
    let session = &mut scene.session;
    match letter {
        b'o' => open(alloc, scene),
        b'n' => Ok(number(session.noop(alloc))),
        b'r' => Ok(number(session.run(alloc, &(), &[Call::Noop]))),
        b's' => match scene.receipts.last_mut() {
            Some(left) => Ok(number(session.settle(alloc, left))),
            None => Ok(255),
        },
        _ => Ok(255),
    }
}

/// What a polled read returns: the number of its error, or that it waits.
fn polled(text: &mut String, answer: Poll<FtpResult<Response>>) -> Result<(), AllocError> {
    match answer {
        Poll::Ready(answer) => show(text, number(answer)),
        Poll::Pending => write!(text, "waits "),
    }
}

/// Adds a number.
fn show(text: &mut String, number: u8) -> Result<(), AllocError> {
    write!(text, "{number} ")
}

/// Does a step, and adds what it results in.
fn done<R>(rt: &R, scene: &mut Scene, letter: u8, text: &mut String) -> Result<(), Fail>
where
    R: Threads + Wait + AllocGlobal,
{
    let alloc = rt.alloc();
    let session = &mut scene.session;
    match letter {
        b'p' => polled(
            text,
            session.poll_read_response(alloc, Status::CommandOk, &mut ()),
        )?,
        b'q' => {
            let expected = [Status::CommandOk, Status::Ready];
            polled(
                text,
                session.poll_read_response_in(alloc, &expected, &mut ()),
            )?;
        }
        b'o' | b'n' | b'r' | b's' => show(text, made(alloc, scene, letter)?)?,
        _ => match scene.held.pop() {
            Some(transfer) => ended(rt, scene, transfer, letter, text)?,
            None => show(text, 255)?,
        },
    }
    Ok(())
}

/// Ends a transfer so, and adds what that results in.
fn ended<R>(
    rt: &R,
    scene: &mut Scene,
    transfer: Live,
    letter: u8,
    text: &mut String,
) -> Result<(), Fail>
where
    R: Threads + Wait + AllocGlobal,
{
    let alloc = rt.alloc();
    match letter {
        b'f' | b'a' => {
            let number = ended_by(alloc, &mut scene.session, transfer, letter == b'a');
            show(text, number)?;
        }
        b'e' | b'E' => elsewhere(alloc, transfer, "200 a;200 b", letter == b'E', text)?,
        b'b' | b'B' => elsewhere(alloc, transfer, "", letter == b'B', text)?,
        b'l' => {
            scene.receipts.push(Box::into_inner(transfer).leave())?;
            show(text, 0)?;
        }
        b't' => {
            thread::spawn(rt, move || drop(transfer))?.join(rt);
            show(text, 0)?;
        }
        _ => {
            drop(transfer);
            show(text, 0)?;
        }
    }
    Ok(())
}

/// What this session returns that is to finish or abort a transfer.
fn ended_by(alloc: Global, session: &mut MemorySession, transfer: Live, aborts: bool) -> u8 {
    let transfer = Box::into_inner(transfer);
    if aborts {
        number(session.abort(alloc, transfer))
    } else {
        number(session.finish(alloc, transfer))
    }
}

/// Adds what another session, whose server sends this, returns for a command, which is then handed this transfer to
/// finish or abort, and for one more; and how many bytes it sent.
fn elsewhere(
    alloc: Global,
    transfer: Live,
    replies: &str,
    aborts: bool,
    text: &mut String,
) -> Result<(), Fail> {
    let mut other = greeted(alloc, replies)?;
    let before = number(other.noop(alloc));
    let refusal = ended_by(alloc, &mut other, transfer, aborts);
    let after = number(other.noop(alloc));
    let length = sent(&other).len();
    drop(other);
    write!(text, "{before} {refusal} {after} {length} ")?;
    Ok(())
}

/// Adds how many were opened, finished, aborted and drained, and what is owed.
fn count(text: &mut String, counts: &Counts) -> Result<(), AllocError> {
    let (opened, finished) = (counts.opened(), counts.finished());
    let (aborted, drained) = (counts.aborted(), counts.drained());
    let owed = counts.owed();
    write!(text, "{opened} {finished} {aborted} {drained} {owed:?}")
}

/// Does the steps of a row, and adds what they result in and the counts; whether these lines were sent.
fn played<R>(rt: &R, row: &[&'static str; 5], text: &mut String) -> Result<bool, Fail>
where
    R: Threads + Wait + AllocGlobal,
{
    let [_title, replies, steps, _due, lines] = row;
    let mut scene = begun(rt.alloc(), replies)?;
    for step in steps.split(' ') {
        let letter = step.as_bytes().first().copied().unwrap_or(0);
        done(rt, &mut scene, letter, text)?;
    }
    count(text, scene.session.counts())?;
    let lines = lines_of(rt.alloc(), lines)?;
    Ok(sent(&scene.session) == lines.as_bytes())
}

#[test]
fn a_transfer_is_opened_and_ends(rt: HostRuntime) -> Result<(), Fail> {
    for row in ROWS.split("== ").skip(1) {
        let fields = fields(row);
        let mut text = String::new(rt.alloc());
        let whole = played(&rt, &fields, &mut text)?;
        assert_eq!(rt;
            (fields[0], text.as_str(), whole),
            (fields[0], fields[3], true)
        );
    }
    Ok(())
}
