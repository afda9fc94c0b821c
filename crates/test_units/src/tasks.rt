//! A transfer over memory that a task reads and writes.

use crate::seen::assert_same;
use ftp_transfer::mark::mark;
use ftp_transfer::{Direction, Transfer, TransferParts};
use ftp_transport::MemoryConn;
use futures::Future;
use futures::executor::block_on;
use futures::future::poll_immediate;
use futures::task::{Context, Poll};
use std::io::ErrorKind;
use std::random::RandomSource;
use std::sync::Wait;
use std::test::Fail;

/// A transfer, of which a poll reads or writes once: how many bytes.
#[derive(Drop)]
struct Moving {
    transfer: Transfer<MemoryConn>,
    writes: bool,
}

impl Future for Moving {
    type Output = Result<usize, ErrorKind>;

    fn poll(&mut self, cx: &mut Context<'_>) -> Poll<Result<usize, ErrorKind>> {
        let moved = if self.writes {
            self.transfer.poll_write_in(cx, b"hello")
        } else {
            self.transfer.poll_read_in(cx, &mut [0u8; 8])
        };
        match moved {
            Ok(Poll::Ready(count)) => Poll::Ready(Ok(count)),
            Ok(Poll::Pending) => Poll::Pending,
            Err(kind) => Poll::Ready(Err(kind)),
        }
    }
}

/// A transfer on a connection that has room for two bytes, and brings one.
fn transfer<R: AllocGlobal>(rt: &R, writes: bool) -> Result<Box<Moving>, Fail> {
    let mut conn = MemoryConn::new(rt.alloc());
    conn.feed(b"x")?;
    conn.allow(2);
    let (_session, end) = mark(rt.alloc(), 7)?;
    let transfer = Transfer::new(conn, Direction::Upload, end);
    Ok(Box::new(rt.alloc(), Moving { transfer, writes })?)
}

/// What two polls return; none of one that waits.
type Polled = [Option<Result<usize, ErrorKind>>; 2];

/// Polls a transfer twice.
fn polled<R>(rt: &R, writes: bool) -> Result<Polled, Fail>
where
    R: Wait + RandomSource + AllocGlobal,
{
    let mut moving = transfer(rt, writes)?;
    let first = block_on(rt, poll_immediate(&mut *moving))?;
    let second = block_on(rt, poll_immediate(&mut *moving))?;
    Ok([first, second])
}

#[test]
fn a_task_moves_what_there_is_and_waits_then(rt: HostRuntime) -> Result<(), Fail> {
    let (reads, writes) = (polled(&rt, false)?, polled(&rt, true)?);
    let due = ([Some(Ok(1)), None], [Some(Ok(2)), None]);
    assert_same(&rt, (reads, writes), due);
    Ok(())
}
