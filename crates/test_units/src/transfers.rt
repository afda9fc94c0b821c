//! Transfers over memory: their bytes, and their leaving, on one thread or on two.

ghost use Rattle.ftp_transport.specs.Memory.{fresh_memory};

use crate::seen::assert_same;
use ftp_transfer::mark::{SessionEnd, mark};
use ftp_transfer::{Direction, Transfer, TransferParts};
use ftp_transport::{MemoryConn, PollConn, Tells};
use futures::task::Poll;
use std::alloc::{AllocError, Global};
use std::io::{ErrorKind, Read, Write};
use std::net::SocketAddr;
use std::sync::Arc;
use std::sync::atomic::AtomicBool;
use std::sync::atomic::Ordering::SeqCst;
use std::test::Fail;
use std::thread;

/// The same value in a box, which is dropped by one call.
fn boxed<T: Drop>(alloc: Global, value: T) -> Result<Box<T>, AllocError> {
    Ok(Box::new(alloc, value)?)
}

/// A session's end of a mark, and a transfer.
type Ends<C> = (Box<SessionEnd>, Box<Transfer<C>>);

/// A transfer with the number 7 on a connection that was fed these bytes, and its session's end of the mark.
fn opened(alloc: Global, direction: Direction, bytes: &[u8]) -> Result<Ends<MemoryConn>, Fail> {
    let mut conn = boxed(alloc, MemoryConn::new(alloc))?;
    conn.feed(bytes)?;
    on_conn(alloc, conn, direction)
}

/// A transfer with the number 7 on a connection, and its session's end of the mark.
fn on_conn<C: Tells + Drop>(
    alloc: Global,
    conn: Box<C>,
    direction: Direction,
) -> Result<Ends<C>, Fail> {
    let (session, end) = mark(alloc, 7)?;
    let transfer = Transfer::new(Box::into_inner(conn), direction, end);
    let transfer = boxed(alloc, transfer)?;
    Ok((boxed(alloc, session)?, transfer))
}

/// A connection that shows another holder whether it was closed, and whose close fails.
#[derive(Drop)]
struct Watched {
    closed: Arc<AtomicBool>,
}

impl Tells for Watched {
    ghost tells = { ⊥ };

    ghost told = { λ _. fresh_memory };

    fn begin(&mut self) {}

    ghost end_faults = { λ _. Unit {0} };

    fn local_addr(&mut self) -> Result<SocketAddr, ErrorKind> {
        Err(ErrorKind::NotConnected)
    }

    fn peer_addr(&mut self) -> Result<SocketAddr, ErrorKind> {
        Err(ErrorKind::NotConnected)
    }

    fn close(&mut self) -> Result<(), ErrorKind> {
        self.closed.store(true, SeqCst);
        Err(ErrorKind::NotConnected)
    }
}

/// A transfer on a watched connection, and what shows whether that was closed.
fn on_watched(alloc: Global) -> Result<(Arc<AtomicBool>, Ends<Watched>), Fail> {
    let closed = Arc::new(alloc, AtomicBool::new(false))?;
    let conn = Watched {
        closed: Arc::try_clone(&closed)?,
    };
    let conn = boxed(alloc, conn)?;
    Ok((closed, on_conn(alloc, conn, Direction::Upload)?))
}

#[test]
fn a_download_delivers_the_bytes_that_came(rt: HostRuntime) -> Result<(), Fail> {
    let (_session, mut transfer) = opened(rt.alloc(), Direction::Download, b"hello")?;
    let mut buffer = [0u8; 4];
    let first = Transfer::read(&mut transfer, &mut buffer);
    let front = buffer;
    let others = (
        Transfer::read(&mut transfer, &mut buffer),
        Transfer::read(&mut transfer, &mut buffer),
    );
    assert_same(
        &rt,
        (first, front, others),
        (Ok(4), *b"hell", (Ok(1), Ok(0))),
    );
    Ok(())
}

#[test]
fn an_upload_sends_the_bytes_it_is_given(rt: HostRuntime) -> Result<(), Fail> {
    let (_session, mut transfer) = opened(rt.alloc(), Direction::Upload, b"")?;
    let writes = (
        Transfer::write(&mut transfer, b"hel"),
        Transfer::write(&mut transfer, b""),
        Transfer::write(&mut transfer, b"lo"),
    );
    let sent = transfer.get_ref().sent();
    assert_same(
        &rt,
        (writes, sent),
        ((Ok(3), Ok(0), Ok(2)), b"hello".as_slice()),
    );
    Ok(())
}

#[test]
fn an_empty_read_takes_no_byte(rt: HostRuntime) -> Result<(), Fail> {
    let (_session, mut transfer) = opened(rt.alloc(), Direction::Download, b"hello")?;
    let read = Transfer::read(&mut transfer, &mut []);
    assert_same(&rt, (read, transfer.get_ref().unread()), (Ok(0), 5));
    Ok(())
}

#[test]
fn an_empty_read_at_the_end_is_not_the_end(rt: HostRuntime) -> Result<(), Fail> {
    let (_session, mut transfer) = opened(rt.alloc(), Direction::Download, b"")?;
    let empty = Transfer::read(&mut transfer, &mut []);
    transfer.get_mut().feed(b"late")?;
    let late = Transfer::read(&mut transfer, &mut [0u8; 8]);
    assert_same(&rt, (empty, late), (Ok(0), Ok(4)));
    Ok(())
}

#[test]
fn an_upload_is_read_and_a_download_written(rt: HostRuntime) -> Result<(), Fail> {
    let (_session, mut upload) = opened(rt.alloc(), Direction::Upload, b"hello")?;
    let (_session, mut download) = opened(rt.alloc(), Direction::Download, b"hello")?;
    let made = (
        Transfer::read(&mut upload, &mut [0u8; 8]),
        Transfer::write(&mut download, b"x\ny"),
    );
    let sent = download.get_ref().sent();
    assert_same(&rt, (made, sent), ((Ok(5), Ok(3)), b"x\ny".as_slice()));
    Ok(())
}

#[test]
fn a_write_without_room_fails(rt: HostRuntime) -> Result<(), Fail> {
    let (_session, mut transfer) = opened(rt.alloc(), Direction::Upload, b"")?;
    transfer.get_mut().allow(2);
    let writes = (
        Transfer::write(&mut transfer, b"hello"),
        Transfer::write(&mut transfer, b"llo"),
        Transfer::write(&mut transfer, b""),
    );
    let sent = transfer.get_ref().sent();
    let due = (Ok(2), Err(ErrorKind::WouldBlock), Ok(0));
    assert_same(&rt, (writes, sent), (due, b"he".as_slice()));
    Ok(())
}

#[test]
fn a_polled_transfer_waits_for_bytes_and_for_room(rt: HostRuntime) -> Result<(), Fail> {
    let (_session, mut transfer) = opened(rt.alloc(), Direction::Download, b"")?;
    transfer.get_mut().allow(2);
    let reads = (
        transfer.poll_read(&mut (), &mut [0u8; 8]),
        transfer.poll_read(&mut (), &mut []),
    );
    let writes = (
        transfer.poll_write(&mut (), b"hello"),
        transfer.poll_write(&mut (), b"llo"),
    );
    let due_reads = (Ok(Poll::Pending), Ok(Poll::Ready(0)));
    let due_writes = (Ok(Poll::Ready(2)), Ok(Poll::Pending));
    assert_same(&rt, (reads, writes), (due_reads, due_writes));
    Ok(())
}

#[test]
fn a_transfer_is_a_stream_of_std(rt: HostRuntime) -> Result<(), Fail> {
    let (_session, mut transfer) = opened(rt.alloc(), Direction::Download, b"hello")?;
    let mut text = String::new(rt.alloc());
    let count = transfer.read_to_string(&mut text)?;
    transfer.write_all(b"hel")?;
    transfer.flush()?;
    let came = (count, text.as_str(), transfer.get_ref().sent());
    assert_same(&rt, came, (5, "hello", b"hel".as_slice()));
    Ok(())
}

#[test]
fn a_stream_of_std_fails_by_the_fault(rt: HostRuntime) -> Result<(), Fail> {
    let (_session, mut transfer) = opened(rt.alloc(), Direction::Upload, b"")?;
    transfer.get_mut().allow(0);
    let kind = match transfer.write_all(b"hello") {
        Ok(()) => None,
        Err(error) => Some(error.kind()),
    };
    assert_same(&rt, kind, Some(ErrorKind::WouldBlock));
    Ok(())
}

#[test]
fn a_transfer_has_its_number_and_its_direction(rt: HostRuntime) -> Result<(), Fail> {
    let (session, download) = opened(rt.alloc(), Direction::Download, b"")?;
    let (_session, upload) = opened(rt.alloc(), Direction::Upload, b"")?;
    let directions = (download.direction(), upload.direction());
    assert_same(
        &rt,
        (download.number(), directions),
        (session.number(), (Direction::Download, Direction::Upload)),
    );
    Ok(())
}

#[test]
fn a_transfer_that_stands_is_not_left(rt: HostRuntime) -> Result<(), Fail> {
    let (mut session, mut transfer) = opened(rt.alloc(), Direction::Download, b"hello")?;
    let mut buffer = [0u8; 8];
    let reads = (
        Transfer::read(&mut transfer, &mut buffer),
        Transfer::read(&mut transfer, &mut buffer),
    );
    let looks = (transfer.look_beside(), session.look());
    assert_same(&rt, (reads, looks), ((Ok(5), Ok(0)), (false, false)));
    Ok(())
}

#[test]
fn a_left_transfer_is_seen(rt: HostRuntime) -> Result<(), Fail> {
    let (mut session, transfer) = opened(rt.alloc(), Direction::Download, b"hello")?;
    let mut receipt = boxed(rt.alloc(), Box::into_inner(transfer).leave())?;
    let looks = (session.look(), receipt.look_after());
    assert_same(&rt, (looks, receipt.number()), ((true, true), 7));
    Ok(())
}

#[test]
fn a_dropped_transfer_is_seen(rt: HostRuntime) -> Result<(), Fail> {
    let (mut session, transfer) = opened(rt.alloc(), Direction::Download, b"hello")?;
    let before = session.look();
    drop(transfer);
    assert_same(&rt, (before, session.look()), (false, true));
    Ok(())
}

#[test]
fn a_transfer_that_goes_out_of_scope_is_seen(rt: HostRuntime) -> Result<(), Fail> {
    let mut session = {
        let (session, _transfer) = opened(rt.alloc(), Direction::Upload, b"")?;
        session
    };
    assert!(rt; session.look());
    Ok(())
}

#[test]
fn a_transfer_that_another_thread_drops_is_seen(rt: HostRuntime) -> Result<(), Fail> {
    let (mut session, transfer) = opened(rt.alloc(), Direction::Download, b"hello")?;
    thread::spawn(&rt, move || drop(transfer))?.join(&rt);
    assert!(rt; session.look());
    Ok(())
}

#[test]
fn a_receipt_is_settled_on_another_thread(rt: HostRuntime) -> Result<(), Fail> {
    let (mut session, transfer) = opened(rt.alloc(), Direction::Download, b"hello")?;
    let mut receipt = boxed(rt.alloc(), Box::into_inner(transfer).leave())?;
    let seen = thread::spawn(&rt, move || (receipt.look_after(), receipt.number()))?.join(&rt);
    assert_same(&rt, (seen, session.look()), ((true, 7), true));
    Ok(())
}

#[test]
fn a_left_transfer_is_closed_even_where_that_fails(rt: HostRuntime) -> Result<(), Fail> {
    let (closed, (mut session, transfer)) = on_watched(rt.alloc())?;
    let before = closed.load(SeqCst);
    let _receipt = boxed(rt.alloc(), Box::into_inner(transfer).leave())?;
    let after = (closed.load(SeqCst), session.look());
    assert_same(&rt, (before, after), (false, (true, true)));
    Ok(())
}

#[test]
fn a_dropped_transfer_is_closed_even_where_that_fails(rt: HostRuntime) -> Result<(), Fail> {
    let (closed, (mut session, transfer)) = on_watched(rt.alloc())?;
    let before = closed.load(SeqCst);
    drop(transfer);
    let after = (closed.load(SeqCst), session.look());
    assert_same(&rt, (before, after), (false, (true, true)));
    Ok(())
}
