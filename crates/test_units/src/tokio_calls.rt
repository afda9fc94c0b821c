//! Reads and writes of a connection as futures, the way the polled client waits for them.

use ftp_tokio::TokioConn;
use ftp_transport::{PollConn, TaskConn, Waiting};
use futures::Future;
use futures::task::{Context, Poll};
use std::io;
use std::io::{ErrorKind, Read, Write};
use std::net::TcpStream;

/// How many writes and reads are made at most until one waits.
const MOST_CALLS: usize = 1 << 20;

/// A read of one byte. Its peer writes once the task is registered, and not before.
#[derive(Drop)]
pub struct ReadByte {
    conn: TokioConn,
    peer: TcpStream,
    registered: bool,
}

impl ReadByte {
    /// Such a read.
    pub fn new(conn: TokioConn, peer: TcpStream) -> ReadByte {
        ReadByte {
            conn,
            peer,
            registered: false,
        }
    }
}

impl Future for ReadByte {
    type Output = Result<(usize, u8), ErrorKind>;

    fn poll(&mut self, cx: &mut Context<'_>) -> Poll<Result<(usize, u8), ErrorKind>> {
        let mut byte = [0u8; 1];
        match self.conn.poll_read(&mut (), &mut byte) {
            Ok(Poll::Ready(count)) => return Poll::Ready(Ok((count, byte[0]))),
            Err(kind) => return Poll::Ready(Err(kind)),
            Ok(Poll::Pending) => {}
        }
        if self.conn.poll_ready(cx) != Waiting::Registered {
            return cx.yield_now();
        }
        if !self.registered {
            self.registered = true;
            if let Err(error) = self.peer.write_all(b"x") {
                return Poll::Ready(Err(error.kind()));
            }
        }
        Poll::Pending
    }
}

/// Reads a byte at a time until a read waits, looks what it waits for, and reads once more: how many came, whether the wait
/// is over, and what the last read made.
#[derive(Drop)]
pub struct ReadPastTurn {
    conn: TokioConn,
}

impl ReadPastTurn {
    /// Such reads.
    pub fn new(conn: TokioConn) -> ReadPastTurn {
        ReadPastTurn { conn }
    }
}

impl Future for ReadPastTurn {
    type Output = (u8, bool, Result<Poll<usize>, ErrorKind>);

    fn poll(&mut self, cx: &mut Context<'_>) -> Poll<(u8, bool, Result<Poll<usize>, ErrorKind>)> {
        let count = reads_in_a_row(&mut self.conn);
        let is_over = self.conn.poll_ready(cx) == Waiting::Over;
        let last = self.conn.poll_read(&mut (), &mut [0u8; 1]);
        Poll::Ready((count, is_over, last))
    }
}

/// How many reads of one byte go on until one waits, of 40 at most.
pub fn reads_in_a_row(conn: &mut TokioConn) -> u8 {
    let mut byte = [0u8; 1];
    for count in 0..40 {
        if conn.poll_read(&mut (), &mut byte) != Ok(Poll::Ready(1)) {
            return count;
        }
    }
    40
}

/// Writes until one has waited, and one byte after that. Its peer reads once the task is registered, and not before.
#[derive(Drop)]
pub struct WriteOn {
    conn: TokioConn,
    peer: TcpStream,
    registered: bool,
}

impl Future for WriteOn {
    type Output = Result<usize, ErrorKind>;

    fn poll(&mut self, cx: &mut Context<'_>) -> Poll<Result<usize, ErrorKind>> {
        match self.write() {
            Ok(Poll::Ready(count)) => return Poll::Ready(Ok(count)),
            Err(kind) => return Poll::Ready(Err(kind)),
            Ok(Poll::Pending) => {}
        }
        if self.conn.poll_ready(cx) != Waiting::Registered {
            return cx.yield_now();
        }
        if !self.registered {
            self.registered = true;
            if let Err(error) = empty(&mut self.peer) {
                return Poll::Ready(Err(error.kind()));
            }
        }
        Poll::Pending
    }
}

impl WriteOn {
    /// Such writes.
    pub fn new(conn: TokioConn, peer: TcpStream) -> WriteOn {
        WriteOn {
            conn,
            peer,
            registered: false,
        }
    }

    fn write(&mut self) -> Result<Poll<usize>, ErrorKind> {
        if self.registered {
            self.conn.poll_write(&mut (), b"x")
        } else {
            fill(&mut self.conn)
        }
    }
}

/// Writes until one waits.
fn fill(conn: &mut TokioConn) -> Result<Poll<usize>, ErrorKind> {
    for _ in 0..MOST_CALLS {
        if conn.poll_write(&mut (), &[0u8; 4096])? == Poll::Pending {
            return Ok(Poll::Pending);
        }
    }
    Ok(Poll::Ready(0))
}

/// Reads all that has come.
fn empty(peer: &mut TcpStream) -> io::Result<()> {
    peer.set_nonblocking(true)?;
    for _ in 0..MOST_CALLS {
        match peer.read(&mut [0u8; 4096]) {
            Ok(_) => {}
            Err(error) if error.kind() == ErrorKind::WouldBlock => return Ok(()),
            Err(error) => return Err(error),
        }
    }
    Ok(())
}
