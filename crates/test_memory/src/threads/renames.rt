//! Renames of two threads on one client, blocking and polled: whether the two lines of each stay together.
//!
//! There are 1,000 rounds, in twelve parts of about the same time, each of which is a test. In round k each text is encoded
//! after k yields.

ghost use Rattle.std.specs.Prelude.{Ok};
ghost use Rattle.std.specs.Str.Lossy.{utf8_lossy};

mod blocking;
mod polled;

use crate::threads::scene::conn_with;
use crate::threads::turns::comes;
use ftp_base::encoding::{EncodeError, Encoding, Utf8Encoding};
use ftp_base::types::FtpResult;
use ftp_session::session::{NoTlsConnector, Session};
use ftp_transport::{MemoryConn, MemoryTransport};
use std::alloc::{AllocError, Global};
use std::sync::atomic::Ordering::SeqCst;
use std::sync::atomic::{AtomicBool, AtomicU32};
use std::sync::{Arc, Wait};
use std::test::Fail;
use std::thread;
use std::thread::{Threads, yield_now};

/// What an encoding shares with the threads: whether the first rename has begun, and how often a call yields.
#[derive(Drop)]
struct Pace {
    begun: AtomicBool,
    yields: AtomicU32,
}

impl Pace {
    /// Lets the other thread begin, where this is the first rename's first line, and yields the processor.
    fn slow_down(&self, text: &str) {
        if text == "RNFR a\r\n" {
            self.begun.store(true, SeqCst);
        }
        for _ in 0..self.yields.load(SeqCst) {
            yield_now();
        }
    }
}

/// UTF-8, slowly: each call yields the processor, and the first rename's lets the other thread begin.
#[derive(Drop)]
struct Slow(Arc<Pace>);

impl Encoding for Slow {
    ghost decoded = { λ _ bytes. utf8_lossy bytes };

    ghost encoded = { λ _ text. Ok text };

    fn decode(&self, alloc: Global, bytes: &[u8]) -> Result<String, AllocError> {
        Utf8Encoding.decode(alloc, bytes)
    }

    fn encode(&self, alloc: Global, text: &str) -> Result<Vec<u8>, EncodeError> {
        self.0.slow_down(text);
        Utf8Encoding.encode(alloc, text)
    }
}

/// A session over memory that may be encoded slowly.
type SlowSession = Session<MemoryTransport, NoTlsConnector, Slow>;

/// The first of some rounds, and the one after the last.
type Rounds = (u32, u32);

/// A connection whose server accepts both renames of each of these rounds.
fn accepting(alloc: Global, (first, end): Rounds) -> Result<MemoryConn, AllocError> {
    let mut conn = conn_with(alloc, b"220 r\r\n", b"")?;
    for _ in first..end {
        conn.feed(b"350 ok\r\n250 ok\r\n350 ok\r\n250 ok\r\n")?;
    }
    Ok(conn)
}

/// A session whose greeting was read.
fn greeted(alloc: Global, rounds: Rounds) -> FtpResult<SlowSession> {
    let conn = accepting(alloc, rounds)?;
    Session::connect_with_stream(alloc, MemoryTransport::new(alloc), conn)
}

/// A pace that hasn't begun.
fn paced(alloc: Global) -> Result<Arc<Pace>, Fail> {
    let pace = Pace {
        begun: AtomicBool::new(false),
        yields: AtomicU32::new(0),
    };
    Ok(Arc::new(alloc, pace)?)
}

/// A client of either kind.
trait Renames<R>: Sync {
    /// Renames a file, and returns the number of the error; 0 where there is none.
    fn renames(&self, rt: &R, from: &str, to: &str) -> u8;
}

/// Renames once the other thread's rename has begun; 255 where that doesn't begin.
fn follows<R, C: Renames<R>>(rt: &R, client: &C, pace: &Pace) -> u8 {
    if comes(&pace.begun) {
        client.renames(rt, "c", "d")
    } else {
        255
    }
}

/// Two threads rename in each of these rounds, the second once the first has begun; how many rounds there were before one had
/// an error.
fn play<R, C>(rt: &R, client: &C, pace: &Pace, rounds: Rounds) -> usize
where
    R: Wait + Threads + Sync + AllocGlobal,
    C: Renames<R>,
{
    let mut count = 0usize;
    let (first, end) = rounds;
    for round in first..end {
        pace.begun.store(false, SeqCst);
        pace.yields.store(round, SeqCst);
        let numbers = thread::join(
            rt,
            || client.renames(rt, "a", "b"),
            || follows(rt, client, pace),
        );
        if numbers != (0, 0) {
            return count;
        }
        count = count.saturating_add(1);
    }
    count
}

/// The lines of a round, in their order.
const LINES: &[u8] = b"RNFR a\r\nRNTO b\r\nRNFR c\r\nRNTO d\r\n";

/// In how many rounds a connection sent the lines in their order, and how many bytes it sent.
fn in_order(conn: &MemoryConn) -> (usize, usize) {
    let mut rounds = 0usize;
    for round in conn.sent().chunks(32) {
        if round == LINES {
            rounds = rounds.saturating_add(1);
        }
    }
    (rounds, conn.sent().len())
}

/// What is due of so many rounds: the number of the error with which the encoding was set, how many rounds had no error, in
/// how many the lines stood in their order, and how many bytes were sent.
fn due(rounds: usize) -> (u8, usize, (usize, usize)) {
    (0, rounds, (rounds, rounds.saturating_mul(32)))
}
