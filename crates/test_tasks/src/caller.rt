//! A task that asks for one file's size again and again, and gives some of its calls up.

use crate::tally::Tally;
use ftp_base::encoding::Utf8Encoding;
use ftp_base::types::FtpResult;
use ftp_polled::{Dialogue, ImplAsyncFtpStream};
use ftp_session::session::{NoStreamBuilder, NoTlsConnector};
use ftp_tokio::TokioTransport;
use futures::Future;
use futures::task::{Context, Poll};
use std::alloc::{AllocError, AllocGlobal};
use std::net::Net;
use std::sync::Wait;
use std::time::Clock;

/// A polled client over tokio's sockets.
pub type Client = ImplAsyncFtpStream<TokioTransport>;

/// A call for a file's size.
type Size<'a, R> = Dialogue<
    'a,
    R,
    TokioTransport,
    NoTlsConnector,
    Utf8Encoding,
    NoStreamBuilder,
    usize,
>;

/// The files; each name is its size, too.
const NAMES: [&str; 8] = ["1", "2", "3", "4", "5", "6", "7", "8"];

/// The most calls that one task makes.
const MOST: u32 = 20_000;

/// A task that makes calls until it has dropped so many. One call in two is dropped where it waits for the first time,
/// and one in four where it waits for the second time.
pub struct Caller<'a, R> {
    rt: &'a R,
    client: &'a Client,
    name: &'a str,
    size: usize,
    tally: &'a Tally,
    // How many calls may still be made, and how many are still to be dropped.
    calls: u32,
    drops: u32,
    call: Option<Size<'a, R>>,
    // At how many more waits the call goes on.
    waits: u32,
    seed: u64,
}

impl<R> Drop for Caller<'_, R> {
    fn drop(self) {
        let Self {
            rt: _,
            client: _,
            name: _,
            size: _,
            tally: _,
            calls: _,
            drops: _,
            call,
            waits: _,
            seed: _,
        } = self;
        drop(call);
    }
}

/// A task for each file.
///
/// # Errors
/// Where there is no memory for them.
pub fn callers<'a, R: AllocGlobal>(
    rt: &'a R,
    client: &'a Client,
    drops: u32,
    tally: &'a Tally,
) -> Result<Vec<Caller<'a, R>>, AllocError> {
    let mut callers = Vec::new(rt.alloc());
    for (i, name) in NAMES.iter().enumerate() {
        callers.push(Caller {
            rt,
            client,
            name,
            size: i + 1,
            tally,
            calls: MOST,
            drops,
            call: None,
            waits: 0,
            seed: i as u64,
        })?;
    }
    Ok(callers)
}

/// The next number of a sequence that looks like chance.
fn next(seed: u64) -> u64 {
    seed.wrapping_mul(6364136223846793005)
        .wrapping_add(1442695040888963407)
}

impl<R: Net + Wait + Clock + AllocGlobal> Caller<'_, R> {
    /// Begins the next call, where none is under way. Whether there is one.
    fn begin(&mut self) -> bool {
        if self.call.is_some() {
            return true;
        }
        if self.drops == 0 || self.calls == 0 {
            return false;
        }
        self.calls -= 1;
        self.seed = next(self.seed);
        self.waits = match self.seed >> 62 {
            0 | 1 => 0,
            2 => 1,
            _ => MOST,
        };
        self.call = Some(self.client.size(self.rt, self.name));
        true
    }

    /// The call under way has returned.
    fn end(&mut self, answer: FtpResult<usize>) {
        self.call = None;
        self.tally.count(answer, self.size);
    }

    /// The call under way is dropped.
    fn give_up(&mut self) {
        self.call = None;
        self.drops = self.drops.saturating_sub(1);
        self.tally.count_dropped();
    }
}

impl<R: Net + Wait + Clock + AllocGlobal> Future for Caller<'_, R> {
    type Output = ();

    fn poll(&mut self, cx: &mut Context<'_>) -> Poll<()> {
        if !self.begin() {
            return Poll::Ready(());
        }
        let Some(call) = &mut self.call else {
            return Poll::Ready(());
        };
        match call.poll(cx) {
            Poll::Ready(answer) => self.end(answer),
            Poll::Pending => {
                if self.waits > 0 {
                    self.waits -= 1;
                    return Poll::Pending;
                }
                self.give_up();
            }
        }
        cx.yield_now()
    }
}
