//! What became of the calls.

use ftp_base::types::FtpResult;
use std::fmt;
use std::fmt::Display;
use std::sync::atomic::AtomicU32;
use std::sync::atomic::Ordering::SeqCst;

/// How many calls returned their own answer, how many another or an error, and how many were dropped.
#[derive(Drop)]
pub struct Tally {
    right: AtomicU32,
    wrong: AtomicU32,
    dropped: AtomicU32,
}

impl Tally {
    /// Nothing was counted.
    pub fn new() -> Tally {
        Tally {
            right: AtomicU32::new(0),
            wrong: AtomicU32::new(0),
            dropped: AtomicU32::new(0),
        }
    }

    /// A call has returned, which is for a file of this size.
    pub fn count(&self, answer: FtpResult<usize>, size: usize) {
        let right = matches!(&answer, Ok(told) if *told == size);
        drop(answer);
        if right {
            self.right.fetch_add(1, SeqCst);
        } else {
            self.wrong.fetch_add(1, SeqCst);
        }
    }

    /// A call was dropped.
    pub fn count_dropped(&self) {
        self.dropped.fetch_add(1, SeqCst);
    }

    /// Whether each of eight tasks dropped so many, and all that returned got their own answers, of which there are some.
    pub fn agrees(&self, drops: u32) -> bool {
        self.wrong.load(SeqCst) == 0
            && self.right.load(SeqCst) > 0
            && self.dropped.load(SeqCst) / 8 == drops
    }
}

impl Display for Tally {
    fn fmt<W: fmt::Write>(&self, f: &mut fmt::Formatter<W>) -> fmt::Result {
        write!(
            f,
            "{} calls got their own answers, {} others, {} were dropped",
            self.right.load(SeqCst),
            self.wrong.load(SeqCst),
            self.dropped.load(SeqCst)
        )
    }
}
