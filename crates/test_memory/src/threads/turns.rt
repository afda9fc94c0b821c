//! How two threads of a test take turns: by words that one stores and the other loads. Each wait has its limit.

ghost use Rattle.std.specs.Prelude.{⊤};

use ftp_blocking::Gate;
use std::sync::atomic::Ordering::SeqCst;
use std::sync::atomic::{AtomicBool, AtomicU32};
use std::thread::yield_now;

/// How often a thread looks whether its turn has come.
const LOOKS: u32 = 1_000_000;

/// A gate whose first question lets another thread begin, and that is open once the other thread opens it.
#[derive(Drop)]
pub struct Turnstile {
    asked: AtomicBool,
    open: AtomicBool,
}

impl Turnstile {
    /// A gate that wasn't asked yet, and isn't open.
    pub fn new() -> Turnstile {
        Turnstile {
            asked: AtomicBool::new(false),
            open: AtomicBool::new(false),
        }
    }

    /// Waits for the first question; whether it came.
    pub fn was_asked(&self) -> bool {
        comes(&self.asked)
    }

    /// Opens the gate.
    pub fn open(&self) {
        self.open.store(true, SeqCst);
    }

    /// Asks as often as a thread looks; whether the gate was open.
    pub fn opens(&self) -> bool {
        for _ in 0..LOOKS {
            if self.pass() {
                return true;
            }
        }
        false
    }
}

impl Gate for Turnstile {
    ghost shows = { λ _. ⊤ };

    fn pass(&self) -> bool {
        self.asked.store(true, SeqCst);
        yield_now();
        self.open.load(SeqCst)
    }
}

/// Waits until another thread has stored this; whether it has.
pub fn comes(word: &AtomicBool) -> bool {
    for _ in 0..LOOKS {
        if word.load(SeqCst) {
            return true;
        }
        yield_now();
    }
    false
}

/// Waits until two threads have come here; whether they have.
pub fn meets(count: &AtomicU32) -> bool {
    count.fetch_add(1, SeqCst);
    for _ in 0..LOOKS {
        if count.load(SeqCst) >= 2 {
            return true;
        }
        yield_now();
    }
    false
}
