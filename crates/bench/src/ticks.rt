//! How a thread's processor time is parted between the program and the system, where Linux tells it.

use std::fs;
use std::rt::Files;

/// Where Linux tells of the calling thread (proc(5), `/proc/pid/stat`).
const STAT: &str = "/proc/thread-self/stat";

/// How many fields stand between the thread's name and its user time.
const BEFORE: usize = 11;

/// Processor time in ticks of 10 ms.
#[derive(Clone, Copy)]
pub struct Ticks {
    /// In the program.
    pub user: u64,
    /// In the system, for the program.
    pub system: u64,
}

impl Ticks {
    /// Those of the calling thread so far; none where the system doesn't tell them.
    pub fn now<R: Files + AllocGlobal>(rt: &R) -> Option<Ticks> {
        let told = fs::read_to_string(rt, STAT).ok()?;
        Ticks::read(told.as_str())
    }

    /// Those of a line of Linux's. The name stands in parentheses, and may have some itself.
    fn read(line: &str) -> Option<Ticks> {
        let (_name, fields) = line.rsplit_once(") ")?;
        let mut fields = fields.split(' ').skip(BEFORE);
        let user = fields.next()?.parse().ok()?;
        let system = fields.next()?.parse().ok()?;
        Some(Ticks { user, system })
    }

    /// Those since then.
    pub fn since(self, start: Ticks) -> Ticks {
        Ticks {
            user: self.user.saturating_sub(start.user),
            system: self.system.saturating_sub(start.system),
        }
    }
}
