//! How long a run took, and how much of the processor's time.

use crate::plan::Run;
use crate::ticks::Ticks;
use std::io;
use std::rt::Files;
use std::time::{Clock, CpuClock, Duration, Instant};

/// The times at the start of a run.
#[derive(Clone, Copy)]
pub struct Stopwatch {
    start: Instant,
    used: Duration,
    ticks: Option<Ticks>,
}

impl Stopwatch {
    /// Now.
    pub fn start<R: Clock + CpuClock + Files + AllocGlobal>(rt: &R) -> io::Result<Stopwatch> {
        let ticks = Ticks::now(rt);
        Ok(Stopwatch {
            start: Instant::now(rt)?,
            used: rt.thread_cpu_time()?,
            ticks,
        })
    }

    /// Prints what a run carried, and to standard error its times: in all, of this thread on a processor, and how that
    /// time is parted.
    pub fn report<R>(self, rt: &R, run: Run, count: u64) -> io::Result<()>
    where
        R: Clock + CpuClock + Files + AllocGlobal + Print + Eprint,
    {
        let taken = self.start.elapsed(rt)?;
        let used = rt.thread_cpu_time()?.saturating_sub(self.used);
        let (name, unit) = (run.kind.name(), run.kind.unit());
        println!(rt; "{name}: {count} {unit}")?;
        let (taken, used) = (micros(taken), micros(used));
        let rate = per_second(count, taken);
        eprintln!(rt; "{name}: {taken} us, {rate} {unit} a second, thread {used} us")?;
        match (self.ticks, Ticks::now(rt)) {
            (Some(start), Some(end)) => report_ticks(rt, end.since(start)),
            _ => Ok(()),
        }
    }
}

/// Prints how the time of a thread is parted.
fn report_ticks<R: Eprint>(rt: &R, ticks: Ticks) -> io::Result<()> {
    let user = ticks.user.saturating_mul(10);
    let system = ticks.system.saturating_mul(10);
    eprintln!(rt; "  of it user {user} ms, system {system} ms, in steps of 10 ms")
}

/// The microseconds of a time.
fn micros(time: Duration) -> u64 {
    u64::try_from(time.as_micros()).unwrap_or(u64::MAX)
}

/// How many in a second, where so many take so many microseconds.
fn per_second(count: u64, micros: u64) -> u64 {
    count.saturating_mul(1_000_000) / micros.max(1)
}
