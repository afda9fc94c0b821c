//! The limit of a connection's waits in one direction.
//!
//! Neither a poll nor the registration of a task is passed a clock, so the time is that of the runtime's timers: a tick
//! that is long due is seen at the time of the event loop's last turn, and the next one comes a period later. That turn
//! may lie far back where the loop has only begun to run. So the limit is counted from the turn after the wait's
//! registration, which comes within a few milliseconds.

ghost use Rattle.std.specs.Prelude.{◌≡◌, IsSome, None, Ok, false, true};
ghost use Rattle.futures.specs.Task.{Keeps};
ghost use Rattle.ftp_tokio.specs.Needs.{IsRung, IsRungBy, IsTimed};
ghost use Rattle.ftp_tokio.specs.Outcomes.{is_late, limit_of, no_watch};

use futures::task::{Context, Poll};
use std::io;
use std::io::ErrorKind;
use std::time::{Clock, Duration, Instant};
use tokio::time::{Handle, Interval, MissedTickBehavior};

/// How many milliseconds a turn of the event loop is waited for.
const TURN: u64 = 1;

/// How many seconds before its making a limit's past lies: by more than what makes a tick a missed one.
const LONG: u64 = 1;

/// A limit, and the timers that keep it.
#[derive(Drop)]
pub(crate) struct Limit {
    timers: Handle,
    // A time that has passed.
    past: Instant,
    period: Duration,
}

impl Limit {
    /// Ticks one period after the event loop's last turn, where there is memory for a timer.
    fn begin(&self, period: Duration, cx: &mut Context<'_>) -> Option<Interval>
        ensures kept { Keeps cx.old cx.new }
    {
        if period.is_zero() {
            return None;
        }
        let mut ticks = self.timers.interval_at(self.past, period).ok()?;
        ticks.set_missed_tick_behavior(MissedTickBehavior::Delay);
        let _ = ticks.poll_tick(cx);
        Some(ticks)
    }
}

/// A limit, and how far it has run in the wait that lasts.
#[derive(Drop)]
pub(crate) struct Timing {
    limit: Limit,
    // Ticks at the event loop's turn after the wait began.
    turn: Option<Interval>,
    // Ticks at the limit's end.
    end: Option<Interval>,
    late: bool,
}

impl Timing {
    /// Nothing waits any more: the next wait has the whole limit.
    fn end(&mut self)
        ensures limit { self.new.limit ≡ self.old.limit }
        ensures late { self.new.late ≡ false }
    {
        self.turn = None;
        self.end = None;
        self.late = false;
    }

    /// Whether the wait has lasted longer than the limit.
    fn has_passed(&mut self, cx: &mut Context<'_>) -> bool
        ensures late { result ≡ true → self.new.late ≡ true }
        ensures limit { self.new.limit ≡ self.old.limit }
        ensures rings { result ≡ false → IsTimed cx.new self.new }
        ensures kept { Keeps cx.old cx.new }
    {
        if self.end.is_none() {
            if self.turn.is_none() {
                self.turn = self.limit.begin(Duration::from_millis(TURN), cx);
            }
            if !has_ticked(&mut self.turn, cx) {
                return false;
            }
            self.end = self.limit.begin(self.limit.period, cx);
        }
        self.late = has_ticked(&mut self.end, cx);
        self.late
    }
}

/// The limit of the waits in one direction, if there is one. It is in memory of its own, so that a connection that moves
/// moves little.
#[derive(Drop)]
pub(crate) struct Watch {
    timing: Option<Box<Timing>>,
}

impl Watch {
    /// No limit.
    pub(crate) fn none() -> Watch
        ensures { result ≡ no_watch }
    {
        Watch { timing: None }
    }

    /// This limit, where there is one.
    ///
    /// # Errors
    /// `InvalidInput` where it is zero, or where there are no timers; where the clock can't be read; out of memory.
    pub(crate) fn new<R: Clock + AllocGlobal>(
        rt: &R,
        timers: Option<&Handle>,
        limit: Option<Duration>,
    ) -> io::Result<Watch>
        ensures { limit ≡ None → result ≡ Ok no_watch }
    {
        let Some(period) = limit else {
            return Ok(Watch::none());
        };
        let Some(timers) = timers else {
            return Err(ErrorKind::InvalidInput.into());
        };
        if period.is_zero() {
            return Err(ErrorKind::InvalidInput.into());
        }
        let now = Instant::now(rt)?;
        let limit = Limit {
            timers: timers.clone()?,
            past: now.checked_sub(Duration::from_secs(LONG)).unwrap_or(now),
            period,
        };
        let timing = Timing {
            limit,
            turn: None,
            end: None,
            late: false,
        };
        Ok(Watch {
            timing: Some(Box::new(rt.alloc(), timing)?),
        })
    }

    /// Whether the wait was found to last longer than the limit.
    pub(crate) fn is_late(&self) -> bool
        ensures { result ≡ is_late self.now }
    {
        match &self.timing {
            Some(timing) => timing.late,
            None => false,
        }
    }

    /// Nothing waits any more: the next wait has the whole limit.
    pub(crate) fn end(&mut self)
        ensures limit { limit_of self.new ≡ limit_of self.old }
        ensures late { is_late self.new ≡ false }
    {
        if let Some(timing) = &mut self.timing {
            timing.end();
        }
    }

    /// Whether the wait has lasted longer than the limit. Where it hasn't, the task is woken at the limit's end, or polled
    /// again at once where there is no memory for a timer.
    pub(crate) fn has_passed(&mut self, cx: &mut Context<'_>) -> bool
        ensures none { limit_of self.old ≡ None → result ≡ false }
        ensures late { result ≡ true → is_late self.new ≡ true }
        ensures limit { limit_of self.new ≡ limit_of self.old }
        ensures rings { result ≡ false → IsSome (limit_of self.old) → IsRung cx.new self.new }
        ensures kept { Keeps cx.old cx.new }
    {
        match &mut self.timing {
            Some(timing) => timing.has_passed(cx),
            None => false,
        }
    }
}

/// Whether the next tick has come. Where it hasn't, the task is woken at it; where there is no timer it is polled again at
/// once.
fn has_ticked(ticks: &mut Option<Interval>, cx: &mut Context<'_>) -> bool
    ensures rings { result ≡ false → IsRungBy cx.new ticks.new }
    ensures kept { Keeps cx.old cx.new }
{
    let ticked = match ticks {
        Some(ticks) => ticks.poll_tick(cx),
        None => return again(cx),
    };
    match ticked {
        Poll::Ready(Ok(_)) => true,
        Poll::Pending => false,
        Poll::Ready(Err(_)) => again(cx),
    }
}

/// Has the task polled again at once: no tick has come.
fn again(cx: &mut Context<'_>) -> bool
    ensures none { result ≡ false }
    ensures again { cx.new.is_woken ≡ true }
    ensures kept { Keeps cx.old cx.new }
{
    let _: Poll<()> = cx.yield_now();
    false
}
