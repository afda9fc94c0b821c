//! What wakes a task whose wait has a limit.
//!
//! The limit is counted from the first call that asks whether it has passed. Where the transport has timers one of them wakes
//! the task then; else the task is polled again at once, for as long as it waits.

ghost use Rattle.std.specs.Prelude.{◌≡◌, IfSome, None, not, is_none, true};
ghost use Rattle.futures.specs.Task.{Hears, IsArmed, Keeps};
ghost use Rattle.tokio.specs.Timers.{sleep_source};

use futures::task::{Context, Poll};
use std::io;
use std::time::{Clock, Duration, Instant};
use tokio::time::{Handle, Sleep};

/// A limit: none while nothing has asked for one.
#[derive(Drop)]
pub(crate) struct Alarm {
    // When it was first asked for.
    since: Option<Instant>,
    // What wakes the task at its end.
    sleep: Option<Sleep>,
}

impl Alarm {
    /// No limit.
    pub(crate) fn none() -> Alarm
        ensures since { result.since ≡ None }
        ensures sleep { result.sleep ≡ None }
    {
        Alarm {
            since: None,
            sleep: None,
        }
    }

    /// Whether a limit runs.
    pub(crate) fn runs(&self) -> bool
        ensures { result ≡ not (is_none self.now.since) }
    {
        self.since.is_some()
    }

    /// Whether this time has passed since the first call.
    ///
    /// # Errors
    /// Where the clock can't be read.
    pub(crate) fn has_passed<R: Clock>(
        &mut self,
        rt: &R,
        timers: Option<&Handle>,
        limit: Duration,
    ) -> io::Result<bool> {
        let since = match self.since {
            Some(since) => since,
            None => Instant::now(rt)?,
        };
        self.since = Some(since);
        if since.elapsed(rt)? >= limit {
            return Ok(true);
        }
        self.set(timers, since.checked_add(limit));
        Ok(false)
    }

    /// Sets the timer to this time. Where there is no timer, and no memory for one, none is set.
    fn set(&mut self, timers: Option<&Handle>, end: Option<Instant>)
        ensures { self.new.since ≡ self.old.since }
    {
        let Some(end) = end else {
            self.sleep = None;
            return;
        };
        match &mut self.sleep {
            Some(sleep) if sleep.deadline() == end => {}
            Some(sleep) => sleep.reset(end),
            None => self.sleep = sleep_until(timers, end),
        }
    }

    /// Has the task woken once the time has passed, or polled again at once where there is no timer.
    pub(crate) fn poll_ring(&mut self, cx: &mut Context<'_>)
        ensures armed { IsArmed cx.new }
        ensures again { self.old.sleep ≡ None → cx.new.is_woken ≡ true }
        ensures rings { IfSome self.old.sleep (λ sleep. Hears cx.new (sleep_source sleep)) }
        ensures same { self.new ≡ self.old }
        ensures kept { Keeps cx.old cx.new }
    {
        let waits = match &mut self.sleep {
            Some(sleep) => sleep.poll_elapsed(cx).is_pending(),
            None => false,
        };
        if !waits {
            let _: Poll<()> = cx.yield_now();
        }
    }
}

/// A timer that rings at this time, where there are timers and there is memory for one.
fn sleep_until(timers: Option<&Handle>, end: Instant) -> Option<Sleep> {
    timers?.sleep_until(end).ok()
}
