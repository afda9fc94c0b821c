//! What all threads of a mirror share.

use crate::problem::Problem;
use crate::report::Report;
use crate::system::{Connection, System};
use crate::task::Task;
use std::alloc::Global;
use std::sync::Mutex;
use std::sync::atomic::{AtomicU64, Ordering};
use std::time::Duration;

/// How often a pause is doubled.
const DOUBLINGS: u32 = 5;

/// How many milliseconds pass before a thread looks again whether one more connection gains anything.
const LOOK: u64 = 2;

/// Work that connections share.
pub trait Work {
    /// Whether nothing of it is left that no connection has begun.
    fn is_begun<S: System>(&self, system: &S) -> bool;
}

/// What is to be done, what was, and the connections that wait for work.
pub struct Mirror<'r> {
    pub task: &'r Task,
    pub report: &'r Report,
    idle: Mutex<Vec<Connection>>,
    // How many connections were made, how many of them were lost, and how many milliseconds the last login took.
    made: AtomicU64,
    lost: AtomicU64,
    login: AtomicU64,
}

impl Drop for Mirror<'_> {
    fn drop(self) {
        let Self {
            task: _,
            report: _,
            idle,
            made: _,
            lost: _,
            login: _,
        } = self;
        drop(idle);
    }
}

impl<'r> Mirror<'r> {
    /// Without a connection yet.
    pub fn new(alloc: Global, task: &'r Task, report: &'r Report) -> Mirror<'r> {
        Mirror {
            task,
            report,
            idle: Mutex::new(Vec::new(alloc)),
            made: AtomicU64::new(0),
            lost: AtomicU64::new(0),
            login: AtomicU64::new(0),
        }
    }

    /// A connection that nobody uses, or a new one.
    ///
    /// # Errors
    /// Those of connecting and logging in.
    pub fn take<S: System>(&self, system: &S) -> Result<Connection, Problem> {
        let idle = self.idle.lock(system).pop();
        match idle {
            Some(connection) => Ok(connection),
            None => self.connect(system),
        }
    }

    /// A new connection.
    ///
    /// # Errors
    /// Those of connecting and logging in.
    fn connect<S: System>(&self, system: &S) -> Result<Connection, Problem> {
        let begun = system.moment();
        let connection = system.connect(&self.task.site)?;
        if let (Some(begun), Some(now)) = (begun, system.moment()) {
            let took = now.saturating_duration_since(begun).as_millis();
            self.login
                .store(u64::try_from(took).unwrap_or(u64::MAX), Ordering::SeqCst);
        }
        self.made.fetch_add(1, Ordering::SeqCst);
        Ok(connection)
    }

    /// Waits until a connection more than so many may gain something, or all work is begun. Some servers take seconds for a
    /// login, one after another: so that is once those are there, and the work has gone on for as long as a login took.
    pub fn wait_to_help<S: System, W: Work>(&self, system: &S, number: usize, work: &W) {
        let number = number as u64;
        let mut waited = 0u64;
        for _ in 0..u64::MAX {
            let made = self.made.load(Ordering::SeqCst);
            let there = made.saturating_sub(self.lost.load(Ordering::SeqCst));
            if there > number || waited >= self.login.load(Ordering::SeqCst) {
                return;
            }
            if work.is_begun(system) {
                return;
            }
            if there == number {
                waited = waited.saturating_add(LOOK);
            }
            system.pause(Duration::from_millis(LOOK));
        }
    }

    /// Gives a connection back, unless it is lost.
    pub fn give<S: System>(&self, system: &S, connection: Connection) {
        if system.is_lost(&connection) {
            self.lost.fetch_add(1, Ordering::SeqCst);
        } else {
            let _ = self.idle.lock(system).push(connection);
        }
    }

    /// Ends all sessions.
    pub fn quit<S: System>(&self, system: &S) {
        for _ in 0..usize::MAX {
            let next = self.idle.lock(system).pop();
            let Some(connection) = next else {
                return;
            };
            system.quit(connection);
        }
    }

    /// Waits before another try: the first pause before the second one, and twice as long before each later one, up to 32
    /// times as long.
    pub fn pause<S: System>(&self, system: &S, attempt: u32) {
        let times = 1u32 << attempt.min(DOUBLINGS);
        let pause = self.task.first_pause.checked_mul(times);
        system.pause(pause.unwrap_or(Duration::from_secs(1)));
    }
}
