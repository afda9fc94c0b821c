//! Lines on a terminal that say how far the copies have come: one for each file under way, and one for all.

use crate::amounts::amount;
use crate::report::Report;
use crate::system::System;
use std::alloc::{AllocError, Global};
use std::time::Duration;

/// How many milliseconds pass before the lines are drawn again.
const INTERVAL: u64 = 100;

/// Draws the lines until each file that is planned was copied, or wasn't.
pub fn draw_until_done<S: System>(system: &S, report: &Report) {
    let Some(start) = system.moment() else {
        return;
    };
    for _ in 0..u64::MAX {
        let counts = report.counts(system);
        if counts.files.saturating_add(counts.failed) >= counts.planned_files {
            return;
        }
        let Some(now) = system.moment() else {
            return;
        };
        let state = State {
            files: counts.files,
            all_files: counts.planned_files,
            bytes: report.went().min(counts.planned_bytes),
            all_bytes: counts.planned_bytes,
            seconds: now.saturating_duration_since(start).as_secs(),
        };
        if let Ok(text) = state.text(system.alloc()) {
            report.draw(system, text, now);
        }
        system.pause(Duration::from_millis(INTERVAL));
    }
}

/// How far the copies have come.
#[derive(Clone, Copy)]
struct State {
    files: u64,
    all_files: u64,
    bytes: u64,
    all_bytes: u64,
    seconds: u64,
}

impl State {
    /// The line: files and bytes of those planned; once some have come bytes a second, and the time that is left at that
    /// rate.
    fn text(&self, alloc: Global) -> Result<String, AllocError> {
        let done = amount(alloc, self.bytes)?;
        let all = amount(alloc, self.all_bytes)?;
        let rate = self.bytes / self.seconds.max(1);
        if rate == 0 {
            return format!(in alloc;
                "{} of {} files, {done} of {all}",
                self.files, self.all_files
            );
        }
        let each_second = amount(alloc, rate)?;
        let left = self.all_bytes.saturating_sub(self.bytes) / rate;
        let (minutes, seconds) = (left / 60, left % 60);
        format!(in alloc;
            "{} of {} files, {done} of {all}, {each_second}/s, {minutes}:{seconds:02} left",
            self.files, self.all_files
        )
    }
}
