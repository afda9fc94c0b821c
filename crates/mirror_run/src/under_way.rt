//! A file that is copied at the moment, and its line on a terminal.

use crate::amounts::amount;
use std::alloc::{AllocError, Global};
use std::sync::Arc;
use std::sync::atomic::{AtomicU64, Ordering};
use std::time::Instant;

/// How many cells a bar has.
const CELLS: u64 = 20;

/// How far a file has come, which the thread that copies it writes and the one that draws it reads.
#[derive(Drop)]
pub struct Reached {
    place: AtomicU64,
    // where the try began that is under way
    begin: AtomicU64,
}

impl Reached {
    /// Nothing has come.
    pub fn new() -> Reached {
        Reached {
            place: AtomicU64::new(0),
            begin: AtomicU64::new(0),
        }
    }

    /// A try begins at this place.
    pub fn begin(&self, place: u64) {
        self.begin.store(place, Ordering::SeqCst);
        self.place.store(place, Ordering::SeqCst);
    }

    /// This place was come to.
    pub fn reach(&self, place: u64) {
        self.place.store(place, Ordering::SeqCst);
    }
}

/// A file that is copied at the moment.
#[derive(Drop)]
pub struct UnderWay {
    pub number: u64,
    // as it is shown
    pub name: String,
    pub size: u64,
    pub reached: Arc<Reached, Global>,
    // none where the clock can't be read
    pub start: Option<Instant>,
}

impl UnderWay {
    /// Its line: a bar, how much has come, bytes a second, and the name, which is last, since it may be longer than the
    /// terminal is wide.
    ///
    /// # Errors
    /// `AllocError`.
    pub fn line(&self, alloc: Global, now: Instant) -> Result<String, AllocError> {
        let place = self.reached.place.load(Ordering::SeqCst);
        let begin = self.reached.begin.load(Ordering::SeqCst);
        let seconds = match self.start {
            Some(start) => now.saturating_duration_since(start).as_secs().max(1),
            None => 1,
        };
        let rate = amount(alloc, place.saturating_sub(begin) / seconds)?;
        let percent = share(place, self.size, 100);
        let mut line = String::new(alloc);
        line.push('[')?;
        let cells = share(place, self.size, CELLS);
        for cell in 0..CELLS {
            line.push(if cell < cells { '#' } else { '.' })?;
        }
        let rest = format!(in alloc; "] {percent:3} % {rate:>7}/s  {}", self.name)?;
        line.push_str(rest.as_str())?;
        Ok(line)
    }
}

/// How many of so many parts of the whole have come, all of them at most.
fn share(come: u64, whole: u64, parts: u64) -> u64 {
    if whole == 0 {
        return parts;
    }
    let done = u128::from(come.min(whole)) * u128::from(parts) / u128::from(whole);
    u64::try_from(done).unwrap_or(parts).min(parts)
}

/// A name as it may be shown: U+FFFD stands for what moves a terminal's cursor, or turns the direction of its text.
///
/// # Errors
/// `AllocError`.
pub fn shown_name(alloc: Global, name: &str) -> Result<String, AllocError> {
    let mut shown = String::new(alloc);
    for one in name.chars() {
        shown.push(if may_be_shown(one) { one } else { '\u{fffd}' })?;
    }
    Ok(shown)
}

/// Whether a character stays in its place: it is no control, no separator of lines, and no mark of direction.
fn may_be_shown(one: char) -> bool {
    !one.is_control()
        && !matches!(one, '\u{200b}'..='\u{200f}' | '\u{2028}'..='\u{202e}' | '\u{2066}'..='\u{2069}' | '\u{feff}')
}
