//! What is told, and what is counted.

use crate::screen::Screen;
use crate::system::System;
use crate::under_way::{Reached, UnderWay, shown_name};
use ftp_transfer::Progress;
use std::alloc::{AllocError, Global};
use std::sync::atomic::{AtomicU64, Ordering};
use std::sync::{Arc, Mutex};
use std::time::Instant;

/// How many files under way have a line of their own: a terminal has few.
const LINES: usize = 12;

/// What is shown of a mirror's work.
#[derive(Clone, Copy)]
pub enum Shows {
    /// A line for all that is done.
    Lines,
    /// What is left undone, and nothing else.
    Problems,
    /// A line for each file under way and one for all, drawn anew again and again: for a terminal.
    Bar,
    /// Nothing: the lines are kept.
    Kept,
}

/// What was planned and done so far.
#[derive(Clone, Copy)]
pub(crate) struct Counts {
    /// Files that are to be copied, and their bytes.
    pub planned_files: u64,
    pub planned_bytes: u64,
    /// Files that were copied, and the bytes that came.
    pub files: u64,
    pub bytes: u64,
    /// Files that weren't.
    pub failed: u64,
    /// What was left undone.
    pub undone: u64,
}

/// What all threads tell and count.
pub struct Report {
    shows: Shows,
    // held while a line is written, so that lines of threads don't mix
    state: Mutex<State>,
    // the bytes that have come of the files that are planned
    went: AtomicU64,
}

#[derive(Drop)]
struct State {
    counts: Counts,
    kept: String,
    // the files under way, each with its number; and the number of the next
    under_way: Vec<UnderWay>,
    next: u64,
    screen: Screen,
}

impl Drop for Report {
    fn drop(self) {
        let Self {
            shows: _,
            state,
            went: _,
        } = self;
        drop(state);
    }
}

impl Report {
    /// Nothing was done yet.
    pub fn new(alloc: Global, shows: Shows) -> Report {
        Report {
            shows,
            state: Mutex::new(State {
                counts: Counts {
                    planned_files: 0,
                    planned_bytes: 0,
                    files: 0,
                    bytes: 0,
                    failed: 0,
                    undone: 0,
                },
                kept: String::new(alloc),
                under_way: Vec::new(alloc),
                next: 0,
                screen: Screen::new(),
            }),
            went: AtomicU64::new(0),
        }
    }

    /// The lines that were kept.
    pub fn into_kept(self) -> String {
        let Self {
            shows: _,
            state,
            went: _,
        } = self;
        let State {
            counts: _,
            kept,
            under_way,
            next: _,
            screen: _,
        } = state.into_inner();
        drop(under_way);
        kept
    }

    /// Whether lines are drawn again and again.
    pub(crate) fn is_drawn(&self) -> bool {
        matches!(self.shows, Shows::Bar)
    }

    /// Tells what was done.
    pub(crate) fn tell<S: System>(&self, system: &S, line: Result<String, AllocError>) {
        let mut state = self.state.lock(system);
        match self.shows {
            Shows::Lines => system.print(text_of(&line)),
            Shows::Kept => keep(&mut state.kept, text_of(&line)),
            Shows::Problems | Shows::Bar => {}
        }
    }

    /// Something is left undone: it is named on standard error.
    pub(crate) fn leave<S: System>(&self, system: &S, line: Result<String, AllocError>) {
        let mut state = self.state.lock(system);
        state.counts.undone = state.counts.undone.saturating_add(1);
        match self.shows {
            Shows::Kept => keep(&mut state.kept, text_of(&line)),
            Shows::Lines | Shows::Problems => system.complain(text_of(&line)),
            Shows::Bar => {
                clear(system, &mut state.screen);
                complain_safely(system, text_of(&line));
            }
        }
    }

    /// Tells what came of all at the end.
    pub(crate) fn end<S: System>(&self, system: &S, line: Result<String, AllocError>) {
        if self.is_drawn() {
            clear(system, &mut self.state.lock(system).screen);
            system.print(text_of(&line));
        } else {
            self.tell(system, line);
        }
    }

    /// Draws how far the files under way have come, and this line below them.
    pub(crate) fn draw<S: System>(&self, system: &S, line: String, now: Instant) {
        let mut state = self.state.lock(system);
        let Ok(lines) = lines_of(system.alloc(), &state.under_way, line, now) else {
            return;
        };
        if let Ok(text) = state.screen.redraw(system.alloc(), &lines) {
            system.draw(text.as_str());
        }
    }

    /// The copy of a file of this name begins.
    pub(crate) fn begin<S: System>(&self, system: &S, name: &str, size: u64) -> Went<'_> {
        let alloc = system.alloc();
        let mut state = self.state.lock(system);
        let number = state.next;
        state.next = state.next.saturating_add(1);
        let reached = Arc::new(alloc, Reached::new()).ok();
        if self.is_drawn() {
            let _ = state.add(system, number, name, size, &reached);
        }
        drop(state);
        Went {
            all: &self.went,
            number,
            reached,
            counted: 0,
        }
    }

    /// The copy of a file has ended.
    pub(crate) fn leave_file<S: System>(&self, system: &S, went: &Went<'_>) {
        let mut state = self.state.lock(system);
        let number = went.number;
        state.under_way.retain(|file| file.number != number);
    }

    /// A file is to be copied.
    pub(crate) fn plan<S: System>(&self, system: &S, size: u64) {
        let mut state = self.state.lock(system);
        state.counts.planned_files = state.counts.planned_files.saturating_add(1);
        state.counts.planned_bytes = state.counts.planned_bytes.saturating_add(size);
    }

    /// A file was copied, of which so many bytes came; or it wasn't.
    pub(crate) fn count<S: System>(&self, system: &S, came: Option<u64>) {
        let mut state = self.state.lock(system);
        match came {
            Some(bytes) => {
                state.counts.files = state.counts.files.saturating_add(1);
                state.counts.bytes = state.counts.bytes.saturating_add(bytes);
            }
            None => state.counts.failed = state.counts.failed.saturating_add(1),
        }
    }

    /// What was planned and done.
    pub(crate) fn counts<S: System>(&self, system: &S) -> Counts {
        self.state.lock(system).counts
    }

    /// How many bytes have come of the files that are planned, those of parts that were there before with them.
    pub(crate) fn went(&self) -> u64 {
        self.went.load(Ordering::SeqCst)
    }
}

/// A line, or what stands for one for which there was no memory.
fn text_of(line: &Result<String, AllocError>) -> &str {
    match line {
        Ok(line) => line.as_str(),
        Err(_) => "out of memory",
    }
}

/// Keeps a line. Where there is no memory for it a test misses it.
fn keep(kept: &mut String, line: &str) {
    let _ = kept.push_str(line);
    let _ = kept.push('\n');
}

/// Prints a line on standard error, in which a stranger's name may stand.
fn complain_safely<S: System>(system: &S, line: &str) {
    match shown_name(system.alloc(), line) {
        Ok(shown) => system.complain(shown.as_str()),
        Err(_) => system.complain("out of memory"),
    }
}

/// Clears the lines that were drawn.
fn clear<S: System>(system: &S, screen: &mut Screen) {
    if let Ok(text) = screen.clear(system.alloc()) {
        system.draw(text.as_str());
    }
}

/// The lines of the files under way, and this one below them.
fn lines_of(
    alloc: Global,
    under_way: &[UnderWay],
    line: String,
    now: Instant,
) -> Result<Vec<String>, AllocError> {
    let mut lines = Vec::new(alloc);
    for file in under_way.iter().take(LINES) {
        lines.push(file.line(alloc, now)?)?;
    }
    lines.push(line)?;
    Ok(lines)
}

impl State {
    /// Adds a file to those under way.
    fn add<S: System>(
        &mut self,
        system: &S,
        number: u64,
        name: &str,
        size: u64,
        reached: &Option<Arc<Reached, Global>>,
    ) -> Result<(), AllocError> {
        let Some(reached) = reached else {
            return Err(AllocError);
        };
        let Ok(reached) = reached.clone() else {
            return Err(AllocError);
        };
        self.under_way.push(UnderWay {
            number,
            name: shown_name(system.alloc(), name)?,
            size,
            reached,
            start: system.moment(),
        })?;
        Ok(())
    }
}

/// How far a file has come, over all tries. It is told places in the file.
#[derive(Drop)]
pub struct Went<'r> {
    all: &'r AtomicU64,
    number: u64,
    // none where there was no memory
    reached: Option<Arc<Reached, Global>>,
    counted: u64,
}

impl Went<'_> {
    /// A try begins at this place.
    pub(crate) fn begin(&mut self, place: u64) {
        if let Some(reached) = &self.reached {
            reached.begin(place);
        }
        self.reach(place);
    }

    /// So many bytes of the file are there. Those that were counted in an earlier try aren't counted again.
    fn reach(&mut self, place: u64) {
        if let Some(reached) = &self.reached {
            reached.reach(place);
        }
        if place > self.counted {
            self.all.fetch_add(place - self.counted, Ordering::SeqCst);
            self.counted = place;
        }
    }
}

impl Progress for Went<'_> {
    fn went(&mut self, so_far: u64) {
        self.reach(so_far);
    }
}
