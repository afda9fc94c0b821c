//! Plays rows of sessions over memory, and lines of listings, in which one allocation may fail, and says what came.
//!
//! The first line of the input is a number: so many allocations are made first and given back. A sweep has the tool fail
//! always the same allocation of the program, and gives each number below, so that one build serves all runs
//! (`.ci/fail-allocations`). Rows follow, written as docs/ROWS.md says but with the answers alone as their transcripts; or
//! under a heading lines `list FORM NOW TEXT` of a listing, each with a line `due FILE` after it, or a line `secure BYTES`
//! of what a session's server sends before it is put under TLS, with a line `under BYTES` of what it sends then. An empty
//! line ends each.
//! A line that isn't understood ends the program with status 1.
#![tactic(auto)]

mod count;
mod judge;
mod listing;
mod played;
mod reader;
mod secure;

use rows_text::RowError;
use std::process::ExitCode;

fn main(rt: HostRuntime) -> ExitCode {
    let mut input = rt.reader();
    let count = count::first_number(&mut input);
    count::allocate(rt.alloc(), count);
    match reader::play(&rt, input) {
        Ok(()) => ExitCode::SUCCESS,
        Err(RowError::OutOfMemory) => {
            let _ = println!(rt; "own: an allocation of the test itself failed");
            ExitCode::SUCCESS
        }
        Err(RowError::NotUnderstood) => {
            let _ = eprintln!(rt; "rows_memory: not understood");
            ExitCode::from(1)
        }
    }
}
