//! Plays the worked rows of calls that are dropped, which come by standard input: each once for each number of polls that
//! it names, on a new polled client. It prints each play that differs, and a line for each set.
//!
//! The connections wait before each byte, so that a call can be dropped between any two bytes that it reads or writes; and
//! each row is played with the bytes of the server there at once, too, so that replies lie ahead when a call is dropped.
//! docs/ROWS.md has the words. A line that isn't understood ends the program with status 1, so that no row is passed over.
#![tactic(auto)]

mod advance;
mod begin;
mod gains;
mod play;
mod scene;
mod script;
mod slow;
mod tally;
mod transcript;

use anyhow::{Context, Result};
use std::io;
use tally::Tally;

fn main(rt: HostRuntime) -> Result<()> {
    let rows = io::read_to_string(rt.alloc(), rt.reader())?;
    let mut tally = Tally::new("");
    for (number, text) in (1u64..).zip(rows.split("\n\n")) {
        tally
            .read(&rt, text)
            .context(format_args!("paragraph {number}"))?;
    }
    Ok(tally.end(&rt)?)
}
