//! Plays the worked rows of the base crate, of what replies say and of what sends an address, which come by standard
//! input, and prints a line for each row that differs and one for each set.
//!
//! A line `== SET` begins a set, a line `# ..` says where rows come from, and each other line is a row
//! `INPUT => DUE`, or `=> DUE` where the input is empty. Bytes are written as `rows_text` says. A line that isn't
//! understood ends the program with status 1, so that no row is passed over.
#![tactic(auto)]

mod addresses;
mod answers;
mod commands;
mod comparisons;
mod copies;
mod faults;
mod features;
mod listings;
mod peers;
mod plain;
mod replies;
mod scans;
mod set;
mod sources;
mod tally;
mod uploads;
mod welcomes;
mod words;

use anyhow::{Context, Result};
use rows_text::RowError;
use std::io;
use tally::Tally;

fn main(rt: HostRuntime) -> Result<()> {
    let rows = io::read_to_string(rt.alloc(), rt.reader())?;
    let mut tally = None;
    for (number, line) in (1u64..).zip(rows.lines()) {
        tally = play_line(&rt, line, tally).context(format_args!("line {number}"))?;
    }
    print_end(&rt, tally)
}

/// Plays a line, with what was counted before it in its set.
fn play_line<R: Print + AllocGlobal>(
    rt: &R,
    line: &str,
    tally: Option<Tally>,
) -> Result<Option<Tally>> {
    if let Some(name) = line.strip_prefix("== ") {
        print_end(rt, tally)?;
        return Ok(Some(Tally::new(name)?));
    }
    if line.is_empty() || line.starts_with('#') {
        return Ok(tally);
    }
    let mut tally = tally.ok_or(RowError::NotUnderstood)?;
    tally.play(rt, line)?;
    Ok(Some(tally))
}

/// Prints what was counted in a set, if there was one.
fn print_end<R: Print>(rt: &R, tally: Option<Tally>) -> Result<()> {
    if let Some(tally) = tally {
        println!(rt; "{tally}")?;
    }
    Ok(())
}
