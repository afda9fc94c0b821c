//! Plays the worked rows of mirrors, which come by standard input: each is a server on loopback, and a folder that is mirrored
//! from it or to it. It prints each row that differs, and a line for each set.
//!
//! docs/ROWS.md has the words. A line that isn't understood ends the program with status 1, so that no row is passed over.
#![tactic(auto)]

mod folder;
mod outside;
mod playing;
mod served;
mod server;
mod tally;

use anyhow::{Context, Result};
use mirror_run::mirror_folder;
use playing::Playing;
use rows_text::Row;
use std::io;
use tally::Tally;

fn main(rt: HostRuntime) -> Result<()> {
    let rows = io::read_to_string(rt.alloc(), rt.reader())?;
    let mut tally = Tally::new("");
    for (number, text) in (1u64..).zip(rows.split("\n\n")) {
        let row = Row::of(text).context(format_args!("paragraph {number}"))?;
        let Some(row) = row else {
            continue;
        };
        let mut playing = Playing::begin(&rt, row.lines)?;
        for _ in 0..row.lines.len() {
            let run = playing.next_run(&rt);
            let Some(run) = run.context(format_args!("paragraph {number}"))? else {
                break;
            };
            let is_alike = mirror_folder(&rt, &run.task, &run.report);
            playing.ran(&rt, run, is_alike)?;
        }
        tally.add(&rt, row, &playing.end(&rt)?)?;
    }
    Ok(tally.end(&rt)?)
}
