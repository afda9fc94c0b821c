//! Plays the worked rows of the client, which come by standard input, each on every face: whole runs, one call at a time by
//! a session and by both clients, and polled. It prints each row that differs, and a line for each set. Scripts follow
//! after a line `==== scripts`; of them it prints each that differs, and one line.
//!
//! A row is a heading `== SET: TITLE`, what happens line by line, a line `--`, and the transcript that is due; an
//! empty line ends it. docs/ROWS.md has the words. A line that isn't understood ends the program with status 1, so that
//! no row is passed over.
//!
//! With the word `once` each row is played once a face, a byte at a time only where the server sends 64 KiB at most, and what
//! is due of it is compared without the places at which its calls end.
#![tactic(auto)]

mod client;
mod faces;
mod polled;
mod reader;
mod scripts;
mod states;
mod tally;
mod whole;

use anyhow::{Result, bail};
use faces::Cuts;
use reader::Reader;
use std::{env, io};

/// The line after the last row.
const SCRIPTS: &str = "\n==== scripts\n";

fn main(rt: HostRuntime) -> Result<()> {
    let words: Vec<String> = env::args(&rt)?.skip(1).collect(rt.alloc())?;
    let cuts = match words.first().map(|word| word.as_str()) {
        None => Cuts::EachCall,
        Some("once") => Cuts::None,
        Some(_) => bail!("usage: rows_clients [once]"),
    };
    let stored = io::read_to_string(rt.alloc(), rt.reader())?;
    let (rows, scripts) = stored.split_once(SCRIPTS).unwrap_or((stored.as_str(), ""));
    let mut reader = Reader::new(cuts);
    for (number, line) in (1u64..).zip(rows.lines()) {
        reader.read(&rt, number, line)?;
    }
    reader.end(&rt)?;
    scripts::play(&rt, scripts)
}
