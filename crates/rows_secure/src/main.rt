//! Plays the worked rows of TLS, which come by standard input: each by the methods of a session, of the blocking client and
//! of the polled client; one whose call is dropped on the polled client alone, once for each number of polls. It prints each
//! play that differs, and a line for each set.
//!
//! docs/ROWS.md has the words. A line that isn't understood ends the program with status 1, so that no row is passed over.
#![tactic(auto)]

mod client;
mod drops;
mod face;
mod polled;
mod receiving;
mod script;
mod session;
mod tally;

use anyhow::{Context, Result};
use std::io;
use tally::Tally;

fn main(rt: HostRuntime) -> Result<()> {
    let rows = io::read_to_string(rt.alloc(), rt.reader())?;
    let mut tally = Tally::new("");
    for (number, text) in (1u64..).zip(rows.split("\n\n")) {
        tally
            .read(&rt, text)
            .context(format_args!("paragraph {number}"))?;
    }
    Ok(tally.end(&rt)?)
}
