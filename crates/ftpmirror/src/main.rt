//! `ftpmirror`: makes a local folder like a folder of an FTP server, or the other way.
#![tactic(auto)]

mod address;
mod words;

use crate::words::{Asked, read_words};
use anyhow::Result;
use mirror_run::{Report, Shows, mirror_folder};
use std::env;
use std::io::IsTerminal;
use std::process::ExitCode;

/// Runs the program, and returns its status: 0 where the trees are alike, 1 where something was left undone, 2 where the
/// words aren't understood.
fn main(rt: HostRuntime) -> Result<ExitCode> {
    let words: Vec<String> = env::args(&rt)?.collect(rt.alloc())?;
    let (task, is_quiet) = match read_words(&rt, words.as_slice())? {
        Asked::Task(task, is_quiet) => (task, is_quiet),
        Asked::Ends(status) => return Ok(ExitCode::from(status)),
    };
    let shows = if task.dry_run {
        Shows::Lines
    } else if is_quiet {
        Shows::Problems
    } else if rt.stdout().is_terminal() {
        Shows::Bar
    } else {
        Shows::Lines
    };
    let report = Report::new(rt.alloc(), shows);
    if mirror_folder(&rt, &task, &report) {
        Ok(ExitCode::SUCCESS)
    } else {
        Ok(ExitCode::from(1))
    }
}
