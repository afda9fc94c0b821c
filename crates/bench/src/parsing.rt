//! How fast the listing parsers are.

use anyhow::{Context, Result};
use ftp_list::{File, ListParser, ParseResult};
use jiff::Timestamp;
use std::alloc::Global;
use std::io::{BufRead, BufReader};
use std::time::{Duration, Instant};

/// What the lines were.
#[derive(Clone, Copy, Default)]
struct Counts {
    files: u64,
    directories: u64,
    links: u64,
    refusals: u64,
}

impl Counts {
    fn add(&mut self, answer: &ParseResult<File>) {
        let count = match answer {
            Ok(file) if file.is_directory() => &mut self.directories,
            Ok(file) if file.is_symlink() => &mut self.links,
            Ok(_) => &mut self.files,
            Err(_) => &mut self.refusals,
        };
        *count = count.saturating_add(1);
    }
}

fn parse(alloc: Global, form: &str, line: &str, now: Timestamp) -> ParseResult<File> {
    match form {
        "posix" => ListParser::parse_posix(alloc, line, now),
        "dos" => ListParser::parse_dos(alloc, line),
        "mlsd" => ListParser::parse_mlsd(alloc, line),
        _ => File::from_line(alloc, line, now),
    }
}

fn count_all(alloc: Global, form: &str, lines: &[String], times: u32, now: Timestamp) -> Counts {
    let mut counts = Counts::default();
    for _ in 0..times {
        for line in lines {
            counts.add(&parse(alloc, form, line.as_str(), now));
        }
    }
    counts
}

fn per_second(lines: u64, taken: Duration) -> u64 {
    let millis = u64::try_from(taken.as_millis()).unwrap_or(u64::MAX).max(1);
    lines.saturating_mul(1000) / millis
}

/// Reads listing lines from standard input and parses each so often, in the form that is named: `posix`, `dos`, `mlsd`, or
/// `any` for each form in turn. Standard output gets how many were files, directories, links and errors, standard error
/// the lines parsed in a second.
pub fn run(rt: &HostRuntime, times: &str, form: &str) -> Result<()> {
    let times: u32 = times.parse().context("the number of times")?;
    let mut lines = Vec::new(rt.alloc());
    for line in BufReader::new(rt.alloc(), rt.reader())?.lines(rt.alloc()) {
        lines.push(line?)?;
    }
    let now = Timestamp::from_second(1_704_844_800).context("the present")?;
    let start = Instant::now(rt)?;
    let counts = count_all(rt.alloc(), form, &lines, times, now);
    let taken = start.elapsed(rt)?;
    println!(rt; "files {}", counts.files)?;
    println!(rt; "directories {}", counts.directories)?;
    println!(rt; "links {}", counts.links)?;
    println!(rt; "refusals {}", counts.refusals)?;
    let parsed = (lines.len() as u64).saturating_mul(u64::from(times));
    eprintln!(rt; "{} lines a second", per_second(parsed, taken))?;
    Ok(())
}
