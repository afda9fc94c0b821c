//! The rows of a set that were played, and those that differed.

use crate::set::Set;
use anyhow::Result;
use rows_text::{RowError, bytes_of, shown};
use std::fmt;

/// How many rows of a set were played, and how many differed.
#[derive(Clone, Copy)]
pub struct Tally {
    name: &'static str,
    set: Set,
    rows: u64,
    differ: u64,
}

impl fmt::Display for Tally {
    fn fmt<W: fmt::Write>(&self, f: &mut fmt::Formatter<W>) -> fmt::Result {
        let name = self.name;
        let rows = self.rows;
        let differ = self.differ;
        write!(f, "{name}: {rows} rows, {differ} differ")
    }
}

impl Tally {
    /// No row of the set of this name was played.
    pub fn new(name: &str) -> Result<Tally, RowError> {
        match Set::named(name) {
            Some((name, set)) => Ok(Tally {
                name,
                set,
                rows: 0,
                differ: 0,
            }),
            None => Err(RowError::NotUnderstood),
        }
    }

    /// Plays a row, and prints it where what came isn't what was due.
    pub fn play<R: Print + AllocGlobal>(&mut self, rt: &R, row: &str) -> Result<()> {
        let alloc = rt.alloc();
        let (input, due) = halves(row)?;
        let due = bytes_of(alloc, due)?;
        let came = self.set.came(alloc, input)?;
        self.rows = self.rows.saturating_add(1);
        if came == due {
            return Ok(());
        }
        self.differ = self.differ.saturating_add(1);
        let due = shown(alloc, &due)?;
        let came = shown(alloc, &came)?;
        println!(rt; "{}: {input}\n  due  {due}\n  came {came}", self.name)?;
        Ok(())
    }
}

/// The input of a row, and what is due.
fn halves(row: &str) -> Result<(&str, &str), RowError> {
    let Some((input, due)) = row.split_once("=>") else {
        return Err(RowError::NotUnderstood);
    };
    Ok((
        input.strip_suffix(' ').unwrap_or(input),
        due.strip_prefix(' ').unwrap_or(due),
    ))
}
