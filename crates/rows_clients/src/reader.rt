//! Reads rows line by line, and has each played.

use crate::faces::Cuts;
use crate::tally::Tally;
use anyhow::{Context, Result};
use rows_plays::Row;
use rows_text::RowError;
use std::random::RandomSource;
use std::sync::Wait;

/// The row that is being read, and what was counted of its set.
#[derive(Drop)]
pub struct Reader<'a> {
    row: Option<Row<'a>>,
    tally: Option<Tally<'a>>,
    number: u64,
    cuts: Cuts,
}

impl<'a> Reader<'a> {
    /// Nothing was read; each row will be played so often.
    pub fn new(cuts: Cuts) -> Reader<'a> {
        Reader {
            row: None,
            tally: None,
            number: 0,
            cuts,
        }
    }

    /// Reads the next line, of this number.
    pub fn read<R: Wait + Print + RandomSource + AllocGlobal>(
        &mut self,
        rt: &R,
        number: u64,
        line: &'a str,
    ) -> Result<()> {
        self.number = number;
        self.take(rt, line).context(format_args!("line {number}"))
    }

    fn take<R: Wait + Print + RandomSource + AllocGlobal>(
        &mut self,
        rt: &R,
        line: &'a str,
    ) -> Result<()> {
        if line.is_empty() {
            return self.play(rt);
        }
        if line.starts_with('#') {
            return Ok(());
        }
        if let Some(heading) = line.strip_prefix("== ") {
            self.play(rt)?;
            self.row = Some(Row::new(rt.alloc(), heading)?);
            return Ok(());
        }
        match &mut self.row {
            Some(row) => Ok(row.read(rt.alloc(), line)?),
            None => Err(RowError::NotUnderstood.into()),
        }
    }

    /// Plays the row that was read, if any.
    fn play<R: Wait + Print + RandomSource + AllocGlobal>(&mut self, rt: &R) -> Result<()> {
        let Some(row) = self.row.take() else {
            return Ok(());
        };
        let mut tally = self.tally_of(rt, row.set)?;
        tally.play(rt, &row)?;
        self.tally = Some(tally);
        Ok(())
    }

    /// What was counted of a set; what was counted of the one before is printed.
    fn tally_of<R: Print>(&mut self, rt: &R, set: &'a str) -> Result<Tally<'a>> {
        let Some(tally) = self.tally.take() else {
            return Ok(Tally::new(set, self.cuts));
        };
        if tally.set == set {
            return Ok(tally);
        }
        println!(rt; "{tally}")?;
        Ok(Tally::new(set, self.cuts))
    }

    /// The rows end.
    pub fn end<R: Wait + Print + RandomSource + AllocGlobal>(mut self, rt: &R) -> Result<()> {
        let number = self.number;
        self.play(rt).context(format_args!("line {number}"))?;
        if let Some(tally) = self.tally {
            println!(rt; "{tally}")?;
        }
        Ok(())
    }
}
