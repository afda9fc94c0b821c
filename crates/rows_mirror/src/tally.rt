//! The rows of a set that were played, and those that differed.

use crate::outside::Outside;
use anyhow::Result;
use rows_text::Row;
use std::io;

/// How many rows of a set were played, and how many differed.
#[derive(Clone, Copy)]
pub struct Tally<'a> {
    set: &'a str,
    rows: u64,
    differ: u64,
}

impl<'a> Tally<'a> {
    /// No row of the set was played.
    pub fn new(set: &'a str) -> Tally<'a> {
        Tally {
            set,
            rows: 0,
            differ: 0,
        }
    }

    /// Counts a row that was played, and prints it where its transcript differs.
    ///
    /// # Errors
    /// Those of printing; out of memory.
    pub fn add<O: Outside>(&mut self, rt: &O, row: Row<'a>, came: &str) -> Result<()> {
        if row.set != self.set {
            self.end(rt)?;
            *self = Tally::new(row.set);
        }
        self.rows = self.rows.saturating_add(1);
        if came.trim_end() == row.due.trim_end() {
            return Ok(());
        }
        self.differ = self.differ.saturating_add(1);
        let Row {
            set,
            title,
            due,
            lines: _,
        } = row;
        rt.print(&format!(in rt.alloc(); "{set}: {title}\ndue\n{due}\ncame\n{came}")?)?;
        Ok(())
    }

    /// Prints what was counted, if a row was played.
    ///
    /// # Errors
    /// Those of printing.
    pub fn end<O: Outside>(&self, rt: &O) -> io::Result<()> {
        if self.rows == 0 {
            return Ok(());
        }
        let Tally { set, rows, differ } = self;
        rt.print(&format!(in rt.alloc(); "{set}: {rows} rows, {differ} differ")?)
    }
}
