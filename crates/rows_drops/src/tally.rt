//! The rows of a set that were played, and the plays that differed.

use crate::play::{Played, play};
use crate::script::Script;
use anyhow::Result;
use rows_text::Row;
use std::io;
use std::random::RandomSource;
use std::sync::Wait;

/// How many rows of a set were played, how often, and how many plays differed.
#[derive(Clone, Copy)]
pub struct Tally<'a> {
    set: &'a str,
    rows: u64,
    plays: u64,
    // How many of these have the server's bytes at once.
    at_once: u64,
    differ: u64,
}

impl<'a> Tally<'a> {
    /// No row of the set was played.
    pub fn new(set: &'a str) -> Tally<'a> {
        Tally {
            set,
            rows: 0,
            plays: 0,
            at_once: 0,
            differ: 0,
        }
    }

    /// Reads a paragraph, and plays its row.
    pub fn read<R: Wait + Print + RandomSource + AllocGlobal>(
        &mut self,
        rt: &R,
        paragraph: &'a str,
    ) -> Result<()> {
        let Some(row) = Row::of(paragraph)? else {
            return Ok(());
        };
        if row.set != self.set {
            self.end(rt)?;
            *self = Tally::new(row.set);
        }
        self.rows = self.rows.saturating_add(1);
        self.play(rt, row)
    }

    /// Prints what was counted, if a row was played.
    pub fn end<R: Print>(&self, rt: &R) -> io::Result<()> {
        if self.rows == 0 {
            return Ok(());
        }
        let set = self.set;
        let rows = self.rows;
        let plays = self.plays;
        let differ = self.differ;
        let at_once = self.at_once;
        println!(rt;
            "{set}: {rows} rows, {plays} plays, {at_once} of them at once, {differ} differ"
        )
    }

    /// Plays a row with the server's bytes one at a time, and at once.
    fn play<R: Wait + Print + RandomSource + AllocGlobal>(
        &mut self,
        rt: &R,
        row: Row<'_>,
    ) -> Result<()> {
        self.play_by(rt, row, false)?;
        let before = self.plays;
        self.play_by(rt, row, true)?;
        let more = self.plays.saturating_sub(before);
        self.at_once = self.at_once.saturating_add(more);
        if more == 0 {
            self.differ = self.differ.saturating_add(1);
            println!(rt; "{}: {}, not played at once", row.set, row.title)?;
        }
        Ok(())
    }

    /// Plays a row with each of its numbers of polls.
    fn play_by<R: Wait + Print + RandomSource + AllocGlobal>(
        &mut self,
        rt: &R,
        row: Row<'_>,
        at_once: bool,
    ) -> Result<()> {
        let mut script = Script::of(rt.alloc(), row.lines, at_once)?;
        for _ in 0..u64::MAX {
            let count = self.play_once(rt, row, &script)?;
            if !script.advance(count) {
                break;
            }
        }
        Ok(())
    }

    /// Plays a row once, and prints it where it differs. Returns how many of its first steps may go on to
    /// another number.
    fn play_once<R: Wait + Print + RandomSource + AllocGlobal>(
        &mut self,
        rt: &R,
        row: Row<'_>,
        script: &Script,
    ) -> Result<usize> {
        match play(rt, script)? {
            Played::Over(place) => Ok(place),
            Played::Whole(transcript) => {
                self.compare(rt, row, script, transcript.trim_end())?;
                Ok(script.steps.len())
            }
        }
    }

    /// Counts a play, and prints it where it differs.
    fn compare<R: Print + AllocGlobal>(
        &mut self,
        rt: &R,
        row: Row<'_>,
        script: &Script,
        came: &str,
    ) -> io::Result<()> {
        self.plays = self.plays.saturating_add(1);
        if came == row.due {
            return Ok(());
        }
        self.differ = self.differ.saturating_add(1);
        let Row {
            set,
            title,
            due,
            ..
        } = row;
        let numbers = script.numbers(rt.alloc())?;
        let comes = if script.at_once { ", at once" } else { "" };
        println!(rt; "{set}: {title}, polls{numbers}{comes}\ndue\n{due}\ncame\n{came}")
    }
}
