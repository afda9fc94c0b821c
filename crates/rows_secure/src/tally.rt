//! The rows of a set that were played, and the plays that differed.

use crate::client::ClientFace;
use crate::drops::play_dropped;
use crate::face::{Face, play};
use crate::polled::PolledFace;
use crate::script::Script;
use crate::session::SessionFace;
use anyhow::Result;
use rows_text::Row;
use std::alloc::{AllocError, Global};
use std::io;
use std::random::RandomSource;
use std::sync::Wait;

/// How many rows of a set were played, how often, and how many plays differed.
#[derive(Clone, Copy)]
pub struct Tally<'a> {
    set: &'a str,
    rows: u64,
    plays: u64,
    differ: u64,
}

/// The transcript that is due on a client, or on a session.
fn due(alloc: Global, row: Row<'_>, is_client: bool) -> Result<String, AllocError> {
    let mut text = String::new(alloc);
    let mut counts = true;
    for line in row.due.lines() {
        match line {
            "-- session" => counts = !is_client,
            "-- clients" => counts = is_client,
            _ if counts => write!(text, "{line}\n")?,
            _ => {}
        }
    }
    Ok(text)
}

impl<'a> Tally<'a> {
    /// No row of the set was played.
    pub fn new(set: &'a str) -> Tally<'a> {
        Tally {
            set,
            rows: 0,
            plays: 0,
            differ: 0,
        }
    }

    /// Reads a paragraph, and plays its row.
    pub fn read<R: Wait + Print + RandomSource + AllocGlobal>(
        &mut self,
        rt: &R,
        paragraph: &'a str,
    ) -> Result<()> {
        let Some(row) = Row::of(paragraph)? else {
            return Ok(());
        };
        if row.set != self.set {
            self.end(rt)?;
            *self = Tally::new(row.set);
        }
        self.rows = self.rows.saturating_add(1);
        let script = Script::of(rt.alloc(), row.lines)?;
        if let Some((first, last)) = script.polls() {
            return self.play_dropped(rt, row, &script, first, last);
        }
        self.play::<SessionFace, R>(rt, row, &script, "session")?;
        self.play::<ClientFace, R>(rt, row, &script, "blocking client")?;
        self.play::<PolledFace, R>(rt, row, &script, "polled client")
    }

    /// Prints what was counted, if a row was played.
    pub fn end<R: Print>(&self, rt: &R) -> io::Result<()> {
        if self.rows == 0 {
            return Ok(());
        }
        let set = self.set;
        let rows = self.rows;
        let plays = self.plays;
        let differ = self.differ;
        println!(rt; "{set}: {rows} rows, {plays} plays, {differ} differ")
    }

    /// Plays a row on a face of this name, and prints it where it differs.
    fn play<F: Face, R: Wait + Print + RandomSource + AllocGlobal>(
        &mut self,
        rt: &R,
        row: Row<'_>,
        script: &Script,
        name: &str,
    ) -> Result<()> {
        let came = play::<F, R>(rt, script)?;
        self.compare(rt, row, F::is_client(), came.as_str(), name)
    }

    /// Plays a row whose call is dropped, for each number of polls.
    fn play_dropped<R: Wait + Print + RandomSource + AllocGlobal>(
        &mut self,
        rt: &R,
        row: Row<'_>,
        script: &Script,
        first: usize,
        last: usize,
    ) -> Result<()> {
        for polls in first..=last {
            let came = play_dropped(rt, script, polls)?;
            let name = format!(in rt.alloc(); "{polls} polls")?;
            self.compare(rt, row, true, came.as_str(), name.as_str())?;
        }
        Ok(())
    }

    /// Counts a play, and prints it where it differs.
    fn compare<R: Print + AllocGlobal>(
        &mut self,
        rt: &R,
        row: Row<'_>,
        is_client: bool,
        came: &str,
        name: &str,
    ) -> Result<()> {
        let due = due(rt.alloc(), row, is_client)?;
        self.plays = self.plays.saturating_add(1);
        if came == due.as_str() {
            return Ok(());
        }
        self.differ = self.differ.saturating_add(1);
        let Row { set, title, .. } = row;
        println!(rt; "{set}: {title}, {name}\ndue\n{due}came\n{came}")?;
        Ok(())
    }
}
