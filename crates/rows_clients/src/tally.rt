//! The rows of a set that were played, and those that differed.

use crate::faces::{Agreement, Came, Cuts, Face, answers_of};
use crate::whole::whole;
use anyhow::Result;
use rows_plays::{Play, Row};
use std::fmt;
use std::random::RandomSource;
use std::sync::Wait;

/// How many rows of a set were played, how often, and how many plays differed.
#[derive(Clone, Copy)]
pub struct Tally<'a> {
    /// The set.
    pub set: &'a str,
    rows: u64,
    plays: u64,
    differ: u64,
    cuts: Cuts,
}

impl fmt::Display for Tally<'_> {
    fn fmt<W: fmt::Write>(&self, f: &mut fmt::Formatter<W>) -> fmt::Result {
        let set = self.set;
        let rows = self.rows;
        let plays = self.plays;
        let differ = self.differ;
        write!(f, "{set}: {rows} rows, {plays} plays, {differ} differ")
    }
}

impl<'a> Tally<'a> {
    /// No row of the set was played.
    pub fn new(set: &'a str, cuts: Cuts) -> Tally<'a> {
        Tally {
            set,
            rows: 0,
            plays: 0,
            differ: 0,
            cuts,
        }
    }

    /// Plays a row on all its faces, and prints what differs.
    pub fn play<R: Wait + Print + RandomSource + AllocGlobal>(
        &mut self,
        rt: &R,
        row: &Row<'_>,
    ) -> Result<()> {
        self.rows = self.rows.saturating_add(1);
        for lenient in [false, true] {
            self.play_by(rt, row, lenient)?;
        }
        Ok(())
    }

    /// Plays a row on all its faces, leniently or strictly, where it is to be played so; a row of events also with a poll
    /// after each byte of the server.
    fn play_by<R: Wait + Print + RandomSource + AllocGlobal>(
        &mut self,
        rt: &R,
        row: &Row<'_>,
        lenient: bool,
    ) -> Result<()> {
        let mut play = Play::of(rt.alloc(), &row.lines, row.has_events, false)?;
        if !play.setup.reads(lenient) {
            return Ok(());
        }
        let mut agreement = Agreement::new();
        for face in faces_of(row) {
            self.play_on(rt, row, *face, &play, &mut agreement)?;
        }
        if row.has_events {
            return self.play_stepped(rt, row, lenient, agreement);
        }
        Ok(())
    }

    /// Plays a row of events with a poll after each byte of the server, which answers the same.
    fn play_stepped<R: Wait + Print + RandomSource + AllocGlobal>(
        &mut self,
        rt: &R,
        row: &Row<'_>,
        lenient: bool,
        mut agreement: Agreement,
    ) -> Result<()> {
        let mut play = Play::of(rt.alloc(), &row.lines, true, true)?;
        play.setup.reads(lenient);
        let due = answers_of(rt.alloc(), row.due()?)?;
        for face in faces_of(row) {
            let came = face.answer(rt, &play)?;
            self.compare(rt, row, *face, &play, &mut agreement, due.as_str(), &came)?;
        }
        Ok(())
    }

    /// Plays a row on a face, if it can be played there.
    fn play_on<R: Wait + Print + RandomSource + AllocGlobal>(
        &mut self,
        rt: &R,
        row: &Row<'_>,
        face: Face,
        play: &Play,
        agreement: &mut Agreement,
    ) -> Result<()> {
        if !face.plays(play) || self.cuts.passes_over(face, play) {
            return Ok(());
        }
        let due = row.due()?;
        match self.cuts {
            Cuts::EachCall => {
                let came = face.play(rt, play, row.ending)?;
                self.compare(rt, row, face, play, agreement, due, &came)
            }
            Cuts::None => {
                let came = face.play_once(rt, play, row.ending)?;
                let due = whole(rt.alloc(), due)?;
                self.compare(rt, row, face, play, agreement, due.as_str(), &came)
            }
        }
    }

    /// Counts a play, and prints it where it differs from what is due.
    fn compare<R: Print>(
        &mut self,
        rt: &R,
        row: &Row<'_>,
        face: Face,
        play: &Play,
        agreement: &mut Agreement,
        due: &str,
        came: &Came,
    ) -> Result<()> {
        let agrees = agreement.agrees(came) && came.transcript.as_str() == due;
        self.count(agrees);
        if !agrees {
            let reads = if play.setup.lenient {
                "lenient"
            } else {
                "strict"
            };
            let comes = if play.stepped {
                ", a poll after each byte"
            } else {
                ""
            };
            println!(rt; "{}, {reads}{comes}", face.name())?;
            show(rt, row, due, came)?;
        }
        Ok(())
    }

    /// Counts a play.
    fn count(&mut self, agrees: bool) {
        self.plays = self.plays.saturating_add(1);
        if !agrees {
            self.differ = self.differ.saturating_add(1);
        }
    }
}

/// The faces that a row is played on.
fn faces_of(row: &Row<'_>) -> &'static [Face] {
    if row.has_events {
        &Face::OF_EVENTS
    } else {
        &Face::OF_CALLS
    }
}

/// Prints what was due of a play, and what came.
fn show<R: Print>(rt: &R, row: &Row<'_>, due: &str, came: &Came) -> Result<()> {
    println!(rt;
        "{}: {}\ndue\n{due}came\n{}failed {}",
        row.set, row.title, came.transcript, came.failed
    )?;
    Ok(())
}
