//! A row as it is written.

use crate::step::{Kind, Step};
use rows_text::RowError;
use std::alloc::Global;

/// What a transcript ends with, beside the uploads and how much was consumed.
#[derive(Clone, Copy)]
pub struct Ending {
    /// The text that the server greeted with.
    pub welcome: bool,
    /// How many transfers were opened, and what became of them.
    pub counts: bool,
}

impl Ending {
    /// Nothing more.
    pub const PLAIN: Ending = Ending {
        welcome: false,
        counts: false,
    };
}

/// A row, as far as it was read.
pub struct Row<'a> {
    /// The set that it belongs to.
    pub set: &'a str,
    /// What it shows.
    pub title: &'a str,
    /// The lines of what happens.
    pub lines: Vec<&'a str>,
    /// Whether it is a row of events.
    pub has_events: bool,
    /// What its transcript ends with.
    pub ending: Ending,
    /// The lines of the transcript that is due; none before the line `--`.
    due: Option<String>,
}

impl Drop for Row<'_> {
    fn drop(self) {
        let Self {
            set: _,
            title: _,
            lines,
            has_events: _,
            ending: _,
            due,
        } = self;
        drop(lines);
        drop(due);
    }
}

impl<'a> Row<'a> {
    /// The row that a heading begins: `SET: TITLE`.
    ///
    /// # Errors
    /// `NotUnderstood`.
    pub fn new(alloc: Global, heading: &'a str) -> Result<Row<'a>, RowError> {
        let Some((set, title)) = heading.split_once(": ") else {
            return Err(RowError::NotUnderstood);
        };
        Ok(Row {
            set,
            title,
            lines: Vec::new(alloc),
            has_events: false,
            ending: Ending::PLAIN,
            due: None,
        })
    }

    /// Reads the next line.
    ///
    /// # Errors
    /// `NotUnderstood`, `OutOfMemory`.
    pub fn read(&mut self, alloc: Global, line: &'a str) -> Result<(), RowError> {
        if let Some(due) = &mut self.due {
            due.push_str(line)?;
            due.push('\n')?;
        } else if line == "--" {
            self.due = Some(String::new(alloc));
        } else {
            self.note(Step::of(line)?);
            self.lines.push(line)?;
        }
        Ok(())
    }

    /// Notes what a step says of its row.
    fn note(&mut self, step: Step<'a>) {
        match step.kind {
            Kind::Welcome => self.ending.welcome = true,
            Kind::Counts => self.ending.counts = true,
            _ => self.has_events = self.has_events || step.is_event(),
        }
    }

    /// The transcript that is due.
    ///
    /// # Errors
    /// `NotUnderstood` where there is none.
    pub fn due(&self) -> Result<&str, RowError> {
        match &self.due {
            Some(due) => Ok(due.as_str()),
            None => Err(RowError::NotUnderstood),
        }
    }
}
