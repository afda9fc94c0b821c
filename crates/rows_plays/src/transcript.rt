//! Transcripts: what went out, what was returned and how much was consumed, as text.

use crate::row::Ending;
use rows_text::shown;
use std::alloc::{AllocError, Global};

/// Where a session stands after a part of a row.
pub struct RowState {
    /// What its transport was asked, line by line.
    pub asked: Vec<String>,
    /// What was uploaded on the data connections that are over, in order.
    pub uploaded: Vec<Vec<u8>>,
    /// What went out.
    pub sent: Vec<u8>,
    /// The answers of the calls that are done.
    pub answers: Vec<String>,
    /// How many of the server's bytes were consumed.
    pub taken: usize,
    /// Whether the session has failed.
    pub failed: bool,
    /// What the server greeted with.
    pub welcome: Option<String>,
    /// How many transfers were opened, and what became of them.
    pub counts: String,
}

impl Drop for RowState {
    fn drop(self) {
        let Self {
            asked,
            uploaded,
            sent,
            answers,
            taken: _,
            failed: _,
            welcome,
            counts,
        } = self;
        drop(asked);
        drop(uploaded);
        drop(sent);
        drop(answers);
        drop(welcome);
        drop(counts);
    }
}

/// How far a row had come at a place: how many requests were made, bytes sent and answers returned.
#[derive(Clone, Copy)]
pub struct Mark {
    asked: usize,
    sent: usize,
    answers: usize,
}

impl RowState {
    /// How far it has come.
    pub fn mark(&self) -> Mark {
        Mark {
            asked: self.asked.len(),
            sent: self.sent.len(),
            answers: self.answers.len(),
        }
    }

    /// The transcript of a row that ended here and had come so far at these places.
    pub fn transcript(&self, alloc: Global, marks: &[Mark]) -> Result<String, AllocError> {
        let mut text = String::new(alloc);
        let mut before = Mark {
            asked: 0,
            sent: 0,
            answers: 0,
        };
        for mark in marks {
            self.add_part(alloc, &mut text, before, *mark)?;
            before = *mark;
        }
        Ok(text)
    }

    /// Adds what happened from one place to another.
    fn add_part(
        &self,
        alloc: Global,
        text: &mut String,
        before: Mark,
        mark: Mark,
    ) -> Result<(), AllocError> {
        for line in between(&self.asked, before.asked, mark.asked) {
            write!(text, "{line}\n")?;
        }
        add_sent(alloc, text, between(&self.sent, before.sent, mark.sent))?;
        add_answers(text, between(&self.answers, before.answers, mark.answers))
    }

    /// The last lines of a transcript.
    pub fn add_end(
        &self,
        alloc: Global,
        text: &mut String,
        ending: Ending,
    ) -> Result<(), AllocError> {
        if ending.welcome {
            self.add_welcome(alloc, text)?;
        }
        for sent in &self.uploaded {
            add_upload(alloc, text, sent)?;
        }
        write!(text, "T: {}\n", self.taken)?;
        if ending.counts {
            write!(text, "N: {}\n", self.counts)?;
        }
        Ok(())
    }

    /// The lines of its answers alone.
    pub fn answers(&self, alloc: Global) -> Result<String, AllocError> {
        let mut text = String::new(alloc);
        for answer in &self.answers {
            write!(text, "A: {answer}\n")?;
        }
        Ok(text)
    }

    /// The line of the text that the server greeted with.
    fn add_welcome(&self, alloc: Global, text: &mut String) -> Result<(), AllocError> {
        match &self.welcome {
            Some(welcome) => {
                let welcome = shown(alloc, welcome.as_bytes())?;
                write!(text, "W: {welcome}\n")
            }
            None => text.push_str("W: none\n"),
        }
    }
}

/// The part of a list from one place to another.
fn between<T>(all: &[T], start: usize, end: usize) -> &[T] {
    all.get(start..end).unwrap_or(&[])
}

/// Adds a line for a data connection that is over, with what was uploaded on it, if anything.
///
/// # Errors
/// `OutOfMemory`.
pub fn add_upload(alloc: Global, text: &mut String, sent: &[u8]) -> Result<(), AllocError> {
    if sent.is_empty() {
        return text.push_str("U:\n");
    }
    let sent = shown(alloc, sent)?;
    write!(text, "U: {sent}\n")
}

/// Adds a line for each line that was sent, and for what was sent of a last one.
///
/// # Errors
/// `OutOfMemory`.
pub fn add_sent(alloc: Global, text: &mut String, sent: &[u8]) -> Result<(), AllocError> {
    for line in sent.split_inclusive(|byte| *byte == b'\n') {
        let line = shown(alloc, line)?;
        write!(text, "C: {line}\n")?;
    }
    Ok(())
}

/// A line for each answer, or one that says there is none.
fn add_answers(text: &mut String, answers: &[String]) -> Result<(), AllocError> {
    if answers.is_empty() {
        text.push_str("A: none\n")?;
    }
    for answer in answers {
        write!(text, "A: {answer}\n")?;
    }
    Ok(())
}
