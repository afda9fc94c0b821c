//! A row as it is written.

use crate::escape::RowError;
use crate::words::pair;

/// A row: a heading `== SET: TITLE`, what happens line by line, a line `--`, and the transcript that is due.
#[derive(Clone, Copy)]
pub struct Row<'a> {
    /// The set that it belongs to.
    pub set: &'a str,
    /// What it shows.
    pub title: &'a str,
    /// What happens.
    pub lines: &'a str,
    /// The transcript that is due.
    pub due: &'a str,
}

impl<'a> Row<'a> {
    /// The row that a paragraph writes; none where it has comments alone.
    ///
    /// # Errors
    /// `NotUnderstood`.
    pub fn of(paragraph: &'a str) -> Result<Option<Row<'a>>, RowError> {
        let text = uncommented(paragraph.trim());
        if text.is_empty() {
            return Ok(None);
        }
        let text = text.strip_prefix("== ").ok_or(RowError::NotUnderstood)?;
        let (heading, text) = pair(text, "\n")?;
        let (set, title) = pair(heading, ": ")?;
        let (lines, due) = pair(text, "\n--\n")?;
        Ok(Some(Row {
            set,
            title,
            lines,
            due,
        }))
    }
}

/// A paragraph without the comments above its heading.
fn uncommented(paragraph: &str) -> &str {
    let mut rest = paragraph;
    for _ in 0..paragraph.len() {
        if !rest.starts_with('#') {
            return rest;
        }
        rest = match rest.split_once('\n') {
            Some((_, next)) => next,
            None => "",
        };
    }
    rest
}
