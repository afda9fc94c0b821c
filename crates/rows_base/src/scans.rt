//! Numbers in the text of replies.

use crate::words::said;
use ftp_base::command;
use ftp_base::command::scan::{self, Span};
use rows_text::{RowError, text_of, value};
use std::alloc::Global;

/// The six numbers of PASV.
pub fn passive(alloc: Global, input: &str) -> Result<Vec<u8>, RowError> {
    let text = text_of(alloc, input)?;
    spans(
        alloc,
        scan::pasv_port(&text)
            .as_ref()
            .map_or(&[], |spans| spans.as_slice()),
    )
}

/// The port of EPSV.
pub fn extended(alloc: Global, input: &str) -> Result<Vec<u8>, RowError> {
    let text = text_of(alloc, input)?;
    spans(alloc, scan::epsv_port(&text).as_slice())
}

/// The parts of MDTM's time.
pub fn timestamp(alloc: Global, input: &str) -> Result<Vec<u8>, RowError> {
    let text = text_of(alloc, input)?;
    spans(
        alloc,
        scan::mdtm(&text)
            .as_ref()
            .map_or(&[], |spans| spans.as_slice()),
    )
}

/// The size of SIZE.
pub fn size(alloc: Global, input: &str) -> Result<Vec<u8>, RowError> {
    let text = text_of(alloc, input)?;
    spans(alloc, scan::size(&text).as_slice())
}

/// The number at a place of a text: `TEXT START..END MOST`.
pub fn number(alloc: Global, input: &str) -> Result<Vec<u8>, RowError> {
    let words: Vec<&str> = input.split(' ').collect(alloc)?;
    let [text, place, most] = words.as_slice() else {
        return Err(RowError::NotUnderstood);
    };
    let Some((start, end)) = place.split_once("..") else {
        return Err(RowError::NotUnderstood);
    };
    let span = Span {
        start: value(start)?,
        end: value(end)?,
    };
    match command::number(text, span, value(most)?) {
        Some(number) => Ok(format!(in alloc; "{number}")?.into_bytes()),
        None => said(alloc, "none"),
    }
}

/// The places, or `none`.
fn spans(alloc: Global, spans: &[Span]) -> Result<Vec<u8>, RowError> {
    let mut text = String::new(alloc);
    for span in spans {
        if !text.is_empty() {
            text.push(' ')?;
        }
        write!(text, "{}..{}", span.start, span.end)?;
    }
    if text.is_empty() {
        text.push_str("none")?;
    }
    Ok(text.into_bytes())
}
