//! Reads the rows, and has each played.

use crate::judge::{judge, judge_events};
use crate::played::{called, happened};
use crate::{listing, secure};
use rows_plays::{Play, Row};
use rows_text::RowError;
use std::io;
use std::io::Read;
use std::random::RandomSource;
use std::sync::Wait;

/// Plays the rows that stand in the input, and prints a heading and a line for each.
///
/// # Errors
/// `NotUnderstood`, `OutOfMemory`.
pub fn play<R, I>(rt: &R, input: I) -> Result<(), RowError>
where
    R: Wait + Print + RandomSource + AllocGlobal,
    I: Read + Drop,
{
    let Ok(text) = io::read_to_string(rt.alloc(), input) else {
        return Err(RowError::OutOfMemory);
    };
    for paragraph in text.split("\n\n") {
        play_paragraph(rt, paragraph.trim_start())?;
    }
    Ok(())
}

/// Plays a row, reads a line of a listing, or puts a session under TLS.
fn play_paragraph<R>(rt: &R, paragraph: &str) -> Result<(), RowError>
where
    R: Wait + Print + RandomSource + AllocGlobal,
{
    let mut row = None;
    let mut listed = None;
    for line in paragraph.lines() {
        if line.starts_with('#') {
            continue;
        }
        if let Some(heading) = line.strip_prefix("== ") {
            let _ = println!(rt; "{line}");
            row = Some(Row::new(rt.alloc(), heading)?);
        } else if let Some(words) = line.strip_prefix("list ") {
            listed = Some(words);
        } else if let Some(due) = line.strip_prefix("due ") {
            let words = listed.take().ok_or(RowError::NotUnderstood)?;
            listing::play(rt, words, due)?;
        } else if let Some(bytes) = line.strip_prefix("secure ") {
            listed = Some(bytes);
        } else if let Some(bytes) = line.strip_prefix("under ") {
            let server = listed.take().ok_or(RowError::NotUnderstood)?;
            secure::play(rt, server, bytes)?;
        } else {
            let row = row.as_mut().ok_or(RowError::NotUnderstood)?;
            row.read(rt.alloc(), line)?;
        }
    }
    match row {
        Some(row) if !row.lines.is_empty() => play_row(rt, &row),
        _ => Ok(()),
    }
}

/// Plays a row, and prints what came.
fn play_row<R>(rt: &R, row: &Row<'_>) -> Result<(), RowError>
where
    R: Wait + Print + RandomSource + AllocGlobal,
{
    let due = row.due()?;
    let play = Play::of(rt.alloc(), &row.lines, row.has_events, false)?;
    let (came, verdict) = if row.has_events {
        let came = happened(rt.alloc(), &play)?;
        let verdict = judge_events(&came, due);
        (came, verdict)
    } else {
        let came = called(rt, &play, None)?;
        let verdict = judge(rt, play, &came, due)?;
        (came, verdict)
    };
    let verdict = verdict.text();
    let end = came.end;
    let _ = print!(rt; "{verdict}:");
    for answer in &came.answers {
        let _ = print!(rt; " {answer};");
    }
    let _ = println!(rt; " {} sent, {} consumed", end.sent, end.taken);
    Ok(())
}
