//! How two values compare, each also by its clone.

use crate::commands::{command, level};
use crate::peers::check;
use crate::words::said;
use ftp_base::status::Status;
use ftp_base::types::Mode;
use rows_text::{RowError, file_type, format_control, pair, value};
use std::alloc::Global;
use std::cmp::Ordering;

/// How two values of a kind compare: `KIND ONE | OTHER`.
pub fn comparison(alloc: Global, input: &str) -> Result<Vec<u8>, RowError> {
    let (kind, values) = pair(input, " ")?;
    let (one, other) = pair(values, " | ")?;
    said(alloc, answer(alloc, kind, one, other)?)
}

/// How they compare.
fn answer(alloc: Global, kind: &str, one: &str, other: &str) -> Result<&'static str, RowError> {
    match kind {
        "check" => same(check(alloc, one), check(alloc, other)),
        "command" => same(command(alloc, one), command(alloc, other)),
        "format" => order(format_control(one), format_control(other)),
        "level" => same(level(one), level(other)),
        "mode" => same(mode(one), mode(other)),
        "status" => order(status(one), status(other)),
        "type" => order(file_type(one), file_type(other)),
        _ => Err(RowError::NotUnderstood),
    }
}

/// Whether two values are equal, where both were understood.
fn same<T: PartialEq + Clone + Drop>(
    one: Result<T, RowError>,
    other: Result<T, RowError>,
) -> Result<&'static str, RowError> {
    let (one, other) = (one?, other?);
    let copy = one.clone()?;
    match (one == other, copy == other) {
        (true, true) => Ok("equal"),
        (false, false) => Ok("other"),
        _ => Ok("a clone differs"),
    }
}

/// How two values are ordered, where both were understood.
fn order<T: Ord + Clone + Drop>(
    one: Result<T, RowError>,
    other: Result<T, RowError>,
) -> Result<&'static str, RowError> {
    let (one, other) = (one?, other?);
    let copy = one.clone()?;
    match (one.cmp(&other), copy.cmp(&other)) {
        (Ordering::Less, Ordering::Less) => Ok("less"),
        (Ordering::Equal, Ordering::Equal) => Ok("equal"),
        (Ordering::Greater, Ordering::Greater) => Ok("greater"),
        _ => Ok("a clone differs"),
    }
}

/// The status of a code.
fn status(word: &str) -> Result<Status, RowError> {
    Ok(Status::from(value::<u32>(word)?))
}

/// A mode of data connections.
fn mode(word: &str) -> Result<Mode, RowError> {
    match word {
        "active" => Ok(Mode::Active),
        "passive" => Ok(Mode::Passive),
        "extended_passive" => Ok(Mode::ExtendedPassive),
        "automatic" => Ok(Mode::Automatic),
        _ => Err(RowError::NotUnderstood),
    }
}
