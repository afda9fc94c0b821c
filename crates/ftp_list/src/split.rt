//! The greatest split of a text. A first try takes the longest part each time. Where it doesn't
//! come to the end, and no part rules a split out, rows say of each end of the text whether the
//! later shapes can split it, and each part is the longest that leaves such an end. No part is
//! tried twice at one place.
ghost use Rattle.std.specs.Prelude.{◌≡◌, ◌≤◌, ◌<◌, true, length, IfOk, IfSome, MatchOption};
ghost use Rattle.ftp_list.specs.Split.{IsGreatestSplit, HasNoSplit, part};
ghost use Rattle.ftp_list.specs.Rows.{IsTable, AreStarts};

use crate::ends::is_stuck;
use crate::places::{front, rest};
use crate::reach::{longest, longest_open};
use crate::rows::table;
use crate::shape::Shape;
use std::alloc::{AllocError, Global};

/// No form has more parts.
pub const MOST_PARTS: usize = 18;

/// The lengths of the greatest split, or `None` where the text has no split.
pub fn greatest_split(
    alloc: Global,
    shapes: &[Shape],
    text: &[char],
) -> Result<Option<Vec<usize>>, AllocError>
    ensures { IfOk result (λ found. MatchOption found (HasNoSplit shapes.now text.now)
        (λ lengths. IsGreatestSplit shapes.now lengths.items text.now)) }
{
    if fails_at_once(shapes, text) {
        return Ok(None);
    }
    if let Some(lengths) = split_by_longest(alloc, shapes, text)? {
        return Ok(Some(lengths));
    }
    if is_stuck(shapes, text) {
        return Ok(None);
    }
    let rows = table(alloc, shapes, text)?;
    split_by_table(alloc, shapes, text, &rows)
}

// No part of the first shape stands at the front.
fn fails_at_once(shapes: &[Shape], text: &[char]) -> bool
    ensures { result ≡ true → HasNoSplit shapes.now text.now }
{
    if shapes.is_empty() {
        return false;
    }
    longest(shapes[0], text).is_none()
}

// Takes the longest part each time, and gives up where that doesn't come to the end.
fn split_by_longest(
    alloc: Global,
    shapes: &[Shape],
    text: &[char],
) -> Result<Option<Vec<usize>>, AllocError>
    ensures { IfOk result (λ found. IfSome found
        (λ lengths. IsGreatestSplit shapes.now lengths.items text.now)) }
{
    let mut lengths = Vec::with_capacity(alloc, shapes.len())?;
    let mut left = text;
    for shape in shapes {
        let Some(count) = longest(*shape, left) else {
            return Ok(None);
        };
        lengths.push(count)?;
        left = rest(left, count);
    }
    if !left.is_empty() {
        return Ok(None);
    }
    Ok(Some(lengths))
}

// Takes the longest part after which the later shapes can split the rest.
fn split_by_table(
    alloc: Global,
    shapes: &[Shape],
    text: &[char],
    rows: &[Vec<bool>],
) -> Result<Option<Vec<usize>>, AllocError>
    requires count { length shapes.now ≤ length rows.now }
    requires table { IsTable rows.now shapes.now text.now }
    ensures { IfOk result (λ found. MatchOption found (HasNoSplit shapes.now text.now)
        (λ lengths. IsGreatestSplit shapes.now lengths.items text.now)) }
{
    let mut lengths = Vec::with_capacity(alloc, shapes.len())?;
    let mut left = text;
    for (i, shape) in shapes.iter().enumerate() {
        let Some(count) = longest_open(*shape, left, &rows[shapes.len() - 1 - i]) else {
            return Ok(None);
        };
        lengths.push(count)?;
        left = rest(left, count);
    }
    if !left.is_empty() {
        return Ok(None);
    }
    Ok(Some(lengths))
}

/// Where each part begins, of a text in parts of these lengths.
pub fn starts_of(text: &[char], lengths: &[usize]) -> [usize; MOST_PARTS]
    ensures { AreStarts result lengths.now text.now }
{
    let mut starts = [0; MOST_PARTS];
    let mut start = 0;
    let known = lengths.len().min(MOST_PARTS);
    for i in 0..known {
        starts[i] = start;
        start += lengths[i].min(text.len() - start);
    }
    starts
}

/// The part number `k`, counted from 0, of a text in parts of these lengths.
pub fn part_at<'a>(
    text: &'a [char],
    lengths: &[usize],
    starts: &[usize; MOST_PARTS],
    k: usize,
) -> &'a [char]
    requires known { k < 18 }
    requires starts { AreStarts starts.now lengths.now text.now }
    ensures { result.now ≡ part k lengths.now text.now }
{
    if k < lengths.len() {
        front(rest(text, starts[k]), lengths[k])
    } else {
        front(text, 0)
    }
}
