//! Where a text can be split, for each end of it: one row for the last shapes, of none first.
//!
//! A row is made from the one for one shape less, from the shortest end of the text on, with a
//! bounded number of steps for each character. So a line that needs the table takes time and
//! memory in proportion to its length, however its blanks and tabs are laid.
ghost use Rattle.std.specs.Prelude.{◌≡◌, ◌≤◌, ◌<◌, ◌-◌, ◌+◌, List, ◌∷◌, [], length, drop, IfOk};
ghost use Rattle.ftp_list.specs.declared.shape.Shape.{Shape as AnyShape};
ghost use Rattle.ftp_list.specs.Rows.{Tells, TellsAll, IsTable};

use crate::class::Class;
use crate::places::rest;
use crate::reach::longest_open;
use crate::shape::Shape;
use std::alloc::{AllocError, Global};

/// The rows of all shapes but the first.
pub fn table(alloc: Global, shapes: &[Shape], text: &[char]) -> Result<Vec<Vec<bool>>, AllocError>
    ensures count { IfOk result (λ rows. length shapes.now ≤ length rows.items) }
    ensures rows { IfOk result (λ rows. IsTable rows.items shapes.now text.now) }
{
    let mut rows = Vec::with_capacity(alloc, shapes.len())?;
    rows.push(end_row(alloc, text)?)?;
    for k in 1..shapes.len() {
        let row = row_before(alloc, shapes[shapes.len() - k], text, &rows[k - 1])?;
        rows.push(row)?;
    }
    Ok(rows)
}

// Without shapes only the empty text has a split.
fn end_row(alloc: Global, text: &[char]) -> Result<Vec<bool>, AllocError>
    ensures count { IfOk result (λ row. length row.items ≡ length text.now + 1) }
    ensures tells { IfOk result (λ row. TellsAll row.items [] text.now) }
{
    let mut row = Vec::with_capacity(alloc, text.len())?;
    row.push(true)?;
    for _i in 0..text.len() {
        row.push(false)?;
    }
    Ok(row)
}

// The row for one shape more.
fn row_before(
    alloc: Global,
    shape: Shape,
    text: &[char],
    next: &[bool],
) -> Result<Vec<bool>, AllocError>
    requires { length next.now ≡ length text.now + 1 }
    ensures count { IfOk result (λ row. length row.items ≡ length text.now + 1) }
    ensures tells { IfOk result (λ row. (shapes : List AnyShape) → TellsAll next.now shapes text.now
        → TellsAll row.items (shape ∷ shapes) text.now) }
{
    let mut row = Vec::with_capacity(alloc, next.len())?;
    let mut shorter = false;
    for j in 0..next.len() {
        let splits = splits_with(shape, rest(text, text.len() - j), next, shorter);
        row.push(splits)?;
        shorter = splits;
    }
    Ok(row)
}

// Whether the text can be split, where that is known for the text without its first character.
fn splits_with(shape: Shape, text: &[char], next: &[bool], shorter: bool) -> bool
    requires { length text.now < length next.now }
    ensures { (shapes : List AnyShape) → TellsAll next.now shapes text.now
        → (0 < length text.now → Tells shorter (shape ∷ shapes) (drop 1 text.now))
        → Tells result (shape ∷ shapes) text.now }
{
    match shape {
        Shape::OneOrMore(class) => splits_with_one_or_more(class, text, next, shorter),
        Shape::AnyNumber(class) => splits_with_any_number(class, text, next, shorter),
        Shape::Short(_) => longest_open(shape, text, next).is_some(),
    }
}

fn splits_with_one_or_more(class: Class, text: &[char], next: &[bool], shorter: bool) -> bool
    requires { length text.now < length next.now }
    ensures { (shapes : List AnyShape) → TellsAll next.now shapes text.now
        → (0 < length text.now → Tells shorter (AnyShape.OneOrMore class ∷ shapes) (drop 1
        text.now))
        → Tells result (AnyShape.OneOrMore class ∷ shapes) text.now }
{
    if text.is_empty() {
        return false;
    }
    class.contains(text[0]) & (next[text.len() - 1] | shorter)
}

fn splits_with_any_number(class: Class, text: &[char], next: &[bool], shorter: bool) -> bool
    requires { length text.now < length next.now }
    ensures { (shapes : List AnyShape) → TellsAll next.now shapes text.now
        → (0 < length text.now → Tells shorter (AnyShape.AnyNumber class ∷ shapes) (drop 1
        text.now))
        → Tells result (AnyShape.AnyNumber class ∷ shapes) text.now }
{
    if text.is_empty() {
        return next[0];
    }
    next[text.len()] | (class.contains(text[0]) & shorter)
}
