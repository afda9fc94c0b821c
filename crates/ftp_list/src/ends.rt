//! Where parts can end, to reject a line without an allocation.
//!
//! From the first and the last place where the part before it can end, each shape gives those where
//! it can end itself. Every split ends its parts within these bounds, so a shape that stands at no
//! place within them means that there is none. Most lines that are rejected are rejected here; a
//! line that passes may still have no split, and the table of rows decides.
ghost use Rattle.std.specs.Prelude.{◌≡◌, ◌≤◌, ◌+◌, ℕ, true, false, length, drop};
ghost use Rattle.ftp_list.specs.Split.{HasNoSplit};
ghost use Rattle.ftp_list.specs.Rows.{Fits, IsFirstStand};

use crate::class::Class;
use crate::places::rest;
use crate::reach::longest;
use crate::shape::Shape;

/// Whether some part can't stand, wherever the one before it ends, or the last can't come to the
/// end of the text.
pub fn is_stuck(shapes: &[Shape], text: &[char]) -> bool
    ensures { result ≡ true → HasNoSplit shapes.now text.now }
{
    let mut first = 0;
    let mut last = 0;
    for shape in shapes {
        let Some(place) = first_stand(*shape, text, first, last) else {
            return true;
        };
        first = place;
        last = farthest_end(*shape, text, last);
    }
    last < text.len()
}

// The first of these places where the shape can stand.
fn first_stand(shape: Shape, text: &[char], first: usize, last: usize) -> Option<usize>
    requires { last ≤ length text.now }
    ensures { IsFirstStand shape text.now first last result }
{
    for place in first..last + 1 {
        if may_stand(shape, rest(text, place)) {
            return Some(place);
        }
    }
    None
}

#[inline(always)]
fn may_stand(shape: Shape, text: &[char]) -> bool
    ensures { result ≡ false → (n : ℕ) → Fits shape text.now n → ⊥ }
{
    match shape {
        Shape::OneOrMore(class) => may_begin(class, text),
        Shape::AnyNumber(_) => true,
        Shape::Short(_) => longest(shape, text).is_some(),
    }
}

#[inline(always)]
fn may_begin(class: Class, text: &[char]) -> bool
    ensures { result ≡ false → (n : ℕ) → Fits (Shape.OneOrMore class) text.now n → ⊥ }
{
    if text.is_empty() {
        return false;
    }
    class.contains(text[0])
}

// No part of the shape that begins at the last place, or before it, ends after the result.
fn farthest_end(shape: Shape, text: &[char], last: usize) -> usize
    requires { last ≤ length text.now }
    ensures within { result ≤ length text.now }
    ensures farthest { (p n : ℕ) → p ≤ last → Fits shape (drop p text.now) n → p + n ≤ result }
{
    match shape {
        Shape::OneOrMore(class) => last + class.run(rest(text, last)),
        Shape::AnyNumber(class) => last + class.run(rest(text, last)),
        Shape::Short(form) => last + form.most().min(text.len() - last),
    }
}
