//! The greatest split by trying every length of the first part, the longest first.
//!
//! It is plain and slow: its time grows as a power of the text's length. It has the contract of
//! `greatest_split`, which the tests compare with it. The parsers never call it.
ghost use Rattle.std.specs.Prelude.{IfOk, MatchOption, ◌≡◌, [], ◌∷◌};
ghost use Rattle.ftp_list.specs.Shapes.{is_shape};
ghost use Rattle.ftp_list.specs.Split.{IsGreatestSplit, HasNoSplit};

pub use crate::class::Class;
use crate::places::{front, rest};
pub use crate::shape::{Form, Shape};
pub use crate::split::greatest_split;
use std::alloc::{AllocError, Global};

fn has_shape(shape: Shape, text: &[char]) -> bool
    ensures { result ≡ is_shape shape text.now }
{
    match shape {
        Shape::OneOrMore(class) => 1 <= text.len() && class.has_all(text),
        Shape::AnyNumber(class) => class.has_all(text),
        Shape::Short(form) => form.matches(text),
    }
}

/// The lengths of the greatest split, or `None` where the text has no split.
pub fn plain_split(
    alloc: Global,
    shapes: &[Shape],
    text: &[char],
) -> Result<Option<Vec<usize>>, AllocError>
    ensures { IfOk result (λ found. MatchOption found (HasNoSplit shapes.now text.now)
        (λ lengths. IsGreatestSplit shapes.now lengths.items text.now)) }
{
    let [shape, later @ ..] = shapes else {
        return plain_end(alloc, text);
    };
    let mut count = text.len();
    'down: loop {
        if has_shape(*shape, front(text, count)) {
            if let Some(lengths) = plain_split(alloc, later, rest(text, count))? {
                return Ok(Some(with_first(alloc, count, &lengths)?));
            }
        }
        if count == 0 {
            return Ok(None);
        }
        count -= 1;
    }
}

fn plain_end(alloc: Global, text: &[char]) -> Result<Option<Vec<usize>>, AllocError>
    ensures { IfOk result (λ found. MatchOption found (HasNoSplit [] text.now)
        (λ lengths. IsGreatestSplit [] lengths.items text.now)) }
{
    if text.is_empty() {
        Ok(Some(Vec::new(alloc)))
    } else {
        Ok(None)
    }
}

fn with_first(alloc: Global, first: usize, others: &[usize]) -> Result<Vec<usize>, AllocError>
    ensures { IfOk result (λ all. all.items ≡ first ∷ others.now) }
{
    let mut all = Vec::new(alloc);
    all.push(first)?;
    all.extend_from_slice(others)?;
    Ok(all)
}
