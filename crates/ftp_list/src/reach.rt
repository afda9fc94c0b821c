//! How long a part can be at a place: as long as possible, or as long as a row allows.
//!
//! A part of a class is as long as its run, cut where it has a greatest length. The other forms
//! have at most five characters, and are tried from their greatest length down.
ghost use Rattle.std.specs.Prelude.{◌≡◌, ◌≤◌, ◌<◌, ◌-◌, ℕ, true, false, length, MatchOption, slice_index_or, ⊤};
ghost use Rattle.ftp_list.specs.Rows.{IsLongest, IsGreatestOpen};

use crate::class::Class;
use crate::places::front;
use crate::shape::{Form, Shape};

/// The greatest length of a part of the shape at the front of the text.
pub fn longest(shape: Shape, text: &[char]) -> Option<usize>
    ensures { IsLongest shape text.now result }
{
    match shape {
        Shape::OneOrMore(class) => match class.run(text) {
            0 => None,
            count => Some(count),
        },
        Shape::AnyNumber(class) => Some(class.run(text)),
        Shape::Short(form) => longest_short(form, text),
    }
}

fn longest_short(form: Form, text: &[char]) -> Option<usize>
    ensures { IsLongest (Shape.Short form) text.now result }
{
    match form {
        Form::Between(class, least, most) => longest_between(class, least, most, text),
        Form::ClockOrYear | Form::HalfDay | Form::DirectoryMark => longest_tried(form, text),
    }
}

fn longest_between(class: Class, least: usize, most: usize, text: &[char]) -> Option<usize>
    ensures { IsLongest (Shape.Short (Form.Between class least most)) text.now result }
{
    let count = class.run(front(text, most));
    if least <= count { Some(count) } else { None }
}

fn longest_tried(form: Form, text: &[char]) -> Option<usize>
    ensures { IsLongest (Shape.Short form) text.now result }
{
    let mut count = form.most().min(text.len());
    'down: loop {
        if form.matches(&text[..count]) {
            return Some(count);
        }
        if count == 0 {
            return None;
        }
        count -= 1;
    }
}

/// The greatest length of a part of the shape at the front of the text after which the row, which
/// is indexed by how many characters are left, is true.
pub fn longest_open(shape: Shape, text: &[char], row: &[bool]) -> Option<usize>
    requires { length text.now < length row.now }
    ensures { IsGreatestOpen row.now shape text.now result }
{
    match shape {
        Shape::OneOrMore(class) => open_run(row, text, 1, class.run(text)),
        Shape::AnyNumber(class) => open_run(row, text, 0, class.run(text)),
        Shape::Short(form) => open_short(form, text, row),
    }
}

fn open_run(row: &[bool], text: &[char], least: usize, most: usize) -> Option<usize>
    requires covers { length text.now < length row.now }
    requires within { most ≤ length text.now }
    ensures none { MatchOption result
        ((n : ℕ) → least ≤ n → n ≤ most → slice_index_or row.now (length text.now - n) false ≡
        false)
        (λ n. (least ≤ n) × (n ≤ most) × (slice_index_or row.now (length text.now - n) false ≡
        true)) }
    ensures greatest { MatchOption result ⊤
        (λ n. (m : ℕ) → n < m → m ≤ most → slice_index_or row.now (length text.now - m) false ≡
        false) }
{
    let mut count = most;
    'down: loop {
        if count < least {
            return None;
        }
        if row[text.len() - count] {
            return Some(count);
        }
        if count == 0 {
            return None;
        }
        count -= 1;
    }
}

fn open_short(form: Form, text: &[char], row: &[bool]) -> Option<usize>
    requires { length text.now < length row.now }
    ensures { IsGreatestOpen row.now (Shape.Short form) text.now result }
{
    let mut count = form.most().min(text.len());
    'down: loop {
        if row[text.len() - count] && form.matches(&text[..count]) {
            return Some(count);
        }
        if count == 0 {
            return None;
        }
        count -= 1;
    }
}
