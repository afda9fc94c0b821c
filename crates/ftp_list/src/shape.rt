//! The shapes of the parts of a line: runs of a class, and a few short forms.
//!
//! They stand for the regular expressions that such lines are mostly read with. These shapes are
//! all that the two forms need, and a line is split by them in linear time.
ghost use Rattle.std.specs.Prelude.{◌≡◌, ◌≤◌, List, length, ℕ, true};
ghost use Rattle.ftp_list.specs.Shapes.{is_form, is_clock, is_between};

use crate::class::Class;
use crate::places::{has, is_same, part_before, part_behind};

/// The shape of one part of a line.
#[derive(Clone, Copy, Debug, PartialEq, Eq)]
pub enum Shape {
    /// One or more characters of the class.
    OneOrMore(Class),
    /// Any number of characters of the class.
    AnyNumber(Class),
    /// A part of a few characters.
    Short(Form),
}

/// The shape of a part that has only a few characters.
#[derive(Clone, Copy, Debug, PartialEq, Eq)]
pub enum Form {
    /// Characters of the class, at least and at most so many.
    Between(Class, usize, usize),
    /// One or two digits, `:`, one or two digits; or four digits.
    ClockOrYear,
    /// `AM` or `PM`.
    HalfDay,
    /// `<DIR>` or nothing.
    DirectoryMark,
}

const COLON: [char; 1] = [':'];

impl Form {
    /// Whether the text has the form.
    #[tactic(auto, unfolding(crate::specs::Shapes::is_form))]
    pub fn matches(self, text: &[char]) -> bool
        ensures { result ≡ is_form self text.now }
    {
        match self {
            Form::Between(class, least, most) => is_run(text, class, least, most),
            Form::ClockOrYear => is_time(text) || is_run(text, Class::Digit, 4, 4),
            Form::HalfDay => is_same(text, &['A', 'M']) || is_same(text, &['P', 'M']),
            Form::DirectoryMark => {
                is_same(text, &[]) || is_same(text, &['<', 'D', 'I', 'R', '>'])
            }
        }
    }

    /// No text of the form is longer.
    #[tactic(auto, unfolding(crate::specs::Shapes::is_form))]
    pub fn most(self) -> usize
        ensures { (text : List ℕ) → is_form self text ≡ true → length text ≤ result }
    {
        match self {
            Form::Between(_, _, most) => most,
            Form::ClockOrYear | Form::DirectoryMark => 5,
            Form::HalfDay => 2,
        }
    }
}

fn is_run(text: &[char], class: Class, least: usize, most: usize) -> bool
    ensures { result ≡ is_between class least most text.now }
{
    least <= text.len() && text.len() <= most && class.has_all(text)
}

fn is_time(text: &[char]) -> bool
    ensures { result ≡ is_clock text.now }
{
    has(text, &COLON)
        && is_run(part_before(text, &COLON), Class::Digit, 1, 2)
        && is_run(part_behind(text, &COLON), Class::Digit, 1, 2)
}
