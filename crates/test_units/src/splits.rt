//! The greatest split against the plain one, over every short text of three letters.
use ftp_list::plain::{Class, Form, Shape, greatest_split, plain_split};
use std::alloc::{AllocError, Global};
use std::test::Fail;

const SHAPES: [Shape; 5] = [
    Shape::OneOrMore(Class::NotSpace),
    Shape::AnyNumber(Class::Blank),
    Shape::Short(Form::Between(Class::Digit, 1, 2)),
    Shape::OneOrMore(Class::DigitOrComma),
    Shape::OneOrMore(Class::NotLineFeed),
];

const LETTERS: [char; 3] = [' ', '1', 'a'];

/// The text of that number, a letter for each digit to the base of three.
fn nth_text(alloc: Global, number: usize, length: usize) -> Result<Vec<char>, AllocError> {
    let mut text = Vec::new(alloc);
    let mut left = number;
    for _ in 0..length {
        text.push(LETTERS[left % 3])?;
        left /= 3;
    }
    Ok(text)
}

#[test]
fn the_greatest_split_is_the_plain_one(rt: HostRuntime) -> Result<(), Fail> {
    for length in 0..8 {
        for number in 0..2187 {
            let text = nth_text(rt.alloc(), number, length)?;
            let quick = greatest_split(rt.alloc(), &SHAPES, &text)?;
            let plain = plain_split(rt.alloc(), &SHAPES, &text)?;
            assert!(rt; quick == plain, "at {text:?}");
        }
    }
    Ok(())
}
