//! A line of a listing that is cut, or that has another character in its midst, is read or rejected.

use ftp_list::{File, ListParser, ParseError, ParseResult};
use jiff::Timestamp;
use std::alloc::{AllocError, Global};
use std::test::Fail;

/// Lines in the POSIX form, the DOS form, and as RFC 3659, section 7.2 has them.
const LINES: [&str; 10] = [
    "-rw-r--r-- 1 user group 1234 Nov 5 2018 example.txt",
    "-rw-r--r-- 1 user group 1234 Jul 8 00:01 example.txt",
    "-rw-r--r-- 1 user group 1234 Feb 29 10:00 example.txt",
    "04-08-14  03:09PM  8192 omar.txt",
    "04-08-14  03:09PM  omar.txt",
    "04-08-14  03:09PM  <DIR>  docs",
    " type=file;size=8192;modify=20181105163248; omar.txt",
    "type=dir",
    "type=badtype; x",
    "",
];

/// Characters of two, three and four bytes, and one without width.
const OTHERS: [char; 4] = ['é', '日', '😀', '\u{200b}'];

/// Whether a line is read, or rejected by an error of its own.
fn is_settled(parsed: ParseResult<File>) -> bool {
    match &parsed {
        Ok(_) => true,
        Err(fault) => !matches!(fault, ParseError::OutOfMemory),
    }
}

/// How many of the five parsers settle a line.
fn settled(alloc: Global, line: &str, now: Timestamp) -> u32 {
    let parsers = [
        is_settled(ListParser::parse_posix(alloc, line, now)),
        is_settled(ListParser::parse_dos(alloc, line)),
        is_settled(ListParser::parse_mlst(alloc, line)),
        is_settled(ListParser::parse_mlsd(alloc, line)),
        is_settled(File::from_line(alloc, line, now)),
    ];
    let mut count = 0u32;
    for settles in parsers {
        if settles {
            count = count.saturating_add(1);
        }
    }
    count
}

/// How many fronts a line has, with itself, and how many times a parser doesn't settle one of them.
fn fronts(alloc: Global, line: &str, now: Timestamp) -> (u32, u32) {
    let (mut tried, mut unsettled) = (0u32, 0u32);
    for count in 0..line.len().saturating_add(1) {
        if let Some(front) = line.get(..count) {
            tried = tried.saturating_add(1);
            unsettled = unsettled.saturating_add(5u32.saturating_sub(settled(alloc, front, now)));
        }
    }
    (tried, unsettled)
}

/// A line with a character before the byte of this place.
fn with_other(alloc: Global, line: &str, place: usize, other: char) -> Result<String, AllocError> {
    let (front, rest) = (
        line.get(..place).unwrap_or(""),
        line.get(place..).unwrap_or(""),
    );
    let mut text = String::from_str(alloc, front)?;
    text.push(other)?;
    text.push_str(rest)?;
    Ok(text)
}

/// How many times a parser doesn't settle a line that has another character somewhere.
fn mixed(alloc: Global, line: &str, now: Timestamp) -> Result<u32, AllocError> {
    let mut unsettled = 0u32;
    for other in OTHERS {
        for place in 0..line.len().saturating_add(1) {
            let text = with_other(alloc, line, place, other)?;
            let settles = settled(alloc, text.as_str(), now);
            unsettled = unsettled.saturating_add(5u32.saturating_sub(settles));
        }
    }
    Ok(unsettled)
}

/// Midnight of 2024-01-10, UTC.
fn now() -> Result<Timestamp, jiff::Error> {
    Timestamp::from_second(1_704_844_800)
}

#[test]
fn every_front_of_a_line_is_read_or_refused(rt: HostRuntime) -> Result<(), Fail> {
    let now = now()?;
    let mut came = (0u32, 0u32);
    for line in LINES {
        let (tried, unsettled) = fronts(rt.alloc(), line, now);
        came = (
            came.0.saturating_add(tried),
            came.1.saturating_add(unsettled),
        );
    }
    // As many as the lines have bytes, and one more each.
    assert_eq!(rt; came, (330, 0));
    Ok(())
}

#[test]
fn another_character_in_any_place_is_read_or_refused(rt: HostRuntime) -> Result<(), Fail> {
    let now = now()?;
    let mut unsettled = 0u32;
    for line in LINES {
        unsettled = unsettled.saturating_add(mixed(rt.alloc(), line, now)?);
    }
    assert_eq!(rt; unsettled, 0);
    Ok(())
}
