//! Lines that no honest server sends.

use crate::tables::{Parser, Table, gives, read};
use std::alloc::Global;
use std::test::Fail;

/// 10 January 2024, midnight UTC.
const NOW: i64 = 1_704_844_800;

const LINES: [&str; 6] = [
    "-rw-r--r-- 1 user group 1234 Nov 5 2018 example.txt",
    "-rw-r--r-- 1 u g 1 Jul 8 00:00 x",
    "04-08-14  03:09PM  8192 omar.txt",
    "04-08-14  03:09PM  <DIR>  docs",
    " type=file;size=8192;modify=20181105163248; omar.txt",
    "type=badtype; x",
];

// Past ASCII blanks are those of Unicode, digits and letters those of ASCII.
const POSIX: [(&str, &str); 9] = [
    (
        "-rw-r--r--\u{a0}1\u{2003}u g 5\u{3000}Jan 1 1970\u{85}x",
        "file [x] [-] 5 0.0 -1 -1 644",
    ),
    (
        "-rw-r--r-- 1 u\u{3000}v g\u{e9} 5 Jan 1 1970 x",
        "file [x] [-] 5 0.0 -1 -1 644",
    ),
    ("-rw-r--r-- \u{661} u g 5 Jan 1 1970 x", "P1"),
    ("-rw-r--r-- 1 u g \u{ff15} Jan 1 1970 x", "P1"),
    ("-rw-r--r-- 1 u g 5 \u{17f}ep 1 1970 x", "P2"),
    ("-rw-r--r-- 1 u g 5 Jan \u{661} 1970 x", "P1"),
    ("-rw-r--r-- 1 u g 5 Jan 1 197\u{660} x", "P1"),
    ("\u{2010}rw-r--r-- 1 u g 5 Jan 1 1970 x", "P1"),
    ("-rw-r--r\u{2010}- 1 u g 5 Jan 1 1970 x", "P1"),
];

const DOS: [(&str, &str); 3] = [
    (
        "01-01-70\u{a0}12:00AM\u{2003}5\u{3000}\u{e9}",
        "file [\u{e9}] [-] 5 0.0 -1 -1 777",
    ),
    ("01-0\u{661}-70 12:00AM 5 x", "P1"),
    ("01-01-70 12:00\u{ff21}M 5 x", "P1"),
];

const FACTS: [(&str, &str); 5] = [
    ("type=\u{17f}file; x", "P1"),
    (
        "\u{130}=1;\u{e9}=2; \u{e9}",
        "file [\u{e9}] [-] 0 0.0 -1 -1 777",
    ),
    ("size=\u{661}; x", "P3"),
    ("modify=2018110516324\u{661}; x", "P2"),
    ("unix.uid=\u{661}; x", "file [x] [-] 0 0.0 -1 -1 777"),
];

/// The functions that read every front of a line.
const PARSERS: [Parser; 5] = [
    Parser::Posix,
    Parser::Dos,
    Parser::Mlsd,
    Parser::Mlst,
    Parser::Line,
];

const PAST_ASCII: [Table; 3] = [
    (NOW, &[Parser::Posix], &POSIX),
    (NOW, &[Parser::Dos], &DOS),
    (NOW, &[Parser::Mlsd], &FACTS),
];

#[test]
fn every_front_gives_a_value_or_a_refusal(rt: HostRuntime) -> Result<(), Fail> {
    for line in LINES {
        for end in 0..100 {
            let Some(front) = line.get(..end) else {
                continue;
            };
            for parser in PARSERS {
                let text = read(rt.alloc(), parser, front, NOW)?;
                assert_ne!(rt; text.as_str(), "P4", "{parser:?} of {front}");
            }
        }
    }
    Ok(())
}

#[test]
fn lines_past_ascii(rt: HostRuntime) -> Result<(), Fail> {
    for table in PAST_ASCII {
        gives(&rt, table)?;
    }
    Ok(())
}

/// The front of a POSIX line, and then so many pieces.
fn long_line(alloc: Global, piece: &str, count: usize) -> Result<String, Fail> {
    let mut line = String::from_str(alloc, "-rw-r--r-- 1 u g ")?;
    for _ in 0..count {
        line.push_str(piece)?;
    }
    Ok(line)
}

/// What a function makes of a long line.
fn read_long_line(
    alloc: Global,
    parser: Parser,
    piece: &str,
    count: usize,
) -> Result<String, Fail> {
    let line = long_line(alloc, piece, count)?;
    read(alloc, parser, line.as_str(), NOW)
}

#[test]
fn long_lines(rt: HostRuntime) -> Result<(), Fail> {
    for (piece, count) in [("\t", 3_000), (" ", 10_000), ("1", 65_536), ("; ", 32_768)] {
        for (parser, due) in [(Parser::Posix, "P1"), (Parser::Line, "file ")] {
            let text = read_long_line(rt.alloc(), parser, piece, count)?;
            assert!(rt; text.as_str().starts_with(due), "{parser:?} of {piece}");
        }
    }
    Ok(())
}
