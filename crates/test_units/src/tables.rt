//! Tables of lines, and what is due of each.

use crate::described::described;
use ftp_list::{File, ListParser};
use jiff::Timestamp;
use std::alloc::Global;
use std::process::Abort;
use std::test::Fail;

/// A function of the library that reads a line.
#[derive(Clone, Copy, Debug)]
pub enum Parser {
    /// `ListParser::parse_posix`.
    Posix,
    /// `ListParser::parse_dos`.
    Dos,
    /// `ListParser::parse_mlsd`.
    Mlsd,
    /// `ListParser::parse_mlst`.
    Mlst,
    /// `File::from_line`.
    Line,
    /// `File::from_posix_line`.
    PosixLine,
    /// `File::from_dos_line`.
    DosLine,
    /// `File::from_mlsx_line`.
    MlsxLine,
}

/// When the lines are read, in seconds of the epoch, the functions that read them, and each line with what is due.
pub type Table = (
    i64,
    &'static [Parser],
    &'static [(&'static str, &'static str)],
);

/// What a function makes of a line.
pub fn read(alloc: Global, parser: Parser, line: &str, now: i64) -> Result<String, Fail> {
    let now = Timestamp::from_second(now)?;
    let answer = match parser {
        Parser::Posix => ListParser::parse_posix(alloc, line, now),
        Parser::Dos => ListParser::parse_dos(alloc, line),
        Parser::Mlsd => ListParser::parse_mlsd(alloc, line),
        Parser::Mlst => ListParser::parse_mlst(alloc, line),
        Parser::Line => File::from_line(alloc, line, now),
        Parser::PosixLine => File::from_posix_line(alloc, line, now),
        Parser::DosLine => File::from_dos_line(alloc, line),
        Parser::MlsxLine => File::from_mlsx_line(alloc, line),
    };
    Ok(described(alloc, &answer)?)
}

/// Asserts what the functions of a table make of its lines.
pub fn gives(rt: &(impl AllocGlobal + Abort), table: Table) -> Result<(), Fail> {
    let (now, parsers, rows) = table;
    for parser in parsers {
        for (line, due) in rows {
            let text = read(rt.alloc(), *parser, line, now)?;
            assert_eq!(rt; text.as_str(), *due, "{parser:?} of {line}");
        }
    }
    Ok(())
}
