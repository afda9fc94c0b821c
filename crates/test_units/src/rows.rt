//! The worked rows of the listing parsers.

use crate::tables::{Parser, Table, gives};
use std::test::Fail;

/// 10 January 2024, midnight UTC.
const JANUARY: i64 = 1_704_844_800;

/// 1 June 2023.
const JUNE: i64 = 1_685_577_600;

const POSIX: [(&str, &str); 4] = [
    (
        "-rw-r--r-- 1 user group 1234 Nov 5 2018 example.txt",
        "file [example.txt] [-] 1234 1541376000.0 -1 -1 644",
    ),
    (
        "-rw-r--r-- 1 u g 1 Jul 8 00:00 x",
        "file [x] [-] 1 1720396800.0 -1 -1 644",
    ),
    (
        "-rw-r--r-- 1 u g 1 Jul 8 00:01 x",
        "file [x] [-] 1 1688774460.0 -1 -1 644",
    ),
    (
        "-rwsr-Sr-T 1 u g 1 Jan 2 1970   x",
        "file [x] [-] 1 86400.0 -1 -1 744",
    ),
];

const DOS: [(&str, &str); 6] = [
    (
        "04-08-14  03:09PM  8192 omar.txt",
        "file [omar.txt] [-] 8192 1396969740.0 -1 -1 777",
    ),
    ("04-08-14  03:09PM  omar.txt", "P3"),
    ("04-08-14  03:09PM omar.txt", "P1"),
    (
        "04-08-14  03:09PM  <DIR>  docs",
        "dir [docs] [-] 0 1396969740.0 -1 -1 777",
    ),
    (
        "01-01-70  12:00AM  1,024 x",
        "file [x] [-] 1024 0.0 -1 -1 777",
    ),
    (
        "12-31-69 12:00PM  <DIR> y",
        "dir [y] [-] 0 3155716800.0 -1 -1 777",
    ),
];

/// There was no 29 February in the year before.
const NO_LEAP_DAY: [(&str, &str); 1] = [("-rw-r--r-- 1 u g 1 Feb 29 10:00 x", "P2")];

const MLSD: [(&str, &str); 8] = [
    ("", "file [] [-] 0 0.0 -1 -1 777"),
    ("type=dir", "dir [type=dir] [-] 0 0.0 -1 -1 777"),
    ("type=badtype; x", "P1"),
    ("TYPE=Dir;unix.mode=0644; d", "dir [d] [-] 0 0.0 -1 -1 644"),
    ("unix.mode=888; x", "P1"),
    (
        "modify=20161231235960; x",
        "file [x] [-] 0 1483228800.0 -1 -1 777",
    ),
    (
        "modify=19700101000000.5; x",
        "file [x] [-] 0 0.500000000 -1 -1 777",
    ),
    (
        "modify=19691231235960.5; x",
        "file [x] [-] 0 0.500000000 -1 -1 777",
    ),
];

const MLST: [(&str, &str); 1] = [(
    " type=file;size=8192;modify=20181105163248; omar.txt",
    "file [omar.txt] [-] 8192 1541435568.0 -1 -1 777",
)];

/// A line that is neither POSIX nor DOS is the name of a file.
const NO_FORM: &str = "-rw-r--r-- 1 u g 1 Feb 30 2018 x";

const ANY: [(&str, &str); 2] = [
    (
        NO_FORM,
        "file [-rw-r--r-- 1 u g 1 Feb 30 2018 x] [-] 0 0.0 -1 -1 777",
    ),
    (
        "lrwxrwxrwx 1 0 0 7 Jan 2 1970 a -> b -> c",
        "link [a] [b] 7 86400.0 0 0 777",
    ),
];

const TABLES: [Table; 8] = [
    (
        JANUARY,
        &[Parser::Posix, Parser::PosixLine, Parser::Line],
        &POSIX,
    ),
    (JUNE, &[Parser::Posix], &NO_LEAP_DAY),
    (JANUARY, &[Parser::Dos, Parser::DosLine], &DOS),
    (JANUARY, &[Parser::Mlsd, Parser::MlsxLine], &MLSD),
    (JANUARY, &[Parser::Mlst], &MLST),
    (JANUARY, &[Parser::Posix], &[(NO_FORM, "P2")]),
    (JANUARY, &[Parser::Dos], &[(NO_FORM, "P1")]),
    (JANUARY, &[Parser::Line], &ANY),
];

#[test]
fn rows_r8(rt: HostRuntime) -> Result<(), Fail> {
    for table in TABLES {
        gives(&rt, table)?;
    }
    Ok(())
}
