//! Lines as servers send them, and what they must give, worked out by hand.

use crate::tables::{Parser, Table, gives};
use std::test::Fail;

/// 10 January 2024, midnight UTC.
const NOW: i64 = 1_704_844_800;

/// vsftpd, ProFTPD, Pure-FTPd, FileZilla Server and FreeBSD's ftpd.
const POSIX: [(&str, &str); 17] = [
    (
        "drwxr-xr-x    2 1000     1000         4096 Jan 08 10:00 pub",
        "dir [pub] [-] 4096 1704708000.0 1000 1000 755",
    ),
    (
        "-rw-r--r--    1 0        0         1048576 Nov 05  2018 1MB.zip",
        "file [1MB.zip] [-] 1048576 1541376000.0 0 0 644",
    ),
    (
        "-rw-------    1 14       50              0 Dec 31 23:59 .hidden",
        "file [.hidden] [-] 0 1704067140.0 14 50 600",
    ),
    (
        "lrwxrwxrwx    1 0        0              11 Mar 01  2020 latest -> release-1.2",
        "link [latest] [release-1.2] 11 1583020800.0 0 0 777",
    ),
    (
        "-rw-r--r--   1 ftp      ftp       1234567 Jul  3 12:00 README.txt",
        "file [README.txt] [-] 1234567 1720008000.0 -1 -1 644",
    ),
    (
        "drwxrwxr-x   5 ftp      ftp          4096 Jul 10 08:30 incoming",
        "dir [incoming] [-] 4096 1688977800.0 -1 -1 775",
    ),
    (
        "-rw-r--r--    1 500        500             42 Feb 29  2020 leap day.txt",
        "file [leap day.txt] [-] 42 1582934400.0 500 500 644",
    ),
    (
        "drwxr-x---    3 web        www-data      4096 Sep 30  1999 old  dir",
        "dir [old  dir] [-] 4096 938649600.0 -1 -1 750",
    ),
    (
        "-r--r--r--  1 root  wheel  65536 Apr  1  2001 kernel.gz",
        "file [kernel.gz] [-] 65536 986083200.0 -1 -1 444",
    ),
    (
        "drwxrwxrwt  7 root  wheel  512 May 20 2015 tmp",
        "dir [tmp] [-] 512 1432080000.0 -1 -1 777",
    ),
    (
        "-rwsr-sr-x  1 root  wheel  23000 JUN 1 2010 su",
        "file [su] [-] 23000 1275350400.0 -1 -1 755",
    ),
    (
        "drwxrwx--T  2 root  staff  512 Jan 1 1970 kept",
        "dir [kept] [-] 512 0.0 -1 -1 770",
    ),
    (
        "-rw-r--r-- 1 ftp ftp          25165 Oct 12  2019 report.pdf",
        "file [report.pdf] [-] 25165 1570838400.0 -1 -1 644",
    ),
    (
        "drwxr-xr-x 1 ftp ftp              0 Feb 02 14:05 Data",
        "dir [Data] [-] 0 1706882700.0 -1 -1 755",
    ),
    (
        "lrwxrwxrwx 1 0 0 3 Jan 1 1970 broken",
        "link [broken] [] 3 0.0 0 0 777",
    ),
    (
        "-rw-r--r-- 1 +7 4294967296 5 Jan 1 1970 na\u{ef}ve \u{65e5}\u{672c}",
        "file [na\u{ef}ve \u{65e5}\u{672c}] [-] 5 0.0 7 -1 644",
    ),
    (
        "-rw-r--r-- 1 u g 5 Jan 1 1960 before",
        "file [before] [-] 5 0.0 -1 -1 644",
    ),
];

/// IIS and other servers on Windows.
const DOS: [(&str, &str); 4] = [
    (
        "10-23-12  03:25PM       <DIR>          aspnet_client",
        "dir [aspnet_client] [-] 0 1351005900.0 -1 -1 777",
    ),
    (
        "02-25-99  12:00AM                12345 midnight.log",
        "file [midnight.log] [-] 12345 919900800.0 -1 -1 777",
    ),
    (
        "02-25-69  12:30PM            1,234,567 a file.bin",
        "file [a file.bin] [-] 1234567 3129021000.0 -1 -1 777",
    ),
    (
        "04-08-14  03:09 PM  <DIR>12 docs",
        "dir [docs] [-] 0 1396969740.0 -1 -1 777",
    ),
];

/// ProFTPD, Pure-FTPd, FileZilla Server and Serv-U.
const FACTS: [(&str, &str); 9] = [
    (
        "modify=20181105163248;perm=adfr;size=8192;type=file;unique=FD01U80000001;UNIX.group=0;UNIX.mode=0644;UNIX.owner=0; omar.txt",
        "file [omar.txt] [-] 8192 1541435568.0 -1 -1 644",
    ),
    (
        "type=cdir;sizd=4096;modify=20200229235959;UNIX.mode=0755;UNIX.uid=0;UNIX.gid=0;unique=801g2; .",
        "dir [.] [-] 0 1583020799.0 0 0 755",
    ),
    (
        "Type=file;Size=17709913;Modify=20040916182300; Installer.exe",
        "file [Installer.exe] [-] 17709913 1095358980.0 -1 -1 777",
    ),
    (
        "type=dir;modify=20151009083612; Neuer Ordner",
        "dir [Neuer Ordner] [-] 0 1444379772.0 -1 -1 777",
    ),
    ("type=link; a; b", "link [a; b] [] 0 0.0 -1 -1 777"),
    (
        "type=file;size=1;size=2;unix.uid=5;unix.uid=x; two",
        "file [two] [-] 2 0.0 -1 -1 777",
    ),
    (
        "size=9;x=1=2;=;flag;  blank",
        "file [ blank] [-] 9 0.0 -1 -1 777",
    ),
    ("size=3;\u{3000}last", "file [last] [-] 3 0.0 -1 -1 777"),
    ("  type=dir; x", "file [ type=dir; x] [-] 0 0.0 -1 -1 777"),
];

const REFUSED: [(&str, &str); 9] = [
    ("type=OS.unix=slink:/foo;size=1; link", "P1"),
    ("size=x;type=none; first fault", "P3"),
    ("modify=20230229000000; no such day", "P2"),
    ("modify=20230228235961; no such second", "P2"),
    ("modify=2023022823595; too short", "P2"),
    ("modify=20230228235959.; no fraction", "P2"),
    ("unix.mode=07777; five digits", "P1"),
    ("unix.mode=64; two digits", "P1"),
    ("size=18446744073709551616; too large", "P3"),
];

const REFUSED_POSIX: [(&str, &str); 10] = [
    ("-rw-r--r-- 1 500 500 42 Feb 29  2019 no such day", "P2"),
    (
        "-rw-r--r-- 1 500 500 99999999999999999999 Feb 30  2019 date first",
        "P2",
    ),
    (
        "-rw-r--r-- 1 500 500 18446744073709551616 Feb 3  2019 too large",
        "P3",
    ),
    ("-rw-r--r-- 1 500 500 1 Foo 3  2019 no such month", "P2"),
    ("-rw-r--r-- 1 500 500 1 Feb 3 24:00 no such hour", "P2"),
    ("-rw-r--r-- 1 500 500 1 Feb 3 12:60 no such minute", "P2"),
    ("-rw-r--r-- 1 500 500 1 Feb 3 02019 five digits", "P1"),
    ("-rw-r--r-- 1 domain users 500 1 Feb 3 2019 x", "P1"),
    ("-rw-r--r-- 1 u g 1 Feb 3 2019 two\nlines", "P1"),
    ("total 48", "P1"),
];

const REFUSED_DOS: [(&str, &str); 7] = [
    ("02-29-13  01:00AM  1 x", "P2"),
    ("13-01-13  01:00AM  1 x", "P2"),
    ("06-15-20  13:00PM  1 x", "P2"),
    ("06-15-20  00:10AM  1 x", "P2"),
    ("06-15-20  13:00PM  x", "P2"),
    ("06-15-20  01:00PM  ,, x", "P3"),
    ("06-15-20  01:00pm  1 x", "P1"),
];

const TABLES: [Table; 6] = [
    (NOW, &[Parser::Line], &POSIX),
    (NOW, &[Parser::Line], &DOS),
    (NOW, &[Parser::MlsxLine], &FACTS),
    (NOW, &[Parser::MlsxLine], &REFUSED),
    (NOW, &[Parser::PosixLine], &REFUSED_POSIX),
    (NOW, &[Parser::DosLine], &REFUSED_DOS),
];

#[test]
fn lines_of_servers(rt: HostRuntime) -> Result<(), Fail> {
    for table in TABLES {
        gives(&rt, table)?;
    }
    Ok(())
}
