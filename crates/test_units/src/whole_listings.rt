//! Whole listings, as servers send them: what is a file, what lies around, what only the server's system has, and what
//! can't be read. The lines are those of Pure-FTPd, ProFTPD and vsftpd, and of RFC 3659, section 7.5.1.

use crate::seen::assert_same;
use ftp_list::{File, Listing, is_plain_name};
use jiff::Timestamp;
use std::alloc::{AllocError, Global};
use std::test::Fail;

/// 10 January 2024, midnight UTC.
const NOW: i64 = 1_704_844_800;

/// Lines, each as a text of its own.
fn lines(alloc: Global, texts: &[&str]) -> Result<Vec<String>, AllocError> {
    let mut lines = Vec::new(alloc);
    for text in texts {
        lines.push(String::from_str(alloc, text)?)?;
    }
    Ok(lines)
}

/// Adds a file: its name, its size, its time in seconds, and the target of a link.
fn add_file(text: &mut String, file: &File) -> Result<(), Fail> {
    let (name, size, time) = (file.name(), file.size(), file.modified().as_secs());
    write!(text, "{name} {size} {time}")?;
    if let Some(target) = file.symlink() {
        write!(text, " -> [{target}]")?;
    }
    write!(text, "|")?;
    Ok(())
}

/// The files of a listing; after `@` each that lies around; what only the system has; after `?` each unread line.
fn described(alloc: Global, listing: &Listing) -> Result<String, Fail> {
    let mut text = String::new(alloc);
    for file in &listing.files {
        add_file(&mut text, file)?;
    }
    for file in &listing.around {
        write!(text, "@")?;
        add_file(&mut text, file)?;
    }
    for file in &listing.others {
        write!(text, "{} is {}|", file.name(), file.kind())?;
    }
    for line in &listing.unread {
        write!(text, "?{line}|")?;
    }
    Ok(text)
}

/// What the lines of `MLSD` say.
fn facts(alloc: Global, texts: &[&str]) -> Result<String, Fail> {
    let listing = Box::new(alloc, Listing::of_mlsd(alloc, &lines(alloc, texts)?)?)?;
    described(alloc, &listing)
}

#[test]
fn a_link_of_pure_ftpd_has_its_target(rt: HostRuntime) -> Result<(), Fail> {
    let line = "type=OS.unix=slink:/target;size=6;modify=20250101000000;UNIX.mode=0777; link";
    let text = facts(rt.alloc(), &[line])?;
    assert_same(&rt, text.as_str(), "link 6 1735689600 -> [/target]|");
    Ok(())
}

#[test]
fn a_link_of_proftpd_has_no_target(rt: HostRuntime) -> Result<(), Fail> {
    let line =
        "modify=20250101000000;perm=adfrw;size=6;type=OS.unix=symlink;unique=801U2;UNIX.group=0; link";
    let text = facts(rt.alloc(), &[line, "Type=os.UNIX=SymLink:a=b:c; l"])?;
    let due = "link 6 1735689600 -> []|l 0 0 -> [a=b:c]|";
    assert_same(&rt, text.as_str(), due);
    Ok(())
}

#[test]
fn the_directory_and_its_parents_are_no_files(rt: HostRuntime) -> Result<(), Fail> {
    let lines = [
        "type=cdir;modify=20250101000000;perm=el; /pub",
        "Type=pdir;modify=20250101000000; ..",
        "type=dir; .",
        "type=dir; ...",
    ];
    let text = facts(rt.alloc(), &lines)?;
    let due = "... 0 0|@/pub 0 1735689600|@.. 0 1735689600|@. 0 0|";
    assert_same(&rt, text.as_str(), due);
    Ok(())
}

#[test]
fn a_device_is_kept_with_its_type(rt: HostRuntime) -> Result<(), Fail> {
    let lines = [
        "type=OS.unix=blkdev-8/1; sda1",
        "type=nonsense; x",
        "type=OS.foo=bar; x",
    ];
    let text = facts(rt.alloc(), &lines)?;
    let due = "sda1 is OS.unix=blkdev-8/1|x is OS.foo=bar|?type=nonsense; x|";
    assert_same(&rt, text.as_str(), due);
    Ok(())
}

#[test]
fn the_last_type_of_a_line_counts(rt: HostRuntime) -> Result<(), Fail> {
    let lines = [
        "type=OS.unix=slink:/a;type=OS.unix=socket; s",
        "type=OS.unix=socket;type=OS.unix=slink:/a; l",
        "type=cdir;type=file; f",
        "type=file;type=cdir; d",
    ];
    let text = facts(rt.alloc(), &lines)?;
    let due = "l 0 0 -> [/a]|f 0 0|@d 0 0|s is OS.unix=socket|";
    assert_same(&rt, text.as_str(), due);
    Ok(())
}

#[test]
fn a_wrong_fact_beside_the_type_of_a_system_is_an_error(rt: HostRuntime) -> Result<(), Fail> {
    let lines = [
        "type=OS.unix=slink:/a;size=x; l",
        "modify=20250230000000;type=OS.unix=socket; s",
        "type=OS.unix; n",
    ];
    let text = facts(rt.alloc(), &lines)?;
    let due =
        "?type=OS.unix=slink:/a;size=x; l|?modify=20250230000000;type=OS.unix=socket; s|?type=OS.unix; n|";
    assert_same(&rt, text.as_str(), due);
    Ok(())
}

#[test]
fn the_dots_of_ls_are_no_files(rt: HostRuntime) -> Result<(), Fail> {
    let alloc = rt.alloc();
    let texts = [
        "total 8",
        "drwxr-xr-x    2 1000     1000         4096 Jan 08 10:00 .",
        "drwxr-xr-x    3 1000     1000         4096 Jan 08 10:00 ..",
        "-rw-r--r--    1 0        0         1048576 Nov 05  2018 1MB.zip",
    ];
    let now = Timestamp::from_second(NOW)?;
    let listing = Box::new(alloc, Listing::of_list(alloc, &lines(alloc, &texts)?, now)?)?;
    let text = described(alloc, &listing)?;
    let due = "1MB.zip 1048576 1541376000|@. 4096 1704708000|@.. 4096 1704708000|";
    assert_same(&rt, text.as_str(), due);
    Ok(())
}

/// Names that can be those of local files, and names that can't.
const PLAIN: [&str; 6] = ["a.txt", "...", ".hidden", " ", "naïve", "a:b"];

const OTHERS: [&str; 9] = [
    "",
    ".",
    "..",
    "/etc/passwd",
    "../a",
    "a\\b",
    "a\0",
    "a\r",
    "\na",
];

#[test]
fn a_plain_name_leads_nowhere_else(rt: HostRuntime) -> Result<(), Fail> {
    for name in PLAIN {
        assert_same(&rt, (name, is_plain_name(name)), (name, true));
    }
    for name in OTHERS {
        assert_same(&rt, (name, is_plain_name(name)), (name, false));
    }
    let file = File::from_mlsx_line(rt.alloc(), "type=file; ../a")?;
    let plain = file.is_plain_name();
    drop(file);
    assert_same(&rt, plain, false);
    Ok(())
}
