//! Accessors, clones, comparisons, hashes and texts.

use crate::described::kind;
use crate::seen::assert_same;
use crate::tables::{Parser, read};
use ftp_list::{File, FileType, ParseError, PosixPex, PosixPexQuery, Text};
use jiff::Timestamp;
use std::alloc::{AllocError, Global};
use std::hash::{FoldHasher, Hash, Hasher};
use std::test::Fail;

/// A file, in a box, which is dropped by one call.
fn some_file(alloc: Global) -> Result<Box<File>, Fail> {
    let now = Timestamp::from_second(0)?;
    let file = File::from_line(alloc, "-rwxr-x--x 1 7 8 9 Jan 2 1970 name", now)?;
    Ok(Box::new(alloc, file)?)
}

/// A link, in a box.
fn some_link(alloc: Global) -> Result<Box<FileType>, AllocError> {
    let text = Text::from_string(String::from_str(alloc, "to")?);
    Ok(Box::new(alloc, FileType::Symlink(text))?)
}

/// The kind of a file's type, and what it leads to.
fn kind_text(alloc: Global, kind_of: &FileType) -> Result<String, AllocError> {
    let kind = kind(
        kind_of.is_file(),
        kind_of.is_directory(),
        kind_of.is_symlink(),
    );
    let target = kind_of.symlink().unwrap_or("-");
    format!(in alloc; "{kind} [{target}]")
}

#[test]
fn what_a_file_keeps(rt: HostRuntime) -> Result<(), Fail> {
    let line = "-rwxr-x--x 1 7 8 9 Jan 2 1970 name";
    let text = read(rt.alloc(), Parser::Line, line, 0)?;
    assert_same(&rt, text.as_str(), "file [name] [-] 9 86400.0 7 8 751");
    Ok(())
}

#[test]
fn the_type_of_a_file(rt: HostRuntime) -> Result<(), Fail> {
    let file = some_file(rt.alloc())?;
    let text = kind_text(rt.alloc(), file.file_type())?;
    assert_same(&rt, text.as_str(), "file [-]");
    Ok(())
}

#[test]
fn what_a_file_type_is(rt: HostRuntime) -> Result<(), Fail> {
    let link = some_link(rt.alloc())?;
    let of_link = kind_text(rt.alloc(), &link)?;
    let of_directory = kind_text(rt.alloc(), &FileType::Directory)?;
    let texts = (of_link.as_str(), of_directory.as_str());
    assert_same(&rt, texts, ("link [to]", "dir [-]"));
    Ok(())
}

#[test]
fn a_text_gives_its_string_back(rt: HostRuntime) -> Result<(), Fail> {
    let text = Text::from_string(String::from_str(rt.alloc(), "a")?);
    let lent = text.as_str() == "a";
    let string = text.into_string();
    let all = PosixPex::default() == PosixPex::from(7);
    assert_same(&rt, (lent, string.as_str(), all), (true, "a", true));
    Ok(())
}

fn hash_of(file: &File) -> u64 {
    let mut hasher = FoldHasher::default();
    file.hash(&mut hasher);
    hasher.finish()
}

#[test]
fn a_clone_is_equal_and_hashes_alike(rt: HostRuntime) -> Result<(), Fail> {
    let one = some_file(rt.alloc())?;
    let same = Box::new(rt.alloc(), File::clone(&one)?)?;
    let hashes = (hash_of(&one), hash_of(&same));
    assert!(rt; *one == *same && hashes.0 == hashes.1);
    Ok(())
}

#[test]
fn a_clone_of_a_link_is_equal(rt: HostRuntime) -> Result<(), Fail> {
    let link = some_link(rt.alloc())?;
    let copy = Box::new(rt.alloc(), FileType::clone(&link)?)?;
    assert!(rt; *copy == *link && *link != FileType::File);
    Ok(())
}

/// Errors, and each as it is shown to a user and to a programmer.
const ERRORS: [(ParseError, &str); 4] = [
    (
        ParseError::SyntaxError,
        "Syntax error: invalid line: SyntaxError",
    ),
    (ParseError::InvalidDate, "Invalid date: InvalidDate"),
    (ParseError::BadSize, "Bad file size: BadSize"),
    (ParseError::OutOfMemory, "out of memory: OutOfMemory"),
];

#[test]
fn texts_of_refusals(rt: HostRuntime) -> Result<(), Fail> {
    for (fault, due) in &ERRORS {
        let text = format!(in rt.alloc(); "{fault}: {fault:?}")?;
        assert_same(&rt, text.as_str(), *due);
    }
    Ok(())
}

#[test]
fn debug_texts(rt: HostRuntime) -> Result<(), Fail> {
    let link = some_link(rt.alloc())?;
    let permission = PosixPex::from(5);
    let text = format!(in rt.alloc(); "{link:?}, {permission:?}, {:?}", PosixPexQuery::Owner)?;
    assert_same(
        &rt,
        text.as_str(),
        "Symlink(\"to\"), PosixPex { read: true, write: false, execute: true }, Owner",
    );
    Ok(())
}

#[test]
fn debug_text_of_a_file(rt: HostRuntime) -> Result<(), Fail> {
    let file = some_file(rt.alloc())?;
    let shown = format!(in rt.alloc(); "{file:?}")?;
    assert!(rt;
        shown
            .as_str()
            .starts_with("File { name: \"name\", file_type: File, size: 9, ")
    );
    Ok(())
}
