//! Bytes, texts and lists: how they are made, read and copied.

use crate::seen::assert_same;
use ftp_base::command::Command;
use ftp_base::encoding::{EncodeError, Encoding, Latin1Encoding, Utf8Encoding};
use ftp_base::types::{Bytes, Items, Text};
use std::alloc::{AllocError, Global};
use std::io::ErrorKind;
use std::test::Fail;

#[test]
fn bytes_are_read_as_a_slice(rt: HostRuntime) -> Result<(), Fail> {
    let bytes: Bytes = Vec::from_slice(rt.alloc(), b"200 ok")?.into();
    let read = (bytes.len(), bytes[3], bytes.starts_with(b"200"));
    assert_same(&rt, read, (6, b' ', true));
    Ok(())
}

#[test]
fn bytes_grow_at_their_end(rt: HostRuntime) -> Result<(), Fail> {
    let mut bytes = Bytes::from_slice(rt.alloc(), b"2")?;
    bytes.push(b'2')?;
    bytes.extend_from_slice(b"6 x")?;
    let grown = bytes.as_slice() == b"226 x".as_slice();
    bytes.clear();
    assert!(rt; grown && bytes == Bytes::new(rt.alloc()));
    Ok(())
}

#[test]
fn a_clone_of_bytes_is_equal(rt: HostRuntime) -> Result<(), Fail> {
    let bytes = Bytes::from_slice(rt.alloc(), b"226")?;
    let copy = bytes.clone()?;
    let same = copy == bytes;
    assert!(rt; same && copy.into_vec().as_slice() == b"226".as_slice());
    Ok(())
}

#[test]
fn a_text_is_read_as_a_str(rt: HostRuntime) -> Result<(), Fail> {
    let text: Text = String::from_str(rt.alloc(), " a b ")?.into();
    assert_same(&rt, text.trim(), "a b");
    Ok(())
}

#[test]
fn a_text_is_shown_as_it_is(rt: HostRuntime) -> Result<(), Fail> {
    let text = Text::from_str(rt.alloc(), "a b")?;
    let shown = format!(in rt.alloc(); "{text}")?;
    let copy = text.clone()?;
    assert_same(&rt, (shown.as_str(), copy == text), ("a b", true));
    Ok(())
}

#[test]
fn a_list_is_made_from_a_vector(rt: HostRuntime) -> Result<(), Fail> {
    let list: Items<u8> = Vec::from_slice(rt.alloc(), b"ab")?.into();
    let copy = list.clone()?;
    let same = copy == list;
    assert!(rt; same && copy.into_vec().as_slice() == b"ab".as_slice());
    Ok(())
}

/// `CWD pub`, in a box, which is dropped by one call.
fn command(alloc: Global) -> Result<Box<Command>, AllocError> {
    let command = Command::Cwd(Text::from_str(alloc, "pub")?);
    Ok(Box::new(alloc, command)?)
}

#[test]
fn a_clone_of_a_command_is_equal(rt: HostRuntime) -> Result<(), Fail> {
    let command = command(rt.alloc())?;
    let copy = Box::new(rt.alloc(), Command::clone(&command)?)?;
    assert!(rt; *copy == *command);
    Ok(())
}

#[test]
fn utf_8_is_the_bytes_as_they_are(rt: HostRuntime) -> Result<(), Fail> {
    let bytes = Utf8Encoding.encode(rt.alloc(), "é")?;
    let text = Utf8Encoding.decode(rt.alloc(), b"\xc3\xa9\xff")?;
    let due = (b"\xc3\xa9".as_slice(), "é\u{fffd}");
    assert_same(&rt, (bytes.as_slice(), text.as_str()), due);
    Ok(())
}

#[test]
fn each_byte_is_a_character_of_latin_1(rt: HostRuntime) -> Result<(), Fail> {
    let bytes = Latin1Encoding.encode(rt.alloc(), "né")?;
    let text = Latin1Encoding.decode(rt.alloc(), b"\xe9\xff\x80")?;
    let due = (b"n\xe9".as_slice(), "é\u{ff}\u{80}");
    assert_same(&rt, (bytes.as_slice(), text.as_str()), due);
    let refused = Latin1Encoding.encode(rt.alloc(), "5 €");
    assert!(rt; matches!(refused, Err(EncodeError::Refused(ErrorKind::InvalidInput))));
    Ok(())
}
