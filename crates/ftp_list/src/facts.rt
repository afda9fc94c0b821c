//! The facts of a line of MLSD or MLST (RFC 3659, section 7): `type=file;size=8192; name`.
//!
//! The end of the facts is looked for once, then each semicolon and each equals sign, from left
//! to right. A file begins with what holds where nothing is said, and each fact replaces a part
//! of it; the first fact that is wrong ends the reading. Unknown keys are passed over.
ghost use Rattle.std.specs.Prelude.{◌≡◌, ◌≤◌, ◌==◌, ◌-◌, true, length, IfOk};
ghost use Rattle.std.specs.List.{position_or_len, after_last, list_all};
ghost use Rattle.ftp_list.specs.Pex.{pex_of_bits};
ghost use Rattle.ftp_list.specs.Listing.{UnlessMemory};
ghost use Rattle.ftp_list.specs.Facts.{facts, type_of, is_octal, is_mode, mode_fact, with_type, with_size, with_modify, with_time, with_fact, with_facts, with_piece, named, mlsx_name, mlsx_facts, mlsd, mlst};

use crate::error::{ParseError, ParseResult};
use crate::file::File;
use crate::file_type::FileType;
use crate::numbers::{number_of, small_number_of};
use crate::pex::PosixPex;
use crate::places::{begins_with, front, part_before, place_of, rest};
use crate::posix::seconds_of;
use crate::times::{Moment, moment_of};
use crate::trims::{is_that_word, text_of, trimmed_front};
use ftp_base::types::Text;
use std::alloc::{AllocError, Global};

const SPACE: [char; 1] = [' '];

const EQUALS: [char; 1] = ['='];

const NAME_FOLLOWS: [char; 2] = [';', ' '];

/// The file of a line of MLST.
#[tactic(auto, unfolding(crate::specs::Facts::mlst))]
pub fn parse_mlst(alloc: Global, text: &[char]) -> ParseResult<File>
    ensures { UnlessMemory (λ answer. answer ≡ mlst text.now) result }
{
    if begins_with(text, &SPACE) {
        parse_mlsd(alloc, rest(text, 1))
    } else {
        parse_mlsd(alloc, text)
    }
}

/// The file of a line of MLSD.
#[tactic(auto, unfolding(crate::specs::Facts::mlsd))]
pub fn parse_mlsd(alloc: Global, text: &[char]) -> ParseResult<File>
    ensures { UnlessMemory (λ answer. answer ≡ mlsd text.now) result }
{
    let (name, facts) = name_and_facts(text);
    let file = file_named(alloc, name)?;
    with_all_facts(alloc, file, facts)
}

/// The name, and the text in which the facts stand.
pub fn name_and_facts(text: &[char]) -> (&[char], &[char])
    ensures name { result.0.now ≡ mlsx_name text.now }
    ensures facts { result.1.now ≡ mlsx_facts text.now }
{
    if begins_with(text, &SPACE) {
        return (rest(text, 1), front(text, 0));
    }
    let end = place_of(text, &NAME_FOLLOWS);
    if end < text.len() {
        (rest(text, end + 2), front(text, end + 1))
    } else {
        (trimmed_front(last_piece(text)), text)
    }
}

fn last_piece(text: &[char]) -> &[char]
    ensures { result.now ≡ after_last (λ c. c == 59) text.now }
{
    let mut count = text.len();
    while count > 0 && text[count - 1] != ';' {
        count -= 1;
    }
    rest(text, count)
}

/// A file of that name of which nothing else is said.
pub fn file_named(alloc: Global, name: &[char]) -> Result<File, AllocError>
    ensures { IfOk result (λ file. file ≡ named name.now) }
{
    Ok(File {
        name: text_of(alloc, name)?,
        file_type: FileType::File,
        size: 0,
        seconds: 0,
        nanoseconds: 0,
        uid: None,
        gid: None,
        owner: PosixPex::default(),
        group: PosixPex::default(),
        others: PosixPex::default(),
    })
}

// The facts in order: later ones replace, the first error is returned.
fn with_all_facts(alloc: Global, file: File, text: &[char]) -> ParseResult<File>
    ensures { result ≡ with_facts file (facts text.now) }
{
    let mut file = file;
    let mut left = text;
    'pieces: loop {
        let end = semicolon_in(left);
        file = match with_one_piece(alloc, file, front(left, end)) {
            Ok(changed) => changed,
            Err(fault) => return Err(fault),
        };
        if end == left.len() {
            return Ok(file);
        }
        left = rest(left, end + 1);
    }
}

/// The place of the first semicolon, or the length.
pub fn semicolon_in(text: &[char]) -> usize
    ensures value { result ≡ position_or_len (λ c. c == 59) text.now }
    ensures bound { result ≤ length text.now }
{
    for (i, c) in text.iter().enumerate() {
        if *c == ';' {
            return i;
        }
    }
    text.len()
}

/// A piece without = changes nothing.
pub fn with_one_piece(alloc: Global, file: File, piece: &[char]) -> ParseResult<File>
    ensures { result ≡ with_piece file piece.now }
{
    let end = place_of(piece, &EQUALS);
    if end < piece.len() {
        let value = part_before(rest(piece, end + 1), &EQUALS);
        with_one_fact(alloc, file, front(piece, end), value)
    } else {
        Ok(file)
    }
}

#[tactic(auto, unfolding(crate::specs::Facts::with_fact))]
fn with_one_fact(alloc: Global, mut file: File, key: &[char], value: &[char]) -> ParseResult<File>
    ensures { result ≡ with_fact file (record { key = key.now; value = value.now }) }
{
    if is_that_word(key, &['t', 'y', 'p', 'e']) {
        return with_its_type(alloc, file, value);
    }
    if is_that_word(key, &['s', 'i', 'z', 'e']) {
        return with_its_size(file, value);
    }
    if is_that_word(key, &['m', 'o', 'd', 'i', 'f', 'y']) {
        return with_its_time(file, value);
    }
    if is_that_word(key, &['u', 'n', 'i', 'x', '.', 'u', 'i', 'd']) {
        file.uid = small_number_of(value);
        return Ok(file);
    }
    if is_that_word(key, &['u', 'n', 'i', 'x', '.', 'g', 'i', 'd']) {
        file.gid = small_number_of(value);
        return Ok(file);
    }
    if is_that_word(key, &['u', 'n', 'i', 'x', '.', 'm', 'o', 'd', 'e']) {
        return with_its_mode(file, value);
    }
    Ok(file)
}

#[tactic(auto, unfolding(crate::specs::Facts::with_type))]
fn with_its_type(alloc: Global, mut file: File, value: &[char]) -> ParseResult<File>
    ensures { result ≡ with_type file value.now }
{
    let Some(file_type) = type_in(alloc, value) else {
        return Err(ParseError::SyntaxError);
    };
    file.file_type = file_type;
    Ok(file)
}

#[tactic(auto, unfolding(crate::specs::Facts::type_of))]
fn type_in(alloc: Global, value: &[char]) -> Option<FileType>
    ensures { result ≡ type_of value.now }
{
    if is_that_word(value, &['d', 'i', 'r'])
        || is_that_word(value, &['c', 'd', 'i', 'r'])
        || is_that_word(value, &['p', 'd', 'i', 'r'])
    {
        Some(FileType::Directory)
    } else if is_that_word(value, &['f', 'i', 'l', 'e']) {
        Some(FileType::File)
    } else if is_that_word(value, &['l', 'i', 'n', 'k']) {
        Some(FileType::Symlink(Text::from_string(String::new(alloc))))
    } else {
        None
    }
}

#[tactic(auto, unfolding(crate::specs::Facts::with_size))]
fn with_its_size(mut file: File, value: &[char]) -> ParseResult<File>
    ensures { result ≡ with_size file value.now }
{
    let Some(size) = number_of(value) else {
        return Err(ParseError::BadSize);
    };
    file.size = size as usize;
    Ok(file)
}

#[tactic(auto, unfolding(crate::specs::Facts::with_modify))]
fn with_its_time(file: File, value: &[char]) -> ParseResult<File>
    ensures { result ≡ with_modify file value.now }
{
    let Some(moment) = moment_of(value) else {
        return Err(ParseError::InvalidDate);
    };
    Ok(at_moment(file, moment))
}

// Zero before the epoch.
fn at_moment(mut file: File, moment: Moment) -> File
    ensures { result ≡ with_time file moment }
{
    file.nanoseconds = if moment.second < 0 {
        0
    } else {
        moment.nanosecond
    };
    file.seconds = seconds_of(moment.second);
    file
}

// Three or four octal digits, of which the last three are those of the owner, the group and others.
fn with_its_mode(mut file: File, value: &[char]) -> ParseResult<File>
    ensures { result ≡ mode_fact file value.now }
{
    if !is_octal_mode(value) {
        return Err(ParseError::SyntaxError);
    }
    let count = value.len();
    file.owner = pex_of(value[count - 3]);
    file.group = pex_of(value[count - 2]);
    file.others = pex_of(value[count - 1]);
    Ok(file)
}

fn is_octal_mode(value: &[char]) -> bool
    ensures { result ≡ is_mode value.now }
{
    if value.len() != 3 && value.len() != 4 {
        return false;
    }
    is_all_octal(value)
}

fn is_all_octal(value: &[char]) -> bool
    ensures { result ≡ list_all is_octal value.now }
{
    value.iter().all(|c| '0' <= *c && *c <= '7')
}

fn pex_of(digit: char) -> PosixPex
    requires { is_octal digit ≡ true }
    ensures { result ≡ pex_of_bits (digit - 48) }
{
    PosixPex::from((digit as u32 - 48) as u8)
}
