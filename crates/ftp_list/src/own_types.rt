//! The types that systems give their own files (RFC 3659, section 7.5.1.5), as `type=OS.unix=slink:target`, among the facts
//! of a line of MLSD.
//!
//! Each function goes over the text once, from one semicolon to the next.
ghost use Rattle.std.specs.Prelude.{◌≡◌, codes};
ghost use Rattle.std.specs.Option.{option_map};
ghost use Rattle.ftp_list.specs.Facts.{with_facts};
ghost use Rattle.ftp_list.specs.Texts.{is_word};
ghost use Rattle.ftp_list.specs.OwnTypes.{key_of, value_of, is_type, is_own, is_own_type, own_after, own_type, with_other_piece, other_facts, is_around, around_after, says_around, is_link, link_of};

use crate::error::ParseResult;
use crate::facts::{semicolon_in, with_one_piece};
use crate::file::File;
use crate::places::{front, has, part_before, part_behind, rest};
use crate::trims::is_that_word;
use std::alloc::Global;

const EQUALS: [char; 1] = ['='];

const COLON: [char; 1] = [':'];

/// The type of a system's own among the facts, the last of several.
pub fn own_type_in(text: &[char]) -> Option<&[char]>
    ensures { option_map (λ value. value.now) result ≡ own_type text.now }
{
    let mut found = None;
    let mut left = text;
    'pieces: loop {
        let end = semicolon_in(left);
        found = own_type_after(found, front(left, end));
        if end == left.len() {
            return found;
        }
        left = rest(left, end + 1);
    }
}

#[tactic(auto, unfolding(crate::specs::OwnTypes::own_after))]
fn own_type_after<'a>(found: Option<&'a [char]>, piece: &'a [char]) -> Option<&'a [char]>
    ensures { option_map (λ value. value.now) result
        ≡ own_after (option_map (λ value. value.now) found.entry) piece.now }
{
    if is_own_type_fact(piece) {
        Some(value_in(piece))
    } else {
        found
    }
}

/// Whether the last type among the facts is that of the listed directory or of one of its parents.
pub fn is_around_in(text: &[char]) -> bool
    ensures { result ≡ says_around text.now }
{
    let mut so = false;
    let mut left = text;
    'pieces: loop {
        let end = semicolon_in(left);
        so = is_around_after(so, front(left, end));
        if end == left.len() {
            return so;
        }
        left = rest(left, end + 1);
    }
}

#[tactic(auto, unfolding(crate::specs::OwnTypes::around_after))]
fn is_around_after(so: bool, piece: &[char]) -> bool
    ensures { result ≡ around_after so piece.now }
{
    if is_type_fact(piece) {
        is_around_type(part_before(value_in(piece), &EQUALS))
    } else {
        so
    }
}

fn is_around_type(value: &[char]) -> bool
    ensures { result ≡ is_around value.now }
{
    is_that_word(value, &['c', 'd', 'i', 'r']) || is_that_word(value, &['p', 'd', 'i', 'r'])
}

/// The facts in order, without the types of a system's own: later ones replace, the first error is returned.
pub fn with_other_facts(alloc: Global, file: File, text: &[char]) -> ParseResult<File>
    ensures { result ≡ with_facts file (other_facts text.now) }
{
    let mut file = file;
    let mut left = text;
    'pieces: loop {
        let end = semicolon_in(left);
        file = match with_piece_unless_own(alloc, file, front(left, end)) {
            Ok(changed) => changed,
            Err(fault) => return Err(fault),
        };
        if end == left.len() {
            return Ok(file);
        }
        left = rest(left, end + 1);
    }
}

fn with_piece_unless_own(alloc: Global, file: File, piece: &[char]) -> ParseResult<File>
    ensures { result ≡ with_other_piece file piece.now }
{
    if is_own_type_fact(piece) {
        Ok(file)
    } else {
        with_one_piece(alloc, file, piece)
    }
}

/// The target of a symbolic link of Unix, empty where the type has none.
#[tactic(auto, unfolding(crate::specs::OwnTypes::link_of))]
pub fn link_in(value: &[char]) -> Option<&[char]>
    ensures { option_map (λ target. target.now) result ≡ link_of value.now }
{
    let kind = value_in(value);
    if is_unix(key_in(value)) && is_link_kind(part_before(kind, &COLON)) {
        Some(part_behind(kind, &COLON))
    } else {
        None
    }
}

fn is_unix(system: &[char]) -> bool
    ensures { result ≡ is_word (codes "os.unix") system.now }
{
    is_that_word(system, &['o', 's', '.', 'u', 'n', 'i', 'x'])
}

fn is_link_kind(kind: &[char]) -> bool
    ensures { result ≡ is_link kind.now }
{
    is_that_word(kind, &['s', 'l', 'i', 'n', 'k'])
        || is_that_word(kind, &['s', 'y', 'm', 'l', 'i', 'n', 'k'])
}

fn is_own_type_fact(piece: &[char]) -> bool
    ensures { result ≡ is_own_type piece.now }
{
    is_type_fact(piece) && is_own_value(value_in(piece))
}

fn is_own_value(value: &[char]) -> bool
    ensures { result ≡ is_own value.now }
{
    is_that_word(front(value, 3), &['o', 's', '.']) && has(value, &EQUALS)
}

fn is_type_fact(piece: &[char]) -> bool
    ensures { result ≡ is_type piece.now }
{
    has(piece, &EQUALS) && is_that_word(key_in(piece), &['t', 'y', 'p', 'e'])
}

fn key_in(piece: &[char]) -> &[char]
    ensures { result.now ≡ key_of piece.now }
{
    part_before(piece, &EQUALS)
}

fn value_in(piece: &[char]) -> &[char]
    ensures { result.now ≡ value_of piece.now }
{
    part_behind(piece, &EQUALS)
}
