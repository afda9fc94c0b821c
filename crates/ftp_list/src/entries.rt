//! The lines of a whole listing: those of `LIST` (RFC 959, section 4.1.3), whose form no RFC fixes, or of `MLSD` (RFC 3659,
//! section 7).
//!
//! A line that can't be read doesn't take the others away: it is kept by its text. `LIST` is read a line in the POSIX
//! form or the DOS form, and what `ls -l` adds to its lines is left out.
ghost use Rattle.std.specs.Prelude.{◌≡◌, ◌↔◌, IfOk, IfSome, IsSome, IsTrue, OnOk, map, vec_len};
ghost use Rattle.std.specs.String.{string_bytes};
ghost use Rattle.ftp_list.specs.Entries.{NamesFacts, is_spaced_number, is_total, is_entry_text, is_entry, entries, contents, nothing, added, IsRead};
ghost use Rattle.ftp_list.specs.Sorts.{IsOfList, IsOfMlsd};

use crate::class::Class;
use crate::file::File;
use crate::other_file::OtherFile;
use crate::parser::ROOM;
use crate::places::{begins_with, rest};
use crate::sorts::{Sort, sort_in_list, sort_in_mlsd};
use crate::trims::{chars_of, copied_line, trimmed, trimmed_front};
use jiff::Timestamp;
use std::alloc::{AllocError, Global};

const TOTAL: [char; 5] = ['t', 'o', 't', 'a', 'l'];

/// What was read of a listing, each part in the order of the lines.
#[derive(Debug, Drop)]
pub struct Listing {
    /// The files of the directory. A symbolic link is one, also in `MLSD` where its type is `OS.unix=slink` or
    /// `OS.unix=symlink`, with its target or without.
    pub files: Vec<File>,
    /// The listed directory itself and its parents: what is named `.` or `..`, and in `MLSD` what is of type `cdir` or
    /// `pdir`, whatever its name.
    pub around: Vec<File>,
    /// What has a type of the server's own in `MLSD`, `OS.name=kind` (RFC 3659, section 7.5.1.5), as a device or a socket.
    pub others: Vec<OtherFile>,
    /// The lines that can't be read, as they came.
    pub unread: Vec<String>,
}

impl Listing {
    /// What the lines of `LIST` say: each in the POSIX form, as `ListParser::parse_posix` reads it at that moment, or, where
    /// it doesn't have that form at all (`SyntaxError`), in the DOS form, as `ListParser::parse_dos` does. Blank lines and
    /// `total N`, as `ls -l` begins, are left out.
    ///
    /// # Errors
    /// `AllocError`.
    pub fn of_list(alloc: Global, lines: &[String], now: Timestamp) -> Result<Listing, AllocError>
        ensures read { IfOk result (λ listing. IsRead (IsOfList now.nanosecond)
            (entries (map string_bytes lines.now)) (contents listing)) }
    {
        let mut listing = Listing::empty(alloc);
        for line in lines {
            let text = line.as_str();
            if is_of_file(alloc, text)? {
                listing.add(alloc, text, sort_in_list(alloc, text, now)?)?;
            }
        }
        Ok(listing)
    }

    /// What the lines of `MLSD` say, each as `ListParser::parse_mlsd` reads it, but for a type of the server's own: beside
    /// it the other facts are read in the same way, and of several the last counts.
    ///
    /// # Errors
    /// `AllocError`.
    pub fn of_mlsd(alloc: Global, lines: &[String]) -> Result<Listing, AllocError>
        ensures read { IfOk result (λ listing.
            IsRead IsOfMlsd (map string_bytes lines.now) (contents listing)) }
    {
        let mut listing = Listing::empty(alloc);
        for line in lines {
            let text = line.as_str();
            listing.add(alloc, text, sort_in_mlsd(alloc, text)?)?;
        }
        Ok(listing)
    }

    /// The files, where every line could be read.
    pub fn into_files(self) -> Option<Vec<File>>
        ensures complete { IsSome result ↔ (vec_len self.unread ≡ 0) }
        ensures files { IfSome result (λ files. files ≡ self.files) }
    {
        let Listing {
            files,
            around,
            others,
            unread,
        } = self;
        drop(around);
        drop(others);
        if unread.is_empty() { Some(files) } else { None }
    }

    fn empty(alloc: Global) -> Listing
        ensures { contents result ≡ nothing }
    {
        Listing {
            files: Vec::new(alloc),
            around: Vec::new(alloc),
            others: Vec::new(alloc),
            unread: Vec::new(alloc),
        }
    }

    /// Adds a line of this sort.
    ///
    /// # Errors
    /// `AllocError`.
    fn add(&mut self, alloc: Global, line: &str, sort: Sort) -> Result<(), AllocError>
        ensures added { OnOk result (contents self.new ≡ added line.now sort (contents self.old)) }
    {
        match sort {
            Sort::File(file) => self.files.push(file)?,
            Sort::Around(file) => self.around.push(file)?,
            Sort::Other(file) => self.others.push(file)?,
            Sort::Unread => self.unread.push(String::from_str(alloc, line)?)?,
        }
        Ok(())
    }
}

/// Whether a server that names a feature so, in upper or lower case, has `MLSD`: by `MLST`, which stands for both (RFC 3659,
/// section 7.8), or by `MLSD` itself.
pub fn names_facts(feature: &str) -> bool
    ensures { IsTrue result ↔ NamesFacts feature.now }
{
    feature.eq_ignore_ascii_case("mlst") || feature.eq_ignore_ascii_case("mlsd")
}

/// Whether a line of `LIST` is that of a file.
fn is_of_file(alloc: Global, line: &str) -> Result<bool, AllocError>
    ensures { IfOk result (λ is. is ≡ is_entry line.now) }
{
    let mut room = [' '; ROOM];
    match copied_line(&mut room, line) {
        Some(count) => Ok(is_text_of_file(&room[..count])),
        None => Ok(is_text_of_file(&chars_of(alloc, line)?)),
    }
}

/// Whether the characters of a line of `LIST` are those of a file's.
fn is_text_of_file(text: &[char]) -> bool
    ensures { result ≡ is_entry_text text.now }
{
    let text = trimmed(text);
    !text.is_empty() && !is_sum(text)
}

/// Whether the text is `total` and a number.
fn is_sum(text: &[char]) -> bool
    ensures { result ≡ is_total text.now }
{
    begins_with(text, &TOTAL) && is_number_after_blanks(rest(text, 5))
}

/// Whether the text is blanks and then digits alone.
fn is_number_after_blanks(text: &[char]) -> bool
    ensures { result ≡ is_spaced_number text.now }
{
    let digits = trimmed_front(text);
    digits.len() < text.len() && !digits.is_empty() && Class::Digit.has_all(digits)
}
