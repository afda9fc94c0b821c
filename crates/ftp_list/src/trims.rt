//! Blanks at the ends of a text, words, and the characters of a text.
//!
//! A line that is ASCII, as most are, is its own list of characters: it is copied without being
//! decoded, to room on the stack where it fits there. A word is compared in any ASCII case.
ghost use Rattle.std.specs.Prelude.{◌≡◌, ◌≤◌, IfOk, IfSome, length, take, encode_utf8_all};
ghost use Rattle.std.specs.Str.{chars};
ghost use Rattle.ftp_list.specs.Texts.{trim_front, trim_back, trim, is_word};

use crate::class::Class;
use crate::places::{front, rest};
use ftp_base::types::Text;
use std::alloc::{AllocError, Global};

/// The characters of a text.
pub fn chars_of(alloc: Global, line: &str) -> Result<Vec<char>, AllocError>
    ensures { IfOk result (λ v. v.items ≡ chars line.now) }
{
    if !line.is_ascii() {
        return wide_chars_of(alloc, line);
    }
    let mut text = Vec::with_capacity(alloc, line.len())?;
    for byte in line.as_bytes() {
        text.push(char::from(*byte))?;
    }
    Ok(text)
}

fn wide_chars_of(alloc: Global, line: &str) -> Result<Vec<char>, AllocError>
    ensures { IfOk result (λ v. v.items ≡ chars line.now) }
{
    line.chars().collect(alloc)
}

/// Copies the characters of a line that is ASCII to the room, if it holds them, and returns how
/// many there are.
pub fn copied_line(room: &mut [char], line: &str) -> Option<usize>
    ensures within { IfSome result (λ count. count ≤ length room.new) }
    ensures copied { IfSome result (λ count. take count room.new ≡ chars line.now) }
{
    let bytes = line.as_bytes();
    if bytes.len() > room.len() || !line.is_ascii() {
        return None;
    }
    for (i, byte) in bytes.iter().enumerate() {
        room[i] = char::from(*byte);
    }
    Some(bytes.len())
}

/// The text of characters.
#[tactic(auto, using(crate::proofs::TextFacts::encoded_more))]
pub fn text_of(alloc: Global, characters: &[char]) -> Result<Text, AllocError>
    ensures { IfOk result (λ text. text ≡ encode_utf8_all characters.now) }
{
    let mut text = String::with_capacity(alloc, characters.len())?;
    for c in characters {
        text.push(*c)?;
    }
    Ok(Text::from_string(text))
}

/// The text without the blanks at its front.
pub fn trimmed_front(text: &[char]) -> &[char]
    ensures { result.now ≡ trim_front text.now }
{
    rest(text, Class::Blank.run(text))
}

/// The text without the blanks at its end.
pub fn trimmed_back(text: &[char]) -> &[char]
    ensures { result.now ≡ trim_back text.now }
{
    let mut count = text.len();
    while count > 0 && Class::Blank.contains(text[count - 1]) {
        count -= 1;
    }
    front(text, count)
}

/// The text without the blanks at both ends.
pub fn trimmed(text: &[char]) -> &[char]
    ensures { result.now ≡ trim text.now }
{
    trimmed_back(trimmed_front(text))
}

/// Whether the text is that word of small letters, whatever the case of its own ASCII letters.
pub fn is_that_word(text: &[char], word: &[char]) -> bool
    ensures { result ≡ is_word word.now text.now }
{
    if text.len() != word.len() {
        return false;
    }
    for (i, c) in text.iter().enumerate() {
        if c.to_ascii_lowercase() != word[i] {
            return false;
        }
    }
    true
}
