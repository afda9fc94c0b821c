//! The size in the reply to SIZE (RFC 3659, section 4).

ghost use Rattle.std.specs.Prelude.{◌≡◌};
ghost use Rattle.std.specs.Str.{chars, trim_end};
ghost use Rattle.ftp_calls.specs.Answers.{last_number, size_of};

use ftp_base::command::{number, scan};

/// The number after the last white space of a reply that is UTF-8, white space cut at its end: digits alone, and a
/// number below 2^64. Else `None`.
pub fn read_size(body: &[u8]) -> Option<usize>
    ensures { result ≡ size_of body.now }
{
    match str::from_utf8(body) {
        Ok(text) => last_size(text),
        Err(_) => None,
    }
}

/// The number after the last white space of a text, white space cut at its end.
fn last_size(text: &str) -> Option<usize>
    ensures { result ≡ last_number (chars (trim_end text.now)) }
{
    let trimmed = text.trim_end();
    let span = scan::size(text)?;
    let size = number(trimmed, span, u64::MAX)?;
    Some(size as usize)
}
