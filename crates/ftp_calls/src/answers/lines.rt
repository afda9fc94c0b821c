//! The lines of bytes, each with its LF.

ghost use Rattle.std.specs.Prelude.{◌≡◌, ◌<◌, ◌∷◌, length, map, string_bytes, IfOk};
ghost use Rattle.std.specs.Str.Lossy.{utf8_lossy};
ghost use Rattle.ftp_calls.specs.Answers.{lines_in};

use ftp_base::encoding::{Encoding, Utf8Encoding};
use memchr::memchr;
use std::alloc::{AllocError, Global};

/// The lines of a body, each read lossily as UTF-8 by itself.
///
/// # Errors
/// `AllocError`.
pub fn lines_of(alloc: Global, body: &[u8]) -> Result<Vec<String>, AllocError>
    ensures { IfOk result (λ lines.
        map string_bytes lines.items ≡ map utf8_lossy (lines_in body.now)) }
{
    let mut lines = Vec::new(alloc);
    let mut rest = body;
    while !rest.is_empty() {
        let (line, more) = first_line(rest);
        lines.push(Utf8Encoding.decode(alloc, line)?)?;
        rest = more;
    }
    Ok(lines)
}

/// The first line, and what follows it.
fn first_line(bytes: &[u8]) -> (&[u8], &[u8])
    requires { 0 < length bytes.now }
    ensures lines { lines_in bytes.now ≡ result.0.now ∷ lines_in result.1.now }
    ensures shorter { length result.1.now < length bytes.now }
{
    match memchr(b'\n', bytes) {
        Some(place) => bytes.split_at(place + 1),
        None => bytes.split_at(bytes.len()),
    }
}
