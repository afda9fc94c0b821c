//! The reply to FEAT (RFC 2389, section 3.2).
//!
//! `211-` opens a list, each line of which begins with a space, and `211 ` ends it; a server without features sends one
//! line that begins with `211 `. The lines are handed in: to read them is the session's task. A line that breaks the
//! form makes the whole reply bad, since nobody can tell what else in it is wrong.

ghost use Rattle.std.specs.Prelude.{◌≡◌, ◌⊎◌, Some, None, Err, map, nat_eq, IfOk, IfErr, string_bytes};
ghost use Rattle.std.specs.Option.{option_map};
ghost use Rattle.std.specs.List.{starts_with};
ghost use Rattle.ftp_base.specs.Features.{feature_of, features_of, is_last, listed_features};
ghost use Rattle.ftp_base.specs.declared.types.fault.FtpError.TheVariants as fault;

use crate::types::{Features, FtpError, FtpResult};
use std::alloc::{AllocError, Global};

/// Whether a line of the reply ends the list: it begins with `211 `. Allocates nothing.
pub fn is_last_line(line: &str) -> bool
    ensures { result ≡ is_last line.now }
{
    begins_with(line, "211 ")
}

/// The features that the lines of a reply list, its first line first. A later line takes the place of an earlier one of
/// its name.
///
/// # Errors
/// `BadResponse` where there is no line, the first begins neither with `211 ` nor with `211-`, or
/// a line of the list doesn't begin with a space; `OutOfMemory`.
pub fn parse_features(alloc: Global, lines: &[String]) -> FtpResult<Features>
    ensures ok { IfOk result
        (λ features. features_of (map string_bytes lines.now) ≡ Some features) }
    ensures bad { result ≡ Err fault.BadResponse → features_of (map string_bytes lines.now) ≡ None }
    ensures errors { IfErr result
        (λ error. (error ≡ fault.BadResponse) ⊎ (error ≡ fault.OutOfMemory)) }
{
    match lines.split_first() {
        Some((first, _)) if is_last_line(first) => Ok(Features::new(alloc)),
        Some((first, list)) if begins_with(first, "211-") => list_features(alloc, list),
        _ => Err(FtpError::BadResponse),
    }
}

/// The features of the lines of a list, up to one that ends it.
fn list_features(alloc: Global, lines: &[String]) -> FtpResult<Features>
    ensures ok { IfOk result
        (λ features. listed_features (map string_bytes lines.now) ≡ Some features) }
    ensures bad { result ≡ Err fault.BadResponse →
        listed_features (map string_bytes lines.now) ≡ None }
    ensures errors { IfErr result
        (λ error. (error ≡ fault.BadResponse) ⊎ (error ≡ fault.OutOfMemory)) }
{
    let mut features = Features::new(alloc);
    for line in lines {
        if is_last_line(line) {
            break;
        }
        if !begins_with(line, " ") {
            return Err(FtpError::BadResponse);
        }
        let (name, value) = read_feature(alloc, line)?;
        features.insert(name, value)?;
    }
    Ok(features)
}

/// The name on a line, and the value after its first space.
fn read_feature(alloc: Global, line: &str) -> Result<(String, Option<String>), AllocError>
    ensures { IfOk result
        (λ found. (string_bytes found.0, option_map string_bytes found.1) ≡ feature_of line.now) }
{
    let words = line.trim();
    match words.split_once(' ') {
        Some((name, value)) => {
            let name = String::from_str(alloc, name)?;
            Ok((name, Some(String::from_str(alloc, value)?)))
        }
        None => Ok((String::from_str(alloc, words)?, None)),
    }
}

/// Whether a line begins with a text.
fn begins_with(line: &str, start: &str) -> bool
    ensures { result ≡ starts_with nat_eq line.now start.now }
{
    line.starts_with(start)
}
