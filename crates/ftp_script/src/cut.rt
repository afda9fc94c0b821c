//! Bytes, cut at a separator.

ghost use Rattle.std.specs.Prelude.{◌≡◌, ◌==◌, ◌<◌, ◌∷◌, [], length, MatchOption};
ghost use Rattle.std.specs.List.{slice_split};

use memchr::memchr;

/// What comes before the first separator and what comes after it, where there is one.
pub(crate) fn cut(separator: u8, bytes: &[u8]) -> Option<(&[u8], &[u8])>
    ensures parts { MatchOption result (slice_split (λ b. b == separator) bytes.now ≡ bytes.now ∷
        [])
        (λ parts. slice_split (λ b. b == separator) bytes.now ≡
        parts.0.now ∷ slice_split (λ b. b == separator) parts.1.now) }
    ensures less { MatchOption result (Unit {0}) (λ parts. length parts.1.now < length bytes.now) }
{
    match memchr(separator, bytes) {
        Some(end) => Some((&bytes[..end], &bytes[end + 1..])),
        None => None,
    }
}
