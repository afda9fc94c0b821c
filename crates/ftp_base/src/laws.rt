//! Laws that hold for all values, each the contract of a function that does nothing else.
//!
//! What a derived `==` or `cmp` returns stands in no contract that a caller could cite. Here it does: `==` is sameness,
//! statuses are ordered by their codes, and types of data by their variants. A change of a type that breaks its law
//! fails the check. That orders are total and agree with `==`, and that equal values hash alike, are laws of the
//! standard library's traits, which each `impl` proves.

ghost use Rattle.std.specs.Prelude.{◌≡◌, ◌↔◌, ◌<◌, ℕ, List, [], ◌∷◌, ◌++◌, IsTrue, Ok, Some, bytes_eq, if◌then◌else◌};
ghost use Rattle.std.specs.List.{All};
ghost use Rattle.std.specs.Str.{IsUtf8};
ghost use Rattle.std.specs.Ordering.{nat_cmp};
ghost use Rattle.std.specs.Cmp.Lexicographic.{slice_cmp};
ghost use Rattle.ftp_base.specs.Ascii.{crlf};
ghost use Rattle.ftp_base.specs.Features.{Feature, map_of, value_at};
ghost use Rattle.ftp_base.specs.FileType.{format_rank, type_rank};
ghost use Rattle.ftp_base.specs.Latin1.{latin1_bytes, latin1_text};
ghost use Rattle.ftp_base.specs.Status.{code_of};

use crate::command::scan::Span;
use crate::command::{Command, ProtectionLevel};
use crate::encoding::{EncodeError, Latin1Encoding, Utf8Encoding};
use crate::status::Status;
use crate::types::{
    ActivePeerCheck, BodyError, Bytes, ConnectionError, Features, FileType, FormatControl, Mode,
    ReplyTooLarge, Text,
};
use std::cmp::Ordering;

/// Wire bytes are their own wire bytes, so a text that is encoded twice is as if encoded once.
pub fn crlf_is_idempotent()
    ensures { (bytes : List ℕ) → crlf (crlf bytes) ≡ crlf bytes }
{}

/// Of several features of one name the last counts.
pub fn last_feature_counts()
    ensures { (features : List Feature) (feature : Feature) (name : List ℕ) →
        value_at (map_of (features ++ feature ∷ [])) name
        ≡ (if bytes_eq name feature.0 then Some feature.1 else value_at (map_of features) name) }
{}

/// Under ISO 8859-1 bytes that are read as text are sent as the same bytes.
pub fn latin1_bytes_come_back()
    ensures { (bytes : List ℕ) → All (λ byte. byte < 256) bytes →
        latin1_bytes (latin1_text bytes) ≡ Ok bytes }
{}

/// Under ISO 8859-1 a text that is sent as bytes is what they are read as.
pub fn latin1_text_comes_back()
    ensures { (text bytes : List ℕ) → IsUtf8 text → latin1_bytes text ≡ Ok bytes →
        latin1_text bytes ≡ text }
{}

/// Statuses are ordered by their codes.
pub fn order_of_statuses(one: &Status, other: &Status) -> Ordering
    ensures { result ≡ nat_cmp (code_of one.now) (code_of other.now) }
{
    one.cmp(other)
}

/// Formats are ordered as `Default`, `NonPrint`, `Telnet`, `Asa`.
pub fn order_of_formats(one: &FormatControl, other: &FormatControl) -> Ordering
    ensures { result ≡ nat_cmp (format_rank one.now) (format_rank other.now) }
{
    one.cmp(other)
}

/// Types are ordered by their variants, and then by the format or the bits.
pub fn order_of_types(one: &FileType, other: &FileType) -> Ordering
    ensures { result ≡ slice_cmp nat_cmp (type_rank one.now) (type_rank other.now) }
{
    one.cmp(other)
}

/// Equal statuses are the same.
pub fn equal_statuses(one: &Status, other: &Status) -> bool
    ensures { IsTrue result ↔ (one.now ≡ other.now) }
{
    one == other
}

/// Equal formats are the same.
pub fn equal_formats(one: &FormatControl, other: &FormatControl) -> bool
    ensures { IsTrue result ↔ (one.now ≡ other.now) }
{
    one == other
}

/// Equal types are the same.
pub fn equal_types(one: &FileType, other: &FileType) -> bool
    ensures { IsTrue result ↔ (one.now ≡ other.now) }
{
    one == other
}

/// Equal modes are the same.
pub fn equal_modes(one: &Mode, other: &Mode) -> bool
    ensures { IsTrue result ↔ (one.now ≡ other.now) }
{
    one == other
}

/// Equal checks are the same.
pub fn equal_checks(one: &ActivePeerCheck, other: &ActivePeerCheck) -> bool
    ensures { IsTrue result ↔ (one.now ≡ other.now) }
{
    one == other
}

/// Equal levels of protection are the same.
pub fn equal_levels(one: &ProtectionLevel, other: &ProtectionLevel) -> bool
    ensures { IsTrue result ↔ (one.now ≡ other.now) }
{
    one == other
}

/// Equal commands are the same.
pub fn equal_commands(one: &Command, other: &Command) -> bool
    ensures { IsTrue result ↔ (one.now ≡ other.now) }
{
    one == other
}

/// Equal encodings are the same.
pub fn equal_encodings(one: &Utf8Encoding, other: &Utf8Encoding) -> bool
    ensures { IsTrue result ↔ (one.now ≡ other.now) }
{
    one == other
}

/// Equal encodings of ISO 8859-1 are the same.
pub fn equal_latin1_encodings(one: &Latin1Encoding, other: &Latin1Encoding) -> bool
    ensures { IsTrue result ↔ (one.now ≡ other.now) }
{
    one == other
}

/// Equal lists of bytes are the same.
pub fn equal_bytes(one: &Bytes, other: &Bytes) -> bool
    ensures { IsTrue result ↔ (one.now ≡ other.now) }
{
    one == other
}

/// Equal texts are the same.
pub fn equal_texts(one: &Text, other: &Text) -> bool
    ensures { IsTrue result ↔ (one.now ≡ other.now) }
{
    one == other
}

/// Equal errors of a connection are the same.
pub fn equal_connection_errors(one: &ConnectionError, other: &ConnectionError) -> bool
    ensures { IsTrue result ↔ (one.now ≡ other.now) }
{
    one == other
}

/// Equal errors of an encoding are the same.
pub fn equal_encode_errors(one: &EncodeError, other: &EncodeError) -> bool
    ensures { IsTrue result ↔ (one.now ≡ other.now) }
{
    one == other
}

/// Equal errors of a body are the same.
pub fn equal_body_errors(one: &BodyError, other: &BodyError) -> bool
    ensures { IsTrue result ↔ (one.now ≡ other.now) }
{
    one == other
}

/// Equal errors of an overlong reply are the same.
pub fn equal_overlong_replies(one: &ReplyTooLarge, other: &ReplyTooLarge) -> bool
    ensures { IsTrue result ↔ (one.now ≡ other.now) }
{
    one == other
}

/// Equal spans are the same.
pub fn equal_spans(one: &Span, other: &Span) -> bool
    ensures { IsTrue result ↔ (one.now ≡ other.now) }
{
    one == other
}

/// Equal features are the same names with the same values.
pub fn equal_features(one: &Features, other: &Features) -> bool
    ensures { IsTrue result ↔ (one.now ≡ other.now) }
{
    one == other
}
