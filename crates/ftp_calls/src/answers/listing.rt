//! The lines of a listing that came over a data connection (RFC 959, sections 3.1.1.5.2 and 4.1.3; RFC 3659, section 7).
//!
//! A line ends in LF, with CR before it or without: RFC 959 wants CR LF, and there are servers that send LF alone. What
//! a line says is not read here.

ghost use Rattle.std.specs.Prelude.{◌≡◌, ◌≤◌, ◌⊎◌, ◌++◌, ◌∷◌, [], false, length, map, string_bytes, IfOk, IfErr, IfSome, OnOk};
ghost use Rattle.std.specs.Io.KnownBytes.{IsAtEnd};
ghost use Rattle.std.specs.List.{All};
ghost use Rattle.std.specs.Str.Lossy.{utf8_lossy};
ghost use Rattle.ftp_calls.specs.Answers.{is_line_feed, without_return};
ghost use Rattle.ftp_calls.specs.Listing.{listing, stream_fault};

use ftp_base::encoding::{Encoding, Utf8Encoding};
use ftp_base::retry::{GREATEST_HELD, read_to_end_retrying};
use ftp_base::types::{ConnectionError, FtpError, FtpResult};
use memchr::memchr;
use std::alloc::{AllocError, Global};
use std::io::{ErrorKind, Read};

/// The lines of a listing, read in an encoding: what stands between LFs, without one CR at its end, and what follows the
/// last LF likewise. Empty lines are left out. Each line is decoded by itself, and the time is linear in the bytes.
///
/// # Errors
/// `AllocError`.
pub fn read_listing<E: Encoding>(
    alloc: Global,
    bytes: &[u8],
    encoding: &E,
) -> Result<Vec<String>, AllocError>
    ensures { IfOk result (λ lines.
        map string_bytes lines.items ≡ listing (E.decoded encoding.now) bytes.now) }
{
    let mut lines = Vec::new(alloc);
    let mut rest = bytes;
    while let Some(end) = memchr(b'\n', rest) {
        let (piece, after) = rest.split_at(end);
        push_line(alloc, piece, encoding, &mut lines)?;
        rest = &after[1..];
    }
    push_line(alloc, rest, encoding, &mut lines)?;
    Ok(lines)
}

/// Adds the line of a piece without LF, unless it is empty.
fn push_line<E: Encoding>(
    alloc: Global,
    piece: &[u8],
    encoding: &E,
    lines: &mut Vec<String>,
) -> Result<(), AllocError>
    requires { All (λ byte. is_line_feed byte ≡ false) piece.now }
    ensures { OnOk result (map string_bytes lines.new.items ≡
        map string_bytes lines.old.items ++ listing (E.decoded encoding.now) piece.now) }
{
    let line = before_return(piece);
    if !line.is_empty() {
        lines.push(encoding.decode(alloc, line)?)?;
    }
    Ok(())
}

/// A piece without one CR at its end.
fn before_return(piece: &[u8]) -> &[u8]
    ensures { result.now ≡ without_return piece.now }
{
    match piece.split_last() {
        Some((b'\r', line)) => line,
        _ => piece,
    }
}

/// The lines of a listing, read to the end of its stream and lossily as UTF-8: what [`read_listing`] returns for all its
/// bytes. An interrupted read is tried again, at most 64 times.
///
/// # Errors
/// `BadResponse` where the stream returns an error, or gives more than 2^63 - 1 bytes; `OutOfMemory` where an allocation
/// fails, or the stream returns an error of that kind.
pub fn get_lines_from_stream<R: Read>(alloc: Global, reader: &mut R) -> FtpResult<Vec<String>>
    ensures lines { IfOk result (λ lines. IfSome (R.remaining reader.old)
        (λ source. map string_bytes lines.items ≡ listing utf8_lossy source)) }
    ensures end { OnOk result (IsAtEnd (R.remaining reader.new)) }
    ensures limit { OnOk result (IfSome (R.remaining reader.old)
        (λ source. length source ≤ GREATEST_HELD)) }
    ensures faults { IfErr result
        (λ fault. (fault ≡ FtpError.BadResponse) ⊎ (fault ≡ FtpError.OutOfMemory)) }
{
    let mut bytes = Vec::new(alloc);
    match read_to_end_retrying(reader, &mut bytes) {
        Ok(()) => Ok(read_listing(alloc, &bytes, &Utf8Encoding)?),
        Err(fault) => Err(unread(fault)),
    }
}

/// The error of a listing that can't be read to its end.
fn unread(fault: FtpError) -> FtpError
    ensures { result ≡ stream_fault fault }
{
    match fault {
        FtpError::OutOfMemory => FtpError::OutOfMemory,
        FtpError::ConnectionError(ConnectionError::Io(ErrorKind::OutOfMemory)) => {
            FtpError::OutOfMemory
        }
        _ => FtpError::BadResponse,
    }
}
