//! A source is copied to a transfer: a text's lines end in CR LF on the wire (RFC 959, section 3.1.1.1).
//!
//! The source is read by at most 8,192 bytes at once, until a buffer is full or the source ends, and what stands on the
//! wire for them is written then: 64 KiB at most. Of a text that takes one buffer more; other bytes are written from
//! where they were read to.

ghost use Rattle.std.specs.Prelude.{◌≡◌, ◌+◌, ◌<◌, ◌≤◌, IfOk, List, ℕ, Ok, OnErr, drop, false, length, take, true};
ghost use Rattle.std.specs.Io.KnownBytes.{Consumes, IsAtEnd, Keeps};
ghost use Rattle.ftp_base.specs.Ascii.{ends_in_return};
ghost use Rattle.ftp_transfer.specs.Copying.{Copies, SendsAll, SendsPiece, WritesAll};

use crate::progress::{Progress, Watch};
use crate::transfer::Transfer;
use ftp_base::ascii::{CrlfEncoder, upload_size};
use ftp_base::retry::read_retrying;
use ftp_base::types::{ConnectionError, FtpError, FtpResult};
use ftp_transport::Conn;
use std::alloc::Global;
use std::io;
use std::io::{ErrorKind, Read};

/// How many bytes of a source are read at once.
const PIECE: usize = 8_192;

/// How many bytes are written at once.
const BLOCK: usize = 65_536;

/// Copies all of a source to a transfer, and returns how many bytes were written.
///
/// # Errors
/// `Io` of the kind of the source's error, an interruption only after 64 tries in a row were interrupted again, or of
/// the data connection's; `SourceTooLarge` where more than 2^63 - 1 bytes would be written; `OutOfMemory`. What was
/// read before an error of the source has been written.
pub fn copy<C: Conn + Drop, S: Read, P: Progress>(
    alloc: Global,
    text: bool,
    source: &mut S,
    transfer: &mut Transfer<C>,
    watch: &mut Watch<'_, P>,
) -> FtpResult<u64>
    ensures copies { Copies C.tells text (S.remaining source.old) (S.remaining source.new)
        transfer.old
        transfer.new result }
{
    // A text may be twice as long on the wire.
    let most = if text { BLOCK / 2 } else { BLOCK };
    let mut input = vec![in alloc; 0u8; most]?;
    copy_through(alloc, text, source, &mut input, transfer, watch)
}

/// The same through this buffer.
fn copy_through<C: Conn + Drop, S: Read, P: Progress>(
    alloc: Global,
    text: bool,
    source: &mut S,
    input: &mut [u8],
    transfer: &mut Transfer<C>,
    watch: &mut Watch<'_, P>,
) -> FtpResult<u64>
    requires { 0 < length input.old }
    ensures copies { Copies C.tells text (S.remaining source.old) (S.remaining source.new)
        transfer.old
        transfer.new result }
{
    let mut output = Vec::new(alloc);
    let mut encoder = CrlfEncoder::new();
    let mut count = 0u64;
    for _ in 0..u64::MAX {
        let (taken, more) = read_block(source, input);
        let block = &input[..taken];
        count = send_piece(
            text,
            &mut encoder,
            block,
            &mut output,
            transfer,
            count,
            watch,
        )?;
        match more {
            Ok(true) => {}
            Ok(false) => return Ok(count),
            Err(kind) => return Err(source_fault(kind)),
        }
    }
    unreachable!()
}

/// The source failed.
fn source_fault(kind: ErrorKind) -> FtpError
    ensures { result ≡ FtpError.ConnectionError (ConnectionError.Io kind) }
{
    FtpError::ConnectionError(ConnectionError::Io(kind))
}

/// Fills a buffer from a source, until it is full or the source ends. Returns how many bytes were read, and whether
/// more may come.
///
/// # Errors
/// Where the second part is one, the source's, after those bytes.
fn read_block<S: Read>(source: &mut S, input: &mut [u8]) -> (usize, Result<bool, ErrorKind>)
    requires { 0 < length input.old }
    ensures within { result.0 ≤ length input.new }
    ensures size { length input.new ≡ length input.old }
    ensures bytes { Consumes (S.remaining source.old) (S.remaining source.new) (take result.0
        input.new) }
    ensures some { result.1 ≡ Ok true → 0 < result.0 }
    ensures end { result.1 ≡ Ok false → IsAtEnd (S.remaining source.new) }
{
    let mut filled = 0;
    while filled < input.len() {
        match read_piece(source, input, filled) {
            Ok(0) => return (filled, Ok(false)),
            Ok(taken) => filled += taken,
            Err(error) => return (filled, Err(error.kind())),
        }
    }
    (filled, Ok(true))
}

/// Reads once into a buffer, after its filled bytes, and at most 8,192. Returns how many bytes were read, and 0 at the
/// source's end.
fn read_piece<S: Read>(source: &mut S, input: &mut [u8], filled: usize) -> io::Result<usize>
    requires { filled < length input.old }
    ensures size { length input.new ≡ length input.old }
    ensures front { take filled input.new ≡ take filled input.old }
    ensures fits { IfOk result (λ n. filled + n ≤ length input.new) }
    ensures ok { IfOk result (λ n. Consumes (S.remaining source.old) (S.remaining source.new)
        (take n (drop filled input.new))) }
    ensures end { IfOk result (λ n. n ≡ 0 → IsAtEnd (S.remaining source.new)) }
    ensures none_lost { OnErr result (Keeps (S.remaining source.old) (S.remaining source.new)) }
{
    let room = (input.len() - filled).min(PIECE);
    read_retrying(source, &mut input[filled..filled + room])
}

/// Writes what stands on the wire for the next piece, after so many bytes, and returns how many they are then.
fn send_piece<C: Conn + Drop, P: Progress>(
    text: bool,
    encoder: &mut CrlfEncoder,
    piece: &[u8],
    output: &mut Vec<u8>,
    transfer: &mut Transfer<C>,
    count: u64,
    watch: &mut Watch<'_, P>,
) -> FtpResult<u64>
    ensures sends { (before : List ℕ) → (text ≡ true → encoder.old ≡ ends_in_return before) →
        SendsPiece C.tells text before piece.now encoder.new transfer.old transfer.new count result }
{
    if !text {
        return send(transfer, piece, count, watch);
    }
    output.clear();
    encoder.encode(piece, output)?;
    send(transfer, output.as_slice(), count, watch)
}

/// Writes these bytes after so many, and returns how many they are then.
fn send<C: Conn + Drop, P: Progress>(
    transfer: &mut Transfer<C>,
    bytes: &[u8],
    count: u64,
    watch: &mut Watch<'_, P>,
) -> FtpResult<u64>
    ensures sends { SendsAll C.tells bytes.now transfer.old transfer.new count result }
{
    let size = upload_size(count, bytes.len())?;
    match write_all(transfer, bytes) {
        Ok(()) => {
            watch.went(bytes.len(), size);
            Ok(size)
        }
        Err(kind) => Err(watch.fault(kind)),
    }
}

/// Writes all bytes.
fn write_all<C: Conn + Drop>(transfer: &mut Transfer<C>, bytes: &[u8]) -> Result<(), ErrorKind>
    ensures writes { WritesAll C.tells bytes.now transfer.old transfer.new result }
{
    let mut rest = bytes;
    while !rest.is_empty() {
        let count = transfer.write(rest)?;
        rest = &rest[count..];
    }
    Ok(())
}
