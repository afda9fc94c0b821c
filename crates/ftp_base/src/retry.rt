//! Reads and writes that a signal may interrupt.
//!
//! A call of the system that is interrupted has done nothing, and is made again. Whoever interrupts without end must
//! not hold a client up for ever, so after [`RETRIES`] tries in a row the interruption is returned.

ghost use Rattle.std.specs.Prelude.{◌≡◌, ◌≢◌, ◌+◌, ◌<◌, ◌≤◌, ◌++◌, length, take, drop, vec_len, Err, OnOk, OnErr, IfOk, IfErr, IfSome};
ghost use Rattle.std.specs.Io.{ReadsAtMost, StartsWith, WritesAtMost, appended_bytes};
ghost use Rattle.std.specs.Io.KnownBytes.{Appends, Consumes, IsAtEnd, Keeps, ReadConsumes, WriteAppends};
ghost use Rattle.ftp_base.specs.Ascii.{AppendsFront, IsCopyFault};

use crate::types::{ConnectionError, FtpError, FtpResult};
use std::io;
use std::io::{ErrorKind, Read, Write};

/// How often an interrupted read or write is tried again before its error is returned.
pub const RETRIES: usize = 64;

/// The most bytes that a read to the end may hold.
pub const GREATEST_HELD: usize = (1 << 63) - 1;

/// The bytes that a read to the end has room for at least, but for the last before [`GREATEST_HELD`].
const ROOM: usize = 65_536;

/// Reads once. An interrupted read is tried again, at most 64 times.
///
/// # Errors
/// The reader's error.
pub fn read_retrying<R: Read>(reader: &mut R, buffer: &mut [u8]) -> io::Result<usize>
    ensures bound { ReadsAtMost result buffer.new }
    ensures bytes { ReadConsumes
        (R.remaining reader.old) (R.remaining reader.new) result buffer.new }
{
    for _ in 0..RETRIES {
        match reader.read(buffer) {
            Err(error) if error.kind() == ErrorKind::Interrupted => {}
            other => return other,
        }
    }
    reader.read(buffer)
}

/// Writes once. An interrupted write is tried again, at most 64 times.
///
/// # Errors
/// The writer's error.
pub fn write_retrying<W: Write>(writer: &mut W, bytes: &[u8]) -> io::Result<usize>
    ensures bound { WritesAtMost result bytes.now }
    ensures bytes { WriteAppends (W.contents writer.old) (W.contents writer.new) result bytes.now }
{
    for _ in 0..RETRIES {
        match writer.write(bytes) {
            Err(error) if error.kind() == ErrorKind::Interrupted => {}
            other => return other,
        }
    }
    writer.write(bytes)
}

/// Writes all bytes. A write that accepts none is an error.
///
/// # Errors
/// The writer's error, or `WriteZero`; a front of the bytes was written.
pub fn write_all_retrying<W: Write>(writer: &mut W, bytes: &[u8]) -> io::Result<()>
    ensures ok { OnOk result (Appends (W.contents writer.old) (W.contents writer.new) bytes.now) }
    ensures err { OnErr result
        (AppendsFront (W.contents writer.old) (W.contents writer.new) bytes.now) }
{
    let mut rest = bytes;
    while !rest.is_empty() {
        let written = write_retrying(writer, rest)?;
        if written == 0 {
            return Err(ErrorKind::WriteZero.into());
        }
        rest = &rest[written..];
    }
    Ok(())
}

/// Appends all that a reader gives, up to its end. An interrupted read is tried again, at most 64 times. Each read has
/// room for at least 64 KiB, or for what is left up to [`GREATEST_HELD`]. The time is linear in the bytes.
///
/// # Errors
/// `Io` of the kind that the reader returns; `SourceTooLarge` where more than [`GREATEST_HELD`] bytes would be held;
/// `OutOfMemory`. What was read before the error stays appended.
pub fn read_to_end_retrying<R: Read>(reader: &mut R, bytes: &mut Vec<u8>) -> FtpResult<()>
    ensures all { OnOk result (IfSome (R.remaining reader.old)
        (λ source. bytes.new.items ≡ bytes.old.items ++ source)) }
    ensures end { OnOk result (IsAtEnd (R.remaining reader.new)) }
    ensures kept { StartsWith bytes.new.items bytes.old.items }
    ensures none_lost { result ≢ Err (FtpError.ConnectionError ConnectionError.SourceTooLarge) →
        Consumes (R.remaining reader.old) (R.remaining reader.new)
        (appended_bytes bytes.old.items bytes.new.items) }
    ensures too_large { result ≡ Err (FtpError.ConnectionError ConnectionError.SourceTooLarge) →
        IfSome (R.remaining reader.old)
        (λ source. GREATEST_HELD < length (bytes.old.items ++ source)) }
    ensures faults { IfErr result IsCopyFault }
{
    let (filled, result) = fill_to_end(reader, bytes);
    bytes.truncate(filled);
    result
}

/// Fills a buffer after its bytes, up to the reader's end. Returns how many of its bytes are filled.
fn fill_to_end<R: Read>(reader: &mut R, buffer: &mut Vec<u8>) -> (usize, FtpResult<()>)
    ensures within { result.0 ≤ vec_len buffer.new }
    ensures end { OnOk result.1 (IsAtEnd (R.remaining reader.new)) }
    ensures kept { StartsWith (take result.0 buffer.new.items) buffer.old.items }
    ensures none_lost { result.1 ≢ Err (FtpError.ConnectionError ConnectionError.SourceTooLarge) →
        Consumes (R.remaining reader.old) (R.remaining reader.new)
        (appended_bytes buffer.old.items (take result.0 buffer.new.items)) }
    ensures too_large { result.1 ≡ Err (FtpError.ConnectionError ConnectionError.SourceTooLarge) →
        IfSome (R.remaining reader.old)
        (λ source. GREATEST_HELD < length (buffer.old.items ++ source)) }
    ensures faults { IfErr result.1 IsCopyFault }
{
    let mut filled = buffer.len();
    for _ in 0..u64::MAX {
        match read_more(reader, buffer, filled) {
            Ok(0) => return (filled, Ok(())),
            Ok(taken) => filled += taken,
            Err(fault) => return (filled, Err(fault)),
        }
    }
    unreachable!()
}

/// Reads once into a buffer, after its filled bytes, and makes room before. Returns how many bytes were read, and 0 at
/// the reader's end.
fn read_more<R: Read>(reader: &mut R, buffer: &mut Vec<u8>, filled: usize) -> FtpResult<usize>
    requires { filled ≤ vec_len buffer.old }
    ensures within { filled ≤ vec_len buffer.new }
    ensures front { take filled buffer.new.items ≡ take filled buffer.old.items }
    ensures fits { IfOk result (λ n. filled + n ≤ vec_len buffer.new) }
    ensures ok { IfOk result (λ n. Consumes (R.remaining reader.old) (R.remaining reader.new)
        (take n (drop filled buffer.new.items))) }
    ensures end { IfOk result (λ n. n ≡ 0 → IsAtEnd (R.remaining reader.new)) }
    ensures none_lost { IfErr result (λ fault.
        fault ≢ FtpError.ConnectionError ConnectionError.SourceTooLarge →
        Keeps (R.remaining reader.old) (R.remaining reader.new)) }
    ensures too_large { result ≡ Err (FtpError.ConnectionError ConnectionError.SourceTooLarge) →
        (GREATEST_HELD ≤ filled) × IfSome (R.remaining reader.old) (λ source. 0 < length source) }
    ensures faults { IfErr result IsCopyFault }
{
    if filled >= GREATEST_HELD {
        return expect_end(reader);
    }
    let end = (filled + ROOM).min(GREATEST_HELD);
    if buffer.len() < end {
        buffer.resize(end, 0)?;
    }
    Ok(read_retrying(reader, &mut buffer[filled..])?)
}

/// Returns 0 at the reader's end.
///
/// # Errors
/// `SourceTooLarge` where the reader gives a byte, which is lost; `Io` of the kind that the reader returns.
fn expect_end<R: Read>(reader: &mut R) -> FtpResult<usize>
    ensures zero { IfOk result (λ n. n ≡ 0) }
    ensures end { OnOk result (IsAtEnd (R.remaining reader.new)) }
    ensures ok { OnOk result (Keeps (R.remaining reader.old) (R.remaining reader.new)) }
    ensures none_lost { IfErr result (λ fault.
        fault ≢ FtpError.ConnectionError ConnectionError.SourceTooLarge →
        Keeps (R.remaining reader.old) (R.remaining reader.new)) }
    ensures too_large { result ≡ Err (FtpError.ConnectionError ConnectionError.SourceTooLarge) →
        IfSome (R.remaining reader.old) (λ source. 0 < length source) }
    ensures faults { IfErr result IsCopyFault }
{
    let mut byte = [0u8; 1];
    let taken = read_retrying(reader, &mut byte)?;
    if taken > 0 {
        return Err(ConnectionError::SourceTooLarge.into());
    }
    Ok(taken)
}
