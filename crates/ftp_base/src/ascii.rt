//! Text uploads: each line ends in CR LF on the wire (RFC 959, section 3.1.1.1).
//!
//! A text comes in pieces of any size, so an encoder remembers one thing between them: whether the last byte was CR.
//! A CR LF that the text already has stays as it is, and so a text that was encoded before is not changed again.
//!
//! A copy counts what it writes, and gives up before it would write more than an upload may.

ghost use Rattle.std.specs.Prelude.{◌≡◌, ◌+◌, ◌<◌, ◌≤◌, ℕ, Bool, List, [], ◌∷◌, ◌++◌, OnOk, OnErr, IfOk, IfErr, IfSome, length, take};
ghost use Rattle.std.specs.Io.KnownBytes.{Appends, IsAtEnd, ReadConsumes, WriteAppends};
ghost use Rattle.ftp_base.specs.Ascii.{crlf, ends_in_return, AddsPiece, AppendsFront, IsCopyFault, converted, last_return};

use crate::retry::{read_retrying, write_all_retrying};
use crate::types::{ConnectionError, FtpError, FtpResult};
use memchr::memchr;
use std::alloc::{AllocError, Global};
use std::io::{Read, Write};
use std::marker::Model;

/// How many bytes of input are read at once.
const BUFFER: usize = 8_192;

/// The most bytes that an upload may write.
pub const GREATEST_UPLOAD: u64 = (1 << 63) - 1;

/// Puts CR before each LF of a text that doesn't follow a CR already. The text may come in any
/// pieces: the encoder remembers whether the last byte that it was passed is CR.
#[derive(Drop)]
pub struct CrlfEncoder {
    after_return: bool,
}

impl Model for CrlfEncoder {
    ghost Value = { Bool };

    ghost view = { λ encoder. encoder.after_return };
}

impl CrlfEncoder {
    /// An encoder that was passed no byte yet.
    pub fn new() -> CrlfEncoder
        ensures { result ≡ ends_in_return [] }
    {
        CrlfEncoder {
            after_return: false,
        }
    }

    /// Adds the wire bytes of the next piece at the end of `out`.
    ///
    /// # Errors
    /// `AllocError`; then nothing has changed, neither `out` nor the encoder.
    pub fn encode(&mut self, input: &[u8], out: &mut Vec<u8>) -> Result<(), AllocError>
        // Whatever the pieces before were, the encoder goes on as if all had come as one.
        ensures written { OnOk result ((before : List ℕ) → self.old ≡ ends_in_return before →
            AddsPiece before input.now out.old.items out.new.items) }
        ensures last { OnOk result ((before : List ℕ) → self.old ≡ ends_in_return before →
            self.new ≡ ends_in_return (before ++ input.now)) }
        ensures err { OnErr result (self.new ≡ self.old) }
        ensures err_out { OnErr result (out.new.items ≡ out.old.items) }
    {
        let start = out.len();
        match push_converted(self.after_return, input, out) {
            Ok(after_return) => {
                self.after_return = after_return;
                Ok(())
            }
            Err(error) => {
                out.truncate(start);
                Err(error)
            }
        }
    }
}

/// Adds the wire bytes of a piece, and returns whether its last byte is CR, or the byte before where
/// it is empty. Where an allocation fails some may have been added.
fn push_converted(
    mut after_return: bool,
    input: &[u8],
    out: &mut Vec<u8>,
) -> Result<bool, AllocError>
    ensures written { OnOk result
        (out.new.items ≡ out.old.items ++ converted after_return input.now) }
    ensures last { IfOk result (λ last. last ≡ last_return after_return input.now) }
    ensures err { OnErr result (take (length out.old.items) out.new.items ≡ out.old.items) }
{
    let mut rest = input;
    while let Some(end) = memchr(b'\n', rest) {
        let (line, behind) = rest.split_at(end);
        push_line(after_return, line, out)?;
        after_return = false;
        rest = &behind[1..];
    }
    out.extend_from_slice(rest)?;
    Ok(is_return_last(after_return, rest))
}

/// Adds the wire bytes of a line and of its LF. A line without LF stands on the wire as it is.
fn push_line(after_return: bool, line: &[u8], out: &mut Vec<u8>) -> Result<(), AllocError>
    requires plain { converted after_return line.now ≡ line.now }
    ensures written { OnOk result (out.new.items ≡
        out.old.items ++ converted after_return (line.now ++ 10 ∷ [])) }
    ensures err { OnErr result (take (length out.old.items) out.new.items ≡ out.old.items) }
{
    out.extend_from_slice(line)?;
    if is_return_last(after_return, line) {
        out.push(b'\n')?;
    } else {
        out.extend_from_slice(b"\r\n")?;
    }
    Ok(())
}

/// Whether the last byte is CR, or the byte before where there is none.
fn is_return_last(after_return: bool, bytes: &[u8]) -> bool
    ensures { result ≡ last_return after_return bytes.now }
{
    let count = bytes.len();
    if count == 0 {
        after_return
    } else {
        bytes[count - 1] == b'\r'
    }
}

/// How many bytes an upload has written once it has written these, too.
///
/// # Errors
/// `SourceTooLarge` where they are more than [`GREATEST_UPLOAD`].
pub fn upload_size(written: u64, added: usize) -> FtpResult<u64>
    ensures sum { IfOk result (λ size. size ≡ written + added) }
    ensures within { OnOk result (written + added ≤ GREATEST_UPLOAD) }
    ensures beyond { OnErr result (GREATEST_UPLOAD < written + added) }
    ensures fault { IfErr result
        (λ fault. fault ≡ FtpError.ConnectionError ConnectionError.SourceTooLarge) }
{
    match written.checked_add(added as u64) {
        Some(size) if size <= GREATEST_UPLOAD => Ok(size),
        _ => Err(ConnectionError::SourceTooLarge.into()),
    }
}

/// Copies a text to a writer, each line ended by CR LF, up to the end of the reader, and returns
/// how many bytes were written. It reads at most 8,192 bytes at once.
///
/// # Errors
/// `Io` of the kind of the reader's or the writer's error, an interruption only after 64 tries in a row
/// were interrupted again; `SourceTooLarge` where more than 2^63 - 1 bytes would be written;
/// `OutOfMemory`. What was read before an error of the reader has been written.
pub fn copy_crlf<R: Read, W: Write>(alloc: Global, reader: &mut R, writer: &mut W) -> FtpResult<u64>
    ensures written { OnOk result (IfSome (R.remaining reader.old)
        (λ source. Appends (W.contents writer.old) (W.contents writer.new) (crlf source))) }
    ensures end { OnOk result (IsAtEnd (R.remaining reader.new)) }
    ensures count { IfOk result (λ n. IfSome (R.remaining reader.old)
        (λ source. n ≡ length (crlf source))) }
    ensures limit { IfOk result (λ n. n ≤ GREATEST_UPLOAD) }
    ensures too_large { result ≡ Err (FtpError.ConnectionError ConnectionError.SourceTooLarge) →
        IfSome (R.remaining reader.old) (λ source. GREATEST_UPLOAD < length (crlf source)) }
    ensures err { OnErr result (IfSome (R.remaining reader.old)
        (λ source. AppendsFront (W.contents writer.old) (W.contents writer.new) (crlf source))) }
    ensures faults { IfErr result IsCopyFault }
{
    let mut input = vec![in alloc; 0u8; BUFFER]?;
    copy_through(alloc, reader, writer, &mut input)
}

/// The same through this buffer.
fn copy_through<R: Read, W: Write>(
    alloc: Global,
    reader: &mut R,
    writer: &mut W,
    input: &mut [u8],
) -> FtpResult<u64>
    requires { 0 < length input.old }
    ensures written { OnOk result (IfSome (R.remaining reader.old)
        (λ source. Appends (W.contents writer.old) (W.contents writer.new) (crlf source))) }
    ensures end { OnOk result (IsAtEnd (R.remaining reader.new)) }
    ensures count { IfOk result (λ n. IfSome (R.remaining reader.old)
        (λ source. n ≡ length (crlf source))) }
    ensures limit { IfOk result (λ n. n ≤ GREATEST_UPLOAD) }
    ensures too_large { result ≡ Err (FtpError.ConnectionError ConnectionError.SourceTooLarge) →
        IfSome (R.remaining reader.old) (λ source. GREATEST_UPLOAD < length (crlf source)) }
    ensures err { OnErr result (IfSome (R.remaining reader.old)
        (λ source. AppendsFront (W.contents writer.old) (W.contents writer.new) (crlf source))) }
    ensures faults { IfErr result IsCopyFault }
{
    let mut output = Vec::new(alloc);
    let mut encoder = CrlfEncoder::new();
    let mut count = 0u64;
    for _ in 0..u64::MAX {
        let taken = read_retrying(reader, input)?;
        if taken == 0 {
            return Ok(count);
        }
        output.clear();
        encoder.encode(&input[..taken], &mut output)?;
        let size = upload_size(count, output.len())?;
        write_all_retrying(writer, &output)?;
        count = size;
    }
    unreachable!()
}
