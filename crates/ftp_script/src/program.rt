//! `suppaftp play`: a script in, its transcript out.

ghost use Rattle.std.specs.Prelude.{◌≡◌, ◌<◌, IfOk, IfErr, IfSome, length};
ghost use Rattle.ftp_script.specs.Program.{IsFault, IsPuzzled, Ends, Ran, Reports, line_at, not_understood};
ghost use Rattle.ftp_script.specs.Script.{script_of};

use crate::cut::cut;
use crate::player::transcript_of;
use crate::script::{ScriptError, script_of};
use crate::shown::push_shown;
use ftp_base::retry::{read_retrying, write_all_retrying};
use ftp_base::types::Bytes;
use std::alloc::{AllocError, Global};
use std::io;
use std::io::{Read, Write};

/// How many bytes of a script are read at once.
const BUFFER: usize = 8_192;

/// Why a script has no transcript.
#[derive(Drop)]
pub(crate) enum PlayError {
    /// A line isn't understood: what is told of it.
    NotUnderstood(Bytes),
    /// A read or a write failed.
    Io(io::Error),
    /// Out of memory outside a call.
    OutOfMemory,
}

/// Reads a script whole, plays it over memory and writes its transcript; returns the program's exit status.
///
/// It is 0 where the transcript was written, 2 where a line of the script isn't understood, whose number is written to
/// `errors`, and then the line itself, and nothing to `writer`, and 1 where a read or a write fails, or an allocation
/// outside a call.
pub fn play_script<R: Read, W: Write, X: Write>(
    alloc: Global,
    reader: &mut R,
    writer: &mut W,
    errors: &mut X,
) -> u8
    ensures { IfSome (R.remaining reader.old) (λ text. Ends text (script_of text) result
        (W.contents writer.old) (W.contents writer.new)
        (X.contents errors.old) (X.contents errors.new)) }
{
    match play(alloc, reader, writer) {
        Ok(()) => 0,
        Err(error) => report(alloc, errors, error),
    }
}

/// Reads a script whole, plays it and writes its transcript.
fn play<R: Read, W: Write>(alloc: Global, reader: &mut R, writer: &mut W) -> Result<(), PlayError>
    ensures { IfSome (R.remaining reader.old) (λ text. Ran text (script_of text) result
        (W.contents writer.old) (W.contents writer.new)) }
{
    match read_whole(alloc, reader) {
        Ok(text) => play_text(alloc, text.as_slice(), writer),
        Err(error) => Err(error),
    }
}

/// Reads a reader to its end. An interrupted read is tried again, at most 64 times in a row.
fn read_whole<R: Read>(alloc: Global, reader: &mut R) -> Result<Vec<u8>, PlayError>
    ensures whole { IfOk result (λ text. IfSome (R.remaining reader.old) (λ source. source ≡
        text.items)) }
    ensures fault { IfErr result IsFault }
{
    match vec![in alloc; 0u8; BUFFER] {
        Ok(mut buffer) => read_through(alloc, reader, &mut buffer),
        Err(_) => Err(PlayError::OutOfMemory),
    }
}

/// The same through this buffer.
fn read_through<R: Read>(
    alloc: Global,
    reader: &mut R,
    buffer: &mut [u8],
) -> Result<Vec<u8>, PlayError>
    requires { 0 < length buffer.old }
    ensures whole { IfOk result (λ text. IfSome (R.remaining reader.old) (λ source. source ≡
        text.items)) }
    ensures fault { IfErr result IsFault }
{
    let mut text = Vec::new(alloc);
    for _ in 0..u64::MAX {
        let taken = match read_retrying(reader, buffer) {
            Ok(0) => return Ok(text),
            Ok(taken) => taken,
            Err(error) => return Err(PlayError::Io(error)),
        };
        if text.extend_from_slice(&buffer[..taken]).is_err() {
            return Err(PlayError::OutOfMemory);
        }
    }
    unreachable!()
}

/// Plays a script and writes its transcript.
fn play_text<W: Write>(alloc: Global, text: &[u8], writer: &mut W) -> Result<(), PlayError>
    ensures { Ran text.now (script_of text.now) result (W.contents writer.old) (W.contents
        writer.new) }
{
    let script = match script_of(alloc, text) {
        Ok(script) => script,
        Err(ScriptError::NotUnderstood(number)) => return Err(puzzled(alloc, text, number)),
        Err(ScriptError::OutOfMemory) => return Err(PlayError::OutOfMemory),
    };
    let transcript = match transcript_of(alloc, &script) {
        Ok(transcript) => transcript,
        Err(AllocError) => return Err(PlayError::OutOfMemory),
    };
    match write_all_retrying(writer, transcript.as_slice()) {
        Ok(()) => Ok(()),
        Err(error) => Err(PlayError::Io(error)),
    }
}

/// The error of a line that isn't understood.
fn puzzled(alloc: Global, text: &[u8], number: usize) -> PlayError
    ensures { IsPuzzled (not_understood number (line_at number text.now)) result }
{
    match told(alloc, number, line_at(text, number)) {
        Ok(told) => PlayError::NotUnderstood(Bytes::from_vec(told)),
        Err(AllocError) => PlayError::OutOfMemory,
    }
}

/// What is told of a line that isn't understood: its number, and itself.
fn told(alloc: Global, number: usize, line: &[u8]) -> Result<Vec<u8>, AllocError>
    ensures { IfOk result (λ told. told.items ≡ not_understood number line.now) }
{
    let head = format!(in alloc; "suppaftp: line {number}: not understood\n    ")?;
    let mut told = head.into_bytes();
    push_shown(&mut told, line)?;
    told.push(b'\n')?;
    Ok(told)
}

/// The line of this number, counted from 1.
fn line_at(text: &[u8], number: usize) -> &[u8]
    ensures { result.now ≡ line_at number text.now }
{
    let mut rest = text;
    for _ in 1..number {
        match cut(b'\n', rest) {
            Some((_, behind)) => rest = behind,
            None => return b"",
        }
    }
    match cut(b'\n', rest) {
        Some((line, _)) => line,
        None => rest,
    }
}

/// Writes why there is no transcript; returns the exit status.
fn report<X: Write>(alloc: Global, errors: &mut X, error: PlayError) -> u8
    ensures { Reports error result (X.contents errors.old) (X.contents errors.new) }
{
    match error {
        PlayError::NotUnderstood(told) => match write_all_retrying(errors, told.as_slice()) {
            Ok(()) => 2,
            Err(_) => 1,
        },
        PlayError::Io(error) => match format!(in alloc; "suppaftp: {error}\n") {
            Ok(line) => {
                let _written = write_all_retrying(errors, line.as_bytes());
                1
            }
            Err(_) => report_memory(errors),
        },
        PlayError::OutOfMemory => report_memory(errors),
    }
}

/// Writes that memory ran out.
fn report_memory<X: Write>(errors: &mut X) -> u8
    ensures { result ≡ 1 }
{
    let _written = write_all_retrying(errors, b"suppaftp: out of memory\n");
    1
}
