//! How a transcript is written.

ghost use Rattle.std.specs.Prelude.{◌≡◌, ◌≤◌, ◌<◌, ◌++◌, ◌∷◌, OnOk, length, map, take, drop, string_bytes};
ghost use Rattle.std.specs.List.{flat_map};
ghost use Rattle.std.specs.Fmt.{decimal};
ghost use Rattle.std.specs.Option.{option_map};
ghost use Rattle.ftp_base.specs.Features.{shown as entries};
ghost use Rattle.ftp_script.specs.Shown.{addresses_after, after_number, answer_text, asked_text, call_text, end_text, exchanged_text, feature_text, features_text, later_line, later_text, lines_text, hex_digit, request_text, sent_lines, sent_text, shown, shown_byte};

use crate::compare::is;
use ftp_base::types::{Features, FtpError};
use ftp_calls::call::Answer;
use ftp_transport::{Asked, Request};
use memchr::memchr;
use std::alloc::{AllocError, Global};
use std::collections::btree_map::Iter;

/// Adds a call: the lines that were sent, the addresses that were asked for, and its answer.
pub(crate) fn push_call(
    alloc: Global,
    text: &mut Vec<u8>,
    sent: &[u8],
    asked: &[Asked],
    answer: &Answer,
) -> Result<(), AllocError>
    ensures { OnOk result
        (text.new.items ≡ text.old.items ++ call_text sent.now asked.now answer.now) }
{
    push_exchanged(alloc, text, sent, asked)?;
    text.extend_from_slice(b"A: ")?;
    push_answer(alloc, text, answer)?;
    text.push(b'\n')?;
    Ok(())
}

/// Adds the last line: how many bytes of the server were consumed.
pub(crate) fn push_end(alloc: Global, text: &mut Vec<u8>, taken: usize) -> Result<(), AllocError>
    ensures { OnOk result (text.new.items ≡ text.old.items ++ end_text taken) }
{
    text.extend_from_slice(b"T: ")?;
    push_number(alloc, text, taken as u64)?;
    text.push(b'\n')?;
    Ok(())
}

/// Adds the lines that were sent, and each address that was asked for after the line that brought it.
fn push_exchanged(
    alloc: Global,
    text: &mut Vec<u8>,
    sent: &[u8],
    asked: &[Asked],
) -> Result<(), AllocError>
    ensures { OnOk result
        (text.new.items ≡ text.old.items ++ exchanged_text (sent_lines sent.now) asked.now) }
{
    let mut rest = sent;
    let mut asked = asked;
    while !rest.is_empty() {
        let (line, behind) = rest.split_at(line_end(rest));
        let (next, later) = asked.split_at(addresses_after(line).min(asked.len()));
        push_sent(text, line)?;
        push_asked(alloc, text, next)?;
        rest = behind;
        asked = later;
    }
    push_asked(alloc, text, asked)
}

/// How many addresses come after a line: one, where it asked the server where to connect.
fn addresses_after(line: &[u8]) -> usize
    ensures { result ≡ addresses_after line.now }
{
    if is(line, b"PASV\r\n") {
        1
    } else if is(line, b"EPSV\r\n") {
        1
    } else {
        0
    }
}

/// Adds a line that was sent.
fn push_sent(text: &mut Vec<u8>, line: &[u8]) -> Result<(), AllocError>
    ensures { OnOk result (text.new.items ≡ text.old.items ++ sent_text line.now) }
{
    text.extend_from_slice(b"C: ")?;
    push_shown(text, line)?;
    text.push(b'\n')?;
    Ok(())
}

/// Adds the addresses that were asked for.
fn push_asked(alloc: Global, text: &mut Vec<u8>, asked: &[Asked]) -> Result<(), AllocError>
    ensures { OnOk result
        (text.new.items ≡ text.old.items ++ flat_map asked_text asked.now) }
{
    for one in asked {
        push_request(alloc, text, &one.request)?;
    }
    Ok(())
}

/// Adds the address of a connection that was asked for.
fn push_request(alloc: Global, text: &mut Vec<u8>, request: &Request) -> Result<(), AllocError>
    ensures { OnOk result (text.new.items ≡ text.old.items ++ request_text request.now) }
{
    match request {
        Request::Connect(address, _) => {
            let line = format!(in alloc; "D: {address}\n")?;
            text.extend_from_slice(line.as_bytes())
        }
        Request::Listen(_) => Ok(()),
        Request::Accept(_) => Ok(()),
        Request::Build(_) => Ok(()),
    }
}

/// Where the first line ends, after its LF.
fn line_end(bytes: &[u8]) -> usize
    requires { 0 < length bytes.now }
    ensures some { 0 < result }
    ensures within { result ≤ length bytes.now }
    ensures line { sent_lines bytes.now ≡
        take result bytes.now ∷ sent_lines (drop result bytes.now) }
{
    match memchr(b'\n', bytes) {
        Some(place) => place + 1,
        None => bytes.len(),
    }
}

/// Adds an answer.
fn push_answer(alloc: Global, text: &mut Vec<u8>, answer: &Answer) -> Result<(), AllocError>
    ensures { OnOk result (text.new.items ≡ text.old.items ++ answer_text answer.now) }
{
    match answer {
        Answer::Unit => text.extend_from_slice(b"ok"),
        Answer::Reply(reply) => {
            text.extend_from_slice(b"ok ")?;
            push_shown(text, reply.body.as_slice())
        }
        Answer::Text(answer) => {
            text.extend_from_slice(b"ok ")?;
            push_shown(text, answer.as_str().as_bytes())
        }
        Answer::Time(_) => text.extend_from_slice(b"ok"),
        Answer::Size(size) => {
            text.extend_from_slice(b"ok ")?;
            push_number(alloc, text, *size as u64)
        }
        Answer::Features(features) => {
            text.extend_from_slice(b"ok ")?;
            push_features(text, features)
        }
        Answer::Opened => text.extend_from_slice(b"ok"),
        Answer::OpenedWith(reply) => {
            text.extend_from_slice(b"ok ")?;
            push_shown(text, reply.body.as_slice())
        }
        Answer::Bytes(bytes) => {
            text.extend_from_slice(b"ok ")?;
            push_shown(text, bytes.as_slice())
        }
        Answer::Lines(lines) => {
            text.extend_from_slice(b"ok ")?;
            push_lines(text, lines.as_slice())
        }
        Answer::Count(count) => {
            text.extend_from_slice(b"ok ")?;
            push_number(alloc, text, *count)
        }
        Answer::NoTransfer => text.extend_from_slice(b"NoTransfer"),
        Answer::Fault(fault) => {
            text.extend_from_slice(b"E")?;
            push_number(alloc, text, u64::from(fault.number()))?;
            push_status(alloc, text, fault)
        }
    }
}

/// Adds features, in the order of their names.
fn push_features(text: &mut Vec<u8>, features: &Features) -> Result<(), AllocError>
    ensures { OnOk result (text.new.items ≡ text.old.items ++ features_text features.now) }
{
    let mut others = features.iter();
    let Some((name, value)) = others.next() else {
        return Ok(());
    };
    push_feature(text, name, value)?;
    push_later(text, others)
}

/// Adds the features after the first.
fn push_later(
    text: &mut Vec<u8>,
    mut others: Iter<'_, String, Option<String>>,
) -> Result<(), AllocError>
    ensures { OnOk result
        (text.new.items ≡ text.old.items ++ flat_map later_text (entries others.entry)) }
{
    while let Some((name, value)) = others.next() {
        text.extend_from_slice(b";")?;
        push_feature(text, name, value)?;
    }
    Ok(())
}

/// Adds a feature.
fn push_feature(text: &mut Vec<u8>, name: &String, value: &Option<String>) -> Result<(), AllocError>
    ensures { OnOk result (text.new.items ≡ text.old.items ++
        feature_text (string_bytes name.now, option_map string_bytes value.now)) }
{
    push_shown(text, name.as_bytes())?;
    match value {
        Some(value) => {
            text.extend_from_slice(b"=")?;
            push_shown(text, value.as_bytes())
        }
        None => Ok(()),
    }
}

/// Adds lines, an LF between them.
fn push_lines(text: &mut Vec<u8>, lines: &[String]) -> Result<(), AllocError>
    ensures { OnOk result
        (text.new.items ≡ text.old.items ++ lines_text (map string_bytes lines.now)) }
{
    let Some((first, others)) = lines.split_first() else {
        return Ok(());
    };
    push_shown(text, first.as_bytes())?;
    push_later_lines(text, others)
}

/// Adds the lines after the first.
fn push_later_lines(text: &mut Vec<u8>, lines: &[String]) -> Result<(), AllocError>
    ensures { OnOk result
        (text.new.items ≡ text.old.items ++ flat_map later_line (map string_bytes lines.now)) }
{
    for line in lines {
        push_later_line(text, line)?;
    }
    Ok(())
}

/// Adds a line after the first.
fn push_later_line(text: &mut Vec<u8>, line: &String) -> Result<(), AllocError>
    ensures { OnOk result (text.new.items ≡ text.old.items ++ later_line (string_bytes line.now)) }
{
    push_byte(text, b'\n')?;
    push_shown(text, line.as_bytes())
}

/// Adds the code of the status of an unexpected reply.
fn push_status(alloc: Global, text: &mut Vec<u8>, fault: &FtpError) -> Result<(), AllocError>
    ensures { OnOk result (text.new.items ≡ text.old.items ++ after_number fault.now) }
{
    match fault {
        FtpError::UnexpectedResponse(reply) => {
            text.extend_from_slice(b" ")?;
            push_number(alloc, text, reply.status.code() as u64)
        }
        FtpError::ConnectionError(_) => Ok(()),
        FtpError::SecureError(_) => Ok(()),
        FtpError::BadResponse => Ok(()),
        FtpError::DataConnectionAlreadyOpen => Ok(()),
        FtpError::OutOfMemory => Ok(()),
        FtpError::SessionFailed => Ok(()),
        FtpError::InvalidAddress => Ok(()),
    }
}

/// Adds a number in decimal digits.
fn push_number(alloc: Global, text: &mut Vec<u8>, number: u64) -> Result<(), AllocError>
    ensures { OnOk result (text.new.items ≡ text.old.items ++ decimal number) }
{
    let digits = format!(in alloc; "{number}")?;
    text.extend_from_slice(digits.as_bytes())
}

/// Adds bytes as text.
pub(crate) fn push_shown(text: &mut Vec<u8>, bytes: &[u8]) -> Result<(), AllocError>
    ensures { OnOk result (text.new.items ≡ text.old.items ++ shown bytes.now) }
{
    for byte in bytes {
        push_byte(text, *byte)?;
    }
    Ok(())
}

/// Adds a byte as text.
fn push_byte(text: &mut Vec<u8>, byte: u8) -> Result<(), AllocError>
    ensures { OnOk result (text.new.items ≡ text.old.items ++ shown_byte byte) }
{
    if byte == b'\r' {
        text.extend_from_slice(b"\\r")
    } else if byte == b'\n' {
        text.extend_from_slice(b"\\n")
    } else if byte == b'\\' {
        text.extend_from_slice(b"\\\\")
    } else if byte >= 0x20 && byte <= 0x7e {
        text.extend_from_slice(&[byte])
    } else {
        text.extend_from_slice(&[b'\\', b'x', hex_digit(byte / 16), hex_digit(byte % 16)])
    }
}

/// A hexadecimal digit, in lower case.
fn hex_digit(value: u8) -> u8
    requires { value < 16 }
    ensures { result ≡ hex_digit value }
{
    if value < 10 {
        b'0' + value
    } else {
        b'a' - 10 + value
    }
}
