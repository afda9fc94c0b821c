//! The calls of a script, as its lines write them.
//!
//! A call is its name, and where it has arguments a blank and these. The escapes of a script are read in each argument,
//! whose bytes are ASCII.

ghost use Rattle.std.specs.Prelude.{◌≡◌, IfOk, nat_le};
ghost use Rattle.std.specs.List.{list_all};
ghost use Rattle.ftp_script.specs.Calls.{call_named, call_of, call_with, custom_of, cwd_of, login_of, pair_of, resume_of, retr_of, setting_named, size_call_of, text_of};

use crate::compare::{begins_with, is};
use crate::cut::cut;
use crate::escapes::unescaped;
use ftp_base::command::number;
use ftp_base::command::scan::Span;
use ftp_base::status::Status;
use ftp_base::types::{Items, Mode, Text};
use ftp_calls::call::{Call, Setting};
use std::alloc::{AllocError, Global};

/// The call of a line, if it is understood.
///
/// # Errors
/// `AllocError`.
#[tactic(auto, unfolding(crate::specs::Calls::call_of))]
pub(crate) fn call_of(alloc: Global, words: &[u8]) -> Result<Option<Call>, AllocError>
    ensures { IfOk result (λ call. call ≡ call_of words.now) }
{
    if let Some(call) = call_named(words) {
        Ok(Some(call))
    } else if let Some(call) = setting_named(words) {
        Ok(Some(call))
    } else {
        call_with(alloc, words)
    }
}

/// The call of this name, which has no arguments.
fn call_named(name: &[u8]) -> Option<Call>
    ensures { result ≡ call_named name.now }
{
    if is(name, b"noop") {
        Some(Call::Noop)
    } else if is(name, b"resync") {
        Some(Call::Resync)
    } else if is(name, b"quit") {
        Some(Call::Quit)
    } else if is(name, b"pwd") {
        Some(Call::Pwd)
    } else if is(name, b"feat") {
        Some(Call::Feat)
    } else if is(name, b"list") {
        Some(Call::List(None))
    } else if is(name, b"finish") {
        Some(Call::Finish)
    } else {
        None
    }
}

/// The setting of this name, as a call.
fn setting_named(name: &[u8]) -> Option<Call>
    ensures { result ≡ setting_named name.now }
{
    if is(name, b"nat on") {
        Some(Call::Set(Setting::PassiveNatWorkaround(true)))
    } else if is(name, b"nat off") {
        Some(Call::Set(Setting::PassiveNatWorkaround(false)))
    } else if is(name, b"lenient on") {
        Some(Call::Set(Setting::LenientReplies(true)))
    } else if is(name, b"lenient off") {
        Some(Call::Set(Setting::LenientReplies(false)))
    } else if is(name, b"epsv") {
        Some(Call::Set(Setting::Mode(Mode::ExtendedPassive)))
    } else {
        None
    }
}

/// The call of a name and of what stands after its blank.
fn call_with(alloc: Global, words: &[u8]) -> Result<Option<Call>, AllocError>
    ensures { IfOk result (λ call. call ≡ call_with words.now) }
{
    if begins_with(words, b"cwd ") {
        cwd_of(text_of(alloc, &words[4..])?)
    } else if begins_with(words, b"size ") {
        size_of(text_of(alloc, &words[5..])?)
    } else if begins_with(words, b"retr ") {
        retr_of(text_of(alloc, &words[5..])?)
    } else if begins_with(words, b"custom ") {
        custom_of(alloc, text_of(alloc, &words[7..])?)
    } else if begins_with(words, b"resume ") {
        resume_of(text_of(alloc, &words[7..])?)
    } else if begins_with(words, b"login ") {
        login_of(alloc, &words[6..])
    } else {
        Ok(None)
    }
}

/// `cwd` with this path.
fn cwd_of(path: Option<Text>) -> Result<Option<Call>, AllocError>
    ensures { IfOk result (λ call. call ≡ cwd_of path) }
{
    match path {
        Some(path) => Ok(Some(Call::Cwd(path))),
        None => Ok(None),
    }
}

/// `size` of this path.
fn size_of(path: Option<Text>) -> Result<Option<Call>, AllocError>
    ensures { IfOk result (λ call. call ≡ size_call_of path) }
{
    match path {
        Some(path) => Ok(Some(Call::Size(path))),
        None => Ok(None),
    }
}

/// `retr` of this path.
fn retr_of(path: Option<Text>) -> Result<Option<Call>, AllocError>
    ensures { IfOk result (λ call. call ≡ retr_of path) }
{
    match path {
        Some(path) => Ok(Some(Call::Retr(path))),
        None => Ok(None),
    }
}

/// `resume` at this offset, which is below 2^64.
fn resume_of(digits: Option<Text>) -> Result<Option<Call>, AllocError>
    ensures { IfOk result (λ call. call ≡ resume_of digits) }
{
    let Some(digits) = digits else {
        return Ok(None);
    };
    let text = digits.as_str();
    let whole = Span {
        start: 0,
        end: text.len(),
    };
    match number(text, whole, u64::MAX) {
        Some(offset) => Ok(Some(Call::ResumeTransfer(offset))),
        None => Ok(None),
    }
}

/// `custom` with this line, which expects 200.
fn custom_of(alloc: Global, line: Option<Text>) -> Result<Option<Call>, AllocError>
    ensures { IfOk result (λ call. call ≡ custom_of line) }
{
    match line {
        Some(line) => {
            let expected = Vec::from_slice(alloc, &[Status::CommandOk])?;
            Ok(Some(Call::CustomCommand(line, Items::from_vec(expected))))
        }
        None => Ok(None),
    }
}

/// `login` with these words.
fn login_of(alloc: Global, words: &[u8]) -> Result<Option<Call>, AllocError>
    ensures { IfOk result (λ call. call ≡ login_of words.now) }
{
    let Some((user, password)) = cut(b' ', words) else {
        return Ok(None);
    };
    match cut(b' ', password) {
        Some(_) => Ok(None),
        None => pair_of(alloc, user, password),
    }
}

/// `login` with this user and this password.
fn pair_of(alloc: Global, user: &[u8], password: &[u8]) -> Result<Option<Call>, AllocError>
    ensures { IfOk result (λ call. call ≡ pair_of user.now password.now) }
{
    if user.is_empty() {
        return Ok(None);
    }
    if password.is_empty() {
        return Ok(None);
    }
    let Some(user) = text_of(alloc, user)? else {
        return Ok(None);
    };
    let Some(password) = text_of(alloc, password)? else {
        return Ok(None);
    };
    Ok(Some(Call::Login(user, password)))
}

/// The text that an argument of a call writes, if it is ASCII.
fn text_of(alloc: Global, argument: &[u8]) -> Result<Option<Text>, AllocError>
    ensures { IfOk result (λ text. text ≡ text_of argument.now) }
{
    let Some(bytes) = unescaped(alloc, argument)? else {
        return Ok(None);
    };
    let bytes = bytes.into_vec();
    if !is_ascii(bytes.as_slice()) {
        return Ok(None);
    }
    match String::from_utf8(bytes) {
        Ok(text) => Ok(Some(Text::from_string(text))),
        Err(_) => unreachable!(),
    }
}

/// Whether all bytes are ASCII.
fn is_ascii(bytes: &[u8]) -> bool
    ensures { result ≡ list_all (λ byte. nat_le byte 127) bytes.now }
{
    bytes.iter().all(|byte| *byte <= 0x7f)
}
