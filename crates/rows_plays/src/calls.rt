//! Calls in words, and each call of a command by its method.

use crate::settings::setting;
use ftp_base::status::Status;
use ftp_base::types::{Items, Text};
use ftp_calls::answers::read_time;
use ftp_session::session::Call;
use jiff::civil::DateTime;
use rows_text::{RowError, bytes_of, file_type, pair, text, value};
use std::alloc::Global;

/// The answer of a call, by the method of that name: of a session, with its allocator, or of a client, with its runtime.
///
/// Where it is used `unit`, `reply`, `text`, `time`, `size` and `features` make the answer of what the method returned, and
/// `moment` the time of fourteen digits; they
/// are handed what stands in the brackets before it, as the runtime that polls a future. Calls that are no commands are the
/// arms that are handed in.
#[macro_export]
macro_rules! made_by_method {
    ($call:expr, $target:expr, $memory:expr, ($($rt:expr)?), { $($others:tt)* }) => {
        match $call {
            Call::Login(user, password) => {
                unit($($rt,)? $target.login($memory, user.as_str(), password.as_str()))
            }
            Call::Cwd(path) => unit($($rt,)? $target.cwd($memory, path.as_str())),
            Call::Cdup => unit($($rt,)? $target.cdup($memory)),
            Call::Noop => unit($($rt,)? $target.noop($memory)),
            Call::Resync => unit($($rt,)? $target.resync($memory)),
            Call::Eprt(address) => unit($($rt,)? $target.eprt($memory, *address)),
            Call::Opts(option, value) => {
                unit($($rt,)? $target.opts($memory, option.as_str(), optional(value)))
            }
            Call::Site(command) => reply($($rt,)? $target.site($memory, command.as_str())),
            Call::TransferType(kind) => {
                unit($($rt,)? $target.transfer_type($memory, kind.clone()?))
            }
            Call::Mkdir(path) => unit($($rt,)? $target.mkdir($memory, path.as_str())),
            Call::Rmdir(path) => unit($($rt,)? $target.rmdir($memory, path.as_str())),
            Call::Rm(path) => unit($($rt,)? $target.rm($memory, path.as_str())),
            Call::Rename(from, to) => {
                unit($($rt,)? $target.rename($memory, from.as_str(), to.as_str()))
            }
            Call::Quit => unit($($rt,)? $target.quit($memory)),
            Call::Pwd => text($($rt,)? $target.pwd($memory)),
            Call::Mlst(path) => text($($rt,)? $target.mlst($memory, optional(path))),
            Call::Mdtm(path) => time($($rt,)? $target.mdtm($memory, path.as_str())),
            Call::SetModified(time, path) => {
                let time = moment(time.as_str())?;
                unit($($rt,)? $target.set_modified($memory, path.as_str(), time))
            }
            Call::Size(path) => size($($rt,)? $target.size($memory, path.as_str())),
            Call::Feat => features($($rt,)? $target.feat($memory)),
            Call::ResumeTransfer(offset) => {
                unit($($rt,)? $target.resume_transfer($memory, *offset))
            }
            Call::CustomCommand(line, codes) => {
                let made = $target.custom_command($memory, line.as_str(), codes.as_slice());
                reply($($rt,)? made)
            }
            $($others)*
        }
    };
}

/// The call that words write: its name, and what it takes.
pub fn call(alloc: Global, words: &str) -> Result<Call, RowError> {
    match words.split_once(' ') {
        Some((name, argument)) => with_argument(alloc, name, argument),
        None => bare(alloc, words).ok_or(RowError::NotUnderstood),
    }
}

/// A call that takes nothing.
fn bare(alloc: Global, name: &str) -> Option<Call> {
    match name {
        "greet" => Some(Call::Greet),
        "cdup" => Some(Call::Cdup),
        "pwd" => Some(Call::Pwd),
        "noop" => Some(Call::Noop),
        "resync" => Some(Call::Resync),
        "mlst" => Some(Call::Mlst(None)),
        "feat" => Some(Call::Feat),
        "quit" => Some(Call::Quit),
        "list" => Some(Call::List(None)),
        "nlst" => Some(Call::Nlst(None)),
        "mlsd" => Some(Call::Mlsd(None)),
        "send" => Some(Call::Write(Items::from_vec(Vec::new(alloc)))),
        "finish" => Some(Call::Finish),
        "abort" => Some(Call::Abort),
        "leave" => Some(Call::Leave),
        "drain" => Some(Call::Drain),
        _ => None,
    }
}

/// A call that takes something.
fn with_argument(alloc: Global, name: &str, argument: &str) -> Result<Call, RowError> {
    match name {
        "eprt" => Ok(Call::Eprt(value(argument)?)),
        "type" => Ok(Call::TransferType(file_type(argument)?)),
        "data" => data(alloc, argument),
        "resume" => Ok(Call::ResumeTransfer(value(argument)?)),
        "receive" => Ok(Call::Read(value(argument)?)),
        "send" => Ok(Call::Write(Items::from_vec(bytes_of(alloc, argument)?))),
        "set" => set(alloc, argument),
        "opts" => opts(alloc, argument),
        "read" => Ok(Call::ReadResponse(status(argument)?)),
        "reads" => Ok(Call::ReadResponseIn(statuses(alloc, argument)?)),
        "login" | "rename" | "custom" | "set_modified" => with_two(alloc, name, argument),
        "put_file" | "append_file" => file(alloc, name, argument),
        _ => with_text(name, text(alloc, argument)?),
    }
}

/// A call that takes a text.
fn with_text(name: &str, text: Text) -> Result<Call, RowError> {
    match name {
        "cwd" => Ok(Call::Cwd(text)),
        "site" => Ok(Call::Site(text)),
        "mkdir" => Ok(Call::Mkdir(text)),
        "rmdir" => Ok(Call::Rmdir(text)),
        "rm" => Ok(Call::Rm(text)),
        "mlst" => Ok(Call::Mlst(Some(text))),
        "mdtm" => Ok(Call::Mdtm(text)),
        "size" => Ok(Call::Size(text)),
        "list" => Ok(Call::List(Some(text))),
        "nlst" => Ok(Call::Nlst(Some(text))),
        "mlsd" => Ok(Call::Mlsd(Some(text))),
        "retr_as_buffer" => Ok(Call::Retr(text)),
        "retr" => Ok(Call::RetrAsStream(text)),
        "put" => Ok(Call::PutWithStream(text)),
        "append" => Ok(Call::AppendWithStream(text)),
        _ => Err(RowError::NotUnderstood),
    }
}

/// A call that takes two things.
fn with_two(alloc: Global, name: &str, arguments: &str) -> Result<Call, RowError> {
    let (first, second) = pair(arguments, " ")?;
    let second = text(alloc, second)?;
    match name {
        "login" => Ok(Call::Login(text(alloc, first)?, second)),
        "rename" => Ok(Call::Rename(text(alloc, first)?, second)),
        "set_modified" => Ok(Call::SetModified(text(alloc, first)?, second)),
        "custom" => Ok(Call::CustomCommand(second, statuses(alloc, first)?)),
        _ => Err(RowError::NotUnderstood),
    }
}

/// `PATH`, or `PATH BYTES`.
fn file(alloc: Global, name: &str, argument: &str) -> Result<Call, RowError> {
    let (path, bytes) = argument.split_once(' ').unwrap_or((argument, ""));
    let bytes = Items::from_vec(bytes_of(alloc, bytes)?);
    let path = text(alloc, path)?;
    match name {
        "put_file" => Ok(Call::PutFile(path, bytes)),
        _ => Ok(Call::AppendFile(path, bytes)),
    }
}

/// `LINE CODES`.
fn data(alloc: Global, words: &str) -> Result<Call, RowError> {
    let (line, codes) = words.rsplit_once(' ').ok_or(RowError::NotUnderstood)?;
    Ok(Call::CustomDataCommand(text(alloc, line)?, statuses(alloc, codes)?))
}

/// `SETTING VALUE`.
fn set(alloc: Global, words: &str) -> Result<Call, RowError> {
    let (name, argument) = pair(words, " ")?;
    Ok(Call::Set(setting(alloc, name, argument)?))
}

/// `OPTION`, or `OPTION VALUE`.
fn opts(alloc: Global, words: &str) -> Result<Call, RowError> {
    match words.split_once(' ') {
        Some((option, set)) => Ok(Call::Opts(text(alloc, option)?, Some(text(alloc, set)?))),
        None => Ok(Call::Opts(text(alloc, words)?, None)),
    }
}

/// The date and time that fourteen digits write.
pub fn moment(digits: &str) -> Result<DateTime, RowError> {
    read_time(digits.as_bytes()).ok_or(RowError::NotUnderstood)
}

/// The status of a code.
fn status(code: &str) -> Result<Status, RowError> {
    Ok(Status::from(value::<u32>(code)?))
}

/// The statuses of codes, as `200,250`, or `none`.
fn statuses(alloc: Global, codes: &str) -> Result<Items<Status>, RowError> {
    if codes == "none" {
        return Ok(Items::from_vec(Vec::new(alloc)));
    }
    let all: Vec<Status> = codes.split(',').map(status).try_collect(alloc)?;
    Ok(Items::from_vec(all))
}
