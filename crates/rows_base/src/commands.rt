//! Commands and their lines.

use ftp_base::command::{Command, ProtectionLevel};
use ftp_base::types::Text;
use rows_text::{RowError, file_type, pair, text, value};
use std::alloc::Global;

/// The line of a command.
pub fn line(alloc: Global, input: &str) -> Result<Vec<u8>, RowError> {
    let command = command(alloc, input)?;
    let line = format!(in alloc; "{command}");
    drop(command);
    Ok(line?.into_bytes())
}

/// The command that words write: its name, and what it takes.
pub fn command(alloc: Global, words: &str) -> Result<Command, RowError> {
    match words.split_once(' ') {
        Some((name, argument)) => with_argument(alloc, name, argument),
        None => bare(words).ok_or(RowError::NotUnderstood),
    }
}

/// A command that takes nothing, or whose argument is left out.
fn bare(name: &str) -> Option<Command> {
    match name {
        "abor" => Some(Command::Abor),
        "auth" => Some(Command::Auth),
        "ccc" => Some(Command::ClearCommandChannel),
        "cdup" => Some(Command::Cdup),
        "epsv" => Some(Command::Epsv),
        "feat" => Some(Command::Feat),
        "list" => Some(Command::List(None)),
        "mlsd" => Some(Command::Mlsd(None)),
        "mlst" => Some(Command::Mlst(None)),
        "nlst" => Some(Command::Nlst(None)),
        "noop" => Some(Command::Noop),
        "pasv" => Some(Command::Pasv),
        "pwd" => Some(Command::Pwd),
        "quit" => Some(Command::Quit),
        _ => None,
    }
}

/// A command that takes a number, an address, a type, or a text.
fn with_argument(alloc: Global, name: &str, argument: &str) -> Result<Command, RowError> {
    match name {
        "eprt" => Ok(Command::Eprt(value(argument)?)),
        "mfmt" => {
            let (time, path) = pair(argument, " ")?;
            let time = text(alloc, time)?;
            Ok(Command::Mfmt(time, text(alloc, path)?))
        }
        "opts" => options(alloc, argument),
        "pbsz" => Ok(Command::Pbsz(value(argument)?)),
        "prot" => Ok(Command::Prot(level(argument)?)),
        "rest" => Ok(Command::Rest(value(argument)?)),
        "type" => Ok(Command::TransferType(file_type(argument)?)),
        _ => of_text(name, text(alloc, argument)?).ok_or(RowError::NotUnderstood),
    }
}

/// A command that takes a text.
fn of_text(name: &str, text: Text) -> Option<Command> {
    match name {
        "appe" => Some(Command::Appe(text)),
        "custom" => Some(Command::Custom(text)),
        "cwd" => Some(Command::Cwd(text)),
        "dele" => Some(Command::Dele(text)),
        "list" => Some(Command::List(Some(text))),
        "mdtm" => Some(Command::Mdtm(text)),
        "mkd" => Some(Command::Mkd(text)),
        "mlsd" => Some(Command::Mlsd(Some(text))),
        "mlst" => Some(Command::Mlst(Some(text))),
        "nlst" => Some(Command::Nlst(Some(text))),
        "pass" => Some(Command::Pass(text)),
        "port" => Some(Command::Port(text)),
        "retr" => Some(Command::Retr(text)),
        "rmd" => Some(Command::Rmd(text)),
        "rnfr" => Some(Command::RenameFrom(text)),
        "rnto" => Some(Command::RenameTo(text)),
        "site" => Some(Command::Site(text)),
        "size" => Some(Command::Size(text)),
        "stor" => Some(Command::Store(text)),
        "user" => Some(Command::User(text)),
        _ => None,
    }
}

/// An option with its value, if there is one.
fn options(alloc: Global, words: &str) -> Result<Command, RowError> {
    let Ok((name, value)) = pair(words, " ") else {
        return Ok(Command::Opts(text(alloc, words)?, None));
    };
    let name = text(alloc, name)?;
    Ok(Command::Opts(name, Some(text(alloc, value)?)))
}

/// A level of protection.
pub fn level(word: &str) -> Result<ProtectionLevel, RowError> {
    match word {
        "clear" => Ok(ProtectionLevel::Clear),
        "private" => Ok(ProtectionLevel::Private),
        _ => Err(RowError::NotUnderstood),
    }
}
