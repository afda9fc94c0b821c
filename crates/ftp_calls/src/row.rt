//! The parts that rows are made of: a command and its reply, a reply alone, the statuses that they accept; and the rows of
//! calls that are longer than a line.

ghost use Rattle.std.specs.Prelude.{◌≡◌, IfOk};
ghost use Rattle.ftp_calls.specs.Exchanges.{extended_codes, fetches, hears, own_row, says, stores};

use crate::call::Call;
use crate::exchange::{Codes, Ending, Exchange, Fetch, Row, Task};
use ftp_base::command::Command;
use ftp_base::status::Status;
use ftp_base::types::{FileType, Items, Text};
use std::alloc::{AllocError, Global};
use std::io::ErrorKind;

/// A command and its reply.
pub(crate) fn says(command: Command, codes: Codes, ending: Ending) -> Row
    ensures { result ≡ says command codes ending }
{
    Row::Exchanges(Exchange {
        says: Some(command),
        hears: codes,
        ending,
    })
}

/// A reply alone.
pub(crate) fn hears(codes: Codes, ending: Ending) -> Row
    ensures { result ≡ hears codes ending }
{
    Row::Exchanges(Exchange {
        says: None,
        hears: codes,
        ending,
    })
}

/// A command (150, 125) whose data are read whole.
pub(crate) fn fetched(command: Command, form: Fetch) -> Row
    ensures { result ≡ fetches command form }
{
    says(command, sent(), Ending::Performs(Task::Fetch(form)))
}

/// A command (125, 150) whose data are these bytes.
pub(crate) fn stored_whole(command: Command, bytes: Items<u8>) -> Row
    ensures { result ≡ stores command bytes }
{
    says(command, stored(), Ending::Performs(Task::Store(bytes)))
}

/// The last reply of a transfer (226, 250), after this error of the close, if it failed.
pub(crate) fn last_reply(fault: Option<ErrorKind>) -> Row
    ensures { result ≡ hears (Codes.Either Status.ClosingDataConnection
        Status.RequestedFileActionOk)
        (Ending.Finishes fault) }
{
    hears(ended(), Ending::Finishes(fault))
}

/// 226 or 426.
pub(crate) fn aborted() -> Codes
    ensures { result ≡ Codes.Either Status.ClosingDataConnection Status.TransferAborted }
{
    Codes::Either(Status::ClosingDataConnection, Status::TransferAborted)
}

/// 226.
pub(crate) fn ended_alone() -> Codes
    ensures { result ≡ Codes.One Status.ClosingDataConnection }
{
    Codes::One(Status::ClosingDataConnection)
}

/// 226 or 250.
pub(crate) fn ended() -> Codes
    ensures { result ≡ Codes.Either Status.ClosingDataConnection Status.RequestedFileActionOk }
{
    Codes::Either(Status::ClosingDataConnection, Status::RequestedFileActionOk)
}

/// 229; and, where `PASV` follows a refusal of `EPSV`, the codes by which a server that hasn't it refuses: 500, 501, 502,
/// 504, and one that no other reply has, as 522 (RFC 2428, section 2).
pub(crate) fn extended_codes(alloc: Global, tries: bool) -> Result<Codes, AllocError>
    ensures { IfOk result (λ codes. codes ≡ extended_codes tries) }
{
    if !tries {
        return Ok(Codes::One(Status::ExtendedPassiveMode));
    }
    let codes = vec![in alloc;
        Status::ExtendedPassiveMode,
        Status::BadCommand,
        Status::BadArguments,
        Status::NotImplemented,
        Status::NotImplementedParameter,
        Status::Unknown,
    ]?;
    Ok(Codes::Given(Items::from_vec(codes)))
}

/// 150 or 125.
pub(crate) fn sent() -> Codes
    ensures { result ≡ Codes.Either Status.AboutToSend Status.AlreadyOpen }
{
    Codes::Either(Status::AboutToSend, Status::AlreadyOpen)
}

/// 125 or 150.
pub(crate) fn stored() -> Codes
    ensures { result ≡ Codes.Either Status.AlreadyOpen Status.AboutToSend }
{
    Codes::Either(Status::AlreadyOpen, Status::AboutToSend)
}

/// 200.
pub(crate) fn ok() -> Codes
    ensures { result ≡ Codes.One Status.CommandOk }
{
    Codes::One(Status::CommandOk)
}

/// 200 or 250.
pub(crate) fn ok_or_done() -> Codes
    ensures { result ≡ Codes.Either Status.CommandOk Status.RequestedFileActionOk }
{
    Codes::Either(Status::CommandOk, Status::RequestedFileActionOk)
}

/// 250 or 200.
pub(crate) fn done_or_ok() -> Codes
    ensures { result ≡ Codes.Either Status.RequestedFileActionOk Status.CommandOk }
{
    Codes::Either(Status::RequestedFileActionOk, Status::CommandOk)
}

/// `USER`, and after 331 `PASS`.
pub(crate) fn login(user: &Text, password: &Text, first: bool) -> Result<Row, AllocError>
    ensures { IfOk result (λ row. row ≡ own_row (Call.Login user.now password.now) first) }
{
    if first {
        let codes = Codes::Either(Status::LoggedIn, Status::NeedPassword);
        let ending = Ending::GoesOn(Status::NeedPassword);
        Ok(says(Command::User(user.clone()?), codes, ending))
    } else {
        let codes = Codes::One(Status::LoggedIn);
        Ok(says(Command::Pass(password.clone()?), codes, Ending::Done))
    }
}

/// `RNFR`, and after 350 `RNTO`.
pub(crate) fn rename(from: &Text, to: &Text, first: bool) -> Result<Row, AllocError>
    ensures { IfOk result (λ row. row ≡ own_row (Call.Rename from.now to.now) first) }
{
    if first {
        let codes = Codes::One(Status::RequestFilePending);
        let ending = Ending::GoesOn(Status::RequestFilePending);
        Ok(says(Command::RenameFrom(from.clone()?), codes, ending))
    } else {
        Ok(says(Command::RenameTo(to.clone()?), done_or_ok(), Ending::Done))
    }
}

/// `TYPE`: transfers are of text where the type is ASCII. It is the same at each turn.
pub(crate) fn transfer_type(kind: &FileType, first: bool) -> Result<Row, AllocError>
    ensures { IfOk result (λ row. row ≡ own_row (Call.TransferType kind.now) first) }
{
    let text = matches!(kind, FileType::Ascii(_));
    let kind = kind.clone()?;
    Ok(says(Command::TransferType(kind), ok(), Ending::SetsText(text)))
}

/// A caller-supplied line, and what an accepted reply does.
pub(crate) fn custom(line: &Text, codes: &Items<Status>, ending: Ending) -> Result<Row, AllocError>
    ensures { IfOk result (λ row. row ≡ says (Command.Custom line.now) (Codes.Given codes.now)
        ending) }
{
    let codes = Codes::Given(codes.clone()?);
    Ok(says(Command::Custom(line.clone()?), codes, ending))
}
