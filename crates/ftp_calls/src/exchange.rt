//! What each call sends and receives (RFC 959, sections 4.1, 5.4 and 6): one row a turn, which is an exchange or a
//! change of settings. A call that opens a data connection negotiates before its own row.
//!
//! All that the machine does with a call follows from its row.

ghost use Rattle.std.specs.Prelude.{◌≡◌, IfErr, IfOk, false};
ghost use Rattle.ftp_calls.specs.Exchanges.{aborting_row, aborts, drains, drains_first, finishes, is_local, is_read, negotiates, next_turn, of_transfer, restarted, restarts, resyncs, row_of, says_at, uploads};

use crate::active::port_command;
use crate::call::{Call, Setting, own_row};
use crate::row::{aborted, extended_codes, hears, last_reply, ok, says};
use ftp_base::command::Command;
use ftp_base::status::Status;
use ftp_base::types::Items;
use std::alloc::{AllocError, Global};
use std::io::ErrorKind;
use std::net::SocketAddr;

/// Which of a call's exchanges. Those that negotiate keep the offset at which the transfer begins, in bytes.
#[derive(Clone, Copy)]
pub enum Turn {
    /// The first.
    First,
    /// The one after an intermediate reply, or after negotiation.
    Second,
    /// `PASV`: the server is asked where it listens; first, or once it has refused `EPSV`.
    Passive(u64, bool),
    /// `EPSV`: the server is asked at which port it listens; and, where that is said, by `PASV` if it refuses.
    ExtendedPassive(u64, bool),
    /// `PORT` or `EPRT`: the server is told where the client listens.
    Active(SocketAddr, u64),
    /// `REST`: the server is told the offset.
    Restart(u64),
    /// The data connection was closed, or that failed, and the transfer's last reply is read.
    Closed(Option<ErrorKind>),
    /// `ABOR` went out and the data connection was closed: its first reply is read.
    Aborted,
}

/// The statuses that a reply may have.
#[derive(Drop)]
pub enum Codes {
    /// This one.
    One(Status),
    /// One of two.
    Either(Status, Status),
    /// One of a caller's.
    Given(Items<Status>),
    /// 211, by the answer to `FEAT`: after a dash a list of features belongs to the reply.
    Features,
}

/// How an exchange ends once a reply was accepted.
#[derive(Drop)]
pub enum Ending {
    /// The call is done.
    Done,
    /// The reply is returned.
    GivesReply,
    /// The reply is returned, that of a dropped command where one is due.
    TakesReply,
    /// The reply is the server's greeting.
    Greets,
    /// The path between the reply's quotes is returned.
    GivesPath,
    /// The reply's second line is returned.
    GivesSecondLine,
    /// The time in the reply is returned.
    GivesTime,
    /// The number of bytes in the reply is returned.
    GivesSize,
    /// The features that the reply lists are returned.
    GivesFeatures,
    /// Transfers are of text from now on, or aren't.
    SetsText(bool),
    /// A reply of this status goes on to the next exchange; with another the call is done.
    GoesOn(Status),
    /// The next exchange follows.
    Continues,
    /// The reply holds the address to connect to.
    GivesAddress,
    /// The reply holds the port to connect to; or, where that is said, it may refuse `EPSV`, and `PASV` follows.
    GivesPort(bool),
    /// The data connection carries a transfer from now on; the reply is part of the result, or isn't.
    Opens(bool),
    /// The data connection carries a whole file or listing, and the transfer comes to its end.
    Performs(Task),
    /// The transfer has come to its end; the error of an upload's close goes before the reply's.
    Finishes(Option<ErrorKind>),
    /// The transfer that was left has come to its end, whatever the reply's status is.
    Drains,
    /// The transfer is aborted, whatever the reply is; after 426 the next exchange follows.
    Stops,
}

/// As what the bytes of a whole data connection are returned.
#[derive(Clone, Copy)]
pub enum Fetch {
    /// As they are.
    Whole,
    /// As the lines of a listing.
    Listed,
}

/// What is done with a whole data connection.
#[derive(Drop)]
pub enum Task {
    /// It is read to its end; what came is returned.
    Fetch(Fetch),
    /// These bytes are written; how many went out is returned.
    Store(Items<u8>),
}

/// One command and its reply, or one reply.
#[derive(Drop)]
pub struct Exchange {
    /// What is sent, if anything.
    pub says: Option<Command>,
    /// The statuses that are accepted.
    pub hears: Codes,
    /// What an accepted reply does.
    pub ending: Ending,
}

/// What a call does at a turn.
#[derive(Drop)]
pub enum Row {
    /// A command and its reply, or a reply alone.
    Exchanges(Exchange),
    /// Nothing is sent or received: the next transfer begins at this offset, in bytes, and the call is done.
    Arms(u64),
    /// `NOOP`, and replies are read until its own; beside a live transfer nothing is sent.
    Resyncs,
    /// Nothing is sent or received: a setting changes.
    Sets(Setting),
    /// Nothing is sent or received on the control connection: bytes go over the data connection.
    Moves(Movement),
}

/// What is done on a data connection.
#[derive(Drop)]
pub enum Movement {
    /// At most so many bytes are read, in one read.
    Read(usize),
    /// Bytes are written, in one write.
    Write(Items<u8>),
    /// It is closed.
    Close,
}

/// What a call does at this turn, with texts of its own.
///
/// # Errors
/// No memory for the texts: what an abort reads has none.
pub fn row_at(alloc: Global, call: &Call, turn: Turn) -> Result<Row, AllocError>
    ensures row_is { IfOk result (λ row. row ≡ row_of call.now turn) }
    ensures held { IfErr result (λ fault. aborting_row (row_of call.now turn) ≡ false) }
{
    match turn {
        Turn::First => own_row(call, true),
        Turn::Second => own_row(call, false),
        Turn::Passive(_offset, _after) => {
            let codes = Codes::One(Status::PassiveMode);
            Ok(says(Command::Pasv, codes, Ending::GivesAddress))
        }
        Turn::ExtendedPassive(_offset, tries) => {
            let codes = extended_codes(alloc, tries)?;
            Ok(says(Command::Epsv, codes, Ending::GivesPort(tries)))
        }
        Turn::Active(address, _offset) => {
            let command = port_command(alloc, address)?;
            Ok(says(command, ok(), Ending::Continues))
        }
        Turn::Restart(offset) => {
            let codes = Codes::One(Status::RequestFilePending);
            Ok(says(Command::Rest(offset as usize), codes, Ending::Continues))
        }
        Turn::Closed(fault) => Ok(last_reply(fault)),
        Turn::Aborted => Ok(hears(aborted(), Ending::Stops)),
    }
}

/// Whether a call opens a data connection, and so negotiates first.
pub fn negotiates(call: &Call) -> bool
    ensures { result ≡ negotiates call.now }
{
    matches!(
        call,
        Call::RetrAsStream(_)
            | Call::PutWithStream(_)
            | Call::AppendWithStream(_)
            | Call::CustomDataCommand(..)
            | Call::Retr(_)
            | Call::List(_)
            | Call::Nlst(_)
            | Call::Mlsd(_)
            | Call::PutFile(..)
            | Call::AppendFile(..)
    )
}

/// The turn that comes next, where the reply goes on.
pub fn next_turn(call: &Call, turn: Turn) -> Option<Turn>
    ensures { result ≡ next_turn call.now turn }
{
    match turn {
        Turn::First => Some(Turn::Second),
        Turn::Second => None,
        Turn::Passive(offset, _after) => Some(restarted(call, offset)),
        Turn::ExtendedPassive(offset, _tries) => Some(restarted(call, offset)),
        Turn::Active(_address, offset) => Some(restarted(call, offset)),
        Turn::Restart(_offset) => Some(Turn::Second),
        Turn::Closed(_fault) => None,
        Turn::Aborted => Some(Turn::Second),
    }
}

/// Whether a call is none of the control connection: it changes a setting, or moves bytes over the data connection.
pub fn is_local(call: &Call) -> bool
    ensures { result ≡ is_local call.now }
{
    matches!(
        call,
        Call::Set(_) | Call::Read(_) | Call::Write(_) | Call::Leave
    )
}

/// Whether a call brings a transfer to its end.
pub fn finishes(call: &Call) -> bool
    ensures { result ≡ finishes call.now }
{
    matches!(call, Call::Finish | Call::Abort)
}

/// Whether a call is a plain read of one reply, and sends nothing.
pub fn is_read(call: &Call) -> bool
    ensures { result ≡ is_read call.now }
{
    matches!(
        call,
        Call::ReadResponse(_) | Call::ReadResponseIn(_) | Call::Drain
    )
}

/// Whether a call sends a command at this turn, rather than that it reads a reply alone.
pub fn says_at(call: &Call, turn: Turn) -> bool
    ensures { result ≡ says_at call.now turn }
{
    match turn {
        Turn::First | Turn::Second => says_own(call),
        Turn::Passive(..) | Turn::ExtendedPassive(..) | Turn::Active(..) | Turn::Restart(_) => true,
        Turn::Closed(_) | Turn::Aborted => false,
    }
}

/// Whether a call sends a command of its own.
fn says_own(call: &Call) -> bool
    ensures first { result ≡ says_at call.now Turn.First }
    ensures second { result ≡ says_at call.now Turn.Second }
{
    !is_local(call)
        && !is_read(call)
        && !finishes(call)
        && !matches!(call, Call::Greet | Call::ResumeTransfer(_) | Call::Resync)
}

/// Whether a call aborts a transfer.
pub fn aborts(call: &Call) -> bool
    ensures { result ≡ aborts call.now }
{
    matches!(call, Call::Abort)
}

/// Whether a call reads replies until that of its own command.
pub fn resyncs(call: &Call) -> bool
    ensures { result ≡ resyncs call.now }
{
    matches!(call, Call::Resync)
}

/// Whether a call reads the last reply of a transfer that was left.
pub fn drains(call: &Call) -> bool
    ensures { result ≡ drains call.now }
{
    matches!(call, Call::Drain)
}

/// Whether a call is of a transfer: one that the session holds, or one that was left.
pub fn of_transfer(call: &Call) -> bool
    ensures { result ≡ of_transfer call.now }
{
    matches!(
        call,
        Call::Read(_) | Call::Write(_) | Call::Finish | Call::Abort | Call::Leave | Call::Drain
    )
}

/// Whether the last reply of a transfer that was left is read before a call sends or receives anything of its own. That
/// is so of each that goes over the control connection, but of the greeting and of those of a transfer.
pub fn drains_first(call: &Call) -> bool
    ensures { result ≡ drains_first call.now }
{
    !is_local(call) && !of_transfer(call) && !matches!(call, Call::Greet)
}

/// Whether the transfer that a call opens is an upload.
pub fn uploads(call: &Call) -> bool
    ensures { result ≡ uploads call.now }
{
    matches!(
        call,
        Call::PutWithStream(_)
            | Call::AppendWithStream(_)
            | Call::PutFile(..)
            | Call::AppendFile(..)
    )
}

/// The turn after the connection is agreed on: the offset, where there is one, and then the command.
fn restarted(call: &Call, offset: u64) -> Turn
    ensures { result ≡ restarted call.now offset }
{
    if restarts(call) && 0 < offset {
        Turn::Restart(offset)
    } else {
        Turn::Second
    }
}

/// Whether the transfer of a call may begin at an offset (RFC 3659, section 5): that of a listing never does.
fn restarts(call: &Call) -> bool
    ensures { result ≡ restarts call.now }
{
    matches!(
        call,
        Call::RetrAsStream(_)
            | Call::PutWithStream(_)
            | Call::AppendWithStream(_)
            | Call::CustomDataCommand(..)
            | Call::Retr(_)
            | Call::PutFile(..)
            | Call::AppendFile(..)
    )
}
