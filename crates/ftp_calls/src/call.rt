//! What a run is made of: calls and their answers, and what happens between the polls of a call.
//!
//! A call is a value with its arguments, so that a list of calls can be made in one run, and the definition of a run can
//! name them. Events are what a polled run is made of: the server's bytes come, a call begins, is polled, is
//! dropped.
//!
//! Beside each call stand what it does by itself, and the form in which a method is handed it, with borrowed texts.

ghost use Rattle.std.specs.Prelude.{◌≡◌, IfErr, IfOk, false};
ghost use Rattle.std.specs.Option.{option_map};
ghost use Rattle.ftp_calls.specs.Exchanges.{aborts, call_of, own_row};

use crate::exchange::{Codes, Ending, Fetch, Movement, Row};
use crate::lines::Lines;
use crate::row::{
    custom, done_or_ok, ended, ended_alone, fetched, hears, last_reply, login, ok, ok_or_done,
    rename, says, sent, stored, stored_whole, transfer_type,
};
use crate::time_value::time_value;
use ftp_base::command::Command;
use ftp_base::status::Status;
use ftp_base::types::{
    ActivePeerCheck, Bytes, Features, FileType, FtpError, Items, Mode, Response, Text,
};
use jiff::civil::DateTime;
use std::alloc::{AllocError, Global};
use std::net::SocketAddr;
use std::time::Duration;

/// A setting of a session, of which nothing is sent.
#[derive(Clone, Drop)]
pub enum Setting {
    /// Who opens data connections, and how they are asked for.
    Mode(Mode),
    /// Whether the host of a reply to `PASV` is passed over for the control connection's peer.
    PassiveNatWorkaround(bool),
    /// Which peers may open an active data connection.
    ActivePeerCheck(ActivePeerCheck),
    /// How long an active data connection is waited for.
    ActiveDeadline(Duration),
    /// Whether replies that begin from now on are read leniently.
    LenientReplies(bool),
}

/// A call of a session, with its arguments.
#[derive(Drop)]
pub enum Call {
    /// The greeting is read (220).
    Greet,
    /// `USER` (230, 331), and after 331 `PASS` (230).
    Login(Text, Text),
    /// `CWD` (200, 250).
    Cwd(Text),
    /// `CDUP` (200, 250).
    Cdup,
    /// `PWD` (257).
    Pwd,
    /// `NOOP` (200).
    Noop,
    /// `NOOP`, and replies are read until its own (200): at most eight.
    Resync,
    /// `EPRT` (200).
    Eprt(SocketAddr),
    /// `OPTS`, with a value or without (200).
    Opts(Text, Option<Text>),
    /// `SITE` (200).
    Site(Text),
    /// `TYPE` (200).
    TransferType(FileType),
    /// `MKD` (257, 200).
    Mkdir(Text),
    /// `RMD` (250, 200).
    Rmdir(Text),
    /// `DELE` (250, 200).
    Rm(Text),
    /// `RNFR` (350), then `RNTO` (250, 200).
    Rename(Text, Text),
    /// `QUIT` (221).
    Quit,
    /// `MLST`, of a path or of the current directory (250).
    Mlst(Option<Text>),
    /// `MDTM` (213).
    Mdtm(Text),
    /// `MFMT` (213): when a file was changed is set, to this time of fourteen digits; the time, and then the file.
    SetModified(Text, Text),
    /// `SIZE` (213).
    Size(Text),
    /// `FEAT` (211), whose reply a list of features may follow.
    Feat,
    /// A caller-supplied line, and the statuses that its reply may have.
    CustomCommand(Text, Items<Status>),
    /// A reply of this status is read; nothing is sent.
    ReadResponse(Status),
    /// A reply of one of these statuses is read; nothing is sent.
    ReadResponseIn(Items<Status>),
    /// The next transfer begins at this offset, in bytes; nothing is sent or received.
    ResumeTransfer(u64),
    /// A data connection is opened, and `RETR` (150, 125).
    RetrAsStream(Text),
    /// A data connection is opened, and `STOR` (125, 150).
    PutWithStream(Text),
    /// A data connection is opened, and `APPE` (125, 150).
    AppendWithStream(Text),
    /// A data connection is opened, and a caller-supplied line; the statuses that its reply may have.
    CustomDataCommand(Text, Items<Status>),
    /// A data connection is opened, and `RETR` (150, 125); all that comes is read, and the transfer's last reply (226,
    /// 250).
    Retr(Text),
    /// `LIST`, of a path or of the current directory (150, 125), whose lines are read in the same way.
    List(Option<Text>),
    /// `NLST`, likewise.
    Nlst(Option<Text>),
    /// `MLSD`, likewise.
    Mlsd(Option<Text>),
    /// A data connection is opened, and `STOR` (125, 150); these bytes are sent, as text unless `TYPE` was answered for
    /// another type, and the transfer's last reply is read (226, 250).
    PutFile(Text, Items<u8>),
    /// `APPE` (125, 150), likewise.
    AppendFile(Text, Items<u8>),
    /// A setting changes; nothing is sent or received, and a session that has failed accepts it, too.
    Set(Setting),
    /// At most so many bytes are read from the transfer's data connection, in one read.
    Read(usize),
    /// Bytes are written to the transfer's data connection, in one write.
    Write(Items<u8>),
    /// The data connection is closed, and the transfer's last reply is read (226, 250).
    Finish,
    /// `ABOR`; the data connection is closed (226, or 426 and then 226). Where the command can't go out the transfer is
    /// left.
    Abort,
    /// The transfer is left: its data connection is closed, and its last reply is still owed. A session that has failed
    /// accepts it, too.
    Leave,
    /// The last reply of a transfer that was left is read (226, 250); a reply of another status ends it as well.
    Drain,
}

/// What a call does by itself, at its first turn or at its last, with texts of its own.
///
/// # Errors
/// No memory for the texts: an abort has none.
pub(crate) fn own_row(call: &Call, first: bool) -> Result<Row, AllocError>
    ensures row_is { IfOk result (λ row. row ≡ own_row call.now first) }
    ensures held { IfErr result (λ fault. aborts call.now ≡ false) }
{
    match call {
        Call::Greet => Ok(hears(Codes::One(Status::Ready), Ending::Greets)),
        Call::Login(user, password) => login(user, password, first),
        Call::Cwd(path) => Ok(says(Command::Cwd(path.clone()?), ok_or_done(), Ending::Done)),
        Call::Cdup => Ok(says(Command::Cdup, ok_or_done(), Ending::Done)),
        Call::Pwd => {
            let codes = Codes::One(Status::PathCreated);
            Ok(says(Command::Pwd, codes, Ending::GivesPath))
        }
        Call::Noop => Ok(says(Command::Noop, ok(), Ending::Done)),
        Call::Resync => Ok(Row::Resyncs),
        Call::Eprt(address) => Ok(says(Command::Eprt(*address), ok(), Ending::Done)),
        Call::Opts(name, value) => {
            let (name, value) = (name.clone()?, value.clone()?);
            Ok(says(Command::Opts(name, value), ok(), Ending::Done))
        }
        Call::Site(words) => Ok(says(Command::Site(words.clone()?), ok(), Ending::GivesReply)),
        Call::TransferType(kind) => transfer_type(kind, first),
        Call::Mkdir(path) => {
            let codes = Codes::Either(Status::PathCreated, Status::CommandOk);
            Ok(says(Command::Mkd(path.clone()?), codes, Ending::Done))
        }
        Call::Rmdir(path) => Ok(says(Command::Rmd(path.clone()?), done_or_ok(), Ending::Done)),
        Call::Rm(path) => Ok(says(Command::Dele(path.clone()?), done_or_ok(), Ending::Done)),
        Call::Rename(from, to) => rename(from, to, first),
        Call::Quit => Ok(says(Command::Quit, Codes::One(Status::Closing), Ending::Done)),
        Call::Mlst(path) => {
            let codes = Codes::One(Status::RequestedFileActionOk);
            Ok(says(Command::Mlst(path.clone()?), codes, Ending::GivesSecondLine))
        }
        Call::Mdtm(path) => {
            let codes = Codes::One(Status::File);
            Ok(says(Command::Mdtm(path.clone()?), codes, Ending::GivesTime))
        }
        Call::SetModified(time, path) => {
            let (time, path) = (time.clone()?, path.clone()?);
            Ok(says(
                Command::Mfmt(time, path),
                Codes::One(Status::File),
                Ending::Done,
            ))
        }
        Call::Size(path) => {
            let codes = Codes::One(Status::File);
            Ok(says(Command::Size(path.clone()?), codes, Ending::GivesSize))
        }
        Call::Feat => Ok(says(Command::Feat, Codes::Features, Ending::GivesFeatures)),
        Call::CustomCommand(line, codes) => custom(line, codes, Ending::GivesReply),
        Call::ReadResponse(status) => Ok(hears(Codes::One(*status), Ending::TakesReply)),
        Call::ReadResponseIn(codes) => Ok(hears(Codes::Given(codes.clone()?), Ending::TakesReply)),
        Call::ResumeTransfer(offset) => Ok(Row::Arms(*offset)),
        Call::RetrAsStream(path) => {
            Ok(says(Command::Retr(path.clone()?), sent(), Ending::Opens(false)))
        }
        Call::PutWithStream(path) => {
            Ok(says(
                Command::Store(path.clone()?),
                stored(),
                Ending::Opens(false),
            ))
        }
        Call::AppendWithStream(path) => {
            Ok(says(Command::Appe(path.clone()?), stored(), Ending::Opens(false)))
        }
        Call::CustomDataCommand(line, codes) => custom(line, codes, Ending::Opens(true)),
        Call::Retr(path) => Ok(fetched(Command::Retr(path.clone()?), Fetch::Whole)),
        Call::List(path) => Ok(fetched(Command::List(path.clone()?), Fetch::Listed)),
        Call::Nlst(path) => Ok(fetched(Command::Nlst(path.clone()?), Fetch::Listed)),
        Call::Mlsd(path) => Ok(fetched(Command::Mlsd(path.clone()?), Fetch::Listed)),
        Call::PutFile(path, bytes) => {
            let (path, bytes) = (path.clone()?, bytes.clone()?);
            Ok(stored_whole(Command::Store(path), bytes))
        }
        Call::AppendFile(path, bytes) => {
            let (path, bytes) = (path.clone()?, bytes.clone()?);
            Ok(stored_whole(Command::Appe(path), bytes))
        }
        Call::Set(setting) => Ok(Row::Sets(setting.clone()?)),
        Call::Read(most) => Ok(Row::Moves(Movement::Read(*most))),
        Call::Write(bytes) => Ok(Row::Moves(Movement::Write(bytes.clone()?))),
        Call::Finish => Ok(last_reply(None)),
        Call::Abort => Ok(hears(ended_alone(), Ending::Stops)),
        Call::Leave => Ok(Row::Moves(Movement::Close)),
        Call::Drain => Ok(hears(ended(), Ending::Drains)),
    }
}

/// A call with the arguments that its method was handed.
pub enum BorrowedCall<'a> {
    /// A login, by the user's name and the password.
    Login(&'a str, &'a str),
    /// `CWD`.
    Cwd(&'a str),
    /// `CDUP`.
    Cdup,
    /// `PWD`.
    Pwd,
    /// `NOOP`.
    Noop,
    /// `NOOP`, and replies up to its own.
    Resync,
    /// `EPRT`.
    Eprt(SocketAddr),
    /// `OPTS`.
    Opts(&'a str, Option<&'a str>),
    /// `SITE`.
    Site(&'a str),
    /// `TYPE`.
    TransferType(&'a FileType),
    /// `MKD`.
    Mkdir(&'a str),
    /// `RMD`.
    Rmdir(&'a str),
    /// `DELE`.
    Rm(&'a str),
    /// A renaming, by the old name and the new one.
    Rename(&'a str, &'a str),
    /// `QUIT`.
    Quit,
    /// `MLST`.
    Mlst(Option<&'a str>),
    /// `MDTM`.
    Mdtm(&'a str),
    /// `MFMT`, of a file and a date and time.
    SetModified(&'a str, &'a DateTime),
    /// `SIZE`.
    Size(&'a str),
    /// `FEAT`.
    Feat,
    /// A caller-supplied line, and the statuses that its reply may have.
    CustomCommand(&'a str, &'a [Status]),
    /// A read of a reply of this status.
    ReadResponse(Status),
    /// A read of a reply of one of these statuses.
    ReadResponseIn(&'a [Status]),
    /// The offset at which the next transfer begins.
    ResumeTransfer(u64),
    /// `RETR`, as a transfer.
    RetrAsStream(&'a str),
    /// `STOR`, as a transfer.
    PutWithStream(&'a str),
    /// `APPE`, as a transfer.
    AppendWithStream(&'a str),
    /// A caller-supplied line that opens a data connection.
    CustomDataCommand(&'a str, &'a [Status]),
    /// `RETR` of a whole file.
    Retr(&'a str),
    /// `LIST`.
    List(Option<&'a str>),
    /// `NLST`.
    Nlst(Option<&'a str>),
    /// `MLSD`.
    Mlsd(Option<&'a str>),
}

impl BorrowedCall<'_> {
    /// The call, with arguments of its own.
    ///
    /// # Errors
    /// No memory for them.
    pub fn owned(self, alloc: Global) -> Result<Call, AllocError>
        ensures { IfOk result (λ call. call ≡ call_of self.entry) }
    {
        Ok(match self {
            BorrowedCall::Login(user, password) => {
                Call::Login(text(alloc, user)?, text(alloc, password)?)
            }
            BorrowedCall::Cwd(path) => Call::Cwd(text(alloc, path)?),
            BorrowedCall::Cdup => Call::Cdup,
            BorrowedCall::Pwd => Call::Pwd,
            BorrowedCall::Noop => Call::Noop,
            BorrowedCall::Resync => Call::Resync,
            BorrowedCall::Eprt(address) => Call::Eprt(address),
            BorrowedCall::Opts(name, value) => Call::Opts(
                text(alloc, name)?,
                optional(alloc, value)?,
            ),
            BorrowedCall::Site(words) => Call::Site(text(alloc, words)?),
            BorrowedCall::TransferType(kind) => Call::TransferType(kind.clone()?),
            BorrowedCall::Mkdir(path) => Call::Mkdir(text(alloc, path)?),
            BorrowedCall::Rmdir(path) => Call::Rmdir(text(alloc, path)?),
            BorrowedCall::Rm(path) => Call::Rm(text(alloc, path)?),
            BorrowedCall::Rename(from, to) => Call::Rename(text(alloc, from)?, text(alloc, to)?),
            BorrowedCall::Quit => Call::Quit,
            BorrowedCall::Mlst(path) => Call::Mlst(optional(alloc, path)?),
            BorrowedCall::Mdtm(path) => Call::Mdtm(text(alloc, path)?),
            BorrowedCall::SetModified(path, moment) => {
                Call::SetModified(time_value(alloc, *moment)?, text(alloc, path)?)
            }
            BorrowedCall::Size(path) => Call::Size(text(alloc, path)?),
            BorrowedCall::Feat => Call::Feat,
            BorrowedCall::CustomCommand(line, codes) => {
                Call::CustomCommand(text(alloc, line)?, items(alloc, codes)?)
            }
            BorrowedCall::ReadResponse(status) => Call::ReadResponse(status),
            BorrowedCall::ReadResponseIn(codes) => Call::ReadResponseIn(items(alloc, codes)?),
            BorrowedCall::ResumeTransfer(offset) => Call::ResumeTransfer(offset),
            BorrowedCall::RetrAsStream(path) => Call::RetrAsStream(text(alloc, path)?),
            BorrowedCall::PutWithStream(path) => Call::PutWithStream(text(alloc, path)?),
            BorrowedCall::AppendWithStream(path) => Call::AppendWithStream(text(alloc, path)?),
            BorrowedCall::CustomDataCommand(line, codes) => {
                Call::CustomDataCommand(text(alloc, line)?, items(alloc, codes)?)
            }
            BorrowedCall::Retr(path) => Call::Retr(text(alloc, path)?),
            BorrowedCall::List(path) => Call::List(optional(alloc, path)?),
            BorrowedCall::Nlst(path) => Call::Nlst(optional(alloc, path)?),
            BorrowedCall::Mlsd(path) => Call::Mlsd(optional(alloc, path)?),
        })
    }
}

/// A text of a call's own.
fn text(alloc: Global, text: &str) -> Result<Text, AllocError>
    ensures { IfOk result (λ copy. copy ≡ text.now) }
{
    Text::from_str(alloc, text)
}

/// Statuses of a call's own.
fn items(alloc: Global, codes: &[Status]) -> Result<Items<Status>, AllocError>
    ensures { IfOk result (λ copy. copy ≡ codes.now) }
{
    Ok(Items::from_vec(Vec::from_slice(alloc, codes)?))
}

/// A text that may be left out.
fn optional(alloc: Global, text: Option<&str>) -> Result<Option<Text>, AllocError>
    ensures { IfOk result (λ copy. copy ≡ option_map (λ text. text.now) text.entry) }
{
    match text {
        Some(text) => Ok(Some(Text::from_str(alloc, text)?)),
        None => Ok(None),
    }
}

/// The result of a call in a run.
#[derive(Drop)]
pub enum Answer {
    /// The call succeeded.
    Unit,
    /// The call succeeded with this reply.
    Reply(Response),
    /// It succeeded with this text: a path, or the facts of a file.
    Text(Text),
    /// It succeeded with this time.
    Time(DateTime),
    /// It succeeded with this number of bytes.
    Size(usize),
    /// It succeeded with these features.
    Features(Features),
    /// A data connection is open.
    Opened,
    /// A data connection is open, and this is the reply.
    OpenedWith(Response),
    /// These bytes were read from the data connection; none at its end.
    Bytes(Bytes),
    /// These are the lines of a listing.
    Lines(Lines),
    /// So many bytes were written to the data connection.
    Count(u64),
    /// A call of a transfer, where the session holds none, or, for `Drain`, owes none that was left; nothing happened.
    NoTransfer,
    /// The call failed.
    Fault(FtpError),
}

/// What happens to a session that is polled over memory.
#[derive(Drop)]
pub enum Event {
    /// The server's bytes come. After `End` none do.
    Feed(Bytes),
    /// The server's bytes end.
    End,
    /// So many more bytes may be written. Before the first, any number may.
    Room(u64),
    /// A call begins, where none is under way.
    Start(Call),
    /// The call under way is polled.
    Poll,
    /// The call under way is dropped.
    Cancel,
    /// The transfer is left. Nothing changes yet.
    Leave,
}
