//! The calls of a session, a method each.
//!
//! A method names its call with borrowed texts (`BorrowedCall`); it is made with texts of its own and handed to the machine.
//! What it sends and receives is its row in `ftp_calls::exchange`. Where there is no memory for the texts nothing has
//! happened. The contract of each names its own dialogue, a tree of `specs/Trees.antt`, and says that the method is this
//! dialogue (`PlaysCommand`).

ghost use Rattle.std.specs.Prelude.{◌≡◌, [], ◌∷◌, option_map};
ghost use Rattle.ftp_control.specs.Channel.{IsSound};
ghost use Rattle.ftp_calls.specs.declared.call.Answer.TheVariants.{Fault};
ghost use Rattle.ftp_calls.specs.declared.call.Call.{Call as Called};
ghost use Rattle.ftp_calls.specs.Exchanges.{call_of};
ghost use Rattle.ftp_calls.specs.Times.{time_value};
ghost use Rattle.ftp_session.specs.Calls.{reply_answer, unit_answer};
ghost use Rattle.ftp_dialogue.specs.Coding.{chosen};
ghost use Rattle.ftp_dialogue.specs.Counted.{CountsFaults};
ghost use Rattle.ftp_dialogue.specs.Link.{blocking};
ghost use Rattle.ftp_session.specs.Commands.{PlaysCommand, PlaysRead};
ghost use Rattle.ftp_session.specs.Handed.{PlaysSeen};
ghost use Rattle.ftp_session.specs.Rows.{PlaysOwn};
ghost use Rattle.ftp_session.specs.Trees.{login_tree, read_tree, rename_tree, reply_tree, resume_tree, type_tree, unit_tree};
ghost use Rattle.ftp_dialogue.specs.Promises.{PlaysAlone};
ghost use Rattle.ftp_calls.specs.Kinds.{GivesNothing, GivesReply, IsPlain};
ghost use Rattle.ftp_dialogue.specs.Steps.Stages.{MayAnswer};
ghost use Rattle.ftp_session.specs.Kept.{Keeps};

use super::client::Session;
use super::looking::look;
use super::polling::DropsCalls;
use super::{Answer, Call};
use ftp_base::command::Command;
use ftp_base::encoding::Encoding;
use ftp_base::status::Status;
use ftp_base::types::{FileType, FtpError, FtpResult, Response};
use ftp_calls::call::BorrowedCall;
use ftp_calls::exchange::Codes;
use ftp_dialogue::data_path::NoData;
use ftp_transport::{Conn, Network};
use jiff::civil::DateTime;
use std::alloc::{AllocError, Global};
use std::net::SocketAddr;

impl<Tr: Network, K: Drop, E: Encoding, B: Drop> Session<Tr, K, E, B>
where
    Tr::Conn: Conn,
{
    /// Reads the server's greeting (220; RFC 959, section 5.4), of a session that [`new`](Session::new) made. From then on
    /// `get_welcome_msg` returns its text.
    ///
    /// # Errors
    /// Those of a read of one reply: a greeting of another status is `UnexpectedResponse`, and the session goes on.
    pub fn greet(&mut self, alloc: Global) -> FtpResult<()>
        ensures counts { CountsFaults Tr.Conn.tells self.old.machine self.new.machine
            (unit_answer result) }
        ensures keeps { Keeps self.old self.new }
        ensures mark { self.new.mark ≡ self.old.mark }
        ensures plays { PlaysAlone (blocking Tr.Conn.Conn) (chosen E.decoded E.encoded
            self.old.encoding.0) Call.Greet self.old.machine self.new.machine (unit_answer result) }
        ensures sound { IsSound Tr.Conn.tells self.new.machine.channel }
    {
        let answer = self
            .machine
            .call_alone(&NoData, alloc, &self.encoding, &Call::Greet);
        self.machine.holds();
        unit(answer)
    }

    /// Logs in: `USER` (230, 331), and where the server asks for a password `PASS` (230). The password is looked at
    /// only then.
    ///
    /// # Errors
    /// Those of a command and its reply: `LineBreak` where CR or LF stands in the user's name or the password.
    pub fn login(&mut self, alloc: Global, user: &str, password: &str) -> FtpResult<()>
        ensures plays { PlaysCommand (blocking Tr.Conn.Conn)
            (login_tree (chosen E.decoded E.encoded self.old.encoding.0) user.now password.now)
            self.old.mark self.new.mark self.old.machine self.new.machine (unit_answer result) }
        ensures counts { CountsFaults Tr.Conn.tells self.old.machine self.new.machine
            (unit_answer result) }
        ensures keeps { Keeps self.old self.new }
    {
        self.perform(alloc, BorrowedCall::Login(user, password))
    }

    /// Changes to this directory: `CWD` (200, 250).
    ///
    /// # Errors
    /// Those of a command and its reply.
    pub fn cwd(&mut self, alloc: Global, path: &str) -> FtpResult<()>
        ensures plays { PlaysCommand (blocking Tr.Conn.Conn)
            (unit_tree (chosen E.decoded E.encoded self.old.encoding.0)
            (Command.Cwd path.now) (Codes.Either Status.CommandOk Status.RequestedFileActionOk))
            self.old.mark self.new.mark self.old.machine self.new.machine (unit_answer result) }
        ensures counts { CountsFaults Tr.Conn.tells self.old.machine self.new.machine
            (unit_answer result) }
        ensures keeps { Keeps self.old self.new }
    {
        self.perform(alloc, BorrowedCall::Cwd(path))
    }

    /// Changes to the directory above: `CDUP` (200, 250).
    ///
    /// # Errors
    /// Those of a command and its reply.
    pub fn cdup(&mut self, alloc: Global) -> FtpResult<()>
        ensures plays { PlaysCommand (blocking Tr.Conn.Conn)
            (unit_tree (chosen E.decoded E.encoded self.old.encoding.0)
            Command.Cdup (Codes.Either Status.CommandOk Status.RequestedFileActionOk))
            self.old.mark self.new.mark self.old.machine self.new.machine (unit_answer result) }
        ensures counts { CountsFaults Tr.Conn.tells self.old.machine self.new.machine
            (unit_answer result) }
        ensures keeps { Keeps self.old self.new }
    {
        self.perform(alloc, BorrowedCall::Cdup)
    }

    /// Does nothing but to have the server answer: `NOOP` (200).
    ///
    /// # Errors
    /// Those of a command and its reply.
    pub fn noop(&mut self, alloc: Global) -> FtpResult<()>
        ensures plays { PlaysCommand (blocking Tr.Conn.Conn)
            (unit_tree (chosen E.decoded E.encoded self.old.encoding.0)
            Command.Noop (Codes.One Status.CommandOk))
            self.old.mark self.new.mark self.old.machine self.new.machine (unit_answer result) }
        ensures counts { CountsFaults Tr.Conn.tells self.old.machine self.new.machine
            (unit_answer result) }
        ensures keeps { Keeps self.old self.new }
    {
        self.perform(alloc, BorrowedCall::Noop)
    }

    /// Comes back into step with a server that has sent more replies than were read, as some do after `ABOR`: `NOOP`, and
    /// replies are read until its own (200), at most eight; those before it are passed over. A 200 among them ends it
    /// early (RFC 959, section 4.1.3).
    ///
    /// # Errors
    /// Those of a command and its reply: `UnexpectedResponse` with a 421 or a 530 (`NOOP` before a login) that is read, or
    /// with the eighth other reply; the session goes on. Beside a live transfer `DataConnectionAlreadyOpen`, and nothing is sent or read.
    pub fn resync(&mut self, alloc: Global) -> FtpResult<()>
        ensures plays { PlaysSeen (blocking Tr.Conn.Conn) (chosen E.decoded E.encoded
            self.old.encoding.0) Call.Resync self.old.mark self.new.mark self.old.machine
            self.new.machine (unit_answer result) }
        ensures counts { CountsFaults Tr.Conn.tells self.old.machine self.new.machine
            (unit_answer result) }
        ensures keeps { Keeps self.old self.new }
    {
        self.perform(alloc, BorrowedCall::Resync)
    }

    /// Names the address that the server is to open data connections to: `EPRT` (200; RFC 2428, section 2).
    ///
    /// # Errors
    /// Those of a command and its reply.
    pub fn eprt(&mut self, alloc: Global, address: SocketAddr) -> FtpResult<()>
        ensures plays { PlaysCommand (blocking Tr.Conn.Conn)
            (unit_tree (chosen E.decoded E.encoded self.old.encoding.0)
            (Command.Eprt address) (Codes.One Status.CommandOk))
            self.old.mark self.new.mark self.old.machine self.new.machine (unit_answer result) }
        ensures counts { CountsFaults Tr.Conn.tells self.old.machine self.new.machine
            (unit_answer result) }
        ensures keeps { Keeps self.old self.new }
    {
        self.perform(alloc, BorrowedCall::Eprt(address))
    }

    /// Sets an option of the server's, to a value or without one: `OPTS` (200; RFC 2389, section 4).
    ///
    /// # Errors
    /// Those of a command and its reply.
    pub fn opts(&mut self, alloc: Global, option: &str, value: Option<&str>) -> FtpResult<()>
        ensures plays { PlaysCommand (blocking Tr.Conn.Conn)
            (unit_tree (chosen E.decoded E.encoded self.old.encoding.0)
            (Command.Opts option.now (option_map (λ text. text.now) value.entry))
            (Codes.One Status.CommandOk)) self.old.mark self.new.mark self.old.machine
            self.new.machine (unit_answer result) }
        ensures counts { CountsFaults Tr.Conn.tells self.old.machine self.new.machine
            (unit_answer result) }
        ensures keeps { Keeps self.old self.new }
    {
        self.perform(alloc, BorrowedCall::Opts(option, value))
    }

    /// Sends a command of the server's own: `SITE` (200).
    ///
    /// # Errors
    /// Those of a command and its reply.
    pub fn site(&mut self, alloc: Global, command: &str) -> FtpResult<Response>
        ensures plays { PlaysCommand (blocking Tr.Conn.Conn)
            (reply_tree (chosen E.decoded E.encoded self.old.encoding.0)
            (Command.Site command.now) (Codes.One Status.CommandOk))
            self.old.mark self.new.mark self.old.machine self.new.machine (reply_answer result) }
        ensures counts { CountsFaults Tr.Conn.tells self.old.machine self.new.machine
            (reply_answer result) }
        ensures keeps { Keeps self.old self.new }
    {
        self.perform_for_reply(alloc, BorrowedCall::Site(command))
    }

    /// Sets the type of data: `TYPE` (200). After it, transfers are of text where the type is ASCII.
    ///
    /// # Errors
    /// Those of a command and its reply.
    pub fn transfer_type(&mut self, alloc: Global, kind: FileType) -> FtpResult<()>
        ensures plays { PlaysCommand (blocking Tr.Conn.Conn)
            (type_tree (chosen E.decoded E.encoded self.old.encoding.0) kind) self.old.mark
            self.new.mark self.old.machine self.new.machine (unit_answer result) }
        ensures counts { CountsFaults Tr.Conn.tells self.old.machine self.new.machine
            (unit_answer result) }
        ensures keeps { Keeps self.old self.new }
    {
        self.perform(alloc, BorrowedCall::TransferType(&kind))
    }

    /// Makes a directory: `MKD` (257, 200).
    ///
    /// # Errors
    /// Those of a command and its reply.
    pub fn mkdir(&mut self, alloc: Global, path: &str) -> FtpResult<()>
        ensures plays { PlaysCommand (blocking Tr.Conn.Conn)
            (unit_tree (chosen E.decoded E.encoded self.old.encoding.0)
            (Command.Mkd path.now) (Codes.Either Status.PathCreated Status.CommandOk))
            self.old.mark self.new.mark self.old.machine self.new.machine (unit_answer result) }
        ensures counts { CountsFaults Tr.Conn.tells self.old.machine self.new.machine
            (unit_answer result) }
        ensures keeps { Keeps self.old self.new }
    {
        self.perform(alloc, BorrowedCall::Mkdir(path))
    }

    /// Removes a directory: `RMD` (250, 200).
    ///
    /// # Errors
    /// Those of a command and its reply.
    pub fn rmdir(&mut self, alloc: Global, path: &str) -> FtpResult<()>
        ensures plays { PlaysCommand (blocking Tr.Conn.Conn)
            (unit_tree (chosen E.decoded E.encoded self.old.encoding.0)
            (Command.Rmd path.now) (Codes.Either Status.RequestedFileActionOk Status.CommandOk))
            self.old.mark self.new.mark self.old.machine self.new.machine (unit_answer result) }
        ensures counts { CountsFaults Tr.Conn.tells self.old.machine self.new.machine
            (unit_answer result) }
        ensures keeps { Keeps self.old self.new }
    {
        self.perform(alloc, BorrowedCall::Rmdir(path))
    }

    /// Deletes a file: `DELE` (250, 200).
    ///
    /// # Errors
    /// Those of a command and its reply.
    pub fn rm(&mut self, alloc: Global, path: &str) -> FtpResult<()>
        ensures plays { PlaysCommand (blocking Tr.Conn.Conn)
            (unit_tree (chosen E.decoded E.encoded self.old.encoding.0)
            (Command.Dele path.now) (Codes.Either Status.RequestedFileActionOk Status.CommandOk))
            self.old.mark self.new.mark self.old.machine self.new.machine (unit_answer result) }
        ensures counts { CountsFaults Tr.Conn.tells self.old.machine self.new.machine
            (unit_answer result) }
        ensures keeps { Keeps self.old self.new }
    {
        self.perform(alloc, BorrowedCall::Rm(path))
    }

    /// Renames a file or directory: `RNFR` (350), then `RNTO` (250, 200). The new name is looked at only after 350.
    ///
    /// # Errors
    /// Those of a command and its reply.
    pub fn rename(&mut self, alloc: Global, from: &str, to: &str) -> FtpResult<()>
        ensures plays { PlaysCommand (blocking Tr.Conn.Conn)
            (rename_tree (chosen E.decoded E.encoded self.old.encoding.0) from.now to.now)
            self.old.mark self.new.mark self.old.machine self.new.machine (unit_answer result) }
        ensures counts { CountsFaults Tr.Conn.tells self.old.machine self.new.machine
            (unit_answer result) }
        ensures keeps { Keeps self.old self.new }
    {
        self.perform(alloc, BorrowedCall::Rename(from, to))
    }

    /// Sets when a file was last changed, in UTC: `MFMT` (213; draft-somers-ftp-mfxx-04, section 3), where `FEAT` names it. The
    /// fraction of a second isn't sent; a year before 0 goes out with its sign, and a server refuses it.
    ///
    /// # Errors
    /// Those of a command and its reply.
    pub fn set_modified(&mut self, alloc: Global, path: &str, moment: DateTime) -> FtpResult<()>
        ensures plays { PlaysCommand (blocking Tr.Conn.Conn)
            (unit_tree (chosen E.decoded E.encoded self.old.encoding.0)
            (Command.Mfmt (time_value moment) path.now) (Codes.One Status.File))
            self.old.mark self.new.mark self.old.machine self.new.machine (unit_answer result) }
        ensures counts { CountsFaults Tr.Conn.tells self.old.machine self.new.machine
            (unit_answer result) }
        ensures keeps { Keeps self.old self.new }
    {
        self.perform(alloc, BorrowedCall::SetModified(path, &moment))
    }

    /// Ends the session: `QUIT` (221).
    ///
    /// # Errors
    /// Those of a command and its reply.
    pub fn quit(&mut self, alloc: Global) -> FtpResult<()>
        ensures plays { PlaysCommand (blocking Tr.Conn.Conn)
            (unit_tree (chosen E.decoded E.encoded self.old.encoding.0)
            Command.Quit (Codes.One Status.Closing))
            self.old.mark self.new.mark self.old.machine self.new.machine (unit_answer result) }
        ensures counts { CountsFaults Tr.Conn.tells self.old.machine self.new.machine
            (unit_answer result) }
        ensures keeps { Keeps self.old self.new }
    {
        self.perform(alloc, BorrowedCall::Quit)
    }

    /// Sends a caller-supplied line and reads its reply, whose status is among the expected.
    ///
    /// # Errors
    /// Those of a command and its reply: `LineBreak` where CR or LF stands in the line.
    pub fn custom_command(
        &mut self,
        alloc: Global,
        line: &str,
        expected: &[Status],
    ) -> FtpResult<Response>
        ensures plays { PlaysCommand (blocking Tr.Conn.Conn)
            (reply_tree (chosen E.decoded E.encoded self.old.encoding.0)
            (Command.Custom line.now) (Codes.Given expected.now))
            self.old.mark self.new.mark self.old.machine self.new.machine (reply_answer result) }
        ensures counts { CountsFaults Tr.Conn.tells self.old.machine self.new.machine
            (reply_answer result) }
        ensures keeps { Keeps self.old self.new }
    {
        self.perform_for_reply(alloc, BorrowedCall::CustomCommand(line, expected))
    }

    /// Reads one reply of this status: that of a command that was dropped, where one is due. Nothing is sent.
    ///
    /// # Errors
    /// Those of a read of one reply.
    pub fn read_response(&mut self, alloc: Global, expected: Status) -> FtpResult<Response>
        ensures plays { PlaysRead (blocking Tr.Conn.Conn) (read_tree (expected ∷ []))
            self.old.mark self.new.mark self.old.machine self.new.machine (reply_answer result) }
        ensures counts { CountsFaults Tr.Conn.tells self.old.machine self.new.machine
            (reply_answer result) }
        ensures keeps { Keeps self.old self.new }
    {
        self.perform_for_reply(alloc, BorrowedCall::ReadResponse(expected))
    }

    /// Reads one reply whose status is among the expected: that of a command that was dropped, where one is due.
    /// Nothing is sent.
    ///
    /// # Errors
    /// Those of a read of one reply.
    pub fn read_response_in(&mut self, alloc: Global, expected: &[Status]) -> FtpResult<Response>
        ensures plays { PlaysRead (blocking Tr.Conn.Conn) (read_tree expected.now)
            self.old.mark self.new.mark self.old.machine self.new.machine (reply_answer result) }
        ensures counts { CountsFaults Tr.Conn.tells self.old.machine self.new.machine
            (reply_answer result) }
        ensures keeps { Keeps self.old self.new }
    {
        self.perform_for_reply(alloc, BorrowedCall::ReadResponseIn(expected))
    }

    /// The next transfer begins at this offset, in bytes (`REST`; RFC 3659, section 5). 0 takes an earlier offset away.
    ///
    /// # Errors
    /// `SessionFailed`; or those of the last reply of a transfer that was left. The offset of before stays.
    pub fn resume_transfer(&mut self, alloc: Global, offset: u64) -> FtpResult<()>
        ensures plays { PlaysCommand (blocking Tr.Conn.Conn) (resume_tree offset)
            self.old.mark self.new.mark self.old.machine self.new.machine (unit_answer result) }
        ensures counts { CountsFaults Tr.Conn.tells self.old.machine self.new.machine
            (unit_answer result) }
        ensures keeps { Keeps self.old self.new }
    {
        self.perform(alloc, BorrowedCall::ResumeTransfer(offset))
    }

    /// Makes a call.
    pub(super) fn call(&mut self, alloc: Global, call: &Call) -> Answer
        requires { IsPlain call.now }
        ensures keeps { Keeps self.old self.new }
        ensures answers { MayAnswer call.now result }
        ensures plays { PlaysSeen (blocking Tr.Conn.Conn) (chosen E.decoded E.encoded
            self.old.encoding.0) call.now self.old.mark self.new.mark self.old.machine
            self.new.machine result }
        ensures counts { CountsFaults Tr.Conn.tells self.old.machine self.new.machine result }
    {
        look(&mut self.machine, &mut self.mark);
        self.machine
            .call_in_step(&NoData, alloc, &self.encoding, call)
    }

    /// Makes a call with arguments of its own. Where memory runs out for them nothing happens.
    pub(super) fn made(&mut self, alloc: Global, call: BorrowedCall<'_>) -> Answer
        requires { IsPlain (call_of call) }
        ensures keeps { Keeps self.old self.new }
        ensures answers { MayAnswer (call_of call.entry) result }
        ensures plays { PlaysSeen (blocking Tr.Conn.Conn) (chosen E.decoded E.encoded
            self.old.encoding.0) (call_of call.entry) self.old.mark self.new.mark self.old.machine
            self.new.machine result }
        ensures counts { CountsFaults Tr.Conn.tells self.old.machine self.new.machine result }
    {
        match call.owned(alloc) {
            Ok(call) => {
                let answer = self.call(alloc, &call);
                drop(call);
                answer
            }
            Err(AllocError) => Answer::Fault(self.withheld_call()),
        }
    }

    /// Makes a call that returns nothing.
    fn perform(&mut self, alloc: Global, call: BorrowedCall<'_>) -> FtpResult<()>
        requires { GivesNothing (call_of call) }
        ensures keeps { Keeps self.old self.new }
        ensures plays { PlaysSeen (blocking Tr.Conn.Conn) (chosen E.decoded E.encoded
            self.old.encoding.0) (call_of call.entry) self.old.mark self.new.mark self.old.machine
            self.new.machine (unit_answer result) }
        ensures row { PlaysOwn (call_of call.entry) (blocking Tr.Conn.Conn)
            (chosen E.decoded E.encoded self.old.encoding.0) self.old.mark self.new.mark
            self.old.machine self.new.machine (unit_answer result) }
        ensures counts { CountsFaults Tr.Conn.tells self.old.machine self.new.machine
            (unit_answer result) }
    {
        unit(self.made(alloc, call))
    }

    /// Makes a call that returns its reply.
    fn perform_for_reply(&mut self, alloc: Global, call: BorrowedCall<'_>) -> FtpResult<Response>
        requires { GivesReply (call_of call) }
        ensures keeps { Keeps self.old self.new }
        ensures plays { PlaysSeen (blocking Tr.Conn.Conn) (chosen E.decoded E.encoded
            self.old.encoding.0) (call_of call.entry) self.old.mark self.new.mark self.old.machine
            self.new.machine (reply_answer result) }
        ensures row { PlaysOwn (call_of call.entry) (blocking Tr.Conn.Conn)
            (chosen E.decoded E.encoded self.old.encoding.0) self.old.mark self.new.mark
            self.old.machine self.new.machine (reply_answer result) }
        ensures counts { CountsFaults Tr.Conn.tells self.old.machine self.new.machine
            (reply_answer result) }
    {
        reply(self.made(alloc, call))
    }

    /// A call isn't made whose arguments found no memory: the session looks, and returns why.
    pub(super) fn withheld_call(&mut self) -> FtpError
        ensures keeps { Keeps self.old self.new }
        ensures plays { (call : Called) → IsPlain call →
            PlaysSeen (blocking Tr.Conn.Conn) (chosen E.decoded E.encoded self.old.encoding.0) call
            self.old.mark self.new.mark self.old.machine self.new.machine (Fault result) }
        ensures counts { CountsFaults Tr.Conn.tells self.old.machine self.new.machine (Fault
            result) }
    {
        look(&mut self.machine, &mut self.mark);
        self.withheld()
    }
}

/// The result of a call that returns nothing.
fn unit(answer: Answer) -> FtpResult<()>
    requires { (call : Called) × MayAnswer call answer × GivesNothing call }
    ensures { unit_answer result ≡ answer }
{
    match answer {
        Answer::Unit => Ok(()),
        Answer::Fault(fault) => Err(fault),
        Answer::Reply(_) => unreachable!(),
        Answer::Text(_) => unreachable!(),
        Answer::Time(_) => unreachable!(),
        Answer::Size(_) => unreachable!(),
        Answer::Features(_) => unreachable!(),
        Answer::Opened => unreachable!(),
        Answer::OpenedWith(_) => unreachable!(),
        Answer::Bytes(_) => unreachable!(),
        Answer::Count(_) => unreachable!(),
        Answer::Lines(_) => unreachable!(),
        Answer::NoTransfer => unreachable!(),
    }
}

/// The result of a call that returns its reply.
fn reply(answer: Answer) -> FtpResult<Response>
    requires { (call : Called) × MayAnswer call answer × GivesReply call }
    ensures { reply_answer result ≡ answer }
{
    match answer {
        Answer::Unit => unreachable!(),
        Answer::Fault(fault) => Err(fault),
        Answer::Reply(reply) => Ok(reply),
        Answer::Text(_) => unreachable!(),
        Answer::Time(_) => unreachable!(),
        Answer::Size(_) => unreachable!(),
        Answer::Features(_) => unreachable!(),
        Answer::Opened => unreachable!(),
        Answer::OpenedWith(_) => unreachable!(),
        Answer::Bytes(_) => unreachable!(),
        Answer::Count(_) => unreachable!(),
        Answer::Lines(_) => unreachable!(),
        Answer::NoTransfer => unreachable!(),
    }
}
