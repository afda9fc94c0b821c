//! A reply is read, and accepted.
//!
//! Each is one step on the channel or on the session's state, with a contract that says what the dialogue's tree says
//! of it, for whatever comes after it (`(next : ..) → ..`).

ghost use Rattle.std.specs.Prelude.{◌≡◌, Result, false, if◌then◌else◌};
ghost use Rattle.futures.specs.declared.task.Poll.TheVariants as poll;
ghost use Rattle.ftp_base.specs.declared.types.reply.Response.{Response as Heard};
ghost use Rattle.ftp_base.specs.declared.types.fault.FtpError.{FtpError as Faults};
ghost use Rattle.ftp_transport.specs.Told.{EndsAsTold};
ghost use Rattle.ftp_dialogue.specs.Coding.{Coding, coding_of};
ghost use Rattle.ftp_dialogue.specs.Dialogue.{Tree, after_fault_of, drain_answer, expected_of, expecting, opened_answer, wants_memory};
ghost use Rattle.ftp_dialogue.specs.declared.state.State.{State as States};
ghost use Rattle.ftp_dialogue.specs.Link.{asking, polling};
ghost use Rattle.ftp_dialogue.specs.Reading.{LeavesReply};
ghost use Rattle.ftp_dialogue.specs.Steps.Moving.{Accepts, AnswersAs, FaultLeaves, Hears, done_as};

use super::answers::{features_answer, line_answer, path_answer, size_answer, time_answer};
use super::data_path::DataPath;
use super::machine::Machine;
use super::stage::{Asking, Opened};
use super::{Answer, State};
use ftp_base::encoding::{Encoding, WelcomeMessage};
use ftp_base::status::Status;
use ftp_base::types::{ConnectionError, FtpError, FtpResult, Mode, Response};
use ftp_calls::answers::{NoAddress, read_extended_port, read_passive_address};
use ftp_calls::exchange::{Codes, Ending, Task};
use ftp_control::control::{ReplyForm, form_of};
use ftp_transport::{Network, PollConn};
use futures::task::Poll;
use std::alloc::{AllocError, Global};
use std::io::ErrorKind;

impl<Tr: Network> Machine<Tr> {
    /// Reads a reply of one of these statuses. A read that waits may be dropped and made again.
    ///
    /// # Errors
    /// `UnexpectedResponse` where its status is another, `BadResponse` where its first line opens no reply; the error
    /// of the connection, the end of its input, or a reply that is too large, each of which fails the session;
    /// `OutOfMemory`.
    pub fn hear<W, A: DataPath<Tr, W>>(
        &mut self,
        data_path: &A,
        alloc: Global,
        expected: &[Status],
        w: &mut W,
    ) -> Poll<FtpResult<Response>>
    where
        Tr::Conn: PollConn<W>,
        requires { self.old.channel.failed ≡ false }
        ensures waits { result ≡ poll.Pending → Tr.Conn.may_wait }
        ensures net { self.new.net ≡ self.old.net }
        ensures end { Tr.Conn.tells → Tr.Conn.may_wait →
            EndsAsTold self.old.channel.ended self.new.channel.ended self.old.channel.told }
        ensures hears { (next : Result Heard Faults → Tree) →
            Hears (asking (A.builds data_path.now) A.may_wait (polling Tr.Conn.PollConn)) (expecting
            expected.now) next self.old self.new result }
        ensures leaves { LeavesReply self.old self.new result }
    {
        self.hear_reply_of(data_path, alloc, form_of(expected), expected, w)
    }

    /// Reads a reply of this form and one of these statuses, by the rule by which it began, or by the setting where it
    /// begins.
    fn hear_reply_of<W, A: DataPath<Tr, W>>(
        &mut self,
        _data_path: &A,
        alloc: Global,
        form: ReplyForm,
        expected: &[Status],
        w: &mut W,
    ) -> Poll<FtpResult<Response>>
    where
        Tr::Conn: PollConn<W>,
        requires { self.old.channel.failed ≡ false }
        ensures waits { result ≡ poll.Pending → Tr.Conn.may_wait }
        ensures net { self.new.net ≡ self.old.net }
        ensures end { Tr.Conn.tells → Tr.Conn.may_wait →
            EndsAsTold self.old.channel.ended self.new.channel.ended self.old.channel.told }
        ensures hears { (next : Result Heard Faults → Tree) →
            Hears (asking (A.builds _data_path.now) A.may_wait (polling Tr.Conn.PollConn)) (record {
              form = form;
              statuses = expected.now;
            })
            next self.old self.new result }
        ensures leaves { LeavesReply self.old self.new result }
    {
        self.channel.set_rule(self.state.settings.reply_rule);
        let reply = self.channel.poll_read_reply(alloc, form, expected, w);
        self.failures.note_control(self.channel.failed());
        reply
    }

    /// Reads the reply that an exchange awaits.
    pub(super) fn hear_codes<W, A: DataPath<Tr, W>>(
        &mut self,
        data_path: &A,
        alloc: Global,
        codes: &Codes,
        w: &mut W,
    ) -> Poll<FtpResult<Response>>
    where
        Tr::Conn: PollConn<W>,
        requires { self.old.channel.failed ≡ false }
        ensures waits { result ≡ poll.Pending → Tr.Conn.may_wait }
        ensures net { self.new.net ≡ self.old.net }
        ensures end { Tr.Conn.tells → Tr.Conn.may_wait →
            EndsAsTold self.old.channel.ended self.new.channel.ended self.old.channel.told }
        ensures hears { (next : Result Heard Faults → Tree) →
            Hears (asking (A.builds data_path.now) A.may_wait (polling Tr.Conn.PollConn)) (expected_of
            codes.now) next self.old self.new result }
    {
        match codes {
            Codes::One(status) => self.hear(data_path, alloc, &[*status], w),
            Codes::Either(one, other) => self.hear(data_path, alloc, &[*one, *other], w),
            Codes::Given(statuses) => self.hear(data_path, alloc, statuses.as_slice(), w),
            Codes::Features => self.hear_reply_of(
                data_path,
                alloc,
                ReplyForm::Features,
                &[Status::System],
                w,
            ),
        }
    }
}

/// What an accepted reply results in.
#[derive(Drop)]
pub(crate) enum Accepted {
    /// The next exchange.
    GoesOn,
    /// The transport is asked, or an address looked up, before the next exchange or the answer.
    Asks(Asking),
    /// `EPSV` was refused, and `PASV` follows.
    FallsBack,
    /// A whole file or listing goes over the data connection.
    Performs(Task),
    /// The answer.
    Done(Answer),
    /// There was no memory for the answer, and nothing changed.
    NoMemory,
}

/// Accepts a reply: the answer and the change of state, or the next exchange.
pub(crate) fn accept<E: Encoding>(
    alloc: Global,
    encoding: &E,
    ending: Ending,
    reply: Response,
    state: &mut State,
) -> Accepted
    ensures accepts { Accepts (coding_of E.decoded E.encoded encoding.now) ending reply state.old
        state.new result }
    ensures answers { AnswersAs ending result }
{
    match ending {
        Ending::Done => Accepted::Done(Answer::Unit),
        Ending::GivesReply => Accepted::Done(Answer::Reply(reply)),
        Ending::TakesReply => {
            state.answer(&reply);
            Accepted::Done(Answer::Reply(reply))
        }
        Ending::Greets => greeted(alloc, encoding, reply, state),
        Ending::GivesPath => done(path_answer(alloc, encoding, reply)),
        Ending::GivesSecondLine => done(line_answer(alloc, encoding, &reply)),
        Ending::GivesTime => Accepted::Done(time_answer(&reply)),
        Ending::GivesSize => Accepted::Done(size_answer(&reply)),
        Ending::GivesFeatures => done(features_answer(alloc, &reply)),
        Ending::SetsText(text) => {
            state.settings.text = text;
            Accepted::Done(Answer::Unit)
        }
        Ending::Continues => Accepted::GoesOn,
        Ending::GivesAddress => address_told(reply, state),
        Ending::GivesPort(tries) => port_told(tries, reply),
        Ending::Opens(gives_reply) => opens(gives_reply, reply, state),
        Ending::Performs(task) => performs(task, state),
        Ending::Finishes(close) => finished(close, state),
        Ending::Drains => {
            state.counts.drain();
            Accepted::Done(Answer::Unit)
        }
        Ending::Stops => aborted(&reply, state),
        Ending::GoesOn(status) => goes_on(status, &reply),
    }
}

/// The answer, where there was memory for it.
fn done(answer: Result<Answer, AllocError>) -> Accepted
    ensures { result ≡ done_as answer }
{
    match answer {
        Ok(answer) => Accepted::Done(answer),
        Err(AllocError) => Accepted::NoMemory,
    }
}

/// The server's greeting is kept, where there is memory for it.
fn greeted<E: Encoding>(alloc: Global, encoding: &E, reply: Response, state: &mut State) -> Accepted
    ensures accepts { Accepts (coding_of E.decoded E.encoded encoding.now) Ending.Greets reply
        state.old state.new result }
    ensures answers { AnswersAs Ending.Greets result }
{
    match WelcomeMessage::new(alloc, reply.body, encoding) {
        Ok(welcome) => {
            state.welcome = Some(welcome);
            Accepted::Done(Answer::Unit)
        }
        Err(fault) => {
            drop(fault);
            Accepted::NoMemory
        }
    }
}

/// A reply of this status goes on to the next exchange; with another the call is done.
fn goes_on(status: Status, reply: &Response) -> Accepted
    ensures accepts { (coding : Coding) (state : States) →
        Accepts coding (Ending.GoesOn status) reply.now state state result }
    ensures answers { AnswersAs (Ending.GoesOn status) result }
{
    if reply.status.code() == status.code() {
        return Accepted::GoesOn;
    }
    Accepted::Done(Answer::Unit)
}

/// The transfer was aborted; after 426 another reply follows.
fn aborted(reply: &Response, state: &mut State) -> Accepted
    ensures accepts { (coding : Coding) →
        Accepts coding Ending.Stops reply.now state.old state.new result }
    ensures answers { AnswersAs Ending.Stops result }
{
    if reply.status.code() == Status::TransferAborted.code() {
        return Accepted::GoesOn;
    }
    state.counts.abort();
    Accepted::Done(Answer::Unit)
}

/// The reply holds the address to connect to. Behind a router that rewrites addresses its host is the control peer's.
fn address_told(reply: Response, state: &State) -> Accepted
    ensures accepts { (coding : Coding) →
        Accepts coding Ending.GivesAddress reply state.now state.now result }
    ensures answers { AnswersAs Ending.GivesAddress result }
{
    match read_passive_address(reply.body.as_slice()) {
        Ok(address) => {
            if state.settings.passive_nat_workaround {
                Accepted::Asks(Asking::PeerPort(address.port()))
            } else {
                Accepted::Asks(Asking::Connection(address))
            }
        }
        Err(NoAddress::Absent) => Accepted::Done(Answer::Fault(FtpError::UnexpectedResponse(
            reply,
        ))),
        Err(NoAddress::Unreadable) => Accepted::Done(Answer::Fault(FtpError::BadResponse)),
    }
}

/// The reply holds the port to connect to, or refuses `EPSV`.
fn port_told(tries: bool, reply: Response) -> Accepted
    ensures accepts { (coding : Coding) (state : States) →
        Accepts coding (Ending.GivesPort tries) reply state state result }
    ensures answers { AnswersAs (Ending.GivesPort tries) result }
{
    if tries && reply.status.code() != Status::ExtendedPassiveMode.code() {
        drop(reply);
        return Accepted::FallsBack;
    }
    match read_extended_port(reply.body.as_slice()) {
        Ok(port) => Accepted::Asks(Asking::PeerPort(port)),
        Err(NoAddress::Absent) => Accepted::Done(Answer::Fault(FtpError::UnexpectedResponse(
            reply,
        ))),
        Err(NoAddress::Unreadable) => Accepted::Done(Answer::Fault(FtpError::BadResponse)),
    }
}

/// The answer of a call that opens a data connection.
fn opened(gives_reply: bool, reply: Response) -> Answer
    ensures { result ≡ opened_answer gives_reply reply }
{
    if gives_reply {
        Answer::OpenedWith(reply)
    } else {
        Answer::Opened
    }
}

/// The transfer has come to its end; the answer is this error of its close, if there is one.
fn finished(close: Option<ErrorKind>, state: &mut State) -> Accepted
    ensures accepts { (coding : Coding) (reply : Heard) →
        Accepts coding (Ending.Finishes close) reply state.old state.new result }
    ensures answers { AnswersAs (Ending.Finishes close) result }
{
    state.counts.finish();
    match close {
        None => Accepted::Done(Answer::Unit),
        Some(kind) => Accepted::Done(Answer::Fault(FtpError::ConnectionError(ConnectionError::Io(
            kind,
        )))),
    }
}

/// The answer where an error was read in place of a reply, and what it leaves. Where memory ran out nothing changes,
/// but that an abort which has begun is one.
pub(crate) fn conclude_fault(
    begun: bool,
    ending: Ending,
    fault: FtpError,
    state: &mut State,
) -> Answer
    ensures { FaultLeaves begun ending fault state.old state.new result }
{
    if wants_memory(&fault) {
        abort_without_reply(begun, ending, state);
        return Answer::Fault(fault);
    }
    match ending {
        Ending::Finishes(close) => {
            state.counts.finish();
            match close {
                None => Answer::Fault(fault),
                Some(kind) => {
                    drop(fault);
                    Answer::Fault(FtpError::ConnectionError(ConnectionError::Io(kind)))
                }
            }
        }
        Ending::Drains => {
            state.counts.drain();
            drain_answer(fault)
        }
        Ending::Stops => {
            state.counts.abort();
            Answer::Fault(fault)
        }
        Ending::TakesReply => {
            state.answer_faulty(&fault);
            Answer::Fault(fault)
        }
        other => {
            drop(other);
            Answer::Fault(fault)
        }
    }
}

/// Memory ran out for a reply: an abort that has begun is one, and nothing else changes.
fn abort_without_reply(begun: bool, ending: Ending, state: &mut State)
    ensures { state.new ≡ (if begun then after_fault_of ending FtpError.OutOfMemory state.old else
        state.old) }
{
    match ending {
        Ending::Stops => {
            if begun {
                state.counts.abort();
            }
        }
        other => drop(other),
    }
}

/// The answer where an error was read in place of the last reply of a transfer that was left: a reply of another
/// status ends the transfer as well.
fn drain_answer(fault: FtpError) -> Answer
    ensures { result ≡ drain_answer fault }
{
    match fault {
        FtpError::UnexpectedResponse(_reply) => Answer::Unit,
        fault => Answer::Fault(fault),
    }
}

/// Whether memory ran out.
pub(super) fn wants_memory(fault: &FtpError) -> bool
    ensures { result ≡ wants_memory fault.now }
{
    matches!(fault, FtpError::OutOfMemory)
}

/// The command was accepted: the data connection stands, but for TLS, or the server opens it now.
fn opens(gives_reply: bool, reply: Response, state: &mut State) -> Accepted
    ensures accepts { (coding : Coding) →
        Accepts coding (Ending.Opens gives_reply) reply state.old state.new result }
    ensures answers { AnswersAs (Ending.Opens gives_reply) result }
{
    let answer = opened(gives_reply, reply);
    match state.settings.mode {
        Mode::Active => Accepted::Asks(Asking::Peer(Opened::Gives(answer))),
        Mode::Passive | Mode::ExtendedPassive | Mode::Automatic => {
            if state.settings.secure {
                return Accepted::Asks(Asking::Securing(Opened::Gives(answer)));
            }
            state.counts.open();
            Accepted::Done(answer)
        }
    }
}

/// The command was accepted, and a whole file or listing goes over the data connection.
fn performs(task: Task, state: &State) -> Accepted
    ensures accepts { (coding : Coding) (reply : Heard) →
        Accepts coding (Ending.Performs task) reply state.now state.now result }
    ensures answers { AnswersAs (Ending.Performs task) result }
{
    match state.settings.mode {
        Mode::Active => Accepted::Asks(Asking::Peer(Opened::Performs(task))),
        Mode::Passive | Mode::ExtendedPassive | Mode::Automatic => {
            if state.settings.secure {
                return Accepted::Asks(Asking::Securing(Opened::Performs(task)));
            }
            Accepted::Performs(task)
        }
    }
}
