//! What a session sends beside the exchanges of a call, to recover (RFC 959, section 4.1.3).
//!
//! `ABOR` aborts a transfer: it goes out, the data connection is closed, and what the server replies is read. The
//! transfer has been left since the call began, so that nothing but its count is to be done once the replies are read;
//! where `ABOR` can't go out it stays so. `NOOP` brings a session whose server has sent more replies than were read back
//! into step: it goes out, and replies are read until its own.

ghost use Rattle.std.specs.Prelude.{◌≡◌, false};
ghost use Rattle.ftp_calls.specs.declared.call.Call.{Call};
ghost use Rattle.ftp_transport.specs.Told.{EndsAsTold};
ghost use Rattle.ftp_dialogue.specs.Coding.{Coding, coding_of};
ghost use Rattle.ftp_dialogue.specs.Dialogue.{ends_search};
ghost use Rattle.ftp_dialogue.specs.Link.{asking, polling};
ghost use Rattle.ftp_dialogue.specs.Steps.Moving.{Composes, MakesStep};
ghost use Rattle.ftp_dialogue.specs.Steps.Stages.{FollowsSought, StageOf, begun_for, command_of, is_barred, is_out};

use super::data_path::DataPath;
use super::machine::Machine;
use super::stage::{AfterLine, Recovery, Stage, Step, go_to, is_later, line_of};
use super::{Answer, Owed, State};
use ftp_base::command::Command;
use ftp_base::encoding::Encoding;
use ftp_base::status::Status;
use ftp_base::types::{FtpError, Response};
use ftp_calls::exchange::Turn;
use ftp_transport::{Network, PollConn};
use futures::task::Poll;
use std::alloc::Global;

/// So many replies may come before that to `NOOP`.
pub(super) const MOST_PASSED_OVER: u64 = 7;

impl<Tr: Network> Machine<Tr> {
    /// A command is put into a line; `NOOP` isn't beside a live transfer.
    pub(super) fn compose<E: Encoding>(
        &mut self,
        alloc: Global,
        encoding: &E,
        recovery: Recovery,
        stage: &mut Stage,
    ) -> Step
        ensures { Composes (coding_of E.decoded E.encoded encoding.now) recovery stage.new
            self.old self.new result }
    {
        if is_barred(&recovery, &self.state) {
            return Step::Done(Answer::Fault(FtpError::DataConnectionAlreadyOpen));
        }
        match line_of(alloc, encoding, command_of(&recovery)) {
            Ok(line) => {
                go_to(
                    stage,
                    Stage::Saying(Some(line), AfterLine::Recovers(recovery)),
                );
                Step::Next
            }
            Err(fault) => {
                self.abort_dialogue(begun_for(&recovery), &fault);
                Step::Done(Answer::Fault(fault))
            }
        }
    }

    /// A reply is read: that to `NOOP`, or one before it.
    pub(super) fn seek<W, A: DataPath<Tr, W>>(
        &mut self,
        data_path: &A,
        alloc: Global,
        turn: Turn,
        left: u64,
        stage: &mut Stage,
        w: &mut W,
    ) -> Step
    where
        Tr::Conn: PollConn<W>,
        requires going { self.old.channel.failed ≡ false }
        ensures waits { result ≡ Step.Pending → Tr.Conn.may_wait }
        ensures net { self.new.net ≡ self.old.net }
        ensures end { Tr.Conn.tells → Tr.Conn.may_wait →
            EndsAsTold self.old.channel.ended self.new.channel.ended self.old.channel.told }
        ensures makes { (coding : Coding) (call : Call) → StageOf call (Stage.Seeking turn left) →
            MakesStep (asking (A.builds data_path.now) A.may_wait (polling Tr.Conn.PollConn)) coding
            call (Stage.Seeking turn left) stage.new self.old self.new result }
    {
        match self.hear(data_path, alloc, &[Status::CommandOk], w) {
            Poll::Ready(Ok(_reply)) => Step::Done(Answer::Unit),
            Poll::Ready(Err(fault)) => {
                self.abort_dialogue(true, &fault);
                follow_reply(turn, left, fault, stage)
            }
            Poll::Pending => {
                go_to(stage, Stage::Seeking(turn, left));
                Step::Pending
            }
        }
    }
}

/// The command by which a session recovers.
fn command_of(recovery: &Recovery) -> Command
    ensures { result ≡ command_of recovery.now }
{
    match recovery {
        Recovery::Abort => Command::Abor,
        Recovery::Resync(_) => Command::Noop,
    }
}

/// Whether something of the dialogue was sent or consumed before it.
fn begun_for(recovery: &Recovery) -> bool
    ensures { result ≡ begun_for recovery.now }
{
    match recovery {
        Recovery::Abort => false,
        Recovery::Resync(turn) => is_later(*turn),
    }
}

/// Whether a live transfer keeps it from being sent.
fn is_barred(recovery: &Recovery, state: &State) -> bool
    ensures { result ≡ is_barred recovery.now state.now }
{
    match recovery {
        Recovery::Abort => false,
        Recovery::Resync(_) => matches!(state.counts.owed(), Owed::Live(_)),
    }
}

/// What follows a reply of another status, or an error in its place.
fn follow_reply(turn: Turn, left: u64, fault: FtpError, stage: &mut Stage) -> Step
    ensures { FollowsSought turn left fault stage.new result }
{
    match fault {
        FtpError::UnexpectedResponse(reply) => {
            if left == 0 || ends_search(&reply) {
                return Step::Done(Answer::Fault(FtpError::UnexpectedResponse(reply)));
            }
            drop(reply);
            go_to(stage, Stage::Seeking(turn, left - 1));
            Step::Next
        }
        fault => Step::Done(Answer::Fault(fault)),
    }
}

/// Whether the server closes the connection by this reply (421), or refuses `NOOP` itself, as some do before a login (530).
fn ends_search(reply: &Response) -> bool
    ensures { result ≡ ends_search reply.now }
{
    let code = reply.status.code();
    code == Status::NotAvailable.code() || code == Status::NotLoggedIn.code()
}

/// Whether `ABOR` has gone out whole, where the call is an abort.
pub(super) fn is_out(stage: &Stage) -> bool
    ensures { result ≡ is_out stage.now }
{
    !matches!(
        stage,
        Stage::Composing(_) | Stage::Saying(_, AfterLine::Recovers(_)) | Stage::At(Turn::First)
    )
}
