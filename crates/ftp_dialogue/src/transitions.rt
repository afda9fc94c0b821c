//! The machine of all dialogues: polled, and blocking as the same poll that never waits.
//!
//! `step` does one node and is the only function that does I/O; `poll_call` makes steps until the call has its answer
//! or the connection waits. A step that waits may be dropped and made again.

ghost use Rattle.std.specs.Prelude.{◌≡◌, ◌<◌, ◌⊎◌, true, false};
ghost use Rattle.futures.specs.declared.task.Poll.TheVariants as poll;
ghost use Rattle.ftp_transport.specs.Told.{EndsAsTold};
ghost use Rattle.ftp_dialogue.specs.Coding.{Coding, coding_of};
ghost use Rattle.ftp_dialogue.specs.Dialogue.{Tree, armed};
ghost use Rattle.ftp_calls.specs.Exchanges.{finishes, is_read, negotiates};
ghost use Rattle.ftp_dialogue.specs.Link.{asking, polling};
ghost use Rattle.ftp_dialogue.specs.Promises.{Rests, failed_from};
ghost use Rattle.ftp_dialogue.specs.Steps.Moving.{BeginsExchange, Concludes, EndsFaulty, HasBegun, MakesStep, PollSteps, after_fault};
ghost use Rattle.ftp_dialogue.specs.Steps.Stages.{PollAnswers, StageAfter, StageOf, StepAnswers, begun_at, nodes_left, remaining, stage_said};

use super::data_path::DataPath;
use super::machine::Machine;
use super::nodes::{Accepted, accept, conclude_fault, wants_memory};
use super::recovering::MOST_PASSED_OVER;
use super::stage::{
    AfterClose, AfterLine, Awaits, OpeningData, Recovery, Stage, Step, Transferring, begin,
    falling_back, go_on, go_to, is_later,
};
use super::{Answer, Call};
use ftp_base::encoding::Encoding;
use ftp_base::types::{FtpError, Response};
use ftp_calls::exchange::{Ending, Turn, finishes, negotiates};
use ftp_control::control::WireLine;
use ftp_transport::{Conn, Network, PollConn};
use futures::task::Poll;
use std::alloc::Global;
use std::mem;

impl<Tr: Network> Machine<Tr> {
    /// One node of a call's dialogue. One that waits may be dropped and made again.
    pub(super) fn step<W, E: Encoding, A: DataPath<Tr, W>>(
        &mut self,
        data_path: &A,
        alloc: Global,
        encoding: &E,
        call: &Call,
        stage: &mut Stage,
        w: &mut W,
    ) -> Step
    where
        Tr::Conn: PollConn<W>,
        requires going { self.old.channel.failed ≡ false }
        requires stage { StageOf call.now stage.old }
        requires may { negotiates call.now ≡ true → A.may_ask }
        ensures waits { result ≡ Step.Pending → Tr.Conn.may_wait ⊎ A.may_wait }
        ensures net { negotiates call.now ≡ false → finishes call.now ≡ false → self.new.net ≡
            self.old.net }
        ensures end { Tr.Conn.tells → Tr.Conn.may_wait →
            EndsAsTold self.old.channel.ended self.new.channel.ended self.old.channel.told }
        ensures makes { MakesStep (asking (A.builds data_path.now) A.may_wait (polling Tr.Conn.PollConn))
            (coding_of E.decoded E.encoded encoding.now) call.now stage.old stage.new self.old
            self.new result }
        ensures rests { result ≡ Step.Pending → is_read call.now ≡ true →
            Rests (asking (A.builds data_path.now) A.may_wait (polling Tr.Conn.PollConn)) self.old
            self.new }
    {
        match mem::replace(stage, Stage::At(Turn::First)) {
            Stage::At(turn) => self.begin_exchange(alloc, encoding, call, turn, stage),
            Stage::Composing(recovery) => self.compose(alloc, encoding, recovery, stage),
            Stage::Saying(line, after) => self.say_line(data_path, line, after, stage, w),
            Stage::Hearing(awaits) => self.hear_reply(
                data_path, alloc, encoding, call, awaits, stage, w,
            ),
            Stage::Seeking(turn, left) => self.seek(data_path, alloc, turn, left, stage, w),
            Stage::SettingOffset(_turn, offset) => self.set_offset(offset),
            Stage::OpeningData(opening_data) => self.open_data(
                data_path,
                call,
                opening_data,
                stage,
                w,
            ),
            Stage::Transferring(transferring) => self.transfer(
                data_path,
                alloc,
                encoding,
                transferring,
                stage,
                w,
            ),
            Stage::Closing(after) => {
                self.close(after, stage);
                Step::Next
            }
        }
    }

    /// The next transfer begins at this offset.
    fn set_offset(&mut self, offset: u64) -> Step
        ensures done { result ≡ Step.Done Answer.Unit }
        ensures armed { self.new ≡ record self.old { state = armed offset self.old.state } }
    {
        self.state.settings.restart_offset = offset;
        Step::Done(Answer::Unit)
    }

    /// An exchange begins.
    fn begin_exchange<E: Encoding>(
        &mut self,
        alloc: Global,
        encoding: &E,
        call: &Call,
        turn: Turn,
        stage: &mut Stage,
    ) -> Step
        requires { StageOf call.now (Stage.At turn) }
        ensures { BeginsExchange (coding_of E.decoded E.encoded encoding.now) call.now turn
            stage.new self.old self.new result }
    {
        match begin(alloc, encoding, call, turn) {
            Ok(next) => {
                go_to(stage, next);
                Step::Next
            }
            Err(fault) => {
                self.abort_dialogue(is_later(turn), &fault);
                Step::Done(Answer::Fault(fault))
            }
        }
    }

    /// A line goes out, after the unsent tail of the one before.
    fn say_line<W, A: DataPath<Tr, W>>(
        &mut self,
        _data_path: &A,
        mut line: Option<WireLine>,
        after: AfterLine,
        stage: &mut Stage,
        w: &mut W,
    ) -> Step
    where
        Tr::Conn: PollConn<W>,
        requires going { self.old.channel.failed ≡ false }
        ensures waits { result ≡ Step.Pending → Tr.Conn.may_wait }
        ensures net { self.new.net ≡ self.old.net }
        ensures end { Tr.Conn.tells → Tr.Conn.may_wait →
            EndsAsTold self.old.channel.ended self.new.channel.ended self.old.channel.told }
        ensures makes { (coding : Coding) (call : Call) → StageOf call (Stage.Saying line after) →
            MakesStep (asking (A.builds _data_path.now) A.may_wait (polling Tr.Conn.PollConn)) coding
            call (Stage.Saying line after) stage.new self.old self.new result }
    {
        let performed = self.channel.poll_perform(&mut line, w);
        self.failures.note_control(self.channel.failed());
        match performed {
            Poll::Ready(Ok(())) => {
                go_to(stage, stage_said(after));
                Step::Next
            }
            Poll::Ready(Err(fault)) => {
                drop(after);
                Step::Done(Answer::Fault(fault))
            }
            Poll::Pending => {
                go_to(stage, Stage::Saying(line, after));
                Step::Pending
            }
        }
    }

    /// The reply of an exchange is read and accepted. Out of memory after the dialogue has begun fails the session.
    fn hear_reply<W, E: Encoding, A: DataPath<Tr, W>>(
        &mut self,
        data_path: &A,
        alloc: Global,
        encoding: &E,
        call: &Call,
        awaits: Awaits,
        stage: &mut Stage,
        w: &mut W,
    ) -> Step
    where
        Tr::Conn: PollConn<W>,
        requires going { self.old.channel.failed ≡ false }
        requires stage { StageOf call.now (Stage.Hearing awaits) }
        ensures waits { result ≡ Step.Pending → Tr.Conn.may_wait ⊎ A.may_wait }
        ensures net { self.new.net ≡ self.old.net }
        ensures end { Tr.Conn.tells → Tr.Conn.may_wait →
            EndsAsTold self.old.channel.ended self.new.channel.ended self.old.channel.told }
        ensures makes { MakesStep (asking (A.builds data_path.now) A.may_wait (polling Tr.Conn.PollConn))
            (coding_of E.decoded E.encoded encoding.now) call.now (Stage.Hearing awaits) stage.new
            self.old self.new result }
        ensures rests { result ≡ Step.Pending → Rests (asking (A.builds data_path.now) A.may_wait
            (polling Tr.Conn.PollConn)) self.old self.new }
    {
        match self.hear_codes(data_path, alloc, &awaits.hears, w) {
            Poll::Ready(Ok(reply)) => self.accept_reply(
                alloc, encoding, call, awaits, reply, stage,
            ),
            Poll::Ready(Err(fault)) => {
                drop(awaits.hears);
                Step::Done(self.end_dialogue(awaits.begun, awaits.ending, fault))
            }
            Poll::Pending => {
                go_to(stage, Stage::Hearing(awaits));
                Step::Pending
            }
        }
    }

    /// A reply is accepted. Out of memory fails the session, since the reply was consumed.
    fn accept_reply<E: Encoding>(
        &mut self,
        alloc: Global,
        encoding: &E,
        call: &Call,
        awaits: Awaits,
        reply: Response,
        stage: &mut Stage,
    ) -> Step
        requires stage { StageOf call.now (Stage.Hearing awaits) }
        ensures stage { StageAfter call.now stage.new result }
        ensures moves { result ≡ Step.Pending → ⊥ }
        ensures net { self.new.net ≡ self.old.net }
        ensures end { self.new.channel.ended ≡ self.old.channel.ended }
        ensures answers { StepAnswers call.now result }
        ensures fewer { result ≡ Step.Next →
            nodes_left stage.new < nodes_left (Stage.Hearing awaits) }
        ensures concludes { let coding = coding_of E.decoded E.encoded encoding.now in
            Concludes coding call.now awaits reply stage.new self.old self.new result }
        ensures goes_on { result ≡ Step.Next → begun_at stage.new ≡ true }
    {
        drop(awaits.hears);
        match accept(alloc, encoding, awaits.ending, reply, &mut self.state) {
            Accepted::Done(answer) => Step::Done(answer),
            Accepted::GoesOn => go_on(call, awaits.turn, stage),
            Accepted::Asks(asking) => {
                go_to(
                    stage,
                    Stage::OpeningData(OpeningData::Asking(awaits.turn, asking)),
                );
                Step::Next
            }
            Accepted::FallsBack => {
                self.failures.note_refused_epsv();
                go_to(stage, Stage::At(falling_back(awaits.turn)));
                Step::Next
            }
            Accepted::Performs(task) => {
                go_to(stage, Stage::Transferring(Transferring::Starting(task)));
                Step::Next
            }
            Accepted::NoMemory => {
                self.channel.fail();
                Step::Done(Answer::Fault(FtpError::OutOfMemory))
            }
        }
    }

    /// A dialogue ends with an error: out of memory after it has begun fails the session.
    pub(super) fn abort_dialogue(&mut self, begun: bool, fault: &FtpError)
        ensures { self.new ≡ after_fault begun fault.now self.old }
    {
        if wants_memory(fault) && begun {
            self.channel.fail();
        }
    }

    /// Memory ran out after a reply was consumed: the session has failed.
    pub(super) fn lack_memory(&mut self) -> Step
        ensures done { result ≡ Step.Done (Answer.Fault FtpError.OutOfMemory) }
        ensures failed { self.new ≡ failed_from self.old }
    {
        self.channel.fail();
        Step::Done(Answer::Fault(FtpError::OutOfMemory))
    }

    /// A dialogue ends with an error in place of a reply: what is returned, and what it leaves.
    fn end_dialogue(&mut self, begun: bool, ending: Ending, fault: FtpError) -> Answer
        ensures { EndsFaulty begun ending fault self.old self.new result }
    {
        self.abort_dialogue(begun, &fault);
        conclude_fault(begun, ending, fault, &mut self.state)
    }

    /// Plays a call as far as it gets.
    pub(super) fn poll_call<W, E: Encoding, A: DataPath<Tr, W>>(
        &mut self,
        data_path: &A,
        alloc: Global,
        encoding: &E,
        call: &Call,
        stage: &mut Stage,
        w: &mut W,
    ) -> Poll<Answer>
    where
        Tr::Conn: PollConn<W>,
        requires going { self.old.channel.failed ≡ false }
        requires stage { StageOf call.now stage.old }
        requires may { negotiates call.now ≡ true → A.may_ask }
        ensures stage { result ≡ poll.Pending → StageOf call.now stage.new }
        ensures waits { result ≡ poll.Pending → Tr.Conn.may_wait ⊎ A.may_wait }
        ensures net { negotiates call.now ≡ false → finishes call.now ≡ false → self.new.net ≡
            self.old.net }
        ensures end { Tr.Conn.tells → Tr.Conn.may_wait →
            EndsAsTold self.old.channel.ended self.new.channel.ended self.old.channel.told }
        ensures answers { PollAnswers call.now result }
        ensures rests { result ≡ poll.Pending → is_read call.now ≡ true →
            Rests (asking (A.builds data_path.now) A.may_wait (polling Tr.Conn.PollConn)) self.old
            self.new }
        ensures begun { result ≡ poll.Pending →
            let coding = coding_of E.decoded E.encoded encoding.now in
            HasBegun (asking (A.builds data_path.now) A.may_wait (polling Tr.Conn.PollConn)) (begun_at
            stage.old) (begun_at stage.new)
            (remaining coding call.now self.old.state stage.old) self.old self.new }
        ensures polls { let coding = coding_of E.decoded E.encoded encoding.now in
            PollSteps (asking (A.builds data_path.now) A.may_wait (polling Tr.Conn.PollConn)) (begun_at
            stage.old)
            (remaining coding call.now self.old.state stage.old)
            (remaining coding call.now self.old.state stage.new) self.old self.new result }
    {
        loop {
            match self.step(data_path, alloc, encoding, call, stage, w) {
                Step::Next => {}
                Step::Pending => return Poll::Pending,
                Step::Done(answer) => return Poll::Ready(answer),
            }
        }
    }
}

/// What follows a line that has gone out.
fn stage_said(after: AfterLine) -> Stage
    ensures { result ≡ stage_said after }
{
    match after {
        AfterLine::Hears(awaits) => Stage::Hearing(Awaits {
            begun: true,
            ..awaits
        }),
        AfterLine::Recovers(Recovery::Abort) => Stage::Closing(AfterClose::Aborts),
        AfterLine::Recovers(Recovery::Resync(turn)) => Stage::Seeking(turn, MOST_PASSED_OVER),
    }
}
