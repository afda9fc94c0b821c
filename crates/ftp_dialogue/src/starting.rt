//! A call begins, or resumes where it stopped: it fails at once, or its dialogue is played.

ghost use Rattle.std.specs.Prelude.{◌≡◌, ◌<◌, ◌⊎◌, None, Some, true, false};
ghost use Rattle.futures.specs.declared.task.Poll.TheVariants as poll;
ghost use Rattle.ftp_transport.specs.Told.{EndsAsTold};
ghost use Rattle.ftp_dialogue.specs.Coding.{Coding, coding_of};
ghost use Rattle.ftp_dialogue.specs.Dialogue.{dialogue};
ghost use Rattle.ftp_calls.specs.Exchanges.{finishes, is_local, is_read, negotiates};
ghost use Rattle.ftp_dialogue.specs.Link.{asking, blocking, polling};
ghost use Rattle.ftp_dialogue.specs.Play.{Lacking};
ghost use Rattle.ftp_dialogue.specs.Promises.{HasFault, Rests, begun_by, refusal_of};
ghost use Rattle.ftp_dialogue.specs.Steps.Polls.{MayPollAt, RefusesFrom, StageIn, StartsTo, entered_at, entered_stage, entered_state, entered_tree, first_stage, is_first, polled_answer};
ghost use Rattle.ftp_dialogue.specs.Steps.Moving.{HasBegun, Made, PollsTo, Steps};
ghost use Rattle.ftp_dialogue.specs.Steps.Stages.{MayAnswer, StageOf, begun_at, remaining};

use super::data_path::DataPath;
use super::machine::Machine;
use super::stage::{AfterClose, OpeningData, Recovery, Stage, go_to};
use super::{Answer, Call, Owed};
use ftp_base::encoding::Encoding;
use ftp_base::types::FtpError;
use ftp_calls::exchange::{Turn, aborts, finishes, negotiates, uploads};
use ftp_transport::{Conn, Network, NeverWaits, PollConn};
use futures::task::Poll;
use std::alloc::Global;
use std::mem;

impl<Tr: Network> Machine<Tr> {
    /// Makes a call, whole, by itself: the last reply of a transfer that was left isn't read first.
    ///
    /// Returns `NoTransfer` where the call is of a transfer and none is held; `SessionFailed` on a session that has
    /// failed; else what the dialogue results in, which is an error where its command has no line, a reply isn't the
    /// one that is expected, a connection fails, or memory runs out.
    pub fn call_alone<E: Encoding, A: DataPath<Tr, NeverWaits>>(
        &mut self,
        data_path: &A,
        alloc: Global,
        encoding: &E,
        call: &Call,
    ) -> Answer
    where
        Tr::Conn: Conn,
        requires may { negotiates call.now ≡ true → A.may_ask }
        requires channel { is_local call.now ≡ false }
        requires blocks { A.may_wait → ⊥ }
        ensures answers { (refusal_of call.now self.old ≡ Lacking → ⊥) → MayAnswer call.now result }
        ensures made { Made (asking (A.builds data_path.now) A.may_wait (blocking Tr.Conn.Conn))
            (coding_of E.decoded E.encoded encoding.now) call.now
            self.old self.new result }
    {
        if let Some(answer) = self.refuse(call) {
            return answer;
        }
        let mut stage = self.enter(call);
        match self.poll_call(
            data_path,
            alloc,
            encoding,
            call,
            &mut stage,
            &mut NeverWaits,
        ) {
            Poll::Ready(answer) => {
                drop(stage);
                self.let_go();
                answer
            }
            Poll::Pending => unreachable!(),
        }
    }

    /// A call begins. One that opens a data connection takes the offset with it; one that brings a transfer to its end
    /// has left it.
    pub(super) fn enter(&mut self, call: &Call) -> Stage
        requires channel { is_local call.now ≡ false }
        ensures state { self.new ≡ begun_by call.now self.old }
        ensures stage { StageOf call.now result }
        ensures begun { begun_at result ≡ false }
        ensures at { result ≡ first_stage call.now self.old.state }
        ensures enters { (coding : Coding) →
            remaining coding call.now self.new.state result ≡ dialogue coding call.now
            self.old.state }
    {
        if negotiates(call) {
            let offset = mem::replace(&mut self.state.settings.restart_offset, 0);
            if matches!(self.state.counts.owed(), Owed::Nothing) {
                self.state.uploads = uploads(call);
            }
            Stage::OpeningData(OpeningData::Negotiating(offset))
        } else if finishes(call) {
            self.state.counts.leave();
            if aborts(call) {
                Stage::Composing(Recovery::Abort)
            } else {
                Stage::Closing(AfterClose::Finishes)
            }
        } else {
            Stage::At(Turn::First)
        }
    }

    /// A call begins where it stands at its beginning.
    fn begin_call(&mut self, call: &Call, stage: &mut Stage)
        requires stage { StageIn (Some call.now) stage.old }
        requires channel { is_local call.now ≡ false }
        ensures stage { StageOf call.now stage.new }
        ensures entered { self.new ≡ entered_at call.now stage.old self.old }
        ensures at { stage.new ≡ entered_stage call.now stage.old self.old.state }
        ensures begun { begun_at stage.new ≡ begun_at stage.old }
        ensures enters { (coding : Coding) →
            remaining coding call.now self.new.state stage.new ≡ entered_tree coding call.now
            stage.old self.old.state }
    {
        if is_first(stage) {
            let first = self.enter(call);
            go_to(stage, first);
        }
    }

    /// Plays a call as far as it gets, unless it fails at once. One that waits may be dropped, or polled again at the
    /// stage that it has reached.
    ///
    /// Returns what `call_alone` does; where the session has failed since the call began `SessionFailed`.
    pub fn poll_started<W, E: Encoding, A: DataPath<Tr, W>>(
        &mut self,
        data_path: &A,
        alloc: Global,
        encoding: &E,
        call: &Call,
        stage: &mut Stage,
        w: &mut W,
    ) -> Poll<Answer>
    where
        Tr::Conn: PollConn<W>,
        requires stage { StageIn (Some call.now) stage.old }
        requires may { negotiates call.now ≡ true → A.may_ask }
        requires channel { is_local call.now ≡ false }
        ensures stage { result ≡ poll.Pending → StageOf call.now stage.new }
        ensures starts { StartsTo (asking (A.builds data_path.now) A.may_wait (polling
            Tr.Conn.PollConn)) Tr.Conn.may_wait (coding_of E.decoded E.encoded encoding.now)
            call.now stage.old
            stage.new self.old self.new result }
    {
        if let Some(answer) = self.refuse_at(call, stage) {
            return Poll::Ready(answer);
        }
        self.poll_taken(data_path, alloc, encoding, call, stage, w)
    }

    /// The answer of a call that isn't made: that of `refuse` where it begins, later that of `failed_since`.
    fn refuse_at(&mut self, call: &Call, stage: &Stage) -> Option<Answer>
        requires channel { is_local call.now ≡ false }
        ensures taken { result ≡ None → (MayPollAt stage.now call.now self.old) ×
            (self.old.channel.failed ≡ false) × (self.new ≡ self.old) }
        ensures refused { (answer : Answer) → result ≡ Some answer →
            RefusesFrom (is_first stage.now) Tr.Conn.tells call.now self.old self.new answer }
    {
        if !is_first(stage) {
            return self.failed_since();
        }
        self.refuse(call)
    }

    /// The answer of a call whose session has failed since it began.
    fn failed_since(&self) -> Option<Answer>
        ensures none { result ≡ None → self.now.channel.failed ≡ false }
        ensures some { (answer : Answer) → result ≡ Some answer →
            (self.now.channel.failed ≡ true) × (answer ≡ Answer.Fault FtpError.SessionFailed) }
    {
        if self.channel.failed() {
            Some(Answer::Fault(FtpError::SessionFailed))
        } else {
            None
        }
    }

    /// Plays a call that doesn't fail at once.
    fn poll_taken<W, E: Encoding, A: DataPath<Tr, W>>(
        &mut self,
        data_path: &A,
        alloc: Global,
        encoding: &E,
        call: &Call,
        stage: &mut Stage,
        w: &mut W,
    ) -> Poll<Answer>
    where
        Tr::Conn: PollConn<W>,
        requires stage { StageIn (Some call.now) stage.old }
        requires may { negotiates call.now ≡ true → A.may_ask }
        requires channel { is_local call.now ≡ false }
        requires going { self.old.channel.failed ≡ false }
        ensures stage { result ≡ poll.Pending → StageOf call.now stage.new }
        ensures polls { let coding = coding_of E.decoded E.encoded encoding.now in
            PollsTo (asking (A.builds data_path.now) A.may_wait (polling Tr.Conn.PollConn)) (begun_at
            stage.old)
            (entered_tree coding call.now stage.old self.old.state)
            (remaining coding call.now (entered_state call.now stage.old self.old.state) stage.new)
            (entered_at call.now stage.old self.old) self.new result }
        ensures rests { result ≡ poll.Pending → is_read call.now ≡ true →
            Rests (asking (A.builds data_path.now) A.may_wait (polling Tr.Conn.PollConn)) self.old
            self.new }
        ensures begun { result ≡ poll.Pending →
            let coding = coding_of E.decoded E.encoded encoding.now in
            HasBegun (asking (A.builds data_path.now) A.may_wait (polling Tr.Conn.PollConn)) (begun_at
            stage.old) (begun_at stage.new)
            (entered_tree coding call.now stage.old self.old.state) (entered_at call.now stage.old
            self.old) self.new }
        ensures fails { self.new.channel.failed ≡ true → (self.old.channel.failed ≡ true) ⊎ HasFault
            (polled_answer result) }
        ensures end { Tr.Conn.tells → Tr.Conn.may_wait →
            EndsAsTold self.old.channel.ended self.new.channel.ended self.old.channel.told }
    {
        self.begin_call(call, stage);
        match self.poll_call(data_path, alloc, encoding, call, stage, w) {
            Poll::Ready(answer) => {
                self.let_go();
                Poll::Ready(answer)
            }
            Poll::Pending => Poll::Pending,
        }
    }
}

/// Whether nothing was made of a call yet.
fn is_first(stage: &Stage) -> bool
    ensures { result ≡ is_first stage.now }
{
    matches!(stage, Stage::At(Turn::First))
}
