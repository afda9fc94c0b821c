//! Calls that are polled, as the polled client makes them.
//!
//! A call under way is a value. Its first poll looks at the mark of the transfer that was handed out, and each later one
//! before which it still waited for replies to commands that were dropped: a transfer that was left by then has its last
//! reply read before the call sends or receives anything of its own, however many polls that takes. A call that waits may be polled again or dropped; a transfer that it holds is left then.

ghost use Rattle.std.specs.Prelude.{◌≡◌, ◌⊎◌, Some, true, false};
ghost use Rattle.futures.specs.declared.task.Poll.TheVariants as poll;
ghost use Rattle.ftp_dialogue.specs.Coding.{chosen, coding_of};
ghost use Rattle.ftp_dialogue.specs.Link.{asking, built_by, polling};
ghost use Rattle.ftp_dialogue.specs.Promises.{failed_from};
ghost use Rattle.ftp_dialogue.specs.State.{with_settings};
ghost use Rattle.ftp_dialogue.specs.Steps.Moving.{withheld};
ghost use Rattle.ftp_dialogue.specs.Steps.Polls.{StageIn, StartsTo};
ghost use Rattle.ftp_calls.specs.Exchanges.{is_local};
ghost use Rattle.ftp_calls.specs.Kinds.{IsPlain};
ghost use Rattle.ftp_dialogue.specs.PollCauses.{CausesPoll, kept_error};
ghost use Rattle.ftp_session.specs.Polled.{CountsPoll, Drops, LooksFirst, PollsCall, PollsInStep, PollsNext};
ghost use Rattle.ftp_session.specs.Kept.{Keeps};

use super::client::Session;
use super::looking::look;
use super::{Answer, Call};
use ftp_base::encoding::Encoding;
use ftp_base::types::{ConnectionError, FtpError};
use ftp_calls::exchange::{Turn, drains, is_local};
use ftp_dialogue::data_path::PolledData;
use ftp_dialogue::machine::Machine;
use ftp_dialogue::stage::Stage;
use ftp_dialogue::unless_unit;
use ftp_transfer::mark::SessionEnd;
use ftp_transport::{Network, PassiveStreamBuilder, PollConn, PollTransport};
use futures::task::Poll;
use std::alloc::Global;
use std::marker::Model;
use std::mem;

/// A call under way, and where it stands.
pub struct PolledCall {
    call: Call,
    looks: bool,
    over: bool,
    stage: Stage,
}

impl Drop for PolledCall {
    fn drop(self) {
        let Self {
            call,
            looks: _,
            over: _,
            stage,
        } = self;
        drop(call);
        drop(stage);
    }
}

impl Model for PolledCall {
    ghost use Rattle.std.specs.Prelude.{◌≡◌, Some, false};
    ghost use Rattle.ftp_calls.specs.Exchanges.{is_local};
    ghost use Rattle.ftp_dialogue.specs.Steps.Polls.{StageIn};
    ghost use Rattle.ftp_session.specs.Polled.{UnderWay};

    ghost Value = { UnderWay };

    ghost view = { λ p. record {
      call = p.call;
      looks = p.looks;
      over = p.over;
      stage = p.stage;
    } };

    ghost invariant = { λ p. StageIn (Some p.call) p.stage
        × (p.over ≡ false → is_local p.call ≡ false) };
}

impl PolledCall {
    ghost use Rattle.std.specs.Prelude.{◌≡◌, true};
    ghost use Rattle.ftp_calls.specs.Exchanges.{is_local};
    ghost use Rattle.ftp_calls.specs.declared.exchange.Turn.TheVariants.{First};
    ghost use Rattle.ftp_dialogue.specs.declared.stage.Stage.TheVariants.{At};

    /// A call that begins. It looks whether the transfer that was handed out was left before it sends anything. A call that is none of
    /// the control connection is never polled: it has its answer from the start.
    pub fn new(call: Call) -> PolledCall
        ensures { result ≡ record {
          call = call;
          looks = true;
          over = is_local call;
          stage = At
              First;
        } }
    {
        PolledCall {
            over: is_local(&call),
            call,
            looks: true,
            stage: Stage::At(Turn::First),
        }
    }

    /// A call that begins without a look: the greeting, the end of a transfer that was taken back, and the last reply of
    /// one that is known to be left.
    pub fn alone(call: Call) -> PolledCall
        ensures { result ≡ record {
          call = call;
          looks = false;
          over = is_local call;
          stage = At
              First;
        } }
    {
        PolledCall {
            over: is_local(&call),
            call,
            looks: false,
            stage: Stage::At(Turn::First),
        }
    }

    /// The call.
    pub fn call(&self) -> &Call
        ensures { result.now ≡ self.now.call }
    {
        &self.call
    }
}

/// Polls calls, over a transport that a runtime `R` serves and connections that wait through a `W`: for the clients that
/// are made of a session.
pub trait PollsCalls<R, W> {
    /// Polls a call. A call that waits may be polled again, or dropped by `drop_call`; between its polls no other call may
    /// be made.
    fn poll_call(
        &mut self,
        alloc: Global,
        rt: &R,
        polled: &mut PolledCall,
        w: &mut W,
    ) -> Poll<Answer>;
}

/// Calls that are dropped, not made, or for whose end there is no memory: for the clients that are made of a session.
pub trait DropsCalls {
    /// Drops a call that waits. Nothing is sent or read.
    fn drop_call(&mut self, polled: &PolledCall);

    /// Why a call isn't made whose arguments found no memory.
    fn withheld(&self) -> FtpError;

    /// There is no memory for the end of a call that has begun: the session has failed.
    fn fail(&mut self);

    /// A whole file met this error. Where it is one of input or output the data connection failed, or what the caller
    /// handed in, which `last_failure` returns from then on.
    fn note_failure(&mut self, fault: &FtpError, data_failed: bool);

    /// The offset that was set for the next transfer is taken back.
    fn forget_offset(&mut self);
}

impl<
    R,
    W,
    Tr: PollTransport<R, W>,
    K: Drop,
    E: Encoding,
    B: PassiveStreamBuilder<Tr::Conn>,
> PollsCalls<R, W> for Session<Tr, K, E, B>
where
    Tr::Conn: PollConn<W>,
{
    /// Polls a call. The first poll looks at the mark, and so does each after one that waited for replies that are due to
    /// commands that were dropped. Those are polled before the call, and so is the last reply of a transfer that was left. A
    /// call that waits may be polled again, or dropped by `drop_call`; between its polls no other call may be made.
    ///
    /// Returns the answer of the call; `AlreadyCompleted` from a call that has its answer, and nothing happens.
    fn poll_call(
        &mut self,
        alloc: Global,
        rt: &R,
        polled: &mut PolledCall,
        w: &mut W,
    ) -> Poll<Answer>
        ensures polls { PollsCall (asking (built_by B.answers self.old.builder)
            (Tr.PollTransport.may_wait ⊎ Tr.Conn.PollConn.may_wait) (polling Tr.Conn.PollConn))
            Tr.Conn.PollConn.may_wait (chosen E.decoded E.encoded self.old.encoding.0) polled.old
            polled.new self.old.mark self.new.mark self.old.machine self.new.machine result }
        ensures counts { IsPlain polled.old.call → CountsPoll Tr.Conn.tells self.old.machine
            self.new.machine result }
        ensures causes { CausesPoll (asking (built_by B.answers self.old.builder)
            (Tr.PollTransport.may_wait ⊎ Tr.Conn.PollConn.may_wait) (polling Tr.Conn.PollConn))
            polled.old.call (kept_error polled.old.stage) (kept_error polled.new.stage)
            self.old.machine
            self.new.machine result }
        ensures keeps { Keeps self.old self.new }
    {
        if polled.over {
            return Poll::Ready(Answer::Fault(FtpError::ConnectionError(
                ConnectionError::AlreadyCompleted,
            )));
        }
        look_first(&mut self.machine, &mut self.mark, polled.looks);
        let mut behind = false;
        match poll_in_step(
            &mut self.machine,
            alloc,
            rt,
            &self.builder,
            &self.encoding,
            &polled.call,
            &mut polled.stage,
            &mut behind,
            w,
        ) {
            Poll::Ready(answer) => {
                polled.looks = false;
                drop(mem::replace(&mut polled.stage, Stage::At(Turn::First)));
                polled.over = true;
                Poll::Ready(answer)
            }
            Poll::Pending => {
                polled.looks = polled.looks && behind;
                Poll::Pending
            }
        }
    }
}

impl<Tr: Network, K: Drop, E: Encoding, B: Drop> DropsCalls for Session<Tr, K, E, B> {
    /// Drops a call that waits. Nothing is sent or read: the unsent tail of a line goes out before any other byte, and
    /// what came of a reply is kept. The reply of a command whose line was begun is due, and read before a later call. A transfer that the call was to bring to its end is left, but for an abort whose
    /// `ABOR` has gone out whole; that of a whole file or listing is left, too. A call that has its answer leaves nothing.
    fn drop_call(&mut self, polled: &PolledCall)
        ensures drops { Drops Tr.Conn.tells polled.now self.old.machine self.new.machine }
        ensures keeps { Keeps self.old self.new }
        ensures mark { self.new.mark ≡ self.old.mark }
    {
        if !polled.over {
            self.machine.drop_call(&polled.call, &polled.stage);
        }
    }

    /// Why a call isn't made whose arguments found no memory: the session has failed, or there is none.
    fn withheld(&self) -> FtpError
        ensures { result ≡ withheld self.now.machine }
    {
        if self.machine.channel.failed() {
            FtpError::SessionFailed
        } else {
            FtpError::OutOfMemory
        }
    }

    /// There is no memory for the end of a call that has begun: the session has failed.
    fn fail(&mut self)
        ensures machine { self.new.machine ≡ failed_from self.old.machine }
        ensures keeps { Keeps self.old self.new }
        ensures mark { self.new.mark ≡ self.old.mark }
    {
        self.machine.channel.fail();
    }

    /// A whole file met this error. Where it is one of input or output the data connection failed, or what the caller
    /// handed in, which `last_failure` returns from then on. Nothing else changes.
    fn note_failure(&mut self, fault: &FtpError, data_failed: bool)
        ensures machine { self.new.machine ≡ self.old.machine }
        ensures mark { self.new.mark ≡ self.old.mark }
        ensures keeps { Keeps self.old self.new }
    {
        if let FtpError::ConnectionError(ConnectionError::Io(_)) = fault {
            self.machine.note_failure(!data_failed);
        }
    }

    /// The offset that was set for the next transfer is taken back. Nothing else changes.
    fn forget_offset(&mut self)
        ensures taken { self.new.machine ≡
            with_settings (λ s. record s { restart_offset = 0 }) self.old.machine }
        ensures mark { self.new.mark ≡ self.old.mark }
        ensures keeps { Keeps self.old self.new }
    {
        self.machine.state.settings.restart_offset = 0;
    }
}

/// Looks once at the mark, where the call looks.
fn look_first<Tr: Network>(machine: &mut Machine<Tr>, mark: &mut Option<SessionEnd>, looks: bool)
    ensures { LooksFirst looks mark.old mark.new machine.old machine.new }
{
    if looks {
        look(machine, mark);
    }
}

/// Polls a call, after the replies that are due to commands that were dropped, where it reads them first; notes whether it
/// still waits for those.
fn poll_in_step<Tr: Network, R, W, E: Encoding, B: PassiveStreamBuilder<Tr::Conn>>(
    machine: &mut Machine<Tr>,
    alloc: Global,
    rt: &R,
    builder: &Option<B>,
    encoding: &E,
    call: &Call,
    stage: &mut Stage,
    behind: &mut bool,
    w: &mut W,
) -> Poll<Answer>
where
    Tr: PollTransport<R, W>,
    Tr::Conn: PollConn<W>,
    requires stage { StageIn (Some call.now) stage.old }
    requires channel { is_local call.now ≡ false }
    ensures stage { result ≡ poll.Pending → StageIn (Some call.now) stage.new }
    ensures polls { PollsInStep (asking (built_by B.answers builder.now)
        (Tr.PollTransport.may_wait ⊎ Tr.Conn.PollConn.may_wait) (polling Tr.Conn.PollConn))
        Tr.Conn.PollConn.may_wait (coding_of E.decoded E.encoded encoding.now) call.now stage.old
        stage.new behind.new machine.old machine.new result }
{
    *behind = false;
    if machine.reads_dropped_first(call) {
        match machine.poll_dropped_replies(alloc, call, w) {
            Poll::Pending => {
                *behind = true;
                return Poll::Pending;
            }
            Poll::Ready(Some(fault)) => return Poll::Ready(Answer::Fault(fault)),
            Poll::Ready(None) => {
                if drains(call) {
                    return Poll::Ready(Answer::Unit);
                }
            }
        }
    }
    poll_next(machine, alloc, rt, builder, encoding, call, stage, w)
}

/// Polls a call, after the last reply of a transfer that was left, where one is due.
fn poll_next<Tr: Network, R, W, E: Encoding, B: PassiveStreamBuilder<Tr::Conn>>(
    machine: &mut Machine<Tr>,
    alloc: Global,
    rt: &R,
    builder: &Option<B>,
    encoding: &E,
    call: &Call,
    stage: &mut Stage,
    w: &mut W,
) -> Poll<Answer>
where
    Tr: PollTransport<R, W>,
    Tr::Conn: PollConn<W>,
    requires stage { StageIn (Some call.now) stage.old }
    requires channel { is_local call.now ≡ false }
    ensures stage { result ≡ poll.Pending → StageIn (Some call.now) stage.new }
    ensures polls { PollsNext (asking (built_by B.answers builder.now)
        (Tr.PollTransport.may_wait ⊎ Tr.Conn.PollConn.may_wait) (polling Tr.Conn.PollConn))
        Tr.Conn.PollConn.may_wait (coding_of E.decoded E.encoded encoding.now) call.now stage.old
        stage.new machine.old machine.new result }
{
    if machine.is_due(call) {
        match poll_drain(machine, alloc, rt, builder, encoding, w) {
            Poll::Pending => return Poll::Pending,
            Poll::Ready(first) => {
                if let Some(answer) = unless_unit(first) {
                    return Poll::Ready(answer);
                }
            }
        }
    }
    machine.poll_started(&PolledData(rt, builder), alloc, encoding, call, stage, w)
}

/// Polls the last reply of a transfer that was left. Where it waits, what came of it stays, and the next poll resumes there.
fn poll_drain<Tr: Network, R, W, E: Encoding, B: PassiveStreamBuilder<Tr::Conn>>(
    machine: &mut Machine<Tr>,
    alloc: Global,
    rt: &R,
    builder: &Option<B>,
    encoding: &E,
    w: &mut W,
) -> Poll<Answer>
where
    Tr: PollTransport<R, W>,
    Tr::Conn: PollConn<W>,
    ensures polls { (at : Stage) × StartsTo (asking (built_by B.answers builder.now)
        (Tr.PollTransport.may_wait ⊎ Tr.Conn.PollConn.may_wait) (polling Tr.Conn.PollConn))
        Tr.Conn.PollConn.may_wait (coding_of E.decoded E.encoded encoding.now) Call.Drain
        (Stage.At Turn.First) at machine.old machine.new result }
{
    let mut stage = Stage::At(Turn::First);
    let drained = machine.poll_started(
        &PolledData(rt, builder),
        alloc,
        encoding,
        &Call::Drain,
        &mut stage,
        w,
    );
    drop(stage);
    drained
}
