//! Lists of calls, made one after another.
//!
//! A run stops at no error: each call has its answer, and in a session that has failed the later ones fail. Its answers
//! are those that the definition gives for all bytes of the server at once, however they came.

ghost use Rattle.std.specs.Prelude.{◌≡◌, ◌≤◌, [], IfOk, IfErr, OnErr, OnOk, length, vec_capacity};
ghost use Rattle.ftp_dialogue.specs.Coding.{chosen, coding_of};
ghost use Rattle.ftp_session.specs.Handed.{LooksIf, as_seen, watches};
ghost use Rattle.ftp_dialogue.specs.Link.{asking, blocking, built_by};
ghost use Rattle.ftp_dialogue.specs.Promises.{FailsWith};
ghost use Rattle.ftp_runs.specs.Counting.{CountsEach};
ghost use Rattle.ftp_runs.specs.Following.{MadeAmong, MadeInStep};
ghost use Rattle.ftp_runs.specs.Runs.{Runs, are_due};
ghost use Rattle.ftp_dialogue.specs.Sound.{Sound};
ghost use Rattle.ftp_session.specs.Kept.{Keeps};

use ftp_base::encoding::Encoding;
use ftp_base::types::{FtpError, FtpResult};
use ftp_calls::exchange::drains;
use ftp_dialogue::machine::Machine;
use ftp_session::session::{Answer, Call, LendsMachine, Lent, Session, make};
use ftp_transport::{Conn, Network, NeverWaits, PassiveStreamBuilder, Transport};
use futures::task::Poll;
use std::alloc::Global;

/// Makes lists of calls, over a transport that a runtime `R` serves.
pub trait RunCalls<R> {
    /// Makes these calls, one after another, and returns their answers in order. Each call has an answer: a run stops
    /// at no error.
    ///
    /// # Errors
    /// `OutOfMemory` where there is no memory for the answers, and no call is made.
    fn run(&mut self, alloc: Global, rt: &R, calls: &[Call]) -> FtpResult<Vec<Answer>>;
}

impl<R, Tr: Transport<R>, K: Drop, E: Encoding, B: PassiveStreamBuilder<Tr::Conn>> RunCalls<R>
    for Session<Tr, K, E, B>
where
    Tr::Conn: Conn,
{
    /// Makes these calls, one after another, and returns their answers in order. After a call in which the session
    /// failed each fails with `SessionFailed`. Whether a transfer was left that was handed out before is looked at
    /// once, before the first call. Replies that are due to commands that were dropped are read by the first call that goes
    /// over the control connection, as by the session's own calls; an error of such a read is that call's answer.
    ///
    /// # Errors
    /// `OutOfMemory` where there is no memory for the answers, and nothing changes.
    fn run(&mut self, alloc: Global, rt: &R, calls: &[Call]) -> FtpResult<Vec<Answer>>
        ensures runs { IfOk result (λ answers.
            Runs (asking (built_by B.answers self.old.builder) ⊥ (blocking Tr.Conn.Conn)) (chosen
            E.decoded E.encoded self.old.encoding.0) calls.now
            (as_seen self.new.mark self.old.machine) self.new.machine answers.items) }
        ensures counts { IfOk result (λ answers.
            CountsEach (are_due (as_seen self.new.mark self.old.machine)) (asking (built_by
            B.answers self.old.builder) ⊥ (blocking Tr.Conn.Conn)) (chosen E.decoded E.encoded
            self.old.encoding.0) calls.now
            (as_seen self.new.mark self.old.machine) self.new.machine answers.items) }
        ensures looks { OnOk result (LooksIf (watches self.old.mark self.old.machine) self.old.mark
            self.new.mark) }
        ensures count { IfOk result (λ answers. length answers.items ≡ length calls.now) }
        ensures fails { IfOk result (λ answers.
            FailsWith (as_seen self.new.mark self.old.machine) self.new.machine answers.items) }
        ensures keeps { Keeps self.old self.new }
        ensures memory { IfErr result (λ fault. fault ≡ FtpError.OutOfMemory) }
        ensures unchanged { OnErr result (self.new ≡ self.old) }
        ensures sound { Sound Tr.Conn.tells self.new.machine.channel
            self.new.machine.state.counts }
    {
        let Ok(answers) = Vec::with_capacity(alloc, calls.len()) else {
            self.untaken();
            return Err(FtpError::OutOfMemory);
        };
        self.look();
        let Lent {
            machine,
            encoding,
            builder,
        } = self.lend();
        let answers = run(machine, alloc, rt, builder, encoding, calls, answers);
        machine.holds();
        Ok(answers)
    }
}

/// Makes these calls, and adds their answers to a list that has room for them.
fn run<Tr: Network, R, E: Encoding, B: PassiveStreamBuilder<Tr::Conn>>(
    machine: &mut Machine<Tr>,
    alloc: Global,
    rt: &R,
    builder: &Option<B>,
    encoding: &E,
    calls: &[Call],
    mut answers: Vec<Answer>,
) -> Vec<Answer>
where
    Tr::Conn: Conn,
    Tr: Transport<R>,
    requires none { answers.items ≡ [] }
    requires room { length calls.now ≤ vec_capacity answers }
    ensures runs { Runs (asking (built_by B.answers builder.now) ⊥ (blocking Tr.Conn.Conn))
        (coding_of E.decoded E.encoded encoding.now) calls.now machine.old
        machine.new result.items }
    ensures counts { CountsEach (are_due machine.old) (asking (built_by B.answers builder.now) ⊥
        (blocking Tr.Conn.Conn)) (coding_of E.decoded E.encoded encoding.now) calls.now machine.old
        machine.new result.items }
    ensures fails { FailsWith machine.old machine.new result.items }
    ensures count { length result.items ≡ length calls.now }
{
    let due = machine.state.unanswered != 0;
    for call in calls {
        let answer = make_among(machine, alloc, rt, builder, encoding, call, due);
        answers.push(answer).unwrap();
    }
    answers
}

/// Makes a call of a list: where replies were due at its beginning to commands that were dropped, in step.
fn make_among<Tr: Network, R, E: Encoding, B: PassiveStreamBuilder<Tr::Conn>>(
    machine: &mut Machine<Tr>,
    alloc: Global,
    rt: &R,
    builder: &Option<B>,
    encoding: &E,
    call: &Call,
    due: bool,
) -> Answer
where
    Tr::Conn: Conn,
    Tr: Transport<R>,
    ensures made { MadeAmong due (asking (built_by B.answers builder.now) ⊥ (blocking Tr.Conn.Conn))
        (coding_of E.decoded E.encoded encoding.now)
        call.now machine.old machine.new result }
{
    if due {
        make_in_step(machine, alloc, rt, builder, encoding, call)
    } else {
        make(machine, alloc, rt, builder, encoding, call)
    }
}

/// Makes a call of a list, after the replies that are due to commands that were dropped, where it reads them first. An
/// error of such a read is its answer; a read of the last reply of a transfer that was left is over with them.
fn make_in_step<Tr: Network, R, E: Encoding, B: PassiveStreamBuilder<Tr::Conn>>(
    machine: &mut Machine<Tr>,
    alloc: Global,
    rt: &R,
    builder: &Option<B>,
    encoding: &E,
    call: &Call,
) -> Answer
where
    Tr::Conn: Conn,
    Tr: Transport<R>,
    ensures made { MadeInStep (asking (built_by B.answers builder.now) ⊥ (blocking Tr.Conn.Conn))
        (coding_of E.decoded E.encoded encoding.now)
        call.now machine.old machine.new result }
{
    if machine.reads_dropped_first(call) {
        match machine.poll_dropped_replies(alloc, call, &mut NeverWaits) {
            Poll::Ready(None) => {
                if drains(call) {
                    return Answer::Unit;
                }
            }
            Poll::Ready(Some(fault)) => return Answer::Fault(fault),
            Poll::Pending => unreachable!(),
        }
    }
    make(machine, alloc, rt, builder, encoding, call)
}
