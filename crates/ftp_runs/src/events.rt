//! Polled runs over memory: lists of events.
//!
//! Between two polls of a call anything may happen that happens to a client: bytes come or end, there is room for more,
//! the call is dropped and another begins. What a run results in is defined by playing all calls anew at each poll, on
//! all bytes that came by then; here each byte is read once.

ghost use Rattle.std.specs.Prelude.{◌≡◌, ◌⊎◌, ◌<◌, ◌≤◌, ◌++◌, [], IfOk, IfErr, OnErr, OnOk, length, option_map, None, Some, vec_len, vec_capacity};
ghost use Rattle.futures.specs.declared.task.Poll.TheVariants as poll;
ghost use Rattle.std.specs.Prelude.{true};
ghost use Rattle.ftp_calls.specs.Exchanges.{is_local};
ghost use Rattle.ftp_control.specs.Channel.{IsSound};
ghost use Rattle.ftp_transport.specs.Memory.{IsGiven};
ghost use Rattle.ftp_dialogue.specs.Coding.{chosen, coding_of};
ghost use Rattle.ftp_session.specs.Handed.{LooksIf, as_seen, watches};
ghost use Rattle.ftp_dialogue.specs.Link.{built_by};
ghost use Rattle.ftp_dialogue.specs.Promises.{FailsWith};
ghost use Rattle.ftp_runs.specs.Counting.{CausesHere, CountsEvents};
ghost use Rattle.ftp_runs.specs.Scripted.{IsScripted, StopsAtFeed};
ghost use Rattle.ftp_dialogue.specs.Sound.{Sound, SoundCounts};
ghost use Rattle.ftp_runs.specs.Following.{CatchesUpHere, FailedStays, Grows, Happens, IsFeed, Passes, PollsHere, PollsNext, Starts, at_rest, given_answer, reads_here};
ghost use Rattle.ftp_dialogue.specs.Steps.Polls.{StageIn};
ghost use Rattle.ftp_dialogue.specs.Steps.Stages.{StageOf};
ghost use Rattle.ftp_session.specs.Kept.{Keeps};

use super::dropping::{drop_call, leave_now, leave_then};
use ftp_base::encoding::Encoding;
use ftp_base::types::{FtpError, FtpResult};
use ftp_calls::call::Event;
use ftp_calls::exchange::{Turn, drains, is_local};
use ftp_dialogue::data_path::BlockingData;
use ftp_dialogue::machine::Machine;
use ftp_dialogue::stage::Stage;
use ftp_dialogue::unless_unit;
use ftp_session::session::{Answer, Call, LendsMachine, Lent, Session};
use ftp_transport::{MemoryConn, MemoryTransport, PassiveStreamBuilder};
use futures::task::Poll;
use std::alloc::{AllocError, Global};
use std::mem;

/// Lets events happen to a session over memory.
pub trait RunEvents {
    /// Lets these events happen, one after another, and returns the answers of the calls that were completed, in order.
    ///
    /// # Errors
    /// `OutOfMemory` where there is no memory for the answers or for the bytes of a `Feed`.
    fn run_polled(&mut self, alloc: Global, events: &[Event]) -> FtpResult<Vec<Answer>>;
}

impl<K: Drop, E: Encoding, B: PassiveStreamBuilder<MemoryConn>> RunEvents
    for Session<MemoryTransport, K, E, B> {
    /// Lets these events happen, one after another, and returns the answers of the calls that were completed, in
    /// order. A `Start` while a call is under way, a `Poll` or `Cancel` without one, a `Leave` without a transfer, and
    /// a `Feed` after the end change nothing. A call under way at the end is dropped, as by `Cancel`. Whether a
    /// transfer was left that was handed out before is looked at once, before the first event.
    ///
    /// A call may be dropped at any moment. The reply of a command whose line was begun is due from then on, and a later
    /// call reads it first, as a client's does: while it is waited for that call waits, too, and an error in place of it is
    /// that call's answer. So each drop of a call that has begun ends a script, and so does each such read; what comes
    /// after it is a script of its own.
    ///
    /// A call that brings a transfer to its end takes it as it begins: dropped, it leaves it. `Leave` leaves the
    /// transfer that is held: before a call under way that wasn't polled, and after one that was.
    ///
    /// # Errors
    /// `OutOfMemory` where there is no memory for the answers, and nothing changes; or for the bytes of a `Feed`,
    /// and the events before it have happened.
    fn run_polled(&mut self, alloc: Global, events: &[Event]) -> FtpResult<Vec<Answer>>
        ensures scripted { IfOk result (λ answers.
            IsScripted (built_by B.answers self.old.builder) (chosen E.decoded E.encoded
            self.old.encoding.0) (as_seen self.new.mark self.old.machine)
            events.now self.new.machine answers.items) }
        ensures counts { IfOk result (λ answers.
            CountsEvents (built_by B.answers self.old.builder) None None events.now (as_seen
            self.new.mark self.old.machine) self.new.machine answers.items) }
        ensures looks { OnOk result (LooksIf (watches self.old.mark self.old.machine) self.old.mark
            self.new.mark) }
        ensures keeps { Keeps self.old self.new }
        ensures memory { IfErr result (λ fault. fault ≡ FtpError.OutOfMemory) }
        ensures stops { OnErr result ((self.new ≡ self.old) ⊎ (LooksIf (watches self.old.mark
            self.old.machine) self.old.mark self.new.mark
            × StopsAtFeed (built_by B.answers self.old.builder) (chosen E.decoded E.encoded
            self.old.encoding.0)
            (as_seen self.new.mark self.old.machine) events.now self.new.machine)) }
        ensures grows { Grows (built_by B.answers self.old.builder) (as_seen self.new.mark
            self.old.machine) self.new.machine }
        ensures fails { IfOk result (λ answers.
            FailsWith (as_seen self.new.mark self.old.machine) self.new.machine answers.items) }
        ensures sound { Sound (Unit {0}) self.new.machine.channel
            self.new.machine.state.counts }
    {
        let Ok(answers) = Vec::with_capacity(alloc, events.len()) else {
            self.untaken();
            return Err(FtpError::OutOfMemory);
        };
        self.look();
        let Lent {
            machine,
            encoding,
            builder,
        } = self.lend();
        holds_memory(machine);
        let answers = let_happen(machine, alloc, builder, encoding, events, answers);
        holds_memory(machine);
        answers
    }
}

/// Lets these events happen.
fn let_happen<E: Encoding, B: PassiveStreamBuilder<MemoryConn>>(
    machine: &mut Machine<MemoryTransport>,
    alloc: Global,
    builder: &Option<B>,
    encoding: &E,
    events: &[Event],
    mut answers: Vec<Answer>,
) -> FtpResult<Vec<Answer>>
    requires none { answers.items ≡ [] }
    requires room { length events.now ≤ vec_capacity answers }
    requires given { IsGiven machine.old.channel.told }
    requires sound { IsSound (Unit {0}) machine.old.channel }
    ensures scripted { IfOk result (λ answers.
        IsScripted (built_by B.answers builder.now) (coding_of E.decoded E.encoded encoding.now)
        machine.old events.now machine.new
        answers.items) }
    ensures counts { IfOk result (λ answers. CountsEvents (built_by B.answers builder.now) None None
        events.now machine.old machine.new answers.items) }
    ensures grows { Grows (built_by B.answers builder.now) machine.old machine.new }
    ensures fails { IfOk result (λ answers. FailsWith machine.old machine.new answers.items) }
    ensures memory { IfErr result (λ fault. fault ≡ FtpError.OutOfMemory) }
    ensures stops { OnErr result (StopsAtFeed (built_by B.answers builder.now) (coding_of E.decoded
        E.encoded encoding.now) machine.old
        events.now machine.new) }
{
    let mut under_way = None;
    let mut stage = Stage::At(Turn::First);
    let mut course = resting();
    for event in events {
        match happen(
            machine,
            alloc,
            builder,
            encoding,
            event,
            &mut under_way,
            &mut stage,
            &mut course,
        ) {
            Ok(answer) => note(&mut answers, answer),
            Err(AllocError) => {
                drop_call(machine, alloc, &mut under_way, &stage, &mut course);
                drop(stage);
                drop(answers);
                return Err(FtpError::OutOfMemory);
            }
        }
    }
    drop_call(machine, alloc, &mut under_way, &stage, &mut course);
    drop(stage);
    Ok(answers)
}

/// What is known of the call under way beside its stage.
#[derive(Clone, Copy)]
pub(crate) struct Course {
    /// Whether it was polled.
    pub(crate) polled: bool,
    /// Whether the transfer that is held is left once it is over.
    pub(crate) leaving: bool,
}

/// No call is under way.
pub(crate) fn resting() -> Course
    ensures { result ≡ at_rest }
{
    Course {
        polled: false,
        leaving: false,
    }
}

/// Lets one event happen, and returns the answer of the call that it completed, if it did.
fn happen<'e, E: Encoding, B: PassiveStreamBuilder<MemoryConn>>(
    machine: &mut Machine<MemoryTransport>,
    alloc: Global,
    builder: &Option<B>,
    encoding: &E,
    event: &'e Event,
    under_way: &mut Option<&'e Call>,
    stage: &mut Stage,
    course: &mut Course,
) -> Result<Option<Answer>, AllocError>
    requires { StageIn (option_map (λ c. c.now) under_way.old) stage.old }
    ensures unchanged { OnErr result ((machine.new ≡ machine.old) × (under_way.new ≡ under_way.old)
        × (stage.new ≡ stage.old)
        × (course.new ≡ course.old) × IsFeed event.now) }
    ensures stage { StageIn (option_map (λ c. c.now) under_way.new) stage.new }
    ensures failed { IfOk result (λ answer. FailedStays machine.old machine.new answer) }
    ensures fails { IfOk result (λ answer. FailsWith machine.old machine.new (given_answer answer)) }
    ensures passes { IfOk result (λ answer.
        Passes (built_by B.answers builder.now) (coding_of E.decoded E.encoded encoding.now)
        machine.old machine.new
        (option_map (λ c. c.now) under_way.old) (option_map (λ c. c.now) under_way.new)
        stage.old stage.new course.old course.new event.now answer) }
    ensures causes { IfOk result (λ answer. CausesHere (built_by B.answers builder.now) event.now
        machine.old machine.new
        (option_map (λ c. c.now) under_way.old) (option_map (λ c. c.now) under_way.new) stage.old
        stage.new answer) }
{
    match event {
        Event::Feed(bytes) => machine.channel.feed(bytes.as_slice())?,
        Event::End => machine.channel.end_input(),
        Event::Room(more) => machine.channel.allow(*more),
        Event::Start(call) => start(call, under_way, stage, course),
        Event::Poll => return Ok(poll_in_step(
            machine, alloc, builder, encoding, under_way, stage, course,
        )),
        Event::Cancel => {
            drop_call(machine, alloc, under_way, stage, course);
            return Ok(None);
        }
        Event::Leave => {
            leave_now(machine, alloc, under_way, course);
            return Ok(None);
        }
    }
    holds_memory(machine);
    Ok(None)
}

/// Polls the call under way, if any, after the replies that are due to commands that were dropped, where it reads them
/// first.
fn poll_in_step<'e, E: Encoding, B: PassiveStreamBuilder<MemoryConn>>(
    machine: &mut Machine<MemoryTransport>,
    alloc: Global,
    builder: &Option<B>,
    encoding: &E,
    under_way: &mut Option<&'e Call>,
    stage: &mut Stage,
    course: &mut Course,
) -> Option<Answer>
    requires { StageIn (option_map (λ c. c.now) under_way.old) stage.old }
    ensures stage { StageIn (option_map (λ c. c.now) under_way.new) stage.new }
    ensures failed { FailedStays machine.old machine.new result }
    ensures fails { FailsWith machine.old machine.new (given_answer result) }
    ensures passes { Passes (built_by B.answers builder.now) (coding_of E.decoded E.encoded
        encoding.now) machine.old machine.new
        (option_map (λ c. c.now) under_way.old) (option_map (λ c. c.now) under_way.new)
        stage.old stage.new course.old course.new Event.Poll result }
    ensures causes { CausesHere (built_by B.answers builder.now) Event.Poll machine.old machine.new
        (option_map (λ c. c.now) under_way.old) (option_map (λ c. c.now) under_way.new) stage.old
        stage.new result }
{
    if reads_first(machine, under_way, course) {
        return poll_behind(machine, alloc, builder, encoding, under_way, stage, course);
    }
    poll_under_way(machine, alloc, builder, encoding, under_way, stage, course)
}

/// Whether the call under way wasn't polled, and first reads replies that are due.
fn reads_first<'e>(
    machine: &Machine<MemoryTransport>,
    under_way: &Option<&'e Call>,
    course: &Course,
) -> bool
    ensures { result ≡ reads_here (option_map (λ c. c.now) under_way.now) course.now machine.now }
{
    match *under_way {
        Some(call) => !course.polled && machine.reads_dropped_first(call),
        None => false,
    }
}

/// Polls the replies that are due before the call under way, and then that call; one that reads the last reply of a
/// transfer that was left is over with them.
fn poll_behind<'e, E: Encoding, B: PassiveStreamBuilder<MemoryConn>>(
    machine: &mut Machine<MemoryTransport>,
    alloc: Global,
    builder: &Option<B>,
    encoding: &E,
    under_way: &mut Option<&'e Call>,
    stage: &mut Stage,
    course: &mut Course,
) -> Option<Answer>
    requires stage { StageIn (option_map (λ c. c.now) under_way.old) stage.old }
    requires behind { reads_here (option_map (λ c. c.now) under_way.old) course.old machine.old ≡
        true }
    ensures stage { StageIn (option_map (λ c. c.now) under_way.new) stage.new }
    ensures fails { FailsWith machine.old machine.new (given_answer result) }
    ensures catches_up { CatchesUpHere (built_by B.answers builder.now) (coding_of E.decoded
        E.encoded encoding.now) machine.old machine.new
        (option_map (λ c. c.now) under_way.old) (option_map (λ c. c.now) under_way.new)
        stage.old stage.new course.new result }
    ensures causes { CausesHere (built_by B.answers builder.now) Event.Poll machine.old machine.new
        (option_map (λ c. c.now) under_way.old) (option_map (λ c. c.now) under_way.new) stage.old
        stage.new result }
{
    let Some(call) = *under_way else {
        return None;
    };
    // It wasn't polled, so that no transfer is to be left behind it.
    *course = resting();
    let caught = machine.poll_dropped_replies(alloc, call, &mut ());
    holds_memory(machine);
    match caught {
        Poll::Pending => None,
        Poll::Ready(Some(fault)) => {
            *under_way = None;
            Some(Answer::Fault(fault))
        }
        Poll::Ready(None) if drains(call) => {
            *under_way = None;
            Some(Answer::Unit)
        }
        Poll::Ready(None) => poll_under_way(
            machine, alloc, builder, encoding, under_way, stage, course,
        ),
    }
}

/// Polls the call under way, if any, and returns its answer once it has one.
fn poll_under_way<'e, E: Encoding, B: PassiveStreamBuilder<MemoryConn>>(
    machine: &mut Machine<MemoryTransport>,
    alloc: Global,
    builder: &Option<B>,
    encoding: &E,
    under_way: &mut Option<&'e Call>,
    stage: &mut Stage,
    course: &mut Course,
) -> Option<Answer>
    requires { StageIn (option_map (λ c. c.now) under_way.old) stage.old }
    ensures stage { StageIn (option_map (λ c. c.now) under_way.new) stage.new }
    ensures failed { FailedStays machine.old machine.new result }
    ensures fails { FailsWith machine.old machine.new (given_answer result) }
    ensures happens { Happens (built_by B.answers builder.now) (coding_of E.decoded E.encoded
        encoding.now) machine.old machine.new
        (option_map (λ c. c.now) under_way.old) (option_map (λ c. c.now) under_way.new)
        stage.old stage.new course.old course.new Event.Poll result }
    ensures causes { CausesHere (built_by B.answers builder.now) Event.Poll machine.old machine.new
        (option_map (λ c. c.now) under_way.old) (option_map (λ c. c.now) under_way.new) stage.old
        stage.new result }
{
    let Some(call) = *under_way else {
        return None;
    };
    let mut polled = course.polled;
    match poll_next(machine, alloc, builder, encoding, call, stage, &mut polled) {
        Poll::Ready(answer) => {
            *under_way = None;
            leave_then(machine, alloc, course.leaving);
            *course = resting();
            Some(answer)
        }
        Poll::Pending => {
            course.polled = polled;
            None
        }
    }
}

/// Polls a call over memory, after the last reply of a transfer that was left, where one is due. Notes whether the call
/// itself was polled.
fn poll_next<E: Encoding, B: PassiveStreamBuilder<MemoryConn>>(
    machine: &mut Machine<MemoryTransport>,
    alloc: Global,
    builder: &Option<B>,
    encoding: &E,
    call: &Call,
    stage: &mut Stage,
    polled: &mut bool,
) -> Poll<Answer>
    requires { StageIn (Some call.now) stage.old }
    ensures stage { result ≡ poll.Pending → StageIn (Some call.now) stage.new }
    ensures polled { PollsNext (built_by B.answers builder.now) (coding_of E.decoded E.encoded
        encoding.now) call.now stage.old
        stage.new polled.new machine.old machine.new result }
{
    *polled = false;
    if machine.is_due(call) {
        match poll_drain(machine, alloc, builder, encoding) {
            Poll::Pending => return Poll::Pending,
            Poll::Ready(first) => {
                if let Some(answer) = unless_unit(first) {
                    return Poll::Ready(answer);
                }
            }
        }
    }
    *polled = true;
    poll_here(machine, alloc, builder, encoding, call, stage)
}

/// Polls the drain. Where it waits, what was read of the reply stays, and the next poll of it resumes there.
fn poll_drain<E: Encoding, B: PassiveStreamBuilder<MemoryConn>>(
    machine: &mut Machine<MemoryTransport>,
    alloc: Global,
    builder: &Option<B>,
    encoding: &E,
) -> Poll<Answer>
    ensures polled { (at : Stage) × PollsHere (built_by B.answers builder.now) (coding_of E.decoded
        E.encoded encoding.now) Call.Drain
        (Stage.At Turn.First) at machine.old machine.new result }
{
    let mut stage = Stage::At(Turn::First);
    let drained = poll_here(machine, alloc, builder, encoding, &Call::Drain, &mut stage);
    drop(stage);
    drained
}

/// Polls a call over memory.
fn poll_here<E: Encoding, B: PassiveStreamBuilder<MemoryConn>>(
    machine: &mut Machine<MemoryTransport>,
    alloc: Global,
    builder: &Option<B>,
    encoding: &E,
    call: &Call,
    stage: &mut Stage,
) -> Poll<Answer>
    requires { StageIn (Some call.now) stage.old }
    ensures stage { result ≡ poll.Pending → StageOf call.now stage.new }
    ensures polled { PollsHere (built_by B.answers builder.now) (coding_of E.decoded E.encoded
        encoding.now) call.now stage.old
        stage.new machine.old machine.new result }
{
    if is_local(call) {
        return carry_here(machine, alloc, builder, encoding, call, stage);
    }
    let polled = machine.poll_started(
        &BlockingData(&(), builder),
        alloc,
        encoding,
        call,
        stage,
        &mut (),
    );
    holds_memory(machine);
    polled
}

/// Makes a call over memory that is none of the control connection.
fn carry_here<E: Encoding, B: PassiveStreamBuilder<MemoryConn>>(
    machine: &mut Machine<MemoryTransport>,
    alloc: Global,
    _builder: &Option<B>,
    _encoding: &E,
    call: &Call,
    _stage: &mut Stage,
) -> Poll<Answer>
    requires stage { StageIn (Some call.now) _stage.old }
    requires local { is_local call.now ≡ true }
    ensures done { result ≡ poll.Pending → ⊥ }
    ensures polled { PollsHere (built_by B.answers _builder.now) (coding_of E.decoded E.encoded
        _encoding.now) call.now _stage.old
        _stage.new machine.old machine.new result }
{
    let answer = machine.local_call(alloc, call);
    holds_memory(machine);
    Poll::Ready(answer)
}

/// What always holds of a machine over memory.
pub(crate) fn holds_memory(machine: &Machine<MemoryTransport>)
    ensures given { IsGiven machine.now.channel.told }
    ensures sound { IsSound (Unit {0}) machine.now.channel }
    ensures counts { SoundCounts machine.now.state.counts }
{
    machine.channel.unread();
    machine.state.counts.opened();
}

/// Adds an answer, if there is one, after those of before.
fn note(answers: &mut Vec<Answer>, answer: Option<Answer>)
    requires { vec_len answers.old < vec_capacity answers.old }
    ensures items { answers.new.items ≡ answers.old.items ++ given_answer answer }
    ensures room { vec_capacity answers.old ≤ vec_capacity answers.new }
{
    if let Some(answer) = answer {
        answers.push(answer).unwrap();
    }
}

/// A call begins where none is under way.
fn start<'e>(
    call: &'e Call,
    under_way: &mut Option<&'e Call>,
    stage: &mut Stage,
    course: &mut Course,
)
    requires { StageIn (option_map (λ c. c.now) under_way.old) stage.old }
    ensures stage { StageIn (option_map (λ c. c.now) under_way.new) stage.new }
    ensures starts { Starts call.now (option_map (λ c. c.now) under_way.old)
        (option_map (λ c. c.now) under_way.new) stage.old stage.new course.old course.new }
{
    if under_way.is_none() {
        *under_way = Some(call);
        drop(mem::replace(stage, Stage::At(Turn::First)));
        course.polled = false;
    }
}
