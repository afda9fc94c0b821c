//! The bytes of the reply under way.
//!
//! Where its last line begins is kept beside them, and whether its lines have reached a list of features, so a line is
//! judged when it ends and no byte is looked at again: a reply of many lines takes time in proportion to its bytes. A
//! reply of more than [`REPLY_LIMIT`] bytes is given up, so a server can't make a client fill its memory.

ghost use Rattle.std.specs.Prelude.{◌≡◌, ◌≤◌, ◌+◌, Ok, nat_eq, false, true, [], ◌++◌, drop, length, vec_len, vec_capacity};
ghost use Rattle.ftp_control.specs.Grammar.{outcome, reply_limit};
ghost use Rattle.ftp_control.specs.Inside.Ahead.{IsPiece};
ghost use Rattle.ftp_control.specs.Inside.ReadLoop.{TakesAll};
ghost use Rattle.ftp_control.specs.Inside.UnderWay.{IsUnderWay};
ghost use Rattle.ftp_control.specs.Inside.Phases.{is_listing, phase_after};
ghost use Rattle.ftp_control.specs.Inside.Verdict.{ended_by, outcome_by, phase_left, verdict};

use super::grammar::{Verdict, judge};
use super::lenient::{Phase, is_listing, phase_after};
use super::{Outcome, ReplyForm, ReplyRule};
use ftp_base::types::Bytes;
use std::alloc::Global;
use std::mem;

/// How many bytes a reply may have.
pub const REPLY_LIMIT: usize = 262_144;

/// The bytes of the reply under way, where its last line begins, and the phase that its whole lines have reached.
pub(crate) struct ReplyBuffer {
    pub(crate) bytes: Vec<u8>,
    pub(crate) line_start: usize,
    pub(crate) phase: Phase,
}

impl Drop for ReplyBuffer {
    fn drop(self) {
        let Self {
            bytes,
            line_start: _,
            phase: _,
        } = self;
        drop(bytes);
    }
}

/// Consumes a piece of the reply, for which there is room.
pub(super) fn take_reply_piece(
    alloc: Global,
    reply: &mut ReplyBuffer,
    rule: ReplyRule,
    form: ReplyForm,
    piece: &[u8],
) -> Outcome
    requires under_way { IsUnderWay rule reply.old.bytes.items reply.old.line_start reply.old.phase }
    requires piece { IsPiece piece.now }
    requires limit { length reply.old.bytes.items + length piece.now ≤ reply_limit + 1 }
    requires room { vec_len reply.old.bytes + length piece.now ≤ vec_capacity reply.old.bytes }
    ensures outcome { outcome rule form reply.old.bytes.items false ≡ Outcome.Waits → result ≡
        outcome rule form (reply.old.bytes.items ++ piece.now) false }
    ensures all { TakesAll (Ok result) (reply.old.bytes.items ++ piece.now) reply.new.bytes.items }
    ensures goes_on { result ≡ Outcome.Ended → ⊥ }
    ensures under_way { IsUnderWay rule reply.new.bytes.items reply.new.line_start reply.new.phase }
{
    reply.bytes.extend_from_slice(piece).unwrap();
    if count(reply) > REPLY_LIMIT {
        take_all(alloc, reply);
        return Outcome::TooLarge;
    }
    if piece[piece.len() - 1] != b'\n' {
        return Outcome::Waits;
    }
    let verdict = judge_line(reply, rule, form);
    let phase = next_phase(reply, rule);
    settle(alloc, reply, form, phase, false, verdict)
}

/// The end of the input, for the reply.
pub(super) fn take_reply_end(
    alloc: Global,
    reply: &mut ReplyBuffer,
    rule: ReplyRule,
    form: ReplyForm,
) -> Outcome
    requires { IsUnderWay rule reply.old.bytes.items reply.old.line_start reply.old.phase }
    ensures outcome { outcome rule form reply.old.bytes.items false ≡ Outcome.Waits → result ≡
        outcome rule form reply.old.bytes.items true }
    ensures settled { result ≡ Outcome.Waits → ⊥ }
    ensures all { TakesAll (Ok result) reply.old.bytes.items reply.new.bytes.items }
    ensures under_way { IsUnderWay rule reply.new.bytes.items reply.new.line_start reply.new.phase }
{
    if reply.line_start == count(reply) {
        return end(alloc, reply, form, reply.phase);
    }
    let verdict = judge_line(reply, rule, form);
    let phase = next_phase(reply, rule);
    settle(alloc, reply, form, phase, true, verdict)
}

/// The outcome by a verdict on the last line, with which the reply's lines reach this phase.
fn settle(
    alloc: Global,
    reply: &mut ReplyBuffer,
    form: ReplyForm,
    phase: Phase,
    ended: bool,
    verdict: Verdict,
) -> Outcome
    ensures outcome { result ≡
        outcome_by ended (is_listing form phase) verdict reply.old.bytes.items }
    ensures all { TakesAll (Ok result) reply.old.bytes.items reply.new.bytes.items }
    ensures start { reply.new.line_start ≡ length reply.new.bytes.items }
    ensures phase { reply.new.phase ≡ phase_left ended verdict phase }
{
    match verdict {
        Verdict::Refused => Outcome::Bad(take_all(alloc, reply)),
        Verdict::Ends(code) => Outcome::Whole(take_all(alloc, reply), code),
        Verdict::GoesOn if ended => end(alloc, reply, form, phase),
        Verdict::GoesOn => {
            reply.line_start = count(reply);
            reply.phase = phase;
            Outcome::Waits
        }
    }
}

/// The outcome of the end of the input: of a list of features it is the last line.
fn end(alloc: Global, reply: &mut ReplyBuffer, form: ReplyForm, phase: Phase) -> Outcome
    ensures outcome { result ≡ ended_by (is_listing form phase) reply.old.bytes.items }
    ensures all { TakesAll (Ok result) reply.old.bytes.items reply.new.bytes.items }
    ensures settled { result ≡ Outcome.Waits → ⊥ }
    ensures none { reply.new.bytes.items ≡ [] }
    ensures start { reply.new.line_start ≡ 0 }
    ensures phase { reply.new.phase ≡ Phase.InReply }
{
    let bytes = take_all(alloc, reply);
    if is_listing(form, phase) {
        Outcome::Whole(bytes, 211)
    } else {
        Outcome::Ended
    }
}

/// The verdict on the line under way.
fn judge_line(reply: &ReplyBuffer, rule: ReplyRule, form: ReplyForm) -> Verdict
    requires { reply.now.line_start ≤ length reply.now.bytes.items }
    ensures { result ≡ verdict rule form (nat_eq reply.now.line_start 0) reply.now.phase
        reply.now.bytes.items (drop reply.now.line_start reply.now.bytes.items) }
{
    judge(
        rule,
        form,
        reply.line_start == 0,
        reply.phase,
        reply.bytes.as_slice(),
        &reply.bytes.as_slice()[reply.line_start..],
    )
}

/// The phase of the reply after the line under way.
fn next_phase(reply: &ReplyBuffer, rule: ReplyRule) -> Phase
    requires { reply.now.line_start ≤ length reply.now.bytes.items }
    ensures { result ≡ phase_after rule reply.now.phase reply.now.bytes.items
        (drop reply.now.line_start reply.now.bytes.items) }
{
    let bytes = reply.bytes.as_slice();
    phase_after(rule, reply.phase, bytes, &bytes[reply.line_start..])
}

/// How many bytes of the reply there are.
pub(super) fn count(reply: &ReplyBuffer) -> usize
    ensures { result ≡ length reply.now.bytes.items }
{
    reply.bytes.as_slice().len()
}

/// Moves all bytes out, for the next reply to begin.
pub(super) fn take_all(alloc: Global, reply: &mut ReplyBuffer) -> Bytes
    ensures taken { result ≡ reply.old.bytes.items }
    ensures left { reply.new.bytes.items ≡ [] }
    ensures start { reply.new.line_start ≡ 0 }
    ensures phase { reply.new.phase ≡ Phase.InReply }
{
    reply.line_start = 0;
    reply.phase = Phase::InReply;
    Bytes::from_vec(mem::replace(&mut reply.bytes, Vec::new(alloc)))
}
