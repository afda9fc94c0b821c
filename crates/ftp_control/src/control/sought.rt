//! What a read looks for.
//!
//! This is the one place where reads of replies and of single lines differ: the read loop is one for both.

ghost use Rattle.std.specs.Prelude.{◌≡◌, ◌≤◌, ◌+◌, Ok, false, true, [], ◌++◌, length, vec_len, vec_capacity};
ghost use Rattle.ftp_control.specs.Grammar.{reply_limit};
ghost use Rattle.ftp_control.specs.Inside.Ahead.{IsPiece};
ghost use Rattle.ftp_control.specs.Inside.ReadLoop.{says_of, CanSeek, TakesAll};
ghost use Rattle.ftp_control.specs.Inside.UnderWay.{IsUnderWay};

use super::line_buffer::{take_line_end, take_line_piece};
use super::reply_buffer::{ReplyBuffer, take_reply_end, take_reply_piece};
use super::{Outcome, ReplyForm, ReplyRule};
use std::alloc::Global;

/// What a read looks for.
#[derive(Clone, Copy)]
pub(crate) enum Sought {
    /// A reply of this form.
    Reply(ReplyForm),
    /// One line, where no whole line is kept.
    Line,
}

impl Sought {
    /// Consumes one more piece, for which there is room.
    pub(crate) fn take_piece(
        self,
        alloc: Global,
        reply: &mut ReplyBuffer,
        rule: ReplyRule,
        piece: &[u8],
    ) -> Outcome
        requires under_way { IsUnderWay rule reply.old.bytes.items reply.old.line_start
            reply.old.phase }
        requires can_seek { CanSeek self reply.old.bytes.items }
        requires piece { IsPiece piece.now }
        requires limit { length reply.old.bytes.items + length piece.now ≤ reply_limit + 1 }
        requires room { vec_len reply.old.bytes + length piece.now ≤ vec_capacity reply.old.bytes }
        ensures outcome { says_of rule self reply.old.bytes.items false ≡ Outcome.Waits → result ≡
            says_of rule self (reply.old.bytes.items ++ piece.now) false }
        ensures all { TakesAll (Ok result) (reply.old.bytes.items ++ piece.now)
            reply.new.bytes.items }
        ensures goes_on { result ≡ Outcome.Ended → ⊥ }
        ensures under_way { IsUnderWay rule reply.new.bytes.items reply.new.line_start
            reply.new.phase }
        ensures can_seek { CanSeek self reply.new.bytes.items }
    {
        match self {
            Sought::Reply(form) => take_reply_piece(alloc, reply, rule, form, piece),
            Sought::Line => take_line_piece(alloc, reply, rule, piece),
        }
    }

    /// The end of the input.
    pub(crate) fn take_end(self, alloc: Global, reply: &mut ReplyBuffer, rule: ReplyRule) -> Outcome
        requires under_way { IsUnderWay rule reply.old.bytes.items reply.old.line_start
            reply.old.phase }
        requires can_seek { CanSeek self reply.old.bytes.items }
        ensures outcome { says_of rule self reply.old.bytes.items false ≡ Outcome.Waits → result ≡
            says_of rule self reply.old.bytes.items true }
        ensures settled { result ≡ Outcome.Waits → ⊥ }
        ensures all { TakesAll (Ok result) reply.old.bytes.items reply.new.bytes.items }
        ensures under_way { IsUnderWay rule reply.new.bytes.items reply.new.line_start
            reply.new.phase }
    {
        match self {
            Sought::Reply(form) => take_reply_end(alloc, reply, rule, form),
            Sought::Line => take_line_end(alloc, reply, rule),
        }
    }
}
