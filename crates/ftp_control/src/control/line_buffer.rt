//! One line at a time in the reply's buffer, as the lines after a reply are read.
//!
//! A line ends with its LF, or with the input where that has ended. It stands in the same buffer as a reply, so what a
//! dropped read has kept of either is read on by whichever read comes next.

ghost use Rattle.std.specs.Prelude.{◌≡◌, ◌≤◌, ◌+◌, Ok, false, true, [], ◌++◌, length, vec_len, vec_capacity};
ghost use Rattle.ftp_control.specs.Grammar.{line_outcome, reply_limit, whole_lines};
ghost use Rattle.ftp_control.specs.Inside.Ahead.{IsPiece};
ghost use Rattle.ftp_control.specs.Inside.ReadLoop.{TakesAll};
ghost use Rattle.ftp_control.specs.Inside.UnderWay.{IsUnderWay};

use super::reply_buffer::{REPLY_LIMIT, ReplyBuffer, count, take_all};
use super::{Outcome, ReplyRule};
use std::alloc::Global;

/// Consumes a piece of a line, for which there is room.
pub(super) fn take_line_piece(
    alloc: Global,
    reply: &mut ReplyBuffer,
    rule: ReplyRule,
    piece: &[u8],
) -> Outcome
    requires under_way { IsUnderWay rule reply.old.bytes.items reply.old.line_start reply.old.phase }
    requires no_line { whole_lines reply.old.bytes.items ≡ [] }
    requires piece { IsPiece piece.now }
    requires limit { length reply.old.bytes.items + length piece.now ≤ reply_limit + 1 }
    requires room { vec_len reply.old.bytes + length piece.now ≤ vec_capacity reply.old.bytes }
    ensures outcome { result ≡ line_outcome (reply.old.bytes.items ++ piece.now) false }
    ensures all { TakesAll (Ok result) (reply.old.bytes.items ++ piece.now) reply.new.bytes.items }
    ensures goes_on { result ≡ Outcome.Ended → ⊥ }
    ensures under_way { IsUnderWay rule reply.new.bytes.items reply.new.line_start reply.new.phase }
    ensures no_line { whole_lines reply.new.bytes.items ≡ [] }
{
    reply.bytes.extend_from_slice(piece).unwrap();
    if count(reply) > REPLY_LIMIT {
        take_all(alloc, reply);
        return Outcome::TooLarge;
    }
    if piece[piece.len() - 1] != b'\n' {
        return Outcome::Waits;
    }
    Outcome::Whole(take_all(alloc, reply), 0)
}

/// The end of the input, for a line.
pub(super) fn take_line_end(alloc: Global, reply: &mut ReplyBuffer, rule: ReplyRule) -> Outcome
    requires under_way { IsUnderWay rule reply.old.bytes.items reply.old.line_start reply.old.phase }
    requires no_line { whole_lines reply.old.bytes.items ≡ [] }
    ensures outcome { result ≡ line_outcome reply.old.bytes.items true }
    ensures settled { result ≡ Outcome.Waits → ⊥ }
    ensures all { TakesAll (Ok result) reply.old.bytes.items reply.new.bytes.items }
    ensures under_way { IsUnderWay rule reply.new.bytes.items reply.new.line_start reply.new.phase }
{
    if count(reply) == 0 {
        return Outcome::Ended;
    }
    Outcome::Whole(take_all(alloc, reply), 0)
}
