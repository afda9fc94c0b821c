//! The grammar of replies computed as it is defined, slowly, over all bytes at once.
//!
//! The contract of each function is an equation with a definition. The tests compare the read loop with it; nothing of
//! the client calls it.

ghost use Rattle.std.specs.Prelude.{◌≡◌, ◌∷◌, [], IfOk};
ghost use Rattle.ftp_control.specs.Law.{OneForm, SettledStays, StrictAsLenient};
ghost use Rattle.ftp_control.specs.Grammar.{whole_lines, rest, lines, to_end, reply_in, within, outcome, has_line_feed};
ghost use Rattle.ftp_control.specs.Found.{after_line};
ghost use Rattle.ftp_control.specs.Lenient.{to_list_end};

use crate::control::grammar::{code_at_start, ends, opens};
use crate::control::lenient::{by_dash, closes_list, lists, opens_list};
use crate::control::{Outcome, REPLY_LIMIT, ReplyForm, ReplyRule};
use ftp_base::types::Bytes;
use std::alloc::{AllocError, Global};

/// What lines hold.
#[derive(Debug, Drop)]
pub enum Found {
    /// A reply: its bytes and its code.
    Reply(Bytes, u32),
    /// A first line that opens none.
    NoReply(Bytes),
    /// Too little.
    Unfinished,
}

/// The pieces that end in LF, LF with them.
pub fn whole_lines(alloc: Global, bytes: &[u8]) -> Result<Vec<Bytes>, AllocError>
    ensures { IfOk result (λ found. found.items ≡ whole_lines bytes.now) }
{
    let Some((first, others)) = bytes.split_first() else {
        return Ok(Vec::new(alloc));
    };
    let mut found = whole_lines(alloc, others)?;
    if *first == b'\n' {
        let line = Bytes::from_slice(alloc, &[*first])?;
        found.insert(0, line)?;
        return Ok(found);
    }
    if found.is_empty() {
        return Ok(found);
    }
    let line = found.remove(0);
    found.insert(0, prefixed(alloc, *first, &line)?)?;
    Ok(found)
}

/// What follows the last LF.
pub fn rest(bytes: &[u8]) -> &[u8]
    ensures { result.now ≡ rest bytes.now }
{
    let Some((_first, others)) = bytes.split_first() else {
        return bytes;
    };
    if has_line_feed(bytes) {
        rest(others)
    } else {
        bytes
    }
}

/// The lines of the received bytes; what follows the last LF is one where the input has ended.
pub fn lines(alloc: Global, bytes: &[u8], ended: bool) -> Result<Vec<Bytes>, AllocError>
    ensures { IfOk result (λ found. found.items ≡ lines bytes.now ended) }
{
    let mut found = whole_lines(alloc, bytes)?;
    let last = rest(bytes);
    if ended && !last.is_empty() {
        found.push(Bytes::from_slice(alloc, last)?)?;
    }
    Ok(found)
}

/// The reply that the lines begin with.
pub fn reply_in(
    alloc: Global,
    rule: ReplyRule,
    form: ReplyForm,
    ended: bool,
    lines: &[Bytes],
) -> Result<Found, AllocError>
    ensures { IfOk result (λ found. found ≡ reply_in rule form ended lines.now) }
{
    let Some((first, _others)) = lines.split_first() else {
        return Ok(Found::Unfinished);
    };
    if opens(rule, first.as_slice()) {
        to_end(alloc, rule, form, ended, first, lines)
    } else {
        Ok(Found::NoReply(Bytes::from_slice(alloc, first.as_slice())?))
    }
}

/// The outcome of all bytes received since the reply began.
#[tactic(auto, unfolding(crate::specs::Grammar::outcome))]
pub fn outcome(
    alloc: Global,
    rule: ReplyRule,
    form: ReplyForm,
    bytes: &[u8],
    ended: bool,
) -> Result<Outcome, AllocError>
    ensures { IfOk result (λ answer. answer ≡ outcome rule form bytes.now ended) }
{
    let lines = lines(alloc, bytes, ended)?;
    let found = reply_in(alloc, rule, form, ended, lines.as_slice())?;
    Ok(within(bytes.len(), ended, found))
}

/// What is found, within the limit.
fn within(count: usize, ended: bool, found: Found) -> Outcome
    ensures { result ≡ within count ended found }
{
    match found {
        Found::Reply(reply, code) => {
            if reply.len() <= REPLY_LIMIT {
                Outcome::Whole(reply, code)
            } else {
                Outcome::TooLarge
            }
        }
        Found::NoReply(line) => {
            if line.len() <= REPLY_LIMIT {
                Outcome::Bad(line)
            } else {
                Outcome::TooLarge
            }
        }
        Found::Unfinished => {
            if REPLY_LIMIT < count {
                Outcome::TooLarge
            } else if ended {
                Outcome::Ended
            } else {
                Outcome::Waits
            }
        }
    }
}

/// The lines up to and with the first that ends the reply, and the list of features that it opens.
fn to_end(
    alloc: Global,
    rule: ReplyRule,
    form: ReplyForm,
    ended: bool,
    first: &Bytes,
    lines: &[Bytes],
) -> Result<Found, AllocError>
    ensures { IfOk result (λ found. found ≡ to_end rule form ended first.now lines.now) }
{
    let Some((line, others)) = lines.split_first() else {
        return Ok(Found::Unfinished);
    };
    if !ends(rule, by_dash(form), first.as_slice(), line.as_slice()) {
        let later = to_end(alloc, rule, form, ended, first, others)?;
        return after_line(alloc, line, later);
    }
    if lists(form) && opens_list(line.as_slice()) {
        let later = to_list_end(alloc, ended, others)?;
        return after_line(alloc, line, later);
    }
    let code = code_at_start(line.as_slice());
    Ok(Found::Reply(Bytes::from_slice(alloc, line.as_slice())?, code))
}

/// The lines of a list of features, up to and with the one that ends it, or all where the input has ended.
fn to_list_end(alloc: Global, ended: bool, lines: &[Bytes]) -> Result<Found, AllocError>
    ensures { IfOk result (λ found. found ≡ to_list_end ended lines.now) }
{
    let Some((line, others)) = lines.split_first() else {
        return Ok(if ended {
            Found::Reply(Bytes::from_slice(alloc, &[])?, 211)
        } else {
            Found::Unfinished
        });
    };
    if closes_list(line.as_slice()) {
        return Ok(Found::Reply(Bytes::from_slice(alloc, line.as_slice())?, 211));
    }
    let later = to_list_end(alloc, ended, others)?;
    after_line(alloc, line, later)
}

/// A line before what is found after it.
fn after_line(alloc: Global, line: &Bytes, found: Found) -> Result<Found, AllocError>
    ensures { IfOk result (λ all. all ≡ after_line line.now found) }
{
    match found {
        Found::Reply(bytes, code) => {
            let mut all = Bytes::from_slice(alloc, line.as_slice())?;
            all.extend_from_slice(bytes.as_slice())?;
            Ok(Found::Reply(all, code))
        }
        Found::NoReply(other) => Ok(Found::NoReply(other)),
        Found::Unfinished => Ok(Found::Unfinished),
    }
}

/// A byte before a line.
fn prefixed(alloc: Global, byte: u8, line: &Bytes) -> Result<Bytes, AllocError>
    ensures { IfOk result (λ longer. longer ≡ byte ∷ line.now) }
{
    let mut longer = Bytes::from_slice(alloc, &[byte])?;
    longer.extend_from_slice(line.as_slice())?;
    Ok(longer)
}

/// Whether an LF stands in the bytes.
fn has_line_feed(bytes: &[u8]) -> bool
    ensures { result ≡ has_line_feed bytes.now }
{
    bytes.iter().any(|byte| *byte == b'\n')
}

/// The law of outcomes: what is settled before the input has ended stays, however it goes on.
pub fn settled_outcomes_stay()
    ensures { SettledStays }
{}

/// The law of strict reads: a reply ends where it does, whatever is expected of it.
pub fn strict_reads_end_alike()
    ensures { OneForm }
{}

/// The law of both rules: a strict reply none of whose lines before the last begins with three digits and a space is the
/// same leniently.
pub fn strict_replies_are_lenient()
    ensures { StrictAsLenient }
{}
