//! The lines of a reply (RFC 959, section 4.2).
//!
//! A reply begins with a code; a first line with `-` after the code opens a reply of several lines, which ends with a
//! line of a code and a space. Servers deviate from this, so what opens and what ends a reply is a `ReplyRule`, and how
//! far it reaches a `ReplyForm`. A line is judged once, when its LF has come or the input has ended.

ghost use Rattle.std.specs.Prelude.{◌≡◌, nat_eq, take, IsTrue};
ghost use Rattle.std.specs.List.{list_all};
ghost use Rattle.std.specs.Char.{is_ascii_digit};
ghost use Rattle.std.specs.Cmp.Lexicographic.{pointwise};
ghost use Rattle.ftp_control.specs.Grammar.{opens, ends, begins_with_digits, code_at_start};
ghost use Rattle.ftp_control.specs.Inside.Verdict.{line_verdict, verdict};

use super::lenient::{Phase, by_dash, closes_list, is_listing, lists, opens_list};
use super::{ReplyForm, ReplyRule};

/// What one more line means for a reply.
#[derive(Clone, Copy, Debug, PartialEq, Eq)]
pub(crate) enum Verdict {
    /// The first line opens no reply.
    Refused,
    /// The line ends the reply, with this code.
    Ends(u32),
    /// The reply goes on.
    GoesOn,
}

/// What a line means that stands first in a reply, or after others that don't end it. `reply` is the reply so
/// far.
pub(crate) fn judge(
    rule: ReplyRule,
    form: ReplyForm,
    is_first: bool,
    phase: Phase,
    reply: &[u8],
    line: &[u8],
) -> Verdict
    ensures { result ≡ verdict rule form is_first phase reply.now line.now }
{
    if is_first && !opens(rule, line) {
        Verdict::Refused
    } else {
        judge_line(rule, form, phase, reply, line)
    }
}

/// What a line means that may stand where it does.
fn judge_line(rule: ReplyRule, form: ReplyForm, phase: Phase, reply: &[u8], line: &[u8]) -> Verdict
    ensures { result ≡ line_verdict rule form phase reply.now line.now }
{
    if is_listing(form, phase) {
        return if closes_list(line) {
            Verdict::Ends(211)
        } else {
            Verdict::GoesOn
        };
    }
    if !ends(rule, by_dash(form), reply, line) {
        return Verdict::GoesOn;
    }
    if lists(form) && matches!(phase, Phase::InReply) && opens_list(line) {
        Verdict::GoesOn
    } else {
        Verdict::Ends(code_at_start(line))
    }
}

/// Whether a line opens a reply.
pub(crate) fn opens(rule: ReplyRule, line: &[u8]) -> bool
    ensures { result ≡ opens rule line.now }
{
    match rule {
        ReplyRule::Strict => {
            line.len() >= 5 && begins_with_digits(line) && (line[3] == b' ' || line[3] == b'-')
        }
        ReplyRule::Lenient => {
            line.len() >= 5
                && (begins_with_digits(line) || line[0] == b'+' && are_digits(&line[1..3]))
        }
    }
}

/// Whether a line ends the reply that began with these bytes.
pub(crate) fn ends(rule: ReplyRule, dash: bool, reply: &[u8], line: &[u8]) -> bool
    ensures { result ≡ ends rule dash reply.now line.now }
{
    match rule {
        ReplyRule::Strict => {
            line.len() >= 4
                && begins_with_digits(line)
                && line[3] == b' '
                && have_same_code(line, reply)
        }
        ReplyRule::Lenient => {
            line.len() >= 4
                && begins_with_digits(line)
                && (line[3] == b' ' || dash && line[3] == b'-' && have_same_code(line, reply))
        }
    }
}

/// Whether two lines begin with the same three bytes.
fn have_same_code(line: &[u8], first: &[u8]) -> bool
    ensures { result ≡ pointwise nat_eq (take 3 line.now) (take 3 first.now) }
{
    let shown = &line[..line.len().min(3)];
    let opened = &first[..first.len().min(3)];
    shown == opened
}

/// Whether a line begins with three digits.
fn begins_with_digits(line: &[u8]) -> bool
    ensures { result ≡ begins_with_digits line.now }
{
    line.len() >= 3 && are_digits(&line[..3])
}

/// Whether each byte is a digit.
fn are_digits(bytes: &[u8]) -> bool
    ensures { result ≡ list_all is_ascii_digit bytes.now }
{
    bytes.iter().all(|byte| byte.is_ascii_digit())
}

/// The number that the first three digits write.
pub(crate) fn code_at_start(line: &[u8]) -> u32
    requires { IsTrue (begins_with_digits line.now) }
    ensures { result ≡ code_at_start line.now }
{
    let digit = |place: usize| u32::from(line[place] - b'0');
    100 * digit(0) + 10 * digit(1) + digit(2)
}
