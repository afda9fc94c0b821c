//! What lenient replies have beside the grammar: a dash that ends a reply of 211, and the list of features after it
//! (RFC 2389, section 3.2).
//!
//! Strictly a reply ends alike whatever is asked of it, so none of this has a say there.

ghost use Rattle.std.specs.Prelude.{◌≡◌};
ghost use Rattle.std.specs.List.{starts_with};
ghost use Rattle.ftp_base.specs.Features.{is_last};
ghost use Rattle.ftp_control.specs.Lenient.{by_dash, lists, opens_list};
ghost use Rattle.ftp_control.specs.Inside.Phases.{is_listing, phase_after};

use super::grammar::ends;
use super::{ReplyForm, ReplyRule};

/// Where the next line of a reply stands, for a read that expects a list of features after it.
#[derive(Clone, Copy, Debug, PartialEq, Eq)]
pub(crate) enum Phase {
    /// In the reply, which no line has ended.
    InReply,
    /// In the list of features that follows it.
    InList,
    /// After a reply that no list follows; a read of another form goes on in it.
    Past,
}

/// The phase of a reply after one more line.
pub(crate) fn phase_after(rule: ReplyRule, phase: Phase, reply: &[u8], line: &[u8]) -> Phase
    ensures { result ≡ phase_after rule phase reply.now line.now }
{
    match phase {
        Phase::InReply => {
            if !ends(rule, true, reply, line) {
                Phase::InReply
            } else if opens_list(line) {
                Phase::InList
            } else {
                Phase::Past
            }
        }
        Phase::InList => Phase::InList,
        Phase::Past => Phase::Past,
    }
}

/// Whether the next line is one of the list of features.
pub(crate) fn is_listing(form: ReplyForm, phase: Phase) -> bool
    ensures { result ≡ is_listing form phase }
{
    lists(form) && matches!(phase, Phase::InList)
}

/// Whether a list of features may follow the reply.
pub(crate) fn lists(form: ReplyForm) -> bool
    ensures { result ≡ lists form }
{
    match form {
        ReplyForm::Plain => false,
        ReplyForm::System => false,
        ReplyForm::Features => true,
    }
}

/// Whether the first line's code with a dash ends the reply.
pub(crate) fn by_dash(form: ReplyForm) -> bool
    ensures { result ≡ by_dash form }
{
    match form {
        ReplyForm::Plain => false,
        ReplyForm::System => true,
        ReplyForm::Features => true,
    }
}

/// Whether a line that ends a reply opens a list of features.
pub(crate) fn opens_list(line: &[u8]) -> bool
    ensures { result ≡ opens_list line.now }
{
    line.starts_with(b"211-")
}

/// Whether a line ends a list of features.
pub(crate) fn closes_list(line: &[u8]) -> bool
    ensures { result ≡ is_last line.now }
{
    line.starts_with(b"211 ")
}
