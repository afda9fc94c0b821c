//! How far a reply reaches that is read leniently, which depends on the reply that is expected.
//!
//! RFC 959, section 4.2, ends a reply with its code and a space, and strictly each ends so. Some servers answer a system
//! status (211) and stop after a first line `211-`; and the answer to `FEAT` is then a reply of one line, `211 ` or `211-`,
//! which the dash has follow by a list of features (RFC 2389, section 3.2). So who reads a reply says which of these it
//! may be.

ghost use Rattle.std.specs.Prelude.{◌≡◌};
ghost use Rattle.ftp_control.specs.Answer.{form_of};

use super::expected_statuses::is_among;
use ftp_base::status::Status;

/// The form of the reply that is expected.
#[derive(Clone, Copy, Debug, PartialEq, Eq)]
pub enum ReplyForm {
    /// A code and a space end the reply.
    Plain,
    /// Leniently, so does the first line's code with a dash.
    System,
    /// As `System`; leniently, a last line `211-` is followed by a list of features, which ends with a line `211 ` or with the
    /// input and belongs to the reply.
    Features,
}

/// The form of a reply whose status is among these: `System` where 211 is. Allocates nothing.
pub fn form_of(expected: &[Status]) -> ReplyForm
    ensures { result ≡ form_of expected.now }
{
    if is_among(expected, Status::System) {
        ReplyForm::System
    } else {
        ReplyForm::Plain
    }
}
