//! The statuses that the reply to a command may have (RFC 959, section 5.4).
//!
//! Statuses are compared by their codes. All codes without a status are one, `Unknown`: who expects it accepts each of
//! them.

ghost use Rattle.std.specs.Prelude.{◌≡◌};
ghost use Rattle.ftp_control.specs.Answer.{expected_reply, is_among};

use ftp_base::status::Status;
use ftp_base::types::{FtpError, FtpResult, Response};

/// Accepts a reply whose status is expected.
///
/// # Errors
/// `UnexpectedResponse` with another reply, whole.
pub fn expected_reply(expected: &[Status], reply: Response) -> FtpResult<Response>
    ensures { result ≡ expected_reply expected.now reply }
{
    if is_among(expected, reply.status) {
        Ok(reply)
    } else {
        Err(FtpError::UnexpectedResponse(reply))
    }
}

/// Whether a status is among these. Allocates nothing.
pub fn is_among(statuses: &[Status], status: Status) -> bool
    ensures { result ≡ is_among statuses.now status }
{
    let code = status.code();
    statuses.iter().any(|one| one.code() == code)
}
