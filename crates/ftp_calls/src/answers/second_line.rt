//! The facts in the reply to MLST (RFC 3659, section 7.2), which stand on its second line.

ghost use Rattle.std.specs.Prelude.{◌≡◌, IfOk};
ghost use Rattle.std.specs.Option.{option_copied};
ghost use Rattle.ftp_calls.specs.Answers.{second_piece, without_return, trimmed_line, second_line_of};

use crate::answers::text::text_of;
use ftp_base::encoding::Encoding;
use ftp_base::types::Text;
use std::alloc::{AllocError, Global};

/// The second line of a reply's text, white space cut at both ends, or `None` where it is absent or empty. A line of
/// white space alone is the empty text.
///
/// # Errors
/// `AllocError`.
pub fn read_second_line<E: Encoding>(
    alloc: Global,
    body: &[u8],
    encoding: &E,
) -> Result<Option<Text>, AllocError>
    ensures { IfOk result (λ line. line ≡ second_line_of (E.decoded encoding.now) body.now) }
{
    let text = text_of(alloc, body, encoding)?;
    match trimmed(before_return(second_of(text.as_str()))) {
        Some(line) => Ok(Some(Text::from_str(alloc, line)?)),
        None => Ok(None),
    }
}

/// What stands between the first LF and the next, or the end.
fn second_of(text: &str) -> &str
    ensures { result.now ≡ second_piece text.now }
{
    match text.split_once('\n') {
        Some((_, after)) => match after.split_once('\n') {
            Some((line, _)) => line,
            None => after,
        },
        None => "",
    }
}

/// A line without the CR that ends it.
fn before_return(line: &str) -> &str
    ensures { result.now ≡ without_return line.now }
{
    match line.strip_suffix('\r') {
        Some(front) => front,
        None => line,
    }
}

/// A line that isn't empty, white space cut at both ends.
fn trimmed(line: &str) -> Option<&str>
    ensures { option_copied result ≡ trimmed_line line.now }
{
    if line.is_empty() {
        None
    } else {
        Some(line.trim())
    }
}
