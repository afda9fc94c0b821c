//! The path in the reply to PWD (RFC 959, appendix II).
//!
//! The path stands in quotes, and may hold quotes itself, which the server doubles. They stay doubled: servers that
//! double none are common, and the two can't be told apart.

ghost use Rattle.std.specs.Prelude.{◌≡◌, IfOk};
ghost use Rattle.std.specs.Option.{option_copied};
ghost use Rattle.ftp_calls.specs.Answers.{quoted, path_of};

use crate::answers::text::text_of;
use ftp_base::encoding::Encoding;
use ftp_base::types::Text;
use std::alloc::{AllocError, Global};

/// The path of a reply to PWD: its text between the first and the last `"`, or `None` where there are fewer than two.
///
/// # Errors
/// `AllocError`.
pub fn read_path<E: Encoding>(
    alloc: Global,
    body: &[u8],
    encoding: &E,
) -> Result<Option<Text>, AllocError>
    ensures { IfOk result (λ path. path ≡ path_of (E.decoded encoding.now) body.now) }
{
    let text = text_of(alloc, body, encoding)?;
    match between_quotes(text.as_str()) {
        Some(path) => Ok(Some(Text::from_str(alloc, path)?)),
        None => Ok(None),
    }
}

/// What stands between the first and the last quote of a text.
fn between_quotes(text: &str) -> Option<&str>
    ensures { option_copied result ≡ quoted text.now }
{
    let (_, opened) = text.split_once('"')?;
    let last = opened.rfind('"')?;
    Some(&opened[..last])
}
