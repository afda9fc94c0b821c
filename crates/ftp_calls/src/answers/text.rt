//! The text of a reply in the session's encoding.

ghost use Rattle.std.specs.Prelude.{◌≡◌, IfOk, string_bytes};
ghost use Rattle.ftp_base.specs.Telnet.{unescaped};

use ftp_base::command::unescape_telnet_iac;
use ftp_base::encoding::Encoding;
use std::alloc::{AllocError, Global};

/// The text of a body: pairs of byte 255 are made one, and the bytes are decoded.
pub fn text_of<E: Encoding>(alloc: Global, body: &[u8], encoding: &E) -> Result<String, AllocError>
    ensures { IfOk result (λ text. string_bytes text ≡ E.decoded encoding.now (unescaped body.now)) }
{
    match unescape_telnet_iac(alloc, body) {
        Ok(plain) => encoding.decode(alloc, plain.as_slice()),
        Err(_) => Err(AllocError),
    }
}
