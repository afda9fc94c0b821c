//! Slow functions that compute a definition as it stands.

ghost use Rattle.std.specs.Prelude.{◌≡◌, ◌<◌, ◌++◌, IfOk, OnOk, length, slice_index};
ghost use Rattle.ftp_base.specs.Ascii.{crlf, follows_return, on_wire};

mod lines;

pub use lines::listing;
use std::alloc::{AllocError, Global};

/// The wire bytes of a text upload, place by place.
pub fn crlf(alloc: Global, bytes: &[u8]) -> Result<Vec<u8>, AllocError>
    ensures { IfOk result (λ wire. wire.items ≡ crlf bytes.now) }
{
    let mut wire = Vec::new(alloc);
    for place in 0..bytes.len() {
        push_place(&mut wire, bytes, place)?;
    }
    Ok(wire)
}

/// Adds what stands on the wire for the byte at a place.
fn push_place(wire: &mut Vec<u8>, bytes: &[u8], place: usize) -> Result<(), AllocError>
    requires { place < length bytes.now }
    ensures { OnOk result (wire.new.items ≡ wire.old.items ++ on_wire (follows_return bytes.now place) (slice_index bytes.now place)) }
{
    if bytes[place] == b'\n' && !is_behind_return(bytes, place) {
        wire.extend_from_slice(b"\r\n")
    } else {
        wire.push(bytes[place])?;
        Ok(())
    }
}

/// Whether the byte before a place is CR.
fn is_behind_return(bytes: &[u8], place: usize) -> bool
    requires { place < length bytes.now }
    ensures { result ≡ follows_return bytes.now place }
{
    place > 0 && bytes[place - 1] == b'\r'
}
