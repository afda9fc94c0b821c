//! The lines of a listing, step by step.

ghost use Rattle.std.specs.Prelude.{◌≡◌, ◌++◌, ◌∷◌, [], IfOk, OnOk, filter, map, string_bytes};
ghost use Rattle.ftp_calls.specs.Answers.{without_return};
ghost use Rattle.ftp_calls.specs.Listing.{is_not_empty, listing, pieces};

use ftp_base::encoding::Encoding;
use std::alloc::{AllocError, Global};

/// The lines of a listing: all pieces first, and then what each results in.
pub fn listing<E: Encoding>(
    alloc: Global,
    bytes: &[u8],
    encoding: &E,
) -> Result<Vec<String>, AllocError>
    ensures { IfOk result (λ lines.
        map string_bytes lines.items ≡ listing (E.decoded encoding.now) bytes.now) }
{
    let pieces = pieces(alloc, bytes)?;
    let mut lines = Vec::new(alloc);
    for piece in &pieces {
        push_unless_empty(alloc, without_return(piece), encoding, &mut lines)?;
    }
    Ok(lines)
}

/// What stands between LFs.
fn pieces(alloc: Global, bytes: &[u8]) -> Result<Vec<&[u8]>, AllocError>
    ensures { IfOk result (λ parts. map (λ part. part.now) parts.items ≡ pieces bytes.now) }
{
    bytes.split(|byte| *byte == b'\n').collect(alloc)
}

/// A piece without one CR at its end.
fn without_return(piece: &[u8]) -> &[u8]
    ensures { result.now ≡ without_return piece.now }
{
    let count = piece.len();
    if count > 0 && piece[count - 1] == b'\r' {
        &piece[..count - 1]
    } else {
        piece
    }
}

/// Adds a line, decoded, unless it is empty.
fn push_unless_empty<E: Encoding>(
    alloc: Global,
    line: &[u8],
    encoding: &E,
    lines: &mut Vec<String>,
) -> Result<(), AllocError>
    ensures { OnOk result (map string_bytes lines.new.items ≡ map string_bytes lines.old.items
        ++ map (E.decoded encoding.now) (filter is_not_empty (line.now ∷ []))) }
{
    if !line.is_empty() {
        lines.push(encoding.decode(alloc, line)?)?;
    }
    Ok(())
}
