//! Bytes that are written and read piece by piece.

ghost use Rattle.std.specs.Prelude.{◌≤◌};

use std::io;
use std::io::{Read, Write};

/// How many bytes are written or asked for at once.
pub const PIECE: usize = 65_536;

/// Writes so many bytes: the piece, again and again, and at last its front.
pub fn write_repeated<W: Write>(writer: &mut W, piece: &[u8], length: u64) -> io::Result<()> {
    let mut left = length;
    for _ in 0..u64::MAX {
        let count = least(piece.len(), left);
        if count == 0 {
            break;
        }
        writer.write_all(&piece[..count])?;
        left -= count as u64;
    }
    Ok(())
}

/// Reads to the end, and counts the bytes.
pub fn count_to_end<R: Read>(reader: &mut R, buffer: &mut [u8]) -> io::Result<u64> {
    let mut total = 0u64;
    for _ in 0..u64::MAX {
        let count = reader.read(buffer)?;
        if count == 0 {
            break;
        }
        total = total.saturating_add(count as u64);
    }
    Ok(total)
}

/// The lesser of the two.
pub fn least(room: usize, left: u64) -> usize
    ensures room { result ≤ room }
    ensures left { result ≤ left }
{
    match usize::try_from(left) {
        Ok(left) => room.min(left),
        Err(_) => room,
    }
}
