//! Text uploads: what is written for a text, by each way there is.

use crate::plain;
use crate::words::{answered, said};
use ftp_base::ascii::{CrlfEncoder, copy_crlf, upload_size};
use rows_text::{RowError, bytes_of, pair, value};
use std::alloc::{AllocError, Global};

/// Up to which length a text is cut at each of its places.
const SHORT: usize = 100;

/// How many bytes are written for a text that comes in pieces, and which: `PIECE|PIECE|..`. Each cut of the text in
/// two, the copy of a reader and the definition, place by place, give the same.
pub fn uploaded(alloc: Global, input: &str) -> Result<Vec<u8>, RowError> {
    let mut text = Vec::new(alloc);
    let mut wire = Vec::new(alloc);
    let mut encoder = CrlfEncoder::new();
    for piece in input.split('|') {
        let piece = bytes_of(alloc, piece)?;
        encoder.encode(&piece, &mut wire)?;
        text.extend_from_slice(&piece)?;
    }
    if plain::crlf(alloc, &text)? != wire {
        return said(alloc, "the definition differs");
    }
    if !is_same_at_each_cut(alloc, &text, &wire)? {
        return said(alloc, "a cut differs");
    }
    copied(alloc, &text, &wire)
}

/// Whether the text is written so however it is cut in two.
fn is_same_at_each_cut(alloc: Global, text: &[u8], wire: &[u8]) -> Result<bool, AllocError> {
    if text.len() > SHORT {
        return Ok(true);
    }
    for cut in 0..=text.len() {
        let (front, back) = text.split_at(cut);
        let mut encoder = CrlfEncoder::new();
        let mut bytes = Vec::new(alloc);
        encoder.encode(front, &mut bytes)?;
        encoder.encode(back, &mut bytes)?;
        if bytes.as_slice() != wire {
            return Ok(false);
        }
    }
    Ok(true)
}

/// What a copy returns and writes.
fn copied(alloc: Global, text: &[u8], wire: &[u8]) -> Result<Vec<u8>, RowError> {
    let mut source = text;
    let mut written = Vec::new(alloc);
    let Ok(count) = copy_crlf(alloc, &mut source, &mut written) else {
        return said(alloc, "the copy fails");
    };
    if written.as_slice() != wire {
        return said(alloc, "the copy differs");
    }
    answered(format!(in alloc; "{count}")?, wire)
}

/// How many bytes an upload has written with some more: `WRITTEN ADDED`, or the number of the error.
pub fn size(alloc: Global, input: &str) -> Result<Vec<u8>, RowError> {
    let (written, added) = pair(input, " ")?;
    let shown = match upload_size(value(written)?, value(added)?) {
        Ok(size) => format!(in alloc; "{size}")?,
        Err(fault) => format!(in alloc; "E{}", fault.number())?,
    };
    Ok(shown.into_bytes())
}
