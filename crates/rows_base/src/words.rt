//! What a row resulted in, as bytes.

use rows_text::RowError;
use std::alloc::Global;

/// Bytes of a text of the program's own.
pub fn said(alloc: Global, text: &str) -> Result<Vec<u8>, RowError> {
    Ok(Vec::from_slice(alloc, text.as_bytes())?)
}

/// An answer, and the bytes that were written, if any: `ANSWER | BYTES`.
pub fn answered(answer: String, written: &[u8]) -> Result<Vec<u8>, RowError> {
    let mut came = answer.into_bytes();
    if !written.is_empty() {
        came.extend_from_slice(b" | ")?;
        came.extend_from_slice(written)?;
    }
    Ok(came)
}
