//! What the texts of replies say: the replies to PWD, MLST, MDTM, SIZE and FEAT.

use crate::features::listed;
use crate::welcomes::Latin1;
use crate::words::said;
use ftp_base::encoding::Utf8Encoding;
use ftp_base::types::Text;
use ftp_calls::answers::{read_features, read_path, read_second_line, read_size, read_time};
use rows_text::{RowError, bytes_of};
use std::alloc::{AllocError, Global};

/// The path in a reply that is read as UTF-8, and in one that is read as Latin-1.
pub fn path(alloc: Global, input: &str) -> Result<Vec<u8>, RowError> {
    let body = bytes_of(alloc, input)?;
    let one = in_brackets(alloc, read_path(alloc, &body, &Utf8Encoding)?)?;
    let other = in_brackets(alloc, read_path(alloc, &body, &Latin1)?)?;
    Ok(format!(in alloc; "{one} | {other}")?.into_bytes())
}

/// The second line of a reply.
pub fn second_line(alloc: Global, input: &str) -> Result<Vec<u8>, RowError> {
    let body = bytes_of(alloc, input)?;
    let line = in_brackets(alloc, read_second_line(alloc, &body, &Utf8Encoding)?)?;
    Ok(line.into_bytes())
}

/// The time in a reply.
pub fn time(alloc: Global, input: &str) -> Result<Vec<u8>, RowError> {
    let body = bytes_of(alloc, input)?;
    match read_time(&body) {
        Some(time) => Ok(format!(in alloc; "{time}")?.into_bytes()),
        None => said(alloc, "none"),
    }
}

/// The size in a reply.
pub fn size(alloc: Global, input: &str) -> Result<Vec<u8>, RowError> {
    let body = bytes_of(alloc, input)?;
    match read_size(&body) {
        Some(size) => Ok(format!(in alloc; "{size}")?.into_bytes()),
        None => said(alloc, "none"),
    }
}

/// The features that the bytes of a reply list.
pub fn features(alloc: Global, input: &str) -> Result<Vec<u8>, RowError> {
    let body = bytes_of(alloc, input)?;
    match read_features(alloc, &body)? {
        Some(features) => listed(alloc, &features),
        None => said(alloc, "none"),
    }
}

/// A text in brackets, so that an empty one can be told from none.
fn in_brackets(alloc: Global, text: Option<Text>) -> Result<String, AllocError> {
    match text {
        Some(text) => format!(in alloc; "[{text}]"),
        None => String::from_str(alloc, "none"),
    }
}
