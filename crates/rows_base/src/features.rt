//! The reply to FEAT.

use crate::words::said;
use ftp_base::command::feat::{is_last_line, parse_features};
use ftp_base::types::Features;
use rows_text::{RowError, text_of};
use std::alloc::Global;

/// The features that a reply lists, sorted by name and joined by `;`, or the number of the error.
pub fn features(alloc: Global, input: &str) -> Result<Vec<u8>, RowError> {
    let text = text_of(alloc, input)?;
    let mut lines = Vec::new(alloc);
    for line in text.split_inclusive('\n') {
        lines.push(String::from_str(alloc, line)?)?;
    }
    match parse_features(alloc, &lines) {
        Ok(features) => listed(alloc, &features),
        Err(fault) => Ok(format!(in alloc; "E{}", fault.number())?.into_bytes()),
    }
}

/// The features, each got by its name.
pub fn listed(alloc: Global, features: &Features) -> Result<Vec<u8>, RowError> {
    let mut text = String::new(alloc);
    for name in features.as_map().keys() {
        if !text.is_empty() {
            text.push(';')?;
        }
        text.push_str(name)?;
        if let Some(Some(value)) = features.get(name) {
            text.push('=')?;
            text.push_str(value)?;
        }
    }
    Ok(text.into_bytes())
}

/// Whether a line is the last.
pub fn last_line(alloc: Global, input: &str) -> Result<Vec<u8>, RowError> {
    let line = text_of(alloc, input)?;
    said(alloc, if is_last_line(&line) { "yes" } else { "no" })
}
