//! How worked rows write bytes and words as text. The programs that play rows stand on it.
#![tactic(auto)]

mod escape;
mod row;
mod words;

pub use escape::{RowError, bytes_of, shown, text_of};
pub use row::Row;
pub use words::{file_type, format_control, pair, text, value};
