//! Parsers of the lines of FTP directory listings: the POSIX and DOS forms of `LIST`, and the
//! facts of `MLSD` and `MLST` (RFC 3659, section 7).
//!
//! `File::from_line` reads a line of any form, and `ListParser` a line of one form. What a line
//! says is defined in `specs/Listing`, `Facts` and `Lines`, in terms of the whole line; each parser
//! returns that, or `OutOfMemory`. The time is linear in the line's length. `Listing` sorts the
//! lines of a whole listing, as `specs/Sorts` and `Entries` define.
#![tactic(auto)]

mod class;
mod dates;
mod dos;
mod ends;
mod entries;
mod error;
mod facts;
mod file;
mod file_type;
pub mod laws;
mod moments;
mod names;
mod numbers;
mod other_file;
mod own_types;
mod parser;
mod pex;
mod places;
pub mod plain;
mod posix;
mod reach;
mod rows;
mod shape;
mod sorts;
mod split;
mod times;
mod trims;

pub use crate::entries::{Listing, names_facts};
pub use crate::error::{ParseError, ParseResult};
pub use crate::file::File;
pub use crate::file_type::FileType;
pub use crate::names::is_plain_name;
pub use crate::other_file::OtherFile;
pub use crate::parser::ListParser;
pub use crate::pex::{PosixPex, PosixPexQuery};
pub use ftp_base::types::Text;
