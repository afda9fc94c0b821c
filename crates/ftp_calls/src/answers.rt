//! What the texts of replies say: the replies to PWD (RFC 959, appendix II), MLST, MDTM and SIZE (RFC 3659, sections
//! 7, 3 and 4), FEAT (RFC 2389, section 3.2), PASV (RFC 959, section 4.1.2) and EPSV (RFC 2428, section 3).
//!
//! A session reads a reply's bytes and knows nothing of their text; here that text is read. Each function gets the
//! reply's whole body and returns what the definition of its name in `specs/` makes of it. PWD and MLST are read in
//! the session's encoding, since they hold names of files; the others hold none, and are read as UTF-8. The time is
//! linear in the body's length. The lines of a listing are read here too, which comes over a data connection and not as
//! a reply (RFC 959, section 4.1.3).

mod addresses;
mod dates;
mod features;
mod lines;
mod listing;
mod path;
mod second_line;
mod size;
mod text;
mod time;

pub use addresses::{NoAddress, read_extended_port, read_passive_address};
pub use features::read_features;
pub use listing::{get_lines_from_stream, read_listing};
pub use path::read_path;
pub use second_line::read_second_line;
pub use size::read_size;
pub use time::read_time;
