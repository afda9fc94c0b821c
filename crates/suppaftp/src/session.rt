//! The session: the blocking core of both clients, for a program of one thread.
//!
//! [`Session`] has a method for each call. With [`RunCalls`] in scope it makes lists of calls, and with [`RunEvents`] it
//! plays events over memory.

pub use ftp_calls::lines::Lines;
pub use ftp_runs::{Event, RunCalls, RunEvents};
pub use ftp_session::session::{
    Answer, Call, Counts, DownloadReader, Failure, NoStreamBuilder, NoTlsConnector, Owed, Session,
    Setting, Settings, State,
};
pub use ftp_transfer::{NoProgress, Progress};
