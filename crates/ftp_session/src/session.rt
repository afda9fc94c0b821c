//! A session: the dialogues of RFC 959 on one control connection.
//!
//! Each dialogue is a row of `ftp_calls::exchange`: what is sent, which statuses are accepted, how it ends. The machine
//! of `ftp_dialogue` plays all of them, polled; a blocking call is the same poll over a connection that never waits. A
//! user holds a `Session`, which is that machine, the encoding of its texts, the builder of its passive data
//! connections and its end of the mark of the transfer that it handed out.

mod chosen;
mod client;
mod commands;
mod connecting;
mod ending;
mod fetching;
mod files;
mod handing;
mod implicit;
mod lending;
mod looking;
mod making;
mod moving;
mod opening;
mod parameters;
mod polled_tls;
mod polling;
mod questions;
mod readiness;
mod reading;
mod securing;
mod settings;

pub use chosen::Chosen;
pub use client::Session;
pub use ending::{begin_settle, take_back};
pub use files::DownloadReader;
pub use ftp_calls::call::{Answer, Call, Setting};
pub use ftp_dialogue::{Counts, Failure, Owed, Settings, State};
pub use ftp_secure::NoTlsConnector;
pub use handing::{HandsTransfers, NewMark};
pub use lending::{LendsMachine, Lent};
pub use making::make;
pub use parameters::NoStreamBuilder;
pub use polled_tls::{PollsTls, give_up_change, secure_data};
pub use polling::{DropsCalls, PolledCall, PollsCalls};
pub use readiness::WaitsInTask;
