//! Worked rows of the client, which the program `rows_clients` plays: how they are read, and what a session makes of
//! them.
//!
//! A row is a heading `== SET: TITLE`, what happens line by line, a line `--`, and the transcript that is due; an
//! empty line ends it. docs/ROWS.md has the words.
#![tactic(auto)]

mod answers;
mod builder;
mod bytewise;
mod calls;
mod dial;
mod encodings;
mod memory;
mod methods;
mod play;
mod requests;
mod row;
mod session;
mod settings;
mod setup;
mod step;
mod transcript;
mod transfers;

pub use answers::{
    bytes, count, features, lines, reply, size, text, text_of, texts_of, time, unit,
};
pub use builder::RowBuilder;
pub use bytewise::ran_bytewise;
pub use calls::{call, moment};
pub use encodings::Named;
pub use memory::{boxed, had};
pub use methods::{Live, Opening, called, greeted, make, optional};
pub use play::Play;
pub use requests::recorded;
pub use row::{Ending, Row};
pub use session::{NamedSession, counted, encoded, polled, ran, unread};
pub use setup::Setup;
pub use transcript::{Mark, RowState, add_sent, add_upload};
pub use transfers::{Held, Transfers};
