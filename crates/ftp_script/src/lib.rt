//! Scripts of a server and of calls, played over memory.
//!
//! A script says what the server sends, what becomes of data connections and which calls a client makes; its transcript
//! says what went out, where data connections were asked for, and what each call returned.
#![tactic(auto)]

mod call;
mod compare;
mod cut;
mod escapes;
mod line;
mod player;
mod program;
mod script;
mod shown;
mod supplies;

pub use program::play_script;
