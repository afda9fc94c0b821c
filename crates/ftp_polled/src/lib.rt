//! The polled client: each call is a future.
//!
//! A client is a session under a lock of `tokio`, which tasks may share. A method makes a state: a future that waits for
//! the lock, polls the session's call under it, and lets the lock go once it has the answer. A state holds nothing of a
//! dialogue but how far its call has come; what goes over the connections is the session's, which the blocking client
//! makes, too.
//!
//! A state that waits may be dropped at any time, which cancels it and lets the lock go. What was read of a reply is kept,
//! the unsent tail of a line goes out before any other byte, and a transfer that the state held is left: its last reply is
//! read before the next command, and so is the reply to a command that was begun. So the next call gets its own reply, of a
//! server that gives each command the replies of RFC 959; but for `finish` and `abort`, which read the first reply that
//! comes, where a command was dropped beside their transfer. A dropped `transfer_type` or `REST` may have changed the server,
//! while the client's own setting stays.
//!
//! A poll that waits has registered its task for what it waits for, or asks to be polled again at once: no wake-up is
//! lost. A deadline is waited for by a timer of the transport's, where it was made with one, as by
//! `TokioTransport::of_runtime`; else a state asks to be polled again at once while it runs.
//!
//! Three things are left to the caller. A future that was polled once has to be polled on or dropped: till then it keeps
//! the lock that it was handed, and every other call of its client waits. A source, a reader or a builder that a call was
//! handed must not call its own client, whose lock that call holds. And a client belongs to the runtime that its
//! transport was made of, which has to run for the tasks that wait to be woken.
#![tactic(auto)]

mod adjusting;
mod calling;
mod client;
mod commands;
mod connect;
mod connecting_with;
mod dialogue;
mod ending;
mod file_lists;
mod from_answer;
mod hold;
mod lock;
mod opening;
mod retrieve;
mod secure;
mod settle;
mod sink;
mod stream_lines;
mod tls_change;
mod transfer_stream;
mod transfers;
mod upload;
mod utf8;
mod waiting;
mod walking;
mod welcome;
mod whole_file;

pub use adjusting::Adjust;
pub use client::ImplAsyncFtpStream;
pub use connect::Connect;
pub use connecting_with::ConnectWith;
pub use dialogue::{Dialogue, Lines, ReadReply};
pub use ending::{Abort, Finish};
pub use file_lists::{ListEntries, ListFiles};
pub use from_answer::FromAnswer;
pub use ftp_copying::AllowStdIo;
pub use lock::{ControlSocket, Failed, LastFailure, Lock};
pub use opening::{OpenTransfer, OpenWithReply};
pub use retrieve::{RetrReader, Retrieve};
pub use secure::Secure;
pub use settle::Settle;
pub use sink::{DownloadTo, Sink, WriteTo};
pub use stream_lines::StreamLines;
pub use transfer_stream::TransferStream;
pub use upload::Upload;
pub use utf8::UseUtf8;
pub use walking::Walking;
pub use welcome::Welcome;
