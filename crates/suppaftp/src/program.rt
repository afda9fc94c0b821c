//! Scripts of a server and of calls, which `suppaftp play` plays over memory.

pub use ftp_script::play_script;
