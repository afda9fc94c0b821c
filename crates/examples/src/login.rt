//! A login, with which the programs of the blocking client begin.

use std::sync::Wait;
use suppaftp::{FtpResult, FtpStream, Host};

/// A client that has logged in.
pub fn logged_in<R: Host + Wait>(rt: &R, address: &str) -> FtpResult<FtpStream> {
    let client = FtpStream::connect_to(rt, address)?;
    client.login(rt, "anonymous", "guest@example.org")?;
    Ok(client)
}
