//! The entries of a directory.

use crate::login::logged_in;
use anyhow::Result;
use std::sync::Wait;
use suppaftp::{FtpResult, FtpStream, Host};

/// Prints the entries of a directory, and the lines that can't be read.
pub fn show<R: Host + Wait + Print>(rt: &R, client: &FtpStream, path: &str) -> FtpResult<()> {
    let listing = client.list_entries(rt, Some(path))?;
    for entry in &listing.files {
        let slash = if entry.is_directory() { "/" } else { "" };
        println!(rt; "{}{slash} {}", entry.name(), entry.size())?;
    }
    for line in &listing.unread {
        println!(rt; "can't be read: {line}")?;
    }
    Ok(())
}

/// Shows the entries of `pub`.
pub fn run<R: Host + Wait + Print>(rt: &R, address: &str) -> Result<()> {
    let client = logged_in(rt, address)?;
    show(rt, &client, "pub")?;
    client.quit(rt)?;
    Ok(())
}
