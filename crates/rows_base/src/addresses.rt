//! The addresses of data connections: those in replies, and the command that sends the client's.

use crate::words::said;
use ftp_calls::active::port_command;
use ftp_calls::answers::{NoAddress, read_extended_port, read_passive_address};
use rows_text::{RowError, bytes_of, value};
use std::alloc::Global;

/// The address in a reply to PASV.
pub fn passive(alloc: Global, input: &str) -> Result<Vec<u8>, RowError> {
    let body = bytes_of(alloc, input)?;
    match read_passive_address(&body) {
        Ok(address) => Ok(format!(in alloc; "{address}")?.into_bytes()),
        Err(fault) => said(alloc, word(fault)),
    }
}

/// The port in a reply to EPSV.
pub fn extended(alloc: Global, input: &str) -> Result<Vec<u8>, RowError> {
    let body = bytes_of(alloc, input)?;
    match read_extended_port(&body) {
        Ok(port) => Ok(format!(in alloc; "{port}")?.into_bytes()),
        Err(fault) => said(alloc, word(fault)),
    }
}

/// The line of the command that sends an address.
pub fn command(alloc: Global, input: &str) -> Result<Vec<u8>, RowError> {
    let command = port_command(alloc, value(input)?)?;
    let line = format!(in alloc; "{command}");
    drop(command);
    Ok(line?.into_bytes())
}

/// Why there is no address, as rows write it.
fn word(fault: NoAddress) -> &'static str {
    match fault {
        NoAddress::Absent => "absent",
        NoAddress::Unreadable => "unreadable",
    }
}
