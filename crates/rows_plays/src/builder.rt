//! A row's builder of passive data connections.

use crate::memory::ended;
use ftp_base::types::{ConnectionError, FtpError, FtpResult};
use ftp_transport::{MemoryConn, PassiveStreamBuilder};
use rows_text::{RowError, bytes_of};
use std::alloc::{AllocError, Global};
use std::io::ErrorKind;
use std::net::SocketAddr;

/// The error that a builder returns.
#[derive(Clone, Copy)]
enum Fault {
    /// `ConnectionRefused`.
    Refused,
    /// `TimedOut`.
    TimedOut,
    /// `BadResponse`.
    BadResponse,
    /// `OutOfMemory`.
    OutOfMemory,
}

/// A builder over memory, which returns the same whatever address it is asked for: an error, or a connection on which
/// these bytes come.
pub struct RowBuilder {
    alloc: Global,
    fault: Option<Fault>,
    bytes: Vec<u8>,
}

impl Drop for RowBuilder {
    fn drop(self) {
        let Self {
            alloc: _,
            fault: _,
            bytes,
        } = self;
        drop(bytes);
    }
}

impl RowBuilder {
    /// A builder of connections on which these bytes come.
    pub fn of_bytes(alloc: Global, bytes: &str) -> Result<RowBuilder, RowError> {
        Ok(RowBuilder {
            alloc,
            fault: None,
            bytes: bytes_of(alloc, bytes)?,
        })
    }

    /// A builder that returns the error of this name.
    pub fn of_fault(alloc: Global, name: &str) -> Result<RowBuilder, RowError> {
        let fault = match name {
            "ConnectionRefused" => Fault::Refused,
            "TimedOut" => Fault::TimedOut,
            "BadResponse" => Fault::BadResponse,
            "OutOfMemory" => Fault::OutOfMemory,
            _ => return Err(RowError::NotUnderstood),
        };
        Ok(RowBuilder {
            alloc,
            fault: Some(fault),
            bytes: Vec::new(alloc),
        })
    }

    /// The same builder again.
    pub fn again(&self) -> Result<RowBuilder, AllocError> {
        Ok(RowBuilder {
            alloc: self.alloc,
            fault: self.fault,
            bytes: Vec::from_slice(self.alloc, &self.bytes)?,
        })
    }

    /// Its error, where it returns one.
    fn fault(&self) -> Option<FtpError> {
        Some(match self.fault? {
            Fault::Refused => FtpError::ConnectionError(ConnectionError::Io(
                ErrorKind::ConnectionRefused,
            )),
            Fault::TimedOut => FtpError::ConnectionError(ConnectionError::TimedOut),
            Fault::BadResponse => FtpError::BadResponse,
            Fault::OutOfMemory => FtpError::OutOfMemory,
        })
    }
}

impl PassiveStreamBuilder<MemoryConn> for RowBuilder {
    ghost answers = { λ _ _ _. Unit {0} };

    fn build(&self, _address: SocketAddr) -> FtpResult<MemoryConn> {
        match self.fault() {
            Some(fault) => Err(fault),
            None => Ok(ended(MemoryConn::new(self.alloc), &self.bytes)?),
        }
    }
}
