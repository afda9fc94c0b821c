//! Where the last error of input or output was met, and whether the server has refused EPSV.
//!
//! It is beside what a contract sees of a machine: no dialogue depends on it.

use std::net::SocketAddr;

/// Where an error of input or output was met.
#[derive(Clone, Copy, Debug, PartialEq, Eq)]
pub enum Failure {
    /// On the control connection.
    Control,
    /// On a data connection to or from this address, or as one was to be made to it; of one that was waited for, the
    /// address that was listened on. None where it isn't known.
    Data(Option<SocketAddr>),
    /// By what the caller handed in: a source, a writer, a reader, or a builder of data connections.
    Caller,
}

/// The last failure, the address of the data connection, and whether EPSV was refused.
#[derive(Drop)]
pub(crate) struct Failures {
    last: Option<Failure>,
    address: Option<SocketAddr>,
    refused_epsv: bool,
}

impl Failures {
    /// Nothing has failed, and no data connection was made.
    pub(super) fn none() -> Failures {
        Failures {
            last: None,
            address: None,
            refused_epsv: false,
        }
    }

    /// The last failure.
    pub(super) fn last(&self) -> Option<Failure> {
        self.last
    }

    /// Something failed here.
    pub(super) fn note(&mut self, failure: Failure) {
        self.last = Some(failure);
    }

    /// The control connection failed, if so.
    pub(super) fn note_control(&mut self, failed: bool) {
        if failed {
            self.last = Some(Failure::Control);
        }
    }

    /// The data connection failed, if so.
    pub(super) fn note_data(&mut self, failed: bool) {
        if failed {
            self.last = Some(Failure::Data(self.address));
        }
    }

    /// The server has refused EPSV.
    pub(super) fn note_refused_epsv(&mut self) {
        self.refused_epsv = true;
    }

    /// Whether the server has refused EPSV.
    pub(super) fn refused_epsv(&self) -> bool {
        self.refused_epsv
    }

    /// The data connection is of this address from here on.
    pub(super) fn at(&mut self, address: SocketAddr) {
        self.address = Some(address);
    }
}
