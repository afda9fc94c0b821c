//! A connection whose calls may fail.

ghost use Rattle.std.specs.Prelude.{◌≡◌, false};
ghost use Rattle.ftp_transport.specs.Told.{HasFailed};
ghost use Rattle.test_blocking.specs.Over.{told_over};

use crate::device::{Device, Place};
use ftp_transport::{Conn, Tells};
use std::io::ErrorKind;
use std::net::SocketAddr;

/// A connection over another one, a control connection or one for data. It records what the one below does, and counts the
/// failures of its calls, whichever of the two they are of.
pub struct FailingConn<'d, C: Tells + Drop> {
    conn: C,
    device: &'d Device,
    controls: bool,
    closed_here: bool,
    failures: u64,
    last_fault: Option<ErrorKind>,
}

impl<C: Tells + Drop> Drop for FailingConn<'_, C> {
    fn drop(self) {
        let Self {
            conn,
            device: _,
            controls: _,
            closed_here: _,
            failures: _,
            last_fault: _,
        } = self;
        drop(conn);
    }
}

impl<'d, C: Tells + Drop> FailingConn<'d, C> {
    /// A control connection over this one.
    pub fn control(conn: C, device: &'d Device) -> FailingConn<'d, C> {
        let mut control = FailingConn::data(conn, device);
        control.controls = true;
        control
    }

    /// A data connection over this one, of which no call has failed.
    pub(crate) fn data(conn: C, device: &'d Device) -> FailingConn<'d, C>
        ensures conn { result.conn ≡ conn }
        ensures closed_here { result.closed_here ≡ false }
        ensures failures { result.failures ≡ 0 }
        ensures last_fault { result.last_fault ≡ None }
    {
        FailingConn {
            conn,
            device,
            controls: false,
            closed_here: false,
            failures: 0,
            last_fault: None,
        }
    }

    /// The connection below.
    pub fn get_ref(&self) -> &C
        ensures { result.now ≡ self.now.conn }
    {
        &self.conn
    }

    /// A call is made that is this of a data connection: the kind of its error, where it is to fail.
    fn failure(&self, of_data: Place) -> Option<ErrorKind> {
        let place = if self.controls {
            Place::Control
        } else {
            of_data
        };
        self.device.failure(place)
    }

    /// Counts a failure.
    fn count(&mut self, kind: ErrorKind) -> ErrorKind
        ensures kind { result ≡ kind }
        ensures conn { self.new.conn ≡ self.old.conn }
        ensures counted { HasFailed kind (told_over C.told self.old) (told_over C.told self.new) }
    {
        self.failures = self.failures.saturating_add(1);
        self.last_fault = Some(kind);
        kind
    }
}

impl<C: Tells + Drop> Tells for FailingConn<'_, C> {
    ghost tells = { C.tells };

    ghost told = { told_over C.told };

    fn begin(&mut self) {
        self.conn.begin();
    }

    ghost end_faults = { λ _. Unit {0} };

    fn local_addr(&mut self) -> Result<SocketAddr, ErrorKind> {
        if let Some(kind) = self.device.failure(Place::Request) {
            return Err(self.count(kind));
        }
        match self.conn.local_addr() {
            Ok(address) => Ok(address),
            Err(kind) => Err(self.count(kind)),
        }
    }

    fn peer_addr(&mut self) -> Result<SocketAddr, ErrorKind> {
        if let Some(kind) = self.device.failure(Place::Request) {
            return Err(self.count(kind));
        }
        match self.conn.peer_addr() {
            Ok(address) => Ok(address),
            Err(kind) => Err(self.count(kind)),
        }
    }

    fn close(&mut self) -> Result<(), ErrorKind> {
        self.closed_here = true;
        if let Some(kind) = self.failure(Place::Close) {
            return Err(self.count(kind));
        }
        match self.conn.close() {
            Ok(()) => Ok(()),
            Err(kind) => Err(self.count(kind)),
        }
    }
}

impl<C: Conn + Drop> Conn for FailingConn<'_, C> {
    ghost blocking_read_faults = { λ _. Unit {0} };

    ghost blocking_write_faults = { λ _ _. Unit {0} };

    fn read(&mut self, buffer: &mut [u8]) -> Result<usize, ErrorKind> {
        if let Some(kind) = self.failure(Place::DataRead) {
            return Err(self.count(kind));
        }
        let most = self.device.read_front(buffer.len());
        match self.conn.read(&mut buffer[..most]) {
            Ok(count) => Ok(count),
            Err(kind) => Err(self.count(kind)),
        }
    }

    fn write(&mut self, bytes: &[u8]) -> Result<usize, ErrorKind> {
        if let Some(kind) = self.failure(Place::DataWrite) {
            return Err(self.count(kind));
        }
        let most = self.device.write_front(bytes.len());
        match self.conn.write(&bytes[..most]) {
            Ok(count) => Ok(count),
            Err(kind) => Err(self.count(kind)),
        }
    }
}
