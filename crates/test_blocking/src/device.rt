//! A transport over any other, of whose calls one fails: for tests that want an error at each place in turn.
//!
//! The transport and its connections count their calls by one counter, a `Device`. The call whose turn has come does
//! nothing, returns the error that was asked for, and is on record as a failure. What a cell holds no contract can name, so
//! what the contracts say is that any call may fail, and is counted then.

ghost use Rattle.std.specs.Prelude.{◌<◌, ◌≤◌};

mod conn;
mod transport;

pub use conn::FailingConn;
use std::cell::Cell;
use std::io::ErrorKind;
use std::sync::atomic::AtomicU32;
use std::sync::atomic::Ordering::SeqCst;
pub use transport::FailingTransport;

/// What a call is.
#[derive(Clone, Copy, PartialEq, Eq)]
pub enum Place {
    /// A read or a write of the control connection.
    Control,
    /// A connect, a listen, an accept, or a question for an address.
    Request,
    /// A read of a data connection.
    DataRead,
    /// A write of one.
    DataWrite,
    /// The close of one.
    Close,
}

/// What a transport and all its connections share: which call fails and how, and how much a read or a write takes.
#[derive(Drop)]
pub struct Device {
    // How many calls are left up to the one that fails, with it; 0 where none does.
    left: AtomicU32,
    kind: Cell<ErrorKind>,
    failed_at: Cell<Option<Place>>,
    read_at_most: Cell<usize>,
    write_at_most: Cell<usize>,
}

impl Device {
    /// No call fails, and each takes as much as it can.
    pub fn new() -> Device {
        Device {
            left: AtomicU32::new(0),
            kind: Cell::new(ErrorKind::Other),
            failed_at: Cell::new(None),
            read_at_most: Cell::new(usize::MAX),
            write_at_most: Cell::new(usize::MAX),
        }
    }

    /// The call of this number, counted from 1, fails with an error of this kind, once; none for 0.
    pub fn fail_nth(&self, count: u32, kind: ErrorKind) {
        self.kind.set(kind);
        self.left.store(count, SeqCst);
    }

    /// From now on a read gives at most so many bytes, at least one.
    pub fn read_at_most(&self, count: usize) {
        self.read_at_most.set(count);
    }

    /// From now on a write takes at most so many bytes, at least one.
    pub fn write_at_most(&self, count: usize) {
        self.write_at_most.set(count);
    }

    /// What the call was that failed, if one has.
    pub fn failed_at(&self) -> Option<Place> {
        self.failed_at.get()
    }

    /// A call is made: the kind of its error, where it is to fail.
    pub(crate) fn failure(&self, place: Place) -> Option<ErrorKind> {
        let left = self.left.load(SeqCst);
        if left > 0 {
            self.left.store(left - 1, SeqCst);
        }
        if left != 1 {
            return None;
        }
        self.failed_at.set(Some(place));
        Some(self.kind.get())
    }

    /// How many of so many bytes a read gives at most.
    pub(crate) fn read_front(&self, len: usize) -> usize
        requires { 0 < len }
        ensures some { 0 < result }
        ensures bound { result ≤ len }
    {
        self.read_at_most.get().max(1).min(len)
    }

    /// How many of so many bytes a write takes at most.
    pub(crate) fn write_front(&self, len: usize) -> usize
        requires { 0 < len }
        ensures some { 0 < result }
        ensures bound { result ≤ len }
    {
        self.write_at_most.get().max(1).min(len)
    }
}
