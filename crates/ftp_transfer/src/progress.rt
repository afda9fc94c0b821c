//! What a whole file reports its progress to.

ghost use Rattle.std.specs.Prelude.{◌≡◌};

use ftp_base::types::{ConnectionError, FtpError};
use std::io::ErrorKind;

/// What an upload or a download reports its progress to: a bar on a screen, say.
pub trait Progress: Drop {
    /// So many bytes have gone since the transfer began: of an upload to the data connection, with the CR that a text's
    /// lines were given; of a download to the caller's writer. It is called after each piece, of at most 64 KiB.
    fn went(&mut self, so_far: u64);
}

/// Nothing is reported.
#[derive(Clone, Copy, Debug, PartialEq, Eq)]
pub struct NoProgress;

impl Progress for NoProgress {
    fn went(&mut self, _so_far: u64) {}
}

impl<P: Progress> Progress for &mut P {
    fn went(&mut self, so_far: u64) {
        (**self).went(so_far);
    }
}

/// What a copy reports its progress to, and whether the data connection failed in it.
#[derive(Drop)]
pub struct Watch<'p, P: Progress> {
    progress: &'p mut P,
    data_failed: bool,
}

impl<'p, P: Progress> Watch<'p, P> {
    /// Nothing was copied yet.
    pub fn new(progress: &'p mut P) -> Watch<'p, P> {
        Watch {
            progress,
            data_failed: false,
        }
    }

    /// Some bytes more have gone, and are so many now. Where none have nothing is reported.
    pub fn went(&mut self, more: usize, so_far: u64) {
        if more > 0 {
            self.progress.went(so_far);
        }
    }

    /// The data connection failed: this is the call's error.
    pub fn fault(&mut self, kind: ErrorKind) -> FtpError
        ensures { result ≡ FtpError.ConnectionError (ConnectionError.Io kind) }
    {
        self.data_failed = true;
        FtpError::ConnectionError(ConnectionError::Io(kind))
    }

    /// Whether the data connection failed.
    pub fn data_failed(&self) -> bool {
        self.data_failed
    }
}
