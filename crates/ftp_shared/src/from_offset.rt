//! A progress that begins at an offset.

ghost use Rattle.std.specs.Prelude.{◌≡◌};

use ftp_transfer::Progress;

/// Reports the place in a file, of a transfer that begins at an offset: the offset and what has gone since.
#[derive(Drop)]
pub struct FromOffset<P: Progress> {
    offset: u64,
    progress: P,
}

impl<P: Progress> FromOffset<P> {
    /// Reports to this progress, of a transfer that begins at this offset, in bytes.
    pub fn new(offset: u64, progress: P) -> FromOffset<P>
        ensures { result ≡ record { offset = offset; progress = progress } }
    {
        FromOffset { offset, progress }
    }
}

impl<P: Progress> Progress for FromOffset<P> {
    fn went(&mut self, so_far: u64) {
        self.progress.went(self.offset.saturating_add(so_far));
    }
}
