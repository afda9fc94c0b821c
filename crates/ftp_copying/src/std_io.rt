//! Readers and writers of `std` as those of `tokio`.

ghost use Rattle.std.specs.Prelude.{⊤};

use futures::task::{Context, Poll};
use std::io;
use std::io::{Read, Write};
use tokio::io::{AsyncRead, AsyncWrite};

/// A reader or a writer of `std` as one of `tokio`, which never waits: for a file of the system, a text or a `Vec`. A poll
/// takes as long as the read or the write that it makes.
#[derive(Drop)]
pub struct AllowStdIo<T: Drop>(pub T);

impl<T: Read + Drop> AsyncRead for AllowStdIo<T> {
    ghost reads = { λ _ _ _. ⊤ };

    ghost is_at_end = { λ _. ⊤ };

    ghost reads_nothing = { λ _. tt };

    ghost reads_in_order = { λ _ _ _ _ _ _ _. tt };

    fn poll_read(&mut self, _cx: &mut Context<'_>, buf: &mut [u8]) -> Poll<io::Result<usize>> {
        Poll::Ready(self.0.read(buf))
    }
}

impl<T: Write + Drop> AsyncWrite for AllowStdIo<T> {
    ghost writes = { λ _ _ _. ⊤ };

    ghost writes_nothing = { λ _. tt };

    ghost writes_in_order = { λ _ _ _ _ _ _ _. tt };

    fn poll_write(&mut self, _cx: &mut Context<'_>, buf: &[u8]) -> Poll<io::Result<usize>> {
        Poll::Ready(self.0.write(buf))
    }

    fn poll_flush(&mut self, _cx: &mut Context<'_>) -> Poll<io::Result<()>> {
        Poll::Ready(self.0.flush())
    }

    /// Flushes.
    fn poll_shutdown(&mut self, _cx: &mut Context<'_>) -> Poll<io::Result<()>> {
        Poll::Ready(self.0.flush())
    }
}
