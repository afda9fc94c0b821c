//! A source is copied to a transfer, some reads and writes a poll: a text's lines end in CR LF on the wire (RFC 959, section
//! 3.1.1.1).
//!
//! The source is read by at most 8,192 bytes at once, until a block is full, the source waits or ends; what stands
//! on the wire for the block is written then: 64 KiB at most.

ghost use Rattle.std.specs.Prelude.{◌≡◌, Some};
ghost use Rattle.futures.specs.Poll.{OnPending};
ghost use Rattle.futures.specs.Task.{IsArmed, Keeps};

use ftp_base::ascii::{CrlfEncoder, upload_size};
use ftp_base::retry::RETRIES;
use ftp_base::types::{ConnectionError, FtpError, FtpResult};
use ftp_transfer::{Progress, Transfer};
use ftp_transport::{PollConn, TaskConn};
use futures::task::{Context, Poll};
use std::alloc::Global;
use std::io::ErrorKind;
use tokio::io::AsyncRead;

/// How many bytes of a source are read at once.
const PIECE: usize = 8_192;

/// How many bytes are written at once.
const BLOCK: usize = 65_536;

/// How many reads and writes one poll makes, so that other tasks run beside a long transfer.
pub const STEPS: u32 = 64;

/// A source, and how far it was copied.
pub struct Copying<S: AsyncRead, P: Progress> {
    source: S,
    progress: P,
    block: Option<Block>,
    // How often in a row the source was interrupted.
    interrupted: usize,
    // How many bytes stand on the wire for what was read.
    count: u64,
    // Why the source is read no more.
    stop: Option<Stop>,
    // Whether the data connection failed.
    data_failed: bool,
}

impl<S: AsyncRead, P: Progress> Drop for Copying<S, P> {
    fn drop(self) {
        let Self {
            source,
            progress,
            block,
            interrupted: _,
            count: _,
            stop: _,
            data_failed: _,
        } = self;
        drop(source);
        drop(progress);
        drop(block);
    }
}

/// Why a source is read no more.
#[derive(Clone, Copy)]
enum Stop {
    /// It has ended.
    Ended,
    /// It has failed.
    Failed(ErrorKind),
}

/// What was read last, and what stands on the wire for it.
#[derive(Drop)]
struct Block {
    input: Vec<u8>,
    // How many bytes of the input were read.
    filled: usize,
    // None where the bytes go as they are.
    text: Option<Text>,
    // Whether what stands on the wire for the input is being written, and how many of its bytes were.
    sends: bool,
    sent: usize,
}

/// A text on the wire.
#[derive(Drop)]
struct Text {
    encoder: CrlfEncoder,
    output: Vec<u8>,
}

impl Block {
    /// An empty block, for a text or for other bytes.
    ///
    /// # Errors
    /// `OutOfMemory`.
    fn new(alloc: Global, is_text: bool) -> FtpResult<Block> {
        let text = if is_text {
            Some(Text {
                encoder: CrlfEncoder::new(),
                output: Vec::new(alloc),
            })
        } else {
            None
        };
        // A text may be twice as long on the wire.
        let most = if is_text { BLOCK / 2 } else { BLOCK };
        Ok(Block {
            input: vec![in alloc; 0u8; most]?,
            filled: 0,
            text,
            sends: false,
            sent: 0,
        })
    }

    /// The room that the next read fills.
    fn room(&mut self) -> &mut [u8] {
        let start = self.filled.min(self.input.len());
        let end = start.saturating_add(PIECE).min(self.input.len());
        &mut self.input[start..end]
    }

    /// So many bytes were read into the room.
    fn fill(&mut self, count: usize) {
        self.filled = self.filled.saturating_add(count);
    }

    /// Whether nothing was read.
    fn is_empty(&self) -> bool {
        self.filled == 0
    }

    /// Whether there is no room for more.
    fn is_full(&self) -> bool {
        self.filled >= self.input.len()
    }

    /// From now on what stands on the wire for the block is written, after so many bytes. Returns how many they are then.
    ///
    /// # Errors
    /// `SourceTooLarge`, `OutOfMemory`.
    fn begin_to_send(&mut self, count: u64) -> FtpResult<u64> {
        if let Some(text) = &mut self.text {
            text.output.clear();
            let piece = front(self.input.as_slice(), self.filled);
            text.encoder.encode(piece, &mut text.output)?;
        }
        self.sends = true;
        self.sent = 0;
        upload_size(count, self.wire().len())
    }

    /// What stands on the wire for the block.
    fn wire(&self) -> &[u8] {
        match &self.text {
            Some(text) => text.output.as_slice(),
            None => front(self.input.as_slice(), self.filled),
        }
    }

    /// The bytes that weren't written.
    fn unsent(&self) -> &[u8] {
        behind(self.wire(), self.sent)
    }

    /// So many of the unsent bytes were written. Where all were, the block is empty again.
    fn advance(&mut self, count: usize) {
        self.sent = self.sent.saturating_add(count);
        if self.sent >= self.wire().len() {
            self.sends = false;
            self.filled = 0;
        }
    }
}

/// The first bytes, as far as there are so many.
pub fn front(bytes: &[u8], count: usize) -> &[u8] {
    if count < bytes.len() {
        &bytes[..count]
    } else {
        bytes
    }
}

/// The bytes after so many.
pub fn behind(bytes: &[u8], count: usize) -> &[u8] {
    if count < bytes.len() {
        &bytes[count..]
    } else {
        &[]
    }
}

impl<S: AsyncRead, P: Progress> Copying<S, P> {
    /// Nothing was copied yet.
    pub fn new(source: S, progress: P) -> Copying<S, P> {
        Copying {
            source,
            progress,
            block: None,
            interrupted: 0,
            count: 0,
            stop: None,
            data_failed: false,
        }
    }

    /// Whether the data connection failed.
    pub fn data_failed(&self) -> bool {
        self.data_failed
    }

    /// How many bytes were written, once the source has ended.
    pub fn count(&self) -> u64 {
        self.count
    }

    /// Makes the buffer, for a text or for other bytes.
    ///
    /// # Errors
    /// `OutOfMemory`.
    pub fn begin(&mut self, alloc: Global, text: bool) -> FtpResult<()> {
        self.block = Some(Block::new(alloc, text)?);
        Ok(())
    }

    /// Continues to copy. Ready once the source has ended and all is written.
    ///
    /// # Errors
    /// The error of the source, or of the data connection; `SourceTooLarge`, `OutOfMemory`.
    pub fn poll_copy<C: PollConn<()> + TaskConn + Drop>(
        &mut self,
        transfer: &mut Transfer<C>,
        cx: &mut Context<'_>,
    ) -> Poll<FtpResult<()>>
        ensures registered { OnPending result (IsArmed cx.new) }
        ensures kept { Keeps cx.old cx.new }
    {
        for _ in 0..STEPS {
            if let Some(polled) = self.poll_step(transfer, cx) {
                return polled;
            }
        }
        cx.yield_now()
    }

    /// Makes one read of the source, or one write. None where the copy goes on.
    fn poll_step<C: PollConn<()> + TaskConn + Drop>(
        &mut self,
        transfer: &mut Transfer<C>,
        cx: &mut Context<'_>,
    ) -> Option<Poll<FtpResult<()>>>
        ensures registered { result ≡ Some Poll.Pending → IsArmed cx.new }
        ensures kept { Keeps cx.old cx.new }
    {
        let Some(block) = &mut self.block else {
            return Some(Poll::Ready(Err(FtpError::OutOfMemory)));
        };
        if block.sends {
            return match transfer.poll_write_in(cx, block.unsent()) {
                Ok(Poll::Ready(count)) => {
                    block.advance(count);
                    if !block.sends {
                        self.progress.went(self.count);
                    }
                    None
                }
                Ok(Poll::Pending) => Some(Poll::Pending),
                Err(kind) => {
                    self.data_failed = true;
                    Some(Poll::Ready(Err(io_fault(kind))))
                }
            };
        }
        match self.stop {
            None => self.poll_source(cx),
            Some(Stop::Ended) => Some(Poll::Ready(Ok(()))),
            Some(Stop::Failed(kind)) => Some(Poll::Ready(Err(io_fault(kind)))),
        }
    }

    /// Reads the source once. An interrupted read is made again, at most 64 times in a row. Where the block is full, or the
    /// source waits or stops, the block is written next.
    fn poll_source(&mut self, cx: &mut Context<'_>) -> Option<Poll<FtpResult<()>>>
        ensures registered { result ≡ Some Poll.Pending → IsArmed cx.new }
        ensures kept { Keeps cx.old cx.new }
    {
        let Some(block) = &mut self.block else {
            return Some(Poll::Ready(Err(FtpError::OutOfMemory)));
        };
        match self.source.poll_read(cx, block.room()) {
            Poll::Ready(Ok(0)) => self.stop = Some(Stop::Ended),
            Poll::Ready(Ok(count)) => {
                self.interrupted = 0;
                block.fill(count);
                if !block.is_full() {
                    return None;
                }
            }
            Poll::Ready(Err(error)) => {
                let kind = error.kind();
                if kind == ErrorKind::Interrupted && self.interrupted < RETRIES {
                    self.interrupted += 1;
                    return None;
                }
                self.stop = Some(Stop::Failed(kind));
            }
            Poll::Pending => {
                if block.is_empty() {
                    return Some(Poll::Pending);
                }
            }
        }
        self.begin_to_send()
    }

    /// From now on the block is written, if there is anything in it. None where it is.
    fn begin_to_send(&mut self) -> Option<Poll<FtpResult<()>>>
        ensures moves { result ≡ Some Poll.Pending → ⊥ }
    {
        let Some(block) = &mut self.block else {
            return None;
        };
        if block.is_empty() {
            return None;
        }
        match block.begin_to_send(self.count) {
            Ok(count) => {
                self.count = count;
                None
            }
            Err(fault) => Some(Poll::Ready(Err(fault))),
        }
    }
}

/// An error of the source, or of the data connection.
pub fn io_fault(kind: ErrorKind) -> FtpError {
    FtpError::ConnectionError(ConnectionError::Io(kind))
}
