//! The bytes of a data connection, read into one growing buffer.

ghost use Rattle.std.specs.Prelude.{◌≡◌, ◌≤◌, ◌+◌, ◌-◌, drop, take, vec_len, IfOk, Ok, OnErr};
ghost use Rattle.futures.specs.declared.task.Poll.TheVariants as poll;
ghost use Rattle.ftp_transport.specs.Told.{ReadTells, ReadsAtMost};
ghost use Rattle.ftp_dialogue.specs.Dialogue.{chunk};

use super::data_path::DataPath;
use ftp_base::types::Bytes;
use ftp_transport::{Network, Tells};
use futures::task::Poll;
use std::alloc::{AllocError, Global};
use std::io::ErrorKind;
use std::marker::Model;

/// How many bytes a read asks for at most.
const CHUNK: usize = 65_536;

/// How many bytes the first read asks for: a small file's, since memory is filled before it is read into.
const FIRST: usize = 2_000;

/// How many bytes a later read asks for at least.
const NEXT: usize = 8_192;

/// The bytes that were read so far, at the front of a buffer that has room for more.
pub struct Gathered {
    buffer: Vec<u8>,
    filled: usize,
}

impl Drop for Gathered {
    fn drop(self) {
        let Self { buffer, filled: _ } = self;
        drop(buffer);
    }
}

impl Model for Gathered {
    ghost use Rattle.std.specs.Prelude.{◌≤◌, ◌+◌, ℕ, List, take, vec_len};
    ghost use Rattle.ftp_dialogue.specs.Dialogue.{chunk};

    ghost Value = { List ℕ };

    ghost view = { λ g. take g.filled g.buffer.items };

    ghost invariant = { λ g. (g.filled ≤ vec_len g.buffer) × (vec_len g.buffer ≤ g.filled + chunk) };
}

/// What a read resulted in.
#[derive(Drop)]
pub(crate) enum More {
    /// There are more bytes.
    Grew,
    /// There are no others.
    Ended,
    /// It failed.
    Failed(ErrorKind),
    /// There was no memory for it.
    NoMemory,
}

impl Gathered {
    ghost use Rattle.std.specs.Prelude.{◌≡◌, [], length};
    ghost use Rattle.futures.specs.declared.task.Poll.TheVariants as poll;
    ghost use Rattle.ftp_dialogue.specs.Gathering.{GrowsBy};

    /// No bytes.
    pub(super) fn new(alloc: Global) -> Gathered
        ensures { result ≡ [] }
    {
        Gathered {
            buffer: Vec::new(alloc),
            filled: 0,
        }
    }

    /// More bytes are read, after those that were.
    pub(super) fn read_more<W, Tr: Network, A: DataPath<Tr, W>>(
        &mut self,
        data_path: &A,
        conn: &mut Tr::Conn,
        w: &mut W,
    ) -> Poll<More>
        requires may { A.may_ask }
        ensures waits { result ≡ poll.Pending → A.may_wait }
        ensures grows { GrowsBy Tr.Conn.tells self.old self.new (Tr.Conn.told conn.old)
            (Tr.Conn.told conn.new) result }
    {
        match read_after(data_path, conn, w, &mut self.buffer, self.filled) {
            Err(AllocError) => Poll::Ready(More::NoMemory),
            Ok(Err(kind)) => Poll::Ready(More::Failed(kind)),
            Ok(Ok(Poll::Pending)) => Poll::Pending,
            Ok(Ok(Poll::Ready(0))) => Poll::Ready(More::Ended),
            Ok(Ok(Poll::Ready(count))) => {
                self.filled += count;
                Poll::Ready(More::Grew)
            }
        }
    }

    /// How many bytes there are.
    pub(super) fn len(&self) -> usize
        ensures { result ≡ length self.now }
    {
        self.filled
    }

    /// The bytes.
    pub(super) fn into_bytes(self) -> Bytes
        ensures { result ≡ self }
    {
        let Gathered { mut buffer, filled } = self;
        buffer.truncate(filled);
        fitted(buffer)
    }
}

/// A buffer's bytes. Where its memory is more than a quarter above them the rest of it is let go.
pub(super) fn fitted(mut buffer: Vec<u8>) -> Bytes
    ensures { result ≡ buffer.items }
{
    let count = buffer.len();
    if buffer.capacity() - count > count / 4 {
        buffer.shrink_to_fit();
    }
    Bytes::from_vec(buffer)
}

/// Reads once into a buffer, after its filled bytes. Where it has no room for half as many, it grows first by as many as are
/// filled, within the limits of a read.
///
/// # Errors
/// There is no memory to grow, and nothing is read.
fn read_after<W, Tr: Network, A: DataPath<Tr, W>>(
    data_path: &A,
    conn: &mut Tr::Conn,
    w: &mut W,
    buffer: &mut Vec<u8>,
    filled: usize,
) -> Result<Result<Poll<usize>, ErrorKind>, AllocError>
    requires fits { filled ≤ vec_len buffer.old }
    requires room { vec_len buffer.old ≤ filled + chunk }
    requires may { A.may_ask }
    ensures within { filled ≤ vec_len buffer.new }
    ensures room { vec_len buffer.new ≤ filled + chunk }
    ensures front { take filled buffer.new.items ≡ take filled buffer.old.items }
    ensures holds { IfOk result (λ read. ReadsAtMost read (vec_len buffer.new - filled)) }
    ensures waits { result ≡ Ok (Ok poll.Pending) → A.may_wait }
    ensures told { IfOk result (λ read. Tr.Conn.tells →
        ReadTells read (drop filled buffer.new.items) (Tr.Conn.told conn.old) (Tr.Conn.told
        conn.new)) }
    ensures none { OnErr result (Tr.Conn.told conn.new ≡ Tr.Conn.told conn.old) }
{
    let least = filled.min(CHUNK).div_ceil(2).max(1);
    if buffer.len() - filled < least {
        let asked = if filled == 0 {
            FIRST
        } else {
            filled.max(NEXT).min(CHUNK)
        };
        let Some(end) = filled.checked_add(asked) else {
            return Err(AllocError);
        };
        buffer.resize(end, 0)?;
    }
    Ok(data_path.read(conn, w, &mut buffer[filled..]))
}
