//! The bytes of an upload that haven't gone out.
//!
//! A text's lines end in CR LF on the wire (RFC 959, section 3.1.1.1). The CR that an LF lacks is written by itself, so
//! no memory is needed for the bytes as they go out.

ghost use Rattle.std.specs.Prelude.{◌≡◌, ◌≢◌, ◌<◌, ◌≤◌, ◌+◌, ◌==◌, ◌&&◌, Bool, true, false, not, length, slice_index, if◌then◌else◌};
ghost use Rattle.ftp_base.specs.Ascii.{converted, wire_data};
ghost use Rattle.ftp_dialogue.specs.Dialogue.{size_to_send};
ghost use Rattle.ftp_dialogue.specs.Sending.{IsPlain, MayEnd};

use super::data_path::DataPath;
use ftp_base::types::Items;
use ftp_transport::{Network, Tells};
use futures::task::Poll;
use memchr::memchr;
use std::io::ErrorKind;
use std::marker::Model;

/// The most bytes that an upload may send.
const MOST_BYTES: usize = (1 << 63) - 1;

/// The bytes that haven't gone out: those from a place on, of a text or as they are.
pub struct Unsent {
    bytes: Items<u8>,
    next: usize,
    text: bool,
    /// Whether the byte that went out last is CR.
    after_return: bool,
}

impl Drop for Unsent {
    fn drop(self) {
        let Self {
            bytes,
            next: _,
            text: _,
            after_return: _,
        } = self;
        drop(bytes);
    }
}

impl Model for Unsent {
    ghost use Rattle.std.specs.Prelude.{◌≤◌, ℕ, List, drop, length};
    ghost use Rattle.ftp_dialogue.specs.Sending.{on_wire};

    ghost Value = { List ℕ };

    ghost view = { λ u. on_wire u.text u.after_return (drop u.next u.bytes) };

    ghost invariant = { λ u. u.next ≤ length u.bytes };
}

impl Unsent {
    ghost use Rattle.std.specs.Prelude.{◌≡◌, ◌<◌, ◌≤◌, ◌==◌, drop, length, take};
    ghost use Rattle.futures.specs.declared.task.Poll.TheVariants as poll;
    ghost use Rattle.std.specs.Prelude.{Ok};
    ghost use Rattle.ftp_dialogue.specs.Sending.{SendsBy};

    /// All of these bytes, as a text or as they are.
    pub(super) fn new(text: bool, bytes: Items<u8>) -> Unsent
        ensures { result ≡ wire_data text bytes }
    {
        Unsent {
            bytes,
            next: 0,
            text,
            after_return: false,
        }
    }

    /// Whether there are none.
    pub(super) fn is_empty(&self) -> bool
        ensures { result ≡ length self.now == 0 }
    {
        self.next == self.bytes.as_slice().len()
    }

    /// Writes some of the bytes, from the front.
    ///
    /// # Errors
    /// What the connection returns; then the same bytes are left.
    pub(super) fn write_some<W, Tr: Network, A: DataPath<Tr, W>>(
        &mut self,
        data_path: &A,
        conn: &mut Tr::Conn,
        w: &mut W,
    ) -> Result<Poll<()>, ErrorKind>
        requires some { 0 < length self.old }
        requires may { A.may_ask }
        ensures waits { result ≡ Ok poll.Pending → A.may_wait }
        ensures sends { SendsBy Tr.Conn.tells self.old self.new (Tr.Conn.told conn.old)
            (Tr.Conn.told conn.new) result }
    {
        match data_path.write(conn, w, self.piece())? {
            Poll::Pending => Ok(Poll::Pending),
            Poll::Ready(count) => {
                self.advance(count);
                Ok(Poll::Ready(()))
            }
        }
    }

    /// The bytes at the front that lie side by side: a CR that an LF lacks, or bytes that go out as they are.
    fn piece(&self) -> &[u8]
        ensures front { result.now ≡ take (length result.now) self.now }
        ensures some { 0 < length self.now → 0 < length result.now }
        ensures within { length result.now ≤ length self.now }
    {
        let rest = &self.bytes.as_slice()[self.next..];
        if rest.is_empty() {
            return rest;
        }
        if is_lacking(self.text, self.after_return, rest[0]) {
            b"\r"
        } else {
            &rest[..plain_front(self.text, rest)]
        }
    }

    /// So many bytes have gone out.
    fn advance(&mut self, count: usize)
        requires { count ≤ length self.old }
        ensures { self.new ≡ drop count self.old }
    {
        for _ in 0..count {
            self.step();
        }
    }

    /// One byte has gone out.
    fn step(&mut self)
        requires { 0 < length self.old }
        ensures { self.new ≡ drop 1 self.old }
    {
        let byte = self.bytes.as_slice()[self.next];
        if is_lacking(self.text, self.after_return, byte) {
            self.after_return = true;
        } else {
            self.after_return = byte == b'\r';
            self.next += 1;
        }
    }
}

/// Whether a CR goes out before this byte, which comes after CR or not.
fn is_lacking(text: bool, after_return: bool, byte: u8) -> bool
    ensures { result ≡ (text && ((byte == 10) && not after_return)) }
{
    text && byte == b'\n' && !after_return
}

/// How many bytes at the front go out as they are: of a text those before its second LF, or before its first where
/// that isn't the first byte.
fn plain_front(text: bool, bytes: &[u8]) -> usize
    requires some { 0 < length bytes.now }
    ensures some { 0 < result }
    ensures within { result ≤ length bytes.now }
    ensures plain { (after : Bool) → MayEnd text after bytes.now → IsPlain text after result
        bytes.now }
{
    if !text {
        bytes.len()
    } else if bytes[0] == b'\n' {
        1 + line_len(&bytes[1..])
    } else {
        line_len(bytes)
    }
}

/// How many bytes stand before the first LF, or how many there are.
fn line_len(bytes: &[u8]) -> usize
    ensures within { result ≤ length bytes.now }
    ensures plain { (after : Bool) → IsPlain true after result bytes.now }
    ensures some { 0 < length bytes.now → slice_index bytes.now 0 ≢ 10 → 0 < result }
{
    match memchr(b'\n', bytes) {
        Some(end) => end,
        None => bytes.len(),
    }
}

/// How many bytes go out for these, where they can be sent.
pub(super) fn size_to_send(text: bool, bytes: &[u8]) -> Option<u64>
    ensures { result ≡ size_to_send (wire_data text bytes.now) }
{
    let count = bytes.len();
    if count > MOST_BYTES {
        return None;
    }
    let size = count as u64 + added(text, bytes);
    if size <= MOST_BYTES as u64 {
        Some(size)
    } else {
        None
    }
}

/// How many bytes go out beside these.
fn added(text: bool, bytes: &[u8]) -> u64
    ensures counts { length (wire_data text bytes.now) ≡ length bytes.now + result }
    ensures within { result ≤ length bytes.now }
{
    if text { lacking_returns(bytes) } else { 0 }
}

/// How many LF follow no CR.
fn lacking_returns(bytes: &[u8]) -> u64
    ensures counts { length (converted false bytes.now) ≡ length bytes.now + result }
    ensures within { result ≤ length bytes.now }
{
    let mut lacking = 0u64;
    let mut after_return = false;
    for byte in bytes {
        lacking += lacks(after_return, *byte);
        after_return = *byte == b'\r';
    }
    lacking
}

/// One where the byte is an LF that follows no CR.
fn lacks(after_return: bool, byte: u8) -> u64
    ensures { result ≡ (if (byte == 10) && not after_return then 1 else 0) }
{
    if byte == b'\n' && !after_return { 1 } else { 0 }
}
