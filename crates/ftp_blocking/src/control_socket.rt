//! The control connection of a client, lent out while its lock is held.

ghost use Rattle.ftp_dialogue.specs.Sound.{SoundCounts};
ghost use Rattle.ftp_session.specs.Locked.{SendsLines};

use super::ImplFtpStream;
use ftp_base::encoding::{Encoding, Utf8Encoding};
use ftp_session::session::{Counts, Failure, NoStreamBuilder, NoTlsConnector, Session};
use ftp_transport::Network;
use std::sync::{MutexGuard, Wait};

/// A hold of a client's lock, which lends the control connection. Dropping it lets the lock go.
///
/// While it is kept, every call of the client waits, also one that the same thread makes: that thread would wait
/// forever.
pub struct ControlSocket<
    'a,
    Tr: Network,
    K: Drop = NoTlsConnector,
    E: Encoding = Utf8Encoding,
    B: Drop = NoStreamBuilder,
> {
    session: MutexGuard<'a, Session<Tr, K, E, B>>,
}

// By hand, since the borrow checker doesn't cover the drop that is derived for a guard of a value with a field of an
// associated type, as the session's connection is.
impl<Tr: Network, K: Drop, E: Encoding, B: Drop> Drop for ControlSocket<'_, Tr, K, E, B> {
    fn drop(self) {
        let Self { session } = self;
        drop(session);
    }
}

impl<Tr: Network, K: Drop, E: Encoding, B: Drop> ControlSocket<'_, Tr, K, E, B> {
    /// The control connection, as [`Session::get_ref`] lends it. Whenever the lock is held so, by any thread, what was sent
    /// is whole command lines, but for the tail of the last one, which may still be unsent (RFC 959, section 5.3).
    pub fn socket(&self) -> &Tr::Conn
        ensures sound { Tr.Conn.tells → SendsLines (Tr.Conn.told result.now) }
    {
        let session: &Session<Tr, K, E, B> = &self.session;
        session.untaken();
        session.get_ref()
    }

    /// The transport, which makes the data connections, as [`Session::transport`] lends it.
    pub fn transport(&self) -> &Tr {
        self.session.transport()
    }

    /// How many transfers were opened, and how they came to their end (RFC 959, section 3.2). Whenever the lock is held
    /// so, by any thread, each that was opened was finished, aborted or drained, or is the one that is owed.
    pub fn counts(&self) -> &Counts
        ensures sound { SoundCounts result.now }
    {
        self.session.counts()
    }

    /// How many received bytes no reply has consumed: those of a reply under way, and those that were read ahead.
    pub fn untaken(&self) -> usize {
        self.session.untaken()
    }
}

impl<Tr: Network, K: Drop, E: Encoding, B: Drop> ImplFtpStream<Tr, K, E, B> {
    /// Whether the session has failed: a read or a write of the control connection did, its input ended where a reply
    /// was due, a reply was too large, or memory ran out inside a dialogue. Each later command returns `SessionFailed`;
    /// connect anew.
    pub fn failed<R: Wait>(&self, rt: &R) -> bool {
        self.session.lock(rt).failed()
    }

    /// Where the last error of input or output was met, if there was one: after a call that returned `Io`, where that was.
    /// It stays until the next is met. What a caller reads or writes on a `TransferStream` isn't among them.
    pub fn last_failure<R: Wait>(&self, rt: &R) -> Option<Failure> {
        self.session.lock(rt).last_failure()
    }

    /// Takes the lock, and keeps it for as long as the result lives, which lends the control connection.
    pub fn get_ref<R: Wait>(&self, rt: &R) -> ControlSocket<'_, Tr, K, E, B> {
        ControlSocket {
            session: self.session.lock(rt),
        }
    }
}
