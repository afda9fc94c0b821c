//! What puts connections under TLS.

ghost use Rattle.std.specs.Prelude.{ℕ, IfOk, List, Result};
ghost use Rattle.ftp_transport.specs.Told.{Told};
ghost use Rattle.ftp_secure.specs.Connectors.{IsUnused, secured_as};
ghost use Rattle.ftp_secure.specs.Continues.{Continues};

use crate::stream::TlsStream;
use ftp_transport::Tells;

/// What connectors have in common, whether they block or are polled.
pub trait Secures<C: Tells>: Drop {
    /// Connections under TLS.
    type Stream: TlsStream<C>;

    /// A connection that is being put under TLS, where that may have to wait; `()` of a connector that blocks alone.
    type Connecting: Drop;

    /// What it may return for a server of this name and a connection of this record: a stream of this record, in clear,
    /// or the text of an error.
    ghost answers: { Self → List ℕ → Told → Result Told (List ℕ) → Type 0 };
}

/// What puts a connection under TLS, and returns when it is done.
pub trait TlsConnector<C: Tells>: Secures<C> {
    /// Puts this connection under TLS, to a server of this name: the handshake of RFC 4217, sections 4 and 7, after the
    /// server's reply.
    ///
    /// # Errors
    /// Why it can't be, in words. The connection is dropped.
    fn connect(&self, domain: &str, conn: C) -> Result<Self::Stream, String>
        ensures answers { Self.answers self.now domain.now (C.told conn)
            (secured_as Self.Stream.told result) }
        ensures below { C.tells → IfOk result
            (λ stream. Continues (C.told conn) (C.told (Self.Stream.below stream))) }
        ensures unused { Self.Stream.tells → IfOk result
            (λ stream. IsUnused (Self.Stream.told stream)) };
}
