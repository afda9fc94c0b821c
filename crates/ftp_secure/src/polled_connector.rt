//! What puts connections under TLS without blocking.

ghost use Rattle.std.specs.Prelude.{◌≡◌, ℕ, IfOk, List, Result};
ghost use Rattle.futures.specs.Poll.{IfReady, OnPending};
ghost use Rattle.futures.specs.Task.{IsArmed, Keeps};
ghost use Rattle.ftp_transport.specs.Told.{Told};
ghost use Rattle.ftp_transport.specs.declared.waiting.Waiting.TheVariants as waits;
ghost use Rattle.ftp_secure.specs.Connectors.{IsUnused, secured_as};
ghost use Rattle.ftp_secure.specs.Continues.{Continues};

use crate::connector::Secures;
use ftp_transport::{Tells, Waiting};
use futures::task::{Context, Poll};

/// What puts a connection under TLS, and is polled until it is done.
///
/// As with connections, a poll has nothing at hand, and after one that waits the task is registered for what it waits
/// for.
pub trait AsyncTlsConnector<C: Tells>: Secures<C> {
    /// The record of the connection as it was handed in.
    ghost handed: { Self.Connecting → Told };

    /// What a handshake may return: a stream of this record, in clear, or the text of an error.
    ghost may_answer: { Self.Connecting → Result Told (List ℕ) → Type 0 };

    /// Whether it may have to wait.
    ghost may_wait: { Type 0 };

    /// Begins to put this connection under TLS, to a server of this name: the handshake of RFC 4217, sections 4 and 7,
    /// after the server's reply.
    fn connect(&self, domain: &str, conn: C) -> Self::Connecting
        ensures handed { handed result ≡ C.told conn }
        ensures answers { (outcome : Result Told (List ℕ)) → may_answer result outcome →
            Self.answers self.now domain.now (C.told conn) outcome };

    /// Resumes the handshake. It isn't polled again after it was ready.
    ///
    /// # Errors
    /// Why the connection can't be put under TLS, in words. It is dropped.
    fn poll(connecting: &mut Self::Connecting) -> Poll<Result<Self::Stream, String>>
        ensures answers { IfReady result
            (λ made. may_answer connecting.old (secured_as Self.Stream.told made)) }
        ensures below { C.tells → IfReady result (λ made. IfOk made
            (λ stream. Continues (handed connecting.old) (C.told (Self.Stream.below stream)))) }
        ensures unused { Self.Stream.tells → IfReady result (λ made. IfOk made
            (λ stream. IsUnused (Self.Stream.told stream))) }
        ensures waits { OnPending result may_wait }
        ensures still_handed { OnPending result (handed connecting.new ≡ handed connecting.old) }
        ensures still_answers { OnPending result ((outcome : Result Told (List ℕ)) →
            may_answer connecting.new outcome → may_answer connecting.old outcome) };

    /// Registers the task for what the last poll waits for, where it does.
    fn poll_ready(connecting: &mut Self::Connecting, cx: &mut Context<'_>) -> Waiting
        ensures handed { handed connecting.new ≡ handed connecting.old }
        ensures answers { (outcome : Result Told (List ℕ)) →
            may_answer connecting.new outcome → may_answer connecting.old outcome }
        ensures registered { result ≡ waits.Registered → IsArmed cx.new }
        ensures kept { Keeps cx.old cx.new };
}
