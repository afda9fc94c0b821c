//! TLS over memory where it is polled: a handshake waits once, and then ends as the connector's call that blocks.

ghost use Rattle.std.specs.Prelude.{◌≡◌, Some};
ghost use Rattle.ftp_secure.specs.Connectors.{IsUnused};
ghost use Rattle.rows_tls.specs.Sealed.{MayEnd, handed_in};
ghost use Rattle.rows_tls.specs.declared.sealed_poll.Outcome.TheVariants as ends;

use crate::covers::Covers;
use crate::seal::Seal;
use crate::sealed::Sealed;
use ftp_secure::{AsyncTlsConnector, AsyncTlsStream};
use ftp_transport::{PollConn, TaskConn, Waiting};
use futures::task::{Context, Poll};
use std::io::ErrorKind;

impl<C: PollConn<()> + Drop> PollConn<()> for Sealed<C> {
    ghost may_wait = { C.may_wait };

    ghost read_faults = { C.read_faults };

    ghost write_faults = { C.write_faults };

    fn poll_read(&mut self, w: &mut (), buffer: &mut [u8]) -> Result<Poll<usize>, ErrorKind> {
        self.clear.poll_read(w, buffer)
    }

    fn poll_write(&mut self, w: &mut (), bytes: &[u8]) -> Result<Poll<usize>, ErrorKind> {
        self.clear.poll_write(w, bytes)
    }
}

impl<C: TaskConn + Drop> TaskConn for Sealed<C> {
    ghost needs = { λ s. C.needs s.clear };

    fn poll_ready(&mut self, cx: &mut Context<'_>) -> Waiting {
        self.clear.poll_ready(cx)
    }
}

impl<C: PollConn<()> + Drop> AsyncTlsStream<C> for Sealed<C> {
    ghost waits_as_below = { λ _. (λ w. w, λ w. w) };
}

/// What a handshake ends in, and the connection that was handed in.
#[derive(Drop)]
pub enum Outcome<C> {
    /// A stream over the connection, with this one for what goes over it in clear.
    Seals(C, C),
    /// This text.
    Refuses(C, String),
}

/// A handshake whose outcome is there, and that waits once.
#[derive(Drop)]
pub struct Sealing<C: Covers> {
    // None once the handshake is done.
    outcome: Option<Outcome<C>>,
    stuck: bool,
    waited: bool,
    ghost unused: { (conn clear : C) → outcome ≡ Some (ends.Seals conn clear) → C.tells →
        IsUnused (C.told clear) },
}

impl<C: Covers + PollConn<()>> AsyncTlsConnector<C> for Seal {
    ghost handed = { λ sealing. handed_in C.told sealing.outcome };

    ghost may_answer = { λ sealing outcome. MayEnd C.told sealing.outcome outcome };

    ghost may_wait = { Unit {0} };

    fn connect(&self, domain: &str, conn: C) -> Sealing<C> {
        let outcome = match self.answer(domain, &conn) {
            Ok(clear) => Outcome::Seals(conn, clear),
            Err(text) => Outcome::Refuses(conn, text),
        };
        Sealing {
            outcome: Some(outcome),
            stuck: domain.ends_with('.'),
            waited: false,
        }
    }

    fn poll(sealing: &mut Sealing<C>) -> Poll<Result<Sealed<C>, String>> {
        if !sealing.waited {
            sealing.waited = true;
            return Poll::Pending;
        }
        let stuck = sealing.stuck;
        match sealing.outcome.take() {
            Some(Outcome::Seals(conn, clear)) => Poll::Ready(Ok(Sealed { conn, clear, stuck })),
            Some(Outcome::Refuses(conn, text)) => {
                drop(conn);
                Poll::Ready(Err(text))
            }
            None => Poll::Pending,
        }
    }

    fn poll_ready(_sealing: &mut Sealing<C>, _cx: &mut Context<'_>) -> Waiting {
        Waiting::Nothing
    }
}
