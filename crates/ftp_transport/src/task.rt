//! Connections and transports whose waits wake a task of an event loop.
//!
//! What a poll does is the same in a task as over memory, so it is polled with nothing at hand (`PollConn<()>`), and a
//! wait is data: the result `Pending`. What a task needs besides stands here, apart from every dialogue: after a poll
//! that waits, the connections and the transport are asked to register the task for what they wait for. A connection
//! knows that from its last call. Where what was waited for came between the two the task learns so, and polls again:
//! no wake-up is lost.

ghost use Rattle.std.specs.Prelude.{◌≡◌, ℕ};
ghost use Rattle.futures.specs.Task.{Covers, IsArmed, Keeps};
ghost use Rattle.ftp_transport.specs.declared.waiting.Waiting.TheVariants as waits;

use super::{Network, Tells, Waiting};
use futures::task::Context;

/// A connection that can register a task for what its last read or write waits for.
pub trait TaskConn: Tells {
    /// What it waits for: the sources of the event loop that fire once it has come.
    ghost needs: { Self → ℕ → Type 0 };

    /// Registers the task for what the last read and the last write wait for, where they do.
    fn poll_ready(&mut self, cx: &mut Context<'_>) -> Waiting
        ensures told { Self.told self.new ≡ Self.told self.old }
        ensures registered { result ≡ waits.Registered → Covers cx.new (needs self.new) }
        ensures nothing { result ≡ waits.Nothing → (source : ℕ) → needs self.new source → ⊥ }
        ensures kept { Keeps cx.old cx.new };
}

/// A transport that can register a task for the request that waits.
pub trait TaskTransport: Network {
    /// Gives up what was begun for a request that is not made again.
    fn forget(&mut self)
        ensures asked { Self.asked self.new ≡ Self.asked self.old }
        ensures ready { Self.ready self.new ≡ Self.ready self.old }
        ensures closed { Self.closed self.new ≡ Self.closed self.old }
        ensures port { Self.port self.new ≡ Self.port self.old }
        ensures room { Self.has_room self.old → Self.has_room self.new };

    /// Registers the task for the connect that waits, where one does, and for the end of its limit. Where nothing can tell
    /// that the limit has passed the task is polled again at once.
    fn poll_connect_ready(&mut self, cx: &mut Context<'_>) -> Waiting
        ensures asked { Self.asked self.new ≡ Self.asked self.old }
        ensures ready { Self.ready self.new ≡ Self.ready self.old }
        ensures closed { Self.closed self.new ≡ Self.closed self.old }
        ensures port { Self.port self.new ≡ Self.port self.old }
        ensures room { Self.has_room self.old → Self.has_room self.new }
        ensures registered { result ≡ waits.Registered → IsArmed cx.new }
        ensures kept { Keeps cx.old cx.new };

    /// Registers the task for the TLS handshake that waits, where one does.
    fn poll_secure_ready(&mut self, cx: &mut Context<'_>) -> Waiting
        ensures asked { Self.asked self.new ≡ Self.asked self.old }
        ensures ready { Self.ready self.new ≡ Self.ready self.old }
        ensures closed { Self.closed self.new ≡ Self.closed self.old }
        ensures port { Self.port self.new ≡ Self.port self.old }
        ensures room { Self.has_room self.old → Self.has_room self.new }
        ensures registered { result ≡ waits.Registered → IsArmed cx.new }
        ensures kept { Keeps cx.old cx.new };

    /// Registers the task for the peer that this listener waits for, where it does, and for its deadline. Where nothing can
    /// tell that the deadline has passed the task is polled again at once.
    fn poll_accept_ready(listener: &mut Self::Listener, cx: &mut Context<'_>) -> Waiting
        ensures registered { result ≡ waits.Registered → IsArmed cx.new }
        ensures kept { Keeps cx.old cx.new };
}
