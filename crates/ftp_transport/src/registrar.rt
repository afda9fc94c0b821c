//! What asks the parts of a session to register a task.
//!
//! After a poll that waits a session asks each of its parts, a connection or the transport, to register the task for what
//! that part's last call waits for. What asks them is handed in: so a contract can say of every session whom it asks, in
//! which order, how often and with which task, whatever its parts record.

ghost use Rattle.std.specs.Prelude.{◌≡◌};
ghost use Rattle.futures.specs.Task.{Covers, IsArmed, Keeps};
ghost use Rattle.futures.specs.declared.task.context.Context.{Context as Task};
ghost use Rattle.ftp_transport.specs.Registering.{Asking};
ghost use Rattle.ftp_transport.specs.Registering.Part.{Connect, Connection, Handshake, Peer};
ghost use Rattle.ftp_transport.specs.declared.waiting.Waiting.TheVariants as waits;

use super::{Network, TaskConn, TaskTransport, Tells, Waiting};
use futures::task::Context;

/// What asks the parts of a session to register a task, one after another.
pub trait Registrar<Tr: TaskTransport>
where
    Tr::Conn: TaskConn,
{
    /// What it is to ask a part.
    ghost asks: { Asking Self };

    /// What it is to tell the transport that a request isn't made again.
    ghost forgets: { Self → Self → Type 0 };

    /// Asks a connection to register the task for what its last read and its last write wait for.
    fn connection(&mut self, conn: &mut Tr::Conn, cx: &mut Context<'_>) -> Waiting
        ensures asks { asks self.old (Connection (Tr.Conn.told conn.old)) cx.old result cx.new
            self.new }
        ensures told { Tr.Conn.told conn.new ≡ Tr.Conn.told conn.old }
        ensures registered { result ≡ waits.Registered → Covers cx.new (Tr.Conn.needs conn.new) }
        ensures kept { Keeps cx.old cx.new };

    /// Asks the transport to register the task for the connect that waits, where one does.
    fn connect(&mut self, transport: &mut Tr, cx: &mut Context<'_>) -> Waiting
        ensures asks { asks self.old Connect cx.old result cx.new self.new }
        ensures asked { Tr.asked transport.new ≡ Tr.asked transport.old }
        ensures ready { Tr.ready transport.new ≡ Tr.ready transport.old }
        ensures closed { Tr.closed transport.new ≡ Tr.closed transport.old }
        ensures room { Tr.has_room transport.old → Tr.has_room transport.new }
        ensures registered { result ≡ waits.Registered → IsArmed cx.new }
        ensures kept { Keeps cx.old cx.new };

    /// Asks the transport to register the task for the TLS handshake that waits, where one does.
    fn handshake(&mut self, transport: &mut Tr, cx: &mut Context<'_>) -> Waiting
        ensures asks { asks self.old Handshake cx.old result cx.new self.new }
        ensures asked { Tr.asked transport.new ≡ Tr.asked transport.old }
        ensures ready { Tr.ready transport.new ≡ Tr.ready transport.old }
        ensures closed { Tr.closed transport.new ≡ Tr.closed transport.old }
        ensures room { Tr.has_room transport.old → Tr.has_room transport.new }
        ensures registered { result ≡ waits.Registered → IsArmed cx.new }
        ensures kept { Keeps cx.old cx.new };

    /// Asks the listener, where there is one, to register the task for the peer that it waits for.
    fn peer(&mut self, listener: &mut Option<Tr::Listener>, cx: &mut Context<'_>) -> Waiting
        ensures asks { asks self.old Peer cx.old result cx.new self.new }
        ensures registered { result ≡ waits.Registered → IsArmed cx.new }
        ensures kept { Keeps cx.old cx.new };

    /// Tells the transport that the request which waits isn't made again.
    fn forget(&mut self, transport: &mut Tr)
        ensures forgets { forgets self.old self.new }
        ensures asked { Tr.asked transport.new ≡ Tr.asked transport.old }
        ensures ready { Tr.ready transport.new ≡ Tr.ready transport.old }
        ensures closed { Tr.closed transport.new ≡ Tr.closed transport.old }
        ensures room { Tr.has_room transport.old → Tr.has_room transport.new };
}

/// Asks each part itself: what a program's sessions are asked by.
#[derive(Clone, Copy, Debug)]
pub struct AsksItself;

impl<Tr: TaskTransport> Registrar<Tr> for AsksItself
where
    Tr::Conn: TaskConn,
{
    ghost asks = { λ _ _ before waiting after _.
        (waiting ≡ waits.Registered → IsArmed after) × Keeps before after };

    ghost forgets = { λ _ _. Unit {0} };

    fn connection(&mut self, conn: &mut Tr::Conn, cx: &mut Context<'_>) -> Waiting {
        conn.poll_ready(cx)
    }

    fn connect(&mut self, transport: &mut Tr, cx: &mut Context<'_>) -> Waiting {
        transport.poll_connect_ready(cx)
    }

    fn handshake(&mut self, transport: &mut Tr, cx: &mut Context<'_>) -> Waiting {
        transport.poll_secure_ready(cx)
    }

    fn peer(&mut self, listener: &mut Option<Tr::Listener>, cx: &mut Context<'_>) -> Waiting {
        match listener {
            Some(listener) => Tr::poll_accept_ready(listener, cx),
            None => Waiting::Nothing,
        }
    }

    fn forget(&mut self, transport: &mut Tr) {
        transport.forget();
    }
}
