//! A task that waits for what a session's call waits for.

ghost use Rattle.std.specs.Prelude.{◌≡◌};
ghost use Rattle.futures.specs.Task.{IsArmed, Keeps as KeepsTask};
ghost use Rattle.ftp_transport.specs.Registering.{AskInTurn};
ghost use Rattle.ftp_transport.specs.declared.waiting.Waiting.TheVariants as waits;
ghost use Rattle.ftp_dialogue.specs.Waiting.{waiting_parts};
ghost use Rattle.ftp_session.specs.Kept.{Keeps};

use super::client::Session;
use ftp_base::encoding::Encoding;
use ftp_transport::{Registrar, TaskConn, TaskTransport, Waiting};
use futures::task::Context;

/// Waits in a task: for the clients that are made of a session over this transport.
pub trait WaitsInTask<Tr: TaskTransport>
where
    Tr::Conn: TaskConn,
{
    /// Has each part of the session asked, once and in order, to register the task for what its last call waits for.
    /// Nothing of the session changes.
    fn poll_ready<G: Registrar<Tr>>(&mut self, registrar: &mut G, cx: &mut Context<'_>) -> Waiting;

    /// Has the transport told to give up what it has begun for a call that was dropped.
    fn forget_request<G: Registrar<Tr>>(&mut self, registrar: &mut G);
}

impl<Tr: TaskTransport, K: Drop, E: Encoding, B: Drop> WaitsInTask<Tr> for Session<Tr, K, E, B>
where
    Tr::Conn: TaskConn,
{
    /// Has each part of the session asked, once and in order, to register the task for what its last call waits for.
    /// Nothing of the session changes.
    fn poll_ready<G: Registrar<Tr>>(&mut self, registrar: &mut G, cx: &mut Context<'_>) -> Waiting
        ensures asks { AskInTurn G.asks (waiting_parts self.old.machine) registrar.old cx.old result
            cx.new registrar.new }
        ensures same { self.new.machine ≡ self.old.machine }
        ensures mark { self.new.mark ≡ self.old.mark }
        ensures keeps { Keeps self.old self.new }
        ensures registered { result ≡ waits.Registered → IsArmed cx.new }
        ensures kept { KeepsTask cx.old cx.new }
    {
        self.machine.poll_ready(registrar, cx)
    }

    /// Has the transport told to give up what it has begun for a call that was dropped.
    fn forget_request<G: Registrar<Tr>>(&mut self, registrar: &mut G)
        ensures forgets { G.forgets registrar.old registrar.new }
        ensures same { self.new.machine ≡ self.old.machine }
        ensures mark { self.new.mark ≡ self.old.mark }
        ensures keeps { Keeps self.old self.new }
    {
        self.machine.forget_request(registrar);
    }
}
