//! A task that waits for what a call waits for.

ghost use Rattle.std.specs.Prelude.{◌≡◌, ◌∷◌, []};
ghost use Rattle.futures.specs.Task.{IsArmed, Keeps};
ghost use Rattle.ftp_transport.specs.Registering.{AskInTurn};
ghost use Rattle.ftp_transport.specs.Registering.Part.{Connect, Handshake, Peer};
ghost use Rattle.ftp_transport.specs.declared.waiting.Waiting.TheVariants as waits;
ghost use Rattle.ftp_dialogue.specs.Waiting.{and_data, waiting_parts};

use super::machine::Machine;
use ftp_control::control::ask_channel;
use ftp_transport::{Registrar, TaskConn, TaskTransport, Waiting};
use futures::task::Context;

impl<Tr: TaskTransport> Machine<Tr>
where
    Tr::Conn: TaskConn,
{
    /// Has each part asked, once and in order, to register the task for what its last call waits for: the control
    /// connection, the data connection where there is one, and the transport for a connect, a TLS handshake and a peer.
    /// Nothing of the dialogues changes.
    pub fn poll_ready<G: Registrar<Tr>>(
        &mut self,
        registrar: &mut G,
        cx: &mut Context<'_>,
    ) -> Waiting
        ensures asks { AskInTurn G.asks (waiting_parts self.old) registrar.old cx.old result cx.new
            registrar.new }
        ensures same { self.new ≡ self.old }
        ensures registered { result ≡ waits.Registered → IsArmed cx.new }
        ensures kept { Keeps cx.old cx.new }
    {
        let control = ask_channel::<Tr, G>(&mut self.channel, registrar, cx);
        control.or(self.ask_data(registrar, cx))
    }

    /// Has the data connection asked, where there is one, and then the transport.
    fn ask_data<G: Registrar<Tr>>(&mut self, registrar: &mut G, cx: &mut Context<'_>) -> Waiting
        ensures asks { AskInTurn G.asks
            (and_data self.old.net.data_conn (Connect ∷ Handshake ∷ Peer ∷ [])) registrar.old cx.old
            result cx.new registrar.new }
        ensures same { self.new ≡ self.old }
        ensures registered { result ≡ waits.Registered → IsArmed cx.new }
        ensures kept { Keeps cx.old cx.new }
    {
        let Some(conn) = &mut self.data_conn else {
            return self.ask_transport(registrar, cx);
        };
        let data = registrar.connection(conn, cx);
        data.or(self.ask_transport(registrar, cx))
    }

    /// Has the transport asked for the connect, the TLS handshake and the peer that a request waits for.
    fn ask_transport<G: Registrar<Tr>>(
        &mut self,
        registrar: &mut G,
        cx: &mut Context<'_>,
    ) -> Waiting
        ensures asks { AskInTurn G.asks (Connect ∷ Handshake ∷ Peer ∷ []) registrar.old cx.old
            result
            cx.new registrar.new }
        ensures same { self.new ≡ self.old }
        ensures registered { result ≡ waits.Registered → IsArmed cx.new }
        ensures kept { Keeps cx.old cx.new }
    {
        let connect = registrar.connect(&mut self.transport, cx);
        let handshake = registrar.handshake(&mut self.transport, cx);
        let peer = registrar.peer(&mut self.listener, cx);
        connect.or(handshake.or(peer))
    }

    /// Has the transport told to give up what it has begun for a request that isn't made again.
    pub fn forget_request<G: Registrar<Tr>>(&mut self, registrar: &mut G)
        ensures forgets { G.forgets registrar.old registrar.new }
        ensures same { self.new ≡ self.old }
    {
        registrar.forget(&mut self.transport);
    }
}
