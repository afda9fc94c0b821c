//! What a session lends to lists of calls and of events (`ftp_runs`), which look at its mark once and then play the
//! machine. A client's program has no use for it.

ghost use Rattle.std.specs.Prelude.{◌≡◌};
ghost use Rattle.ftp_session.specs.Handed.{LooksIf, as_seen, watches};
ghost use Rattle.ftp_session.specs.Kept.{Keeps};

use super::Chosen;
use super::client::Session;
use super::looking::look;
use ftp_base::encoding::Encoding;
use ftp_dialogue::machine::Machine;
use ftp_transport::Network;

/// The parts of a session that calls are made with.
#[derive(Drop)]
pub struct Lent<'a, Tr: Network, E: Encoding, B: Drop> {
    /// The machine of all dialogues.
    pub machine: &'a mut Machine<Tr>,
    /// The encoding that was chosen.
    pub encoding: &'a Chosen<E>,
    /// The builder of passive data connections, where one was set.
    pub builder: &'a Option<B>,
}

/// Looks at the mark, and lends the machine: for lists of calls.
pub trait LendsMachine<Tr: Network, E: Encoding, B: Drop> {
    /// Looks once whether the transfer that was handed out was left.
    fn look(&mut self);

    /// Lends the machine, with the encoding and the builder beside it.
    fn lend(&mut self) -> Lent<'_, Tr, E, B>;
}

impl<Tr: Network, K: Drop, E: Encoding, B: Drop> LendsMachine<Tr, E, B> for Session<Tr, K, E, B> {
    ghost use Rattle.std.specs.Borrow.{Lends, sem};
    ghost use Rattle.ftp_session.specs.contracts.session.client.Session.{the_row};
    ghost use Rattle.ftp_dialogue.specs.contracts.machine.Machine.{the_row as machine_row};

    /// Looks once whether the transfer that was handed out was left, as the first step of a call does.
    fn look(&mut self)
        ensures looks { LooksIf (watches self.old.mark self.old.machine) self.old.mark
            self.new.mark }
        ensures seen { self.new.machine ≡ as_seen self.new.mark self.old.machine }
        ensures keeps { Keeps self.old self.new }
    {
        look(&mut self.machine, &mut self.mark);
    }

    /// Lends the machine, with the encoding and the builder beside it. What the machine is afterwards, the session is;
    /// nothing else of it changes.
    fn lend(&mut self) -> Lent<'_, Tr, E, B>
        ensures machine { result.machine.now ≡ self.old.machine }
        ensures encoding { result.encoding.now ≡ self.old.encoding }
        ensures builder { result.builder.now ≡ self.old.builder }
        ensures* writes_back { sem 𝓛 (Lends (the_row Tr.row K.row E.row B.row Tr.Conn.row
            Tr.Listener.row Tr.Network Tr.Conn.Tells) (machine_row Tr.row Tr.Conn.row
            Tr.Listener.row Tr.Network Tr.Conn.Tells) self.entry result.machine
            (λ machine. record self.old { machine = machine })) }
    {
        Lent {
            machine: &mut self.machine,
            encoding: &self.encoding,
            builder: &self.builder,
        }
    }
}
