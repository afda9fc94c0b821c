//! The state that all dialogues share.
//!
//! It is a session without its encoding, since what a contract sees of a machine is plain data, and an encoding is two
//! functions. `transitions` plays dialogues on it; the session's `run` and `run_polled` play lists of them.

use super::closing::pass_over;
use super::failures::{Failure, Failures};
use super::state::{Owed, State};
use ftp_control::control::{ControlChannel, ReplyRule};
use ftp_transport::Network;
use std::alloc::{AllocError, Global};
use std::marker::Model;

/// A transport, the control channel on one of its connections, and the state of the dialogues. Beside them stand the
/// listener while a data connection is waited for, and the data connection, from the moment that it was made. As long as
/// it stands there is room for its record where it is handed back to.
pub struct Machine<Tr: Network> {
    /// The transport, which makes the data connections.
    pub transport: Tr,
    /// The control channel.
    pub channel: ControlChannel<Tr::Conn>,
    /// What the dialogues change.
    pub state: State,
    pub(crate) listener: Option<Tr::Listener>,
    /// The data connection, unless it was handed out.
    pub data_conn: Option<Tr::Conn>,
    pub(crate) failures: Failures,
}

impl<Tr: Network> Drop for Machine<Tr> {
    fn drop(self) {
        let Self {
            transport,
            channel,
            state,
            listener,
            data_conn,
            failures,
        } = self;
        drop(transport);
        drop(channel);
        drop(state);
        drop(listener);
        drop(data_conn);
        drop(failures);
    }
}

impl<Tr: Network> Model for Machine<Tr> {
    ghost use Rattle.std.specs.Prelude.{◌≡◌, false, is_none, option_map};
    ghost use Rattle.ftp_dialogue.specs.State.{SessionValue};

    ghost Value = { SessionValue };

    ghost view = { λ m. record {
      channel = m.channel;
      state = m.state;
      net = record {
        asked = Tr.asked m.transport;
        ready = Tr.ready m.transport;
        closed = Tr.closed m.transport;
        data_conn = option_map (λ conn. Tr.Conn.told conn) m.data_conn;
      };
    } };

    ghost invariant = { λ m. is_none m.data_conn ≡ false → Tr.has_room m.transport };
}

impl<Tr: Network> Machine<Tr> {
    ghost use Rattle.std.specs.Prelude.{◌≡◌, IfOk, is_none};
    ghost use Rattle.ftp_control.specs.Channel.{IsSound};
    ghost use Rattle.ftp_dialogue.specs.NetEvents.{first_net};
    ghost use Rattle.ftp_dialogue.specs.Sound.{Sound, holds};
    ghost use Rattle.ftp_dialogue.specs.State.{Begins, BeginsAnew, LetsGo};

    /// A machine on a connection, which reads replies by this rule. Nothing is read and nothing is sent.
    ///
    /// # Errors
    /// There is no memory for the buffer of received bytes. The connection is closed.
    pub fn new(
        alloc: Global,
        transport: Tr,
        conn: Tr::Conn,
        rule: ReplyRule,
    ) -> Result<Machine<Tr>, AllocError>
        ensures begins { IfOk result (λ machine. Begins Tr.Conn.tells rule (Tr.Conn.told conn)
            (first_net (Tr.asked transport) (Tr.ready transport) (Tr.closed transport)) machine) }
        ensures sound { IfOk result (λ machine. IsSound Tr.Conn.tells machine.channel) }
    {
        let channel = ControlChannel::new(alloc, conn, rule)?;
        let mut state = State::new();
        state.settings.reply_rule = rule;
        Ok(Machine {
            transport,
            channel,
            state,
            listener: None,
            data_conn: None,
            failures: Failures::none(),
        })
    }

    /// The control channel begins anew on another connection, under TLS or no longer, and the one of before is returned
    /// (RFC 2228, section 3; RFC 4217, section 5). Nothing received before is part of a reply after it; no offset is left.
    /// Settings and counts stay.
    pub fn begin_anew(&mut self, conn: Tr::Conn) -> Tr::Conn
        ensures before { Tr.Conn.told result ≡ self.old.channel.told }
        ensures anew { BeginsAnew Tr.Conn.tells (Tr.Conn.told conn) self.old self.new }
        ensures sound { IsSound Tr.Conn.tells self.new.channel }
    {
        self.state.settings.restart_offset = 0;
        self.state.unanswered = 0;
        self.state.aborting = false;
        self.channel.replace(conn)
    }

    /// A call is done: its listener is closed, and a data connection that carries no transfer. That of a transfer that
    /// was left is closed and handed back.
    pub(super) fn let_go(&mut self)
        ensures { LetsGo Tr.Conn.tells self.old self.new }
    {
        self.listener = None;
        match self.state.counts.owed() {
            Owed::Nothing => self.data_conn = None,
            Owed::Live(_) => {}
            Owed::Left(_) => pass_over(self.close_data()),
        }
    }

    /// Where the last error of input or output was met, if there was one. No call depends on it, and no clause has it.
    pub fn last_failure(&self) -> Option<Failure> {
        self.failures.last()
    }

    /// Whether the server has refused EPSV, for which PASV was sent (`Mode::Automatic`). No call depends on it, and no clause
    /// has it.
    pub fn refused_epsv(&self) -> bool {
        self.failures.refused_epsv()
    }

    /// What the caller handed in has failed, or the data connection of a transfer that was handed out.
    pub fn note_failure(&mut self, caller: bool)
        ensures same { self.new ≡ self.old }
    {
        if caller {
            self.failures.note(Failure::Caller);
        } else {
            self.failures.note_data(true);
        }
    }

    /// Whether a transfer is held: it is live, and its data connection wasn't handed out.
    pub fn holds_transfer(&self) -> bool
        ensures { result ≡ holds (is_none self.now.net.data_conn) self.now.state.counts.owed }
    {
        matches!(self.state.counts.owed(), Owed::Live(_)) && self.data_conn.is_some()
    }

    /// What always holds of a machine: its channel and its counts are sound. Nothing happens.
    pub fn holds(&self)
        ensures { Sound Tr.Conn.tells self.now.channel self.now.state.counts }
    {
        self.state.counts.opened();
        self.channel.untaken();
    }
}
