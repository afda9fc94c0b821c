//! The settings of a session, of which nothing is sent.
//!
//! Settings say how later data connections come about (RFC 959, section 3.2; RFC 2428), and which lines open and end
//! later replies (section 4.2). They stay as they were set whatever a call results in.

ghost use Rattle.std.specs.Prelude.{◌≡◌, ◌⊎◌, Some, true};
ghost use Rattle.ftp_base.specs.declared.types.mode.Mode.TheVariants as modes;
ghost use Rattle.ftp_dialogue.specs.Dialogue.{rule_by};
ghost use Rattle.ftp_dialogue.specs.State.{with_settings};
ghost use Rattle.ftp_session.specs.Kept.{Keeps};

use super::client::Session;
use ftp_base::encoding::Encoding;
use ftp_base::types::{ActivePeerCheck, Mode};
use ftp_dialogue::rule_by;
use ftp_transport::Network;
use std::time::Duration;

impl<Tr: Network, K: Drop, E: Encoding, B: Drop> Session<Tr, K, E, B> {
    /// Who opens data connections from now on, and how they are asked for. A session begins in `Passive`.
    pub fn set_mode(&mut self, mode: Mode)
        ensures set { self.new.machine ≡
            with_settings (λ s. record s { mode = mode }) self.old.machine }
        ensures keeps { Keeps self.old self.new }
        ensures mark { self.new.mark ≡ self.old.mark }
    {
        self.machine.state.settings.mode = mode;
    }

    /// Where the server has refused EPSV in `Mode::Automatic`, the mode is `Passive` from now on: a client calls this before
    /// each call that opens a data connection, so that EPSV is refused once. Nothing else changes.
    pub fn settle_mode(&mut self)
        ensures settles { (self.new.machine ≡ self.old.machine)
            ⊎ ((self.old.machine.state.settings.mode ≡ modes.Automatic)
            × (self.new.machine ≡
            with_settings (λ s. record s { mode = modes.Passive }) self.old.machine)) }
        ensures mark { self.new.mark ≡ self.old.mark }
        ensures keeps { Keeps self.old self.new }
    {
        let mode = self.machine.state.settings.mode;
        if matches!(mode, Mode::Automatic) && self.machine.refused_epsv() {
            self.machine.state.settings.mode = Mode::Passive;
        }
    }

    /// Whether the host of a reply to `PASV` is passed over for the control connection's peer, as behind a router
    /// that rewrites addresses. A session begins without.
    pub fn set_passive_nat_workaround(&mut self, enabled: bool)
        ensures set { self.new.machine ≡
            with_settings (λ s. record s { passive_nat_workaround = enabled }) self.old.machine }
        ensures keeps { Keeps self.old self.new }
        ensures mark { self.new.mark ≡ self.old.mark }
    {
        self.machine.state.settings.passive_nat_workaround = enabled;
    }

    /// Which peers may open an active data connection. A session begins with `ControlPeer`.
    pub fn set_active_peer_check(&mut self, check: ActivePeerCheck)
        ensures set { self.new.machine ≡
            with_settings (λ s. record s { active_peer_check = check }) self.old.machine }
        ensures keeps { Keeps self.old self.new }
        ensures mark { self.new.mark ≡ self.old.mark }
    {
        self.machine.state.settings.active_peer_check = check;
    }

    /// How long an active data connection is waited for. A session begins with 60 seconds.
    pub fn set_active_deadline(&mut self, deadline: Duration)
        ensures set { self.new.machine ≡
            with_settings (λ s. record s { active_deadline = deadline }) self.old.machine }
        ensures keeps { Keeps self.old self.new }
        ensures mark { self.new.mark ≡ self.old.mark }
    {
        self.machine.state.settings.active_deadline = deadline;
    }

    /// Whether the replies that begin from now on are read leniently (`ReplyRule::Lenient`), or as RFC 959, section 4.2,
    /// has it. A reply that was read in part is read on as it began. A session begins strict.
    pub fn set_lenient_replies(&mut self, lenient: bool)
        ensures set { self.new.machine ≡
            with_settings (λ s. record s { reply_rule = rule_by lenient }) self.old.machine }
        ensures keeps { Keeps self.old self.new }
        ensures mark { self.new.mark ≡ self.old.mark }
    {
        self.machine.state.settings.reply_rule = rule_by(lenient);
    }

    /// The session in the mode `Active`, which waits so long for a data connection.
    pub fn active_mode(mut self, deadline: Duration) -> Session<Tr, K, E, B>
        ensures set { result.machine ≡ with_settings (λ s. record s
            { mode = modes.Active; active_deadline = deadline }) self.machine }
        ensures encoding { result.encoding ≡ self.encoding }
        ensures mark { result.mark ≡ self.mark }
        ensures former { result.former ≡ self.former }
        ensures builder { result.builder ≡ self.builder }
    {
        self.machine.state.settings.mode = Mode::Active;
        self.machine.state.settings.active_deadline = deadline;
        self
    }

    /// Lets this builder make passive data connections from now on, in the transport's place, each to the address that
    /// the transport would have been asked for. Its error is returned as it is, and the session goes on.
    pub fn set_passive_stream_builder(&mut self, builder: B)
        ensures set { self.new.machine ≡
            with_settings (λ s. record s { stream_builder = true }) self.old.machine }
        ensures builder { self.new.builder ≡ Some builder }
        ensures encoding { self.new.encoding ≡ self.old.encoding }
        ensures mark { self.new.mark ≡ self.old.mark }
        ensures former { self.new.former ≡ self.old.former }
    {
        self.machine.state.settings.stream_builder = true;
        self.builder = Some(builder);
    }

    /// The session with this builder of passive data connections, as `set_passive_stream_builder` sets it.
    pub fn passive_stream_builder(mut self, builder: B) -> Session<Tr, K, E, B>
        ensures set { result.machine ≡
            with_settings (λ s. record s { stream_builder = true }) self.machine }
        ensures builder { result.builder ≡ Some builder }
        ensures encoding { result.encoding ≡ self.encoding }
        ensures mark { result.mark ≡ self.mark }
        ensures former { result.former ≡ self.former }
    {
        self.machine.state.settings.stream_builder = true;
        self.builder = Some(builder);
        self
    }
}
