//! TLS on a session's control connection (RFC 2228, section 3; RFC 4217, sections 4, 5 and 9).
//!
//! The server accepts `AUTH TLS`, and the caller's connector puts the connection under TLS. The control channel begins
//! anew on it, so that no byte that was received in clear is part of a later reply. From then on each data connection is
//! put under TLS by the same connector, which the transport keeps.

ghost use Rattle.std.specs.Prelude.{◌≡◌, Err, IfErr, string_bytes};
ghost use Rattle.ftp_dialogue.specs.Coding.{chosen};
ghost use Rattle.ftp_dialogue.specs.Link.{blocking};
ghost use Rattle.ftp_dialogue.specs.Promises.{failed_from};
ghost use Rattle.ftp_session.specs.Counting.{CountsClearing, CountsSecuring};
ghost use Rattle.ftp_session.specs.Securing.{Changes, ChangesThen, Clears, HandsOver, Protects, ProtectsData, Secures, TakesOff, is_beside, secured, unchanged};
ghost use Rattle.ftp_session.specs.Kept.{Keeps};

use super::Owed;
use super::client::Session;
use super::looking::look;
use super::polling::DropsCalls;
use ftp_base::encoding::Encoding;
use ftp_base::status::Status;
use ftp_base::types::{FtpError, FtpResult};
use ftp_dialogue::machine::Machine;
use ftp_secure::{SecureNetwork, SecureTransport};
use ftp_transport::{Conn, Network};
use std::alloc::Global;

impl<Tr: SecureTransport<K>, K: Drop, E: Encoding, B: Drop> Session<Tr, K, E, B>
where
    Tr::Conn: Conn,
{
    /// Puts the control connection under TLS, to a server of this name: `AUTH TLS` (234), the connector's handshake,
    /// `PBSZ 0` (200) and `PROT P` (200; RFC 4217, sections 4 and 9). Data connections are put under TLS from then on.
    /// What was received in clear and no reply has consumed is dropped, and no offset is left.
    ///
    /// # Errors
    /// `DataConnectionAlreadyOpen` where a transfer is live, and nothing is sent. Those of a command and its reply: the
    /// session goes on where `AUTH` wasn't accepted. `SecureError` with the connector's text, or the errors of `PBSZ` and
    /// `PROT`: the session has failed then.
    pub fn into_secure(&mut self, alloc: Global, connector: K, domain: &str) -> FtpResult<()>
        ensures secures { Secures (blocking Tr.Conn.Conn) (HandsOver Tr.Conn Tr.Conn.told Tr.gives
            (Tr.answers connector domain.now)) (chosen E.decoded E.encoded self.old.encoding.0)
            self.old.mark self.new.mark self.old.machine self.new.machine result }
        ensures counts { IfErr result (λ fault. CountsSecuring (blocking Tr.Conn.Conn)
            (HandsOver Tr.Conn Tr.Conn.told Tr.gives (Tr.answers connector domain.now))
            (chosen E.decoded E.encoded self.old.encoding.0) self.old.mark self.old.machine
            self.new.machine fault) }
        ensures keeps { Keeps self.old self.new }
    {
        look(&mut self.machine, &mut self.mark);
        if is_beside(&self.machine) {
            drop(connector);
            return Err(FtpError::DataConnectionAlreadyOpen);
        }
        let Ok(name) = String::from_str(alloc, domain) else {
            drop(connector);
            return Err(self.withheld());
        };
        match self.custom_command(alloc, "AUTH TLS", &[Status::AuthOk]) {
            Ok(reply) => {
                drop(reply);
                self.change_and_protect(alloc, connector, name)
            }
            Err(fault) => {
                drop(connector);
                drop(name);
                Err(fault)
            }
        }
    }

    /// Takes the control connection from under TLS: `CCC` (200; RFC 2228, section 3). Data connections stay under it. No
    /// offset is left.
    ///
    /// # Errors
    /// `DataConnectionAlreadyOpen` where a transfer is live, and nothing is sent. Those of a command and its reply: the
    /// session goes on then. The stream's error, where it can't give its connection back: the session has failed then.
    pub fn clear_command_channel(&mut self, alloc: Global) -> FtpResult<()>
        ensures clears { Clears (blocking Tr.Conn.Conn) (TakesOff Tr.Conn Tr.Conn.told Tr.gives)
            (chosen E.decoded E.encoded self.old.encoding.0) self.old.mark self.new.mark
            self.old.machine self.new.machine result }
        ensures counts { IfErr result (λ fault. CountsClearing (blocking Tr.Conn.Conn)
            (TakesOff Tr.Conn Tr.Conn.told Tr.gives) (chosen E.decoded E.encoded
            self.old.encoding.0) self.old.mark self.old.machine self.new.machine fault) }
        ensures keeps { Keeps self.old self.new }
    {
        look(&mut self.machine, &mut self.mark);
        if is_beside(&self.machine) {
            return Err(FtpError::DataConnectionAlreadyOpen);
        }
        match self.custom_command(alloc, "CCC", &[Status::CommandOk]) {
            Ok(reply) => {
                drop(reply);
                self.uncover()
            }
            Err(fault) => Err(fault),
        }
    }

    /// After `AUTH` was accepted: the control connection is put under TLS, and protected data connections are asked for.
    ///
    /// # Errors
    /// Those of `change` and `protect`; the session has failed then.
    fn change_and_protect(&mut self, alloc: Global, connector: K, name: String) -> FtpResult<()>
        ensures changes { ChangesThen (blocking Tr.Conn.Conn)
            (HandsOver Tr.Conn Tr.Conn.told Tr.gives (Tr.answers connector (string_bytes name)))
            (chosen E.decoded E.encoded self.old.encoding.0) self.old.mark self.new.mark
            self.old.machine self.new.machine result }
        ensures keeps { Keeps self.old self.new }
    {
        match self.change(connector, name) {
            Ok(()) => self.protect(alloc),
            Err(fault) => Err(fault),
        }
    }

    /// The connector puts the control connection under TLS, and the channel begins anew on it.
    ///
    /// # Errors
    /// `SecureError` with the connector's text; the session has failed then, and its connection is gone.
    fn change(&mut self, connector: K, name: String) -> FtpResult<()>
        ensures changes { Changes Tr.Conn.tells (HandsOver Tr.Conn Tr.Conn.told Tr.gives
            (Tr.answers connector (string_bytes name))) secured self.old.machine self.new.machine
            result }
        ensures mark { self.new.mark ≡ self.old.mark }
        ensures keeps { Keeps self.old self.new }
    {
        let plain = self.machine.begin_anew(Tr::gone());
        match Tr::put_under(&connector, name.as_str(), plain) {
            Ok(conn) => {
                drop(self.machine.begin_anew(conn));
                self.machine.transport.keep(connector, name);
                self.machine.state.settings.secure = true;
                Ok(())
            }
            Err(fault) => {
                drop(connector);
                drop(name);
                self.fail_by(fault)
            }
        }
    }

    /// Asks for protected data connections: `PBSZ 0` and `PROT P`.
    ///
    /// # Errors
    /// Those of a command and its reply; the session has failed then.
    fn protect(&mut self, alloc: Global) -> FtpResult<()>
        ensures protects { Protects (blocking Tr.Conn.Conn)
            (chosen E.decoded E.encoded self.old.encoding.0) self.old.mark self.new.mark
            self.old.machine self.new.machine result }
        ensures keeps { Keeps self.old self.new }
    {
        match self.custom_command(alloc, "PBSZ 0", &[Status::CommandOk]) {
            Ok(reply) => {
                drop(reply);
                self.protect_data(alloc)
            }
            Err(fault) => self.fail_by(fault),
        }
    }

    /// Asks for data connections whose contents are private: `PROT P` (RFC 4217, section 9).
    ///
    /// # Errors
    /// Those of a command and its reply; the session has failed then.
    fn protect_data(&mut self, alloc: Global) -> FtpResult<()>
        ensures protects { ProtectsData (blocking Tr.Conn.Conn)
            (chosen E.decoded E.encoded self.old.encoding.0) self.old.mark self.new.mark
            self.old.machine self.new.machine result }
        ensures keeps { Keeps self.old self.new }
    {
        match self.custom_command(alloc, "PROT P", &[Status::CommandOk]) {
            Ok(reply) => {
                drop(reply);
                Ok(())
            }
            Err(fault) => self.fail_by(fault),
        }
    }
}

impl<Tr: SecureNetwork<K>, K: Drop, E: Encoding, B: Drop> Session<Tr, K, E, B> {
    /// The control connection is taken from under TLS, and the channel begins anew on it.
    ///
    /// # Errors
    /// The stream's error; the session has failed then, and its connection is gone.
    pub(super) fn uncover(&mut self) -> FtpResult<()>
        ensures changes { Changes Tr.Conn.tells (TakesOff Tr.Conn Tr.Conn.told Tr.gives) unchanged
            self.old.machine self.new.machine result }
        ensures mark { self.new.mark ≡ self.old.mark }
        ensures keeps { Keeps self.old self.new }
    {
        let stream = self.machine.begin_anew(Tr::gone());
        match Tr::take_off(stream) {
            Ok(conn) => {
                drop(self.machine.begin_anew(conn));
                Ok(())
            }
            Err(fault) => self.fail_by(fault),
        }
    }

    /// The session has failed, by this error.
    fn fail_by(&mut self, fault: FtpError) -> FtpResult<()>
        ensures fails { result ≡ Err fault }
        ensures machine { self.new.machine ≡ failed_from self.old.machine }
        ensures mark { self.new.mark ≡ self.old.mark }
        ensures keeps { Keeps self.old self.new }
    {
        self.machine.channel.fail();
        Err(fault)
    }
}

/// Whether a transfer is live, in a session that goes on.
pub(super) fn is_beside<Tr: Network>(machine: &Machine<Tr>) -> bool
    ensures { result ≡ is_beside machine.now }
{
    !machine.channel.failed() && matches!(machine.state.counts.owed(), Owed::Live(_))
}
