//! Changes of TLS that are polled, as the polled client makes them.
//!
//! Its commands are polled as all calls are; here stands what is done between them. The transport keeps the connector, and
//! a handshake that waits.

ghost use Rattle.std.specs.Prelude.{◌≡◌, Err, IfErr};
ghost use Rattle.ftp_transport.specs.Asking.{Secures as Shakes};
ghost use Rattle.ftp_dialogue.specs.Link.{polling};
ghost use Rattle.ftp_session.specs.Counting.{CountsChange};
ghost use Rattle.ftp_session.specs.Handed.{LooksIf, as_seen, watches};
ghost use Rattle.ftp_session.specs.Polled.{IfFails};
ghost use Rattle.ftp_session.specs.Securing.{Changes, GivesUp, PollsChange, TakesOff, is_beside, secured_from, unchanged};
ghost use Rattle.ftp_session.specs.Kept.{Keeps};

use super::client::Session;
use super::looking::look;
use super::securing::is_beside;
use ftp_base::encoding::Encoding;
use ftp_base::types::{FtpError, FtpResult};
use ftp_secure::SecureNetwork;
use ftp_transport::{Handshaken, Network, PollConn, PollTransport};
use futures::task::Poll;
use std::alloc::AllocError;

/// Puts control connections under TLS and takes them from under it: for the clients that are made of a session.
pub trait PollsTls<R, K: Drop> {
    /// Looks at the mark of the transfer that was handed out: whether one is live, in a session that goes on. Nothing is
    /// said beside it.
    fn look_beside(&mut self) -> bool;

    /// Puts the control connection under TLS, by the connector that is handed over, to a server of this name; where none
    /// is, resumes the handshake that waited. The channel begins anew on it, and data connections are put under TLS from
    /// then on.
    ///
    /// # Errors
    /// `SecureError` with the connector's text; the session has failed then.
    fn poll_put_under(&mut self, rt: &R, handed: Option<(K, String)>) -> Poll<FtpResult<()>>;

    /// Takes the control connection from under TLS, and the channel begins anew on it.
    ///
    /// # Errors
    /// The stream's, where it can't give its connection back; the session has failed then.
    fn take_off(&mut self) -> FtpResult<()>;
}

impl<R, Tr: SecureNetwork<K> + PollTransport<R, ()>, K: Drop, E: Encoding, B: Drop> PollsTls<R, K>
    for Session<Tr, K, E, B>
where
    Tr::Conn: PollConn<()>,
{
    /// Looks at the mark of the transfer that was handed out: whether one is live, in a session that goes on. Nothing is
    /// said beside it.
    fn look_beside(&mut self) -> bool
        ensures looks { LooksIf (watches self.old.mark self.old.machine) self.old.mark
            self.new.mark }
        ensures seen { self.new.machine ≡ as_seen self.new.mark self.old.machine }
        ensures value { result ≡ is_beside self.new.machine }
        ensures keeps { Keeps self.old self.new }
    {
        look(&mut self.machine, &mut self.mark);
        is_beside(&self.machine)
    }

    /// Puts the control connection under TLS, by the connector that is handed over, to a server of this name; where none
    /// is, resumes the handshake that waited. The channel begins anew on it, and data connections are put under TLS from
    /// then on.
    ///
    /// # Errors
    /// `SecureError` with the connector's text; the session has failed then.
    fn poll_put_under(&mut self, rt: &R, handed: Option<(K, String)>) -> Poll<FtpResult<()>>
        ensures changes { PollsChange (polling Tr.Conn.PollConn) self.old.machine self.new.machine
            result }
        ensures counts { IfFails result (λ fault. CountsChange
            (Tr.Conn.tells → Tr.Conn.secures (Err fault)) fault) }
        ensures mark { self.new.mark ≡ self.old.mark }
        ensures keeps { Keeps self.old self.new }
    {
        let plain = self.machine.begin_anew(Tr::gone());
        match shake(&mut self.machine.transport, rt, handed, plain) {
            Poll::Ready(Ok(Ok(conn))) => {
                drop(self.machine.begin_anew(conn));
                self.machine.state.settings.secure = true;
                Poll::Ready(Ok(()))
            }
            Poll::Ready(Ok(Err(fault))) => {
                self.machine.channel.fail();
                Poll::Ready(Err(fault))
            }
            Poll::Ready(Err(AllocError)) => {
                self.machine.channel.fail();
                Poll::Ready(Err(FtpError::OutOfMemory))
            }
            Poll::Pending => Poll::Pending,
        }
    }

    /// Takes the control connection from under TLS, and the channel begins anew on it.
    ///
    /// # Errors
    /// The stream's, where it can't give its connection back; the session has failed then.
    fn take_off(&mut self) -> FtpResult<()>
        ensures changes { Changes Tr.Conn.tells (TakesOff Tr.Conn Tr.Conn.told Tr.gives) unchanged
            self.old.machine self.new.machine result }
        ensures counts { IfErr result (λ fault. CountsChange
            (TakesOff Tr.Conn Tr.Conn.told Tr.gives self.old.machine.channel.told (Err fault))
            fault) }
        ensures mark { self.new.mark ≡ self.old.mark }
        ensures keeps { Keeps self.old self.new }
    {
        self.uncover()
    }
}

/// Begins a handshake on this connection, by the connector that is handed over; where none is, resumes the one that
/// waited.
fn shake<R, Tr: SecureNetwork<K> + PollTransport<R, ()>, K: Drop>(
    transport: &mut Tr,
    rt: &R,
    handed: Option<(K, String)>,
    plain: Tr::Conn,
) -> Poll<Handshaken<Tr::Conn>>
    ensures secures { Tr.Conn.tells → Shakes Tr.Conn.told Tr.Conn.secures result }
    ensures asked { Tr.asked transport.new ≡ Tr.asked transport.old }
    ensures ready { Tr.ready transport.new ≡ Tr.ready transport.old }
    ensures closed { Tr.closed transport.new ≡ Tr.closed transport.old }
    ensures room { Tr.has_room transport.old → Tr.has_room transport.new }
{
    match handed {
        Some((connector, name)) => {
            transport.keep(connector, name);
            transport.poll_secure(rt, &mut (), plain)
        }
        None => {
            drop(plain);
            transport.poll_secured(rt, &mut ())
        }
    }
}

/// A change that was begun is given up: the session has failed, and its connection is closed.
pub fn give_up_change<Tr: SecureNetwork<K>, K: Drop, E: Encoding, B: Drop>(
    session: &mut Session<Tr, K, E, B>,
)
    ensures gives_up { GivesUp Tr.Conn.tells session.old.machine session.new.machine }
    ensures mark { session.new.mark ≡ session.old.mark }
    ensures keeps { Keeps session.old session.new }
{
    drop(session.machine.begin_anew(Tr::gone()));
    session.machine.channel.fail();
}

/// The session's data connections are put under TLS from now on, as those of one that was connected under TLS.
pub fn secure_data<Tr: Network, K: Drop, E: Encoding, B: Drop>(session: &mut Session<Tr, K, E, B>)
    ensures machine { session.new.machine ≡ secured_from session.old.machine }
    ensures mark { session.new.mark ≡ session.old.mark }
    ensures keeps { Keeps session.old session.new }
{
    session.machine.state.settings.secure = true;
}
