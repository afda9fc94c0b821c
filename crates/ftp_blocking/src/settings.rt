//! The settings of a client: the session's call of that name, in one hold of the lock. Nothing is sent.

use super::ImplFtpStream;
use ftp_base::encoding::Encoding;
use ftp_base::types::{ActivePeerCheck, Mode};
use ftp_transport::Network;
use std::sync::Wait;
use std::time::Duration;

impl<Tr: Network, K: Drop, E: Encoding, B: Drop> ImplFtpStream<Tr, K, E, B> {
    /// Who opens data connections from now on, and how they are asked for (RFC 959, section 3.2; RFC 2428). A client
    /// that `connect_to`, `connect_to_within`, `connect_within` or `connect_over` connected begins in `Automatic`, any other
    /// in `Passive`. In `Automatic` EPSV is sent first; once the server has refused it over IPv4 the mode is `Passive`.
    pub fn set_mode<R: Wait>(&self, rt: &R, mode: Mode) {
        self.session.lock(rt).set_mode(mode);
    }

    /// Whether the host of a reply to `PASV` is passed over for the control connection's peer, as behind a router
    /// that rewrites addresses. A client begins without.
    pub fn set_passive_nat_workaround<R: Wait>(&self, rt: &R, enabled: bool) {
        self.session.lock(rt).set_passive_nat_workaround(enabled);
    }

    /// Which peers may open an active data connection. A client begins with `ControlPeer`.
    pub fn set_active_peer_check<R: Wait>(&self, rt: &R, check: ActivePeerCheck) {
        self.session.lock(rt).set_active_peer_check(check);
    }

    /// How long an active data connection is waited for. A client begins with 60 seconds.
    pub fn set_active_deadline<R: Wait>(&self, rt: &R, deadline: Duration) {
        self.session.lock(rt).set_active_deadline(deadline);
    }

    /// Whether the replies that begin from now on are read leniently (`ReplyRule::Lenient`), or as RFC 959, section 4.2,
    /// has it. A client begins strict, unless a call with `lenient` in its name connected it.
    pub fn set_lenient_replies<R: Wait>(&self, rt: &R, lenient: bool) {
        self.session.lock(rt).set_lenient_replies(lenient);
    }

    /// The client in the mode `Active`, which waits so long for a data connection.
    pub fn active_mode<R: Wait>(self, rt: &R, deadline: Duration) -> Self {
        let mut session = self.session.lock(rt);
        session.set_mode(Mode::Active);
        session.set_active_deadline(deadline);
        drop(session);
        self
    }

    /// Lets this builder make passive data connections from now on, in the transport's place, each to the address that
    /// the transport would have been asked for. Its error is returned as it is.
    pub fn set_passive_stream_builder<R: Wait>(&self, rt: &R, builder: B) {
        self.session.lock(rt).set_passive_stream_builder(builder);
    }

    /// The client with this builder of passive data connections.
    pub fn passive_stream_builder<R: Wait>(self, rt: &R, builder: B) -> Self {
        self.set_passive_stream_builder(rt, builder);
        self
    }
}
