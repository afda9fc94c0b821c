//! Sessions whose control connection is under TLS from its first byte on (RFC 4217, section 2).
//!
//! The connector puts the connection under TLS before the greeting is read on it. Data connections are put under TLS by
//! the same connector; neither `PBSZ` nor `PROT` is sent.

ghost use Rattle.std.specs.Prelude.{◌≡◌, Err, IfErr, IfOk, MatchResult, None, length, string_bytes};
ghost use Rattle.ftp_base.specs.declared.types.fault.ConnectionError.TheVariants as faults;
ghost use Rattle.ftp_transport.specs.Asking.{connects_to};
ghost use Rattle.ftp_dialogue.specs.Coding.{chosen};
ghost use Rattle.ftp_dialogue.specs.Link.{blocking};
ghost use Rattle.ftp_dialogue.specs.NetEvents.{first_net};
ghost use Rattle.ftp_session.specs.Counting.{CountsConnectingUnder};
ghost use Rattle.ftp_session.specs.Implicit.{ConnectsUnder, FailsToConnectUnder, FailsUnder, GreetsUnder};
ghost use Rattle.ftp_session.specs.Securing.{HandsOver};

use super::client::Session;
use super::polled_tls::secure_data;
use ftp_base::encoding::Encoding;
use ftp_base::types::{ConnectionError, FtpError, FtpResult};
use ftp_control::control::ReplyRule;
use ftp_secure::SecureTransport;
use ftp_transport::{Conn, NeverWaits, Transport, Tried, poll_connect_in_turn};
use futures::task::Poll;
use std::alloc::{AllocError, Global};
use std::net::SocketAddr;

impl<Tr: SecureTransport<K>, K: Drop, E: Encoding, B: Drop> Session<Tr, K, E, B>
where
    Tr::Conn: Conn,
{
    /// Connects to the first of these addresses that accepts, in their order, puts the connection under TLS, to a server of
    /// this name, and reads the greeting (220) on it. Data connections are put under TLS from then on.
    ///
    /// # Errors
    /// The last address's error where each failed, `NoAddress` where there is none; `SecureError` with the connector's
    /// text; those of the greeting's read. The connection is closed then.
    pub fn connect_secure_implicit<R>(
        alloc: Global,
        rt: &R,
        mut transport: Tr,
        addresses: &[SocketAddr],
        connector: K,
        domain: &str,
    ) -> FtpResult<Session<Tr, K, E, B>>
    where
        Tr: Transport<R>,
        ensures encoding { IfOk result (λ session. session.encoding.0 ≡ None) }
        ensures builder { IfOk result (λ session. session.builder ≡ None) }
        ensures mark { IfOk result (λ session. session.mark ≡ None) }
        ensures connects { MatchResult result (λ session. ConnectsUnder (blocking Tr.Conn.Conn)
            (HandsOver Tr.Conn Tr.Conn.told Tr.gives (Tr.answers connector domain.now))
            (chosen E.decoded E.encoded None) Tr.refuses (connects_to None addresses.now)
            faults.NoAddress (Tr.ready transport) (Tr.closed transport) (Tr.asked transport)
            session.machine) (λ fault. FailsToConnectUnder (blocking Tr.Conn.Conn)
            (HandsOver Tr.Conn Tr.Conn.told Tr.gives (Tr.answers connector domain.now))
            (chosen E.decoded E.encoded None) Tr.refuses (connects_to None addresses.now)
            faults.NoAddress (Tr.ready transport) (Tr.closed transport) (Tr.asked transport)
            fault) }
        ensures counts { IfErr result (λ fault. CountsConnectingUnder (blocking Tr.Conn.Conn)
            (HandsOver Tr.Conn Tr.Conn.told Tr.gives (Tr.answers connector domain.now))
            (chosen E.decoded E.encoded None) Tr.refuses (connects_to None addresses.now)
            faults.NoAddress (Tr.ready transport) (Tr.closed transport) (Tr.asked transport)
            fault) }
    {
        let Ok(name) = String::from_str(alloc, domain) else {
            drop(connector);
            drop(transport);
            return Err(FtpError::OutOfMemory);
        };
        let mut tried = Tried {
            count: 0,
            fault: ConnectionError::NoAddress,
        };
        match poll_connect_in_turn(
            &mut transport,
            rt,
            &mut NeverWaits,
            addresses,
            None,
            &mut tried,
        ) {
            Poll::Ready(Ok(Ok(conn))) => {
                match Session::greeted_under(alloc, transport, conn, connector, name) {
                    Ok(session) => Ok(session),
                    Err(fault) => Err(fault),
                }
            }
            Poll::Ready(Ok(Err(cause))) => Err(FtpError::ConnectionError(cause)),
            Poll::Ready(Err(AllocError)) => Err(FtpError::OutOfMemory),
            Poll::Pending => unreachable!(),
        }
    }

    /// A session on a connection that is put under TLS by this connector, to a server of this name, once the greeting was
    /// read on it.
    ///
    /// # Errors
    /// `SecureError` with the connector's text; those of the greeting's read. The connection is closed then.
    fn greeted_under(
        alloc: Global,
        mut transport: Tr,
        conn: Tr::Conn,
        connector: K,
        name: String,
    ) -> FtpResult<Session<Tr, K, E, B>>
        ensures encoding { IfOk result (λ session. session.encoding.0 ≡ None) }
        ensures builder { IfOk result (λ session. session.builder ≡ None) }
        ensures mark { IfOk result (λ session. session.mark ≡ None) }
        ensures greets { MatchResult result (λ session. GreetsUnder (blocking Tr.Conn.Conn)
            (HandsOver Tr.Conn Tr.Conn.told Tr.gives (Tr.answers connector (string_bytes name)))
            (chosen E.decoded E.encoded None) (Tr.Conn.told conn)
            (first_net (Tr.asked transport) (Tr.ready transport) (Tr.closed transport))
            session.machine) (λ fault. FailsUnder (blocking Tr.Conn.Conn)
            (HandsOver Tr.Conn Tr.Conn.told Tr.gives (Tr.answers connector (string_bytes name)))
            (chosen E.decoded E.encoded None) (Tr.Conn.told conn)
            (first_net (Tr.asked transport) (Tr.ready transport) (Tr.closed transport)) fault) }
    {
        match Tr::put_under(&connector, name.as_str(), conn) {
            Ok(under) => {
                transport.keep(connector, name);
                match Session::greeted(alloc, transport, under, ReplyRule::Strict) {
                    Ok(mut session) => {
                        secure_data(&mut session);
                        Ok(session)
                    }
                    Err(fault) => Err(fault),
                }
            }
            Err(fault) => Err(fault),
        }
    }
}
