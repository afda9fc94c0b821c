//! How a session comes to its connection.
//!
//! The addresses are asked for in turn, and the greeting is read on the first that connects. What is asked and what it
//! results in are nodes of a dialogue (`connecting`), as all requests of a session are.

ghost use Rattle.std.specs.Prelude.{◌≡◌, IfErr, IfOk, MatchResult, Ok, Err, Some, None, length};
ghost use Rattle.std.specs.Duration.{as_nanos};
ghost use Rattle.ftp_base.specs.declared.types.fault.ConnectionError.TheVariants as faults;
ghost use Rattle.ftp_transport.specs.Asking.{connects_to};
ghost use Rattle.ftp_dialogue.specs.Coding.{chosen};
ghost use Rattle.ftp_session.specs.Connecting.{ConnectsBy, FailsToConnectBy, connects_within};
ghost use Rattle.ftp_session.specs.Counting.{CountsConnecting};
ghost use Rattle.ftp_dialogue.specs.Link.{blocking};

use super::client::Session;
use ftp_base::encoding::Encoding;
use ftp_base::types::{ConnectionError, FtpError, FtpResult};
use ftp_control::control::ReplyRule;
use ftp_transport::{Conn, Network, NeverWaits, Transport, Tried, poll_connect_in_turn};
use futures::task::Poll;
use std::alloc::{AllocError, Global};
use std::net::SocketAddr;
use std::time::Duration;

impl<Tr: Network, K: Drop, E: Encoding, B: Drop> Session<Tr, K, E, B>
where
    Tr::Conn: Conn,
{
    /// Connects to the first of these addresses that accepts, in their order, and reads the greeting (220).
    ///
    /// # Errors
    /// The last address's error where each failed, `NoAddress` where there is none; else those of the greeting's
    /// read, and the connection is closed then.
    pub fn connect<R>(
        alloc: Global,
        rt: &R,
        transport: Tr,
        addresses: &[SocketAddr],
    ) -> FtpResult<Session<Tr, K, E, B>>
    where
        Tr: Transport<R>,
        ensures encoding { IfOk result (λ session. session.encoding.0 ≡ None) }
        ensures builder { IfOk result (λ session. session.builder ≡ None) }
        ensures mark { IfOk result (λ session. session.mark ≡ None) }
        ensures nowhere { length addresses.now ≡ 0 →
            result ≡ Err (FtpError.ConnectionError faults.NoAddress) }
        ensures connects { MatchResult result (λ session. ConnectsBy (blocking Tr.Conn.Conn)
            (chosen E.decoded E.encoded None) ReplyRule.Strict Tr.refuses
            (connects_to None addresses.now) faults.NoAddress (Tr.ready transport)
            (Tr.closed transport) (Tr.asked transport) session.machine (Ok tt))
            (λ fault. FailsToConnectBy (blocking Tr.Conn.Conn) (chosen E.decoded E.encoded None)
            ReplyRule.Strict Tr.refuses (connects_to None addresses.now) faults.NoAddress
            (Tr.ready transport) (Tr.closed transport) (Tr.asked transport) fault) }
        ensures counts { IfErr result (λ fault. CountsConnecting (blocking Tr.Conn.Conn)
            (chosen E.decoded E.encoded None) ReplyRule.Strict Tr.refuses
            (connects_to None addresses.now) faults.NoAddress (Tr.ready transport)
            (Tr.closed transport) (Tr.asked transport) fault) }
    {
        Session::connect_in_turn(
            alloc,
            rt,
            transport,
            addresses,
            None,
            ConnectionError::NoAddress,
            ReplyRule::Strict,
        )
    }

    /// The same, where replies are read leniently from the greeting on (`ReplyRule::Lenient`).
    ///
    /// # Errors
    /// Those of `connect`.
    pub fn connect_lenient<R>(
        alloc: Global,
        rt: &R,
        transport: Tr,
        addresses: &[SocketAddr],
    ) -> FtpResult<Session<Tr, K, E, B>>
    where
        Tr: Transport<R>,
        ensures encoding { IfOk result (λ session. session.encoding.0 ≡ None) }
        ensures builder { IfOk result (λ session. session.builder ≡ None) }
        ensures mark { IfOk result (λ session. session.mark ≡ None) }
        ensures nowhere { length addresses.now ≡ 0 →
            result ≡ Err (FtpError.ConnectionError faults.NoAddress) }
        ensures connects { MatchResult result (λ session. ConnectsBy (blocking Tr.Conn.Conn)
            (chosen E.decoded E.encoded None) ReplyRule.Lenient Tr.refuses
            (connects_to None addresses.now) faults.NoAddress (Tr.ready transport)
            (Tr.closed transport) (Tr.asked transport) session.machine (Ok tt))
            (λ fault. FailsToConnectBy (blocking Tr.Conn.Conn) (chosen E.decoded E.encoded None)
            ReplyRule.Lenient Tr.refuses (connects_to None addresses.now) faults.NoAddress
            (Tr.ready transport) (Tr.closed transport) (Tr.asked transport) fault) }
        ensures counts { IfErr result (λ fault. CountsConnecting (blocking Tr.Conn.Conn)
            (chosen E.decoded E.encoded None) ReplyRule.Lenient Tr.refuses
            (connects_to None addresses.now) faults.NoAddress (Tr.ready transport)
            (Tr.closed transport) (Tr.asked transport) fault) }
    {
        Session::connect_in_turn(
            alloc,
            rt,
            transport,
            addresses,
            None,
            ConnectionError::NoAddress,
            ReplyRule::Lenient,
        )
    }

    /// Connects to this address within this time, and reads the greeting (220), for which there is no limit. No time
    /// at all asks for no connection.
    ///
    /// # Errors
    /// `TimedOut` where the time passed or was zero; the address's error; those of the greeting's read, and the
    /// connection is closed then.
    pub fn connect_timeout<R>(
        alloc: Global,
        rt: &R,
        transport: Tr,
        address: SocketAddr,
        limit: Duration,
    ) -> FtpResult<Session<Tr, K, E, B>>
    where
        Tr: Transport<R>,
        ensures encoding { IfOk result (λ session. session.encoding.0 ≡ None) }
        ensures builder { IfOk result (λ session. session.builder ≡ None) }
        ensures mark { IfOk result (λ session. session.mark ≡ None) }
        ensures no_time { as_nanos limit ≡ 0 →
            result ≡ Err (FtpError.ConnectionError faults.TimedOut) }
        ensures connects { MatchResult result (λ session. ConnectsBy (blocking Tr.Conn.Conn)
            (chosen E.decoded E.encoded None) ReplyRule.Strict Tr.refuses
            (connects_within limit address) faults.TimedOut (Tr.ready transport)
            (Tr.closed transport) (Tr.asked transport) session.machine (Ok tt))
            (λ fault. FailsToConnectBy (blocking Tr.Conn.Conn) (chosen E.decoded E.encoded None)
            ReplyRule.Strict Tr.refuses (connects_within limit address) faults.TimedOut
            (Tr.ready transport) (Tr.closed transport) (Tr.asked transport) fault) }
        ensures counts { IfErr result (λ fault. CountsConnecting (blocking Tr.Conn.Conn)
            (chosen E.decoded E.encoded None) ReplyRule.Strict Tr.refuses
            (connects_within limit address) faults.TimedOut (Tr.ready transport)
            (Tr.closed transport) (Tr.asked transport) fault) }
    {
        let addresses = [address];
        let count = if limit.is_zero() { 0 } else { 1 };
        Session::connect_in_turn(
            alloc,
            rt,
            transport,
            &addresses[..count],
            Some(limit),
            ConnectionError::TimedOut,
            ReplyRule::Strict,
        )
    }

    /// Connects to the first of these addresses that accepts, each within this time where there is a limit;
    /// where there is no address this is the error. Replies are read by this rule.
    fn connect_in_turn<R>(
        alloc: Global,
        rt: &R,
        mut transport: Tr,
        addresses: &[SocketAddr],
        limit: Option<Duration>,
        fault: ConnectionError,
        rule: ReplyRule,
    ) -> FtpResult<Session<Tr, K, E, B>>
    where
        Tr: Transport<R>,
        ensures encoding { IfOk result (λ session. session.encoding.0 ≡ None) }
        ensures builder { IfOk result (λ session. session.builder ≡ None) }
        ensures mark { IfOk result (λ session. session.mark ≡ None) }
        ensures nowhere { length addresses.now ≡ 0 →
            result ≡ Err (FtpError.ConnectionError fault) }
        ensures connects { MatchResult result (λ session. ConnectsBy (blocking Tr.Conn.Conn)
            (chosen E.decoded E.encoded None) rule Tr.refuses (connects_to limit addresses.now)
            fault (Tr.ready transport) (Tr.closed transport) (Tr.asked transport) session.machine
            (Ok tt)) (λ cause. FailsToConnectBy (blocking Tr.Conn.Conn)
            (chosen E.decoded E.encoded None) rule Tr.refuses (connects_to limit addresses.now)
            fault (Tr.ready transport) (Tr.closed transport) (Tr.asked transport) cause) }
    {
        let mut tried = Tried { count: 0, fault };
        match poll_connect_in_turn(
            &mut transport,
            rt,
            &mut NeverWaits,
            addresses,
            limit,
            &mut tried,
        ) {
            Poll::Ready(Ok(Ok(conn))) => match Session::greeted(alloc, transport, conn, rule) {
                Ok(session) => Ok(session),
                Err(cause) => Err(cause),
            },
            Poll::Ready(Ok(Err(cause))) => Err(FtpError::ConnectionError(cause)),
            Poll::Ready(Err(AllocError)) => Err(FtpError::OutOfMemory),
            Poll::Pending => unreachable!(),
        }
    }
}
