//! How a session comes to its connection.

ghost use Rattle.std.specs.Prelude.{◌≡◌, IfErr, IfOk, MatchResult, Ok, None};
ghost use Rattle.ftp_session.specs.Calls.{Connects, FailsToConnect};
ghost use Rattle.ftp_session.specs.Counting.{CountsInGreeting};
ghost use Rattle.ftp_dialogue.specs.Coding.{chosen};
ghost use Rattle.ftp_dialogue.specs.NetEvents.{first_net};
ghost use Rattle.ftp_dialogue.specs.Link.{blocking};

use ftp_base::encoding::Encoding;
use ftp_base::types::FtpResult;
use ftp_control::control::ReplyRule;
use ftp_session::session::Session;
use ftp_transport::{Conn, Network};
use std::alloc::Global;

/// `Session::connect_with_stream`.
pub fn connect_with_stream<Tr: Network, K: Drop, E: Encoding, B: Drop>(
    alloc: Global,
    transport: Tr,
    conn: Tr::Conn,
) -> FtpResult<Session<Tr, K, E, B>>
where
    Tr::Conn: Conn,
    ensures encoding { IfOk result (λ session. session.encoding.0 ≡ None) }
    ensures builder { IfOk result (λ session. session.builder ≡ None) }
    ensures mark { IfOk result (λ session. session.mark ≡ None) }
    ensures connects { MatchResult result (λ session. Connects (blocking Tr.Conn.Conn)
        (chosen E.decoded E.encoded None) ReplyRule.Strict (Tr.Conn.told conn)
        (first_net (Tr.asked transport) (Tr.ready transport) (Tr.closed transport)) session.machine
        (Ok tt)) (λ fault. FailsToConnect (blocking Tr.Conn.Conn) (chosen E.decoded E.encoded None)
        ReplyRule.Strict (Tr.Conn.told conn) (first_net (Tr.asked transport) (Tr.ready transport)
        (Tr.closed transport)) fault) }
    ensures counts { IfErr result (λ fault. CountsInGreeting (blocking Tr.Conn.Conn)
        (chosen E.decoded E.encoded None) ReplyRule.Strict (Tr.Conn.told conn)
        (first_net (Tr.asked transport) (Tr.ready transport) (Tr.closed transport)) fault) }
{
    Session::connect_with_stream(alloc, transport, conn)
}
