//! Changes of TLS.

ghost use Rattle.std.specs.Prelude.{◌≡◌, IfErr};
ghost use Rattle.ftp_dialogue.specs.Coding.{chosen};
ghost use Rattle.ftp_dialogue.specs.Link.{blocking};
ghost use Rattle.ftp_session.specs.Counting.{CountsSecuring};
ghost use Rattle.ftp_session.specs.Securing.{HandsOver, Secures};
ghost use Rattle.ftp_session.specs.Kept.{Keeps};

use ftp_base::encoding::Encoding;
use ftp_base::types::FtpResult;
use ftp_secure::SecureTransport;
use ftp_session::session::Session;
use ftp_transport::Conn;
use std::alloc::Global;

/// `Session::into_secure`.
pub fn into_secure<Tr: SecureTransport<K>, K: Drop, E: Encoding, B: Drop>(
    session: &mut Session<Tr, K, E, B>,
    alloc: Global,
    connector: K,
    domain: &str,
) -> FtpResult<()>
where
    Tr::Conn: Conn,
    ensures secures { Secures (blocking Tr.Conn.Conn) (HandsOver Tr.Conn Tr.Conn.told Tr.gives
        (Tr.answers connector domain.now)) (chosen E.decoded E.encoded session.old.encoding.0)
        session.old.mark session.new.mark session.old.machine session.new.machine result }
    ensures counts { IfErr result (λ fault. CountsSecuring (blocking Tr.Conn.Conn)
        (HandsOver Tr.Conn Tr.Conn.told Tr.gives (Tr.answers connector domain.now))
        (chosen E.decoded E.encoded session.old.encoding.0) session.old.mark session.old.machine
        session.new.machine fault) }
    ensures keeps { Keeps session.old session.new }
{
    session.into_secure(alloc, connector, domain)
}
