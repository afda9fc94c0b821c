//! A server that sent more replies than were read.

ghost use Rattle.std.specs.Prelude.{◌≡◌};
ghost use Rattle.ftp_session.specs.Calls.{unit_answer};
ghost use Rattle.ftp_dialogue.specs.Coding.{chosen};
ghost use Rattle.ftp_dialogue.specs.Counted.{CountsFaults};
ghost use Rattle.ftp_dialogue.specs.Link.{blocking};
ghost use Rattle.ftp_session.specs.Handed.{PlaysSeen};
ghost use Rattle.ftp_session.specs.Kept.{Keeps};

use ftp_base::encoding::Encoding;
use ftp_base::types::FtpResult;
use ftp_session::session::{Call, Session};
use ftp_transport::{Conn, Network};
use std::alloc::Global;

/// `Session::resync`.
pub fn resync<Tr: Network, K: Drop, E: Encoding, B: Drop>(
    session: &mut Session<Tr, K, E, B>,
    alloc: Global,
) -> FtpResult<()>
where
    Tr::Conn: Conn,
    ensures plays { PlaysSeen (blocking Tr.Conn.Conn) (chosen E.decoded E.encoded
        session.old.encoding.0) Call.Resync session.old.mark session.new.mark session.old.machine
        session.new.machine (unit_answer result) }
    ensures counts { CountsFaults Tr.Conn.tells session.old.machine session.new.machine
        (unit_answer result) }
    ensures keeps { Keeps session.old session.new }
{
    session.resync(alloc)
}
