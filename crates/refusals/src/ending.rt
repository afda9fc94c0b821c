//! Calls that bring a transfer to its end.

ghost use Rattle.std.specs.Prelude.{◌≡◌, Some, true};
ghost use Rattle.ftp_transfer.specs.Mark.{loaded};
ghost use Rattle.ftp_session.specs.Calls.{unit_answer};
ghost use Rattle.ftp_dialogue.specs.Coding.{chosen};
ghost use Rattle.ftp_dialogue.specs.Counted.{CountsFaults, CountsFaultsBeside};
ghost use Rattle.ftp_session.specs.Handed.{BringsToEnd, Settles, with_data};
ghost use Rattle.ftp_dialogue.specs.Link.{blocking};
ghost use Rattle.ftp_session.specs.Kept.{Keeps};

use ftp_base::encoding::Encoding;
use ftp_base::types::FtpResult;
use ftp_session::session::{Call, Session};
use ftp_transfer::Transfer;
use ftp_transfer::mark::Left;
use ftp_transport::{Conn, Network};
use std::alloc::Global;

/// `Session::finish`.
pub fn finish<Tr: Network, K: Drop, E: Encoding, B: Drop>(
    session: &mut Session<Tr, K, E, B>,
    alloc: Global,
    transfer: Transfer<Tr::Conn>,
) -> FtpResult<()>
where
    Tr::Conn: Conn,
    ensures finishes { BringsToEnd (blocking Tr.Conn.Conn)
        (chosen E.decoded E.encoded session.old.encoding.0) Call.Finish transfer session.old.mark
        session.new.mark session.old.machine session.new.machine (unit_answer result) }
    ensures counts { CountsFaultsBeside (blocking Tr.Conn.Conn)
        (with_data (Some transfer.told) session.old.machine) session.new.machine
        (unit_answer result) }
    ensures keeps { Keeps session.old session.new }
{
    session.finish(alloc, transfer)
}

/// `Session::abort`.
pub fn abort<Tr: Network, K: Drop, E: Encoding, B: Drop>(
    session: &mut Session<Tr, K, E, B>,
    alloc: Global,
    transfer: Transfer<Tr::Conn>,
) -> FtpResult<()>
where
    Tr::Conn: Conn,
    ensures aborts { BringsToEnd (blocking Tr.Conn.Conn) (chosen E.decoded E.encoded
        session.old.encoding.0) Call.Abort transfer session.old.mark session.new.mark
        session.old.machine session.new.machine (unit_answer result) }
    ensures counts { CountsFaultsBeside (blocking Tr.Conn.Conn)
        (with_data (Some transfer.told) session.old.machine) session.new.machine
        (unit_answer result) }
    ensures keeps { Keeps session.old session.new }
{
    session.abort(alloc, transfer)
}

/// `Session::settle`.
pub fn settle<Tr: Network, K: Drop, E: Encoding, B: Drop>(
    session: &mut Session<Tr, K, E, B>,
    alloc: Global,
    left: &mut Left,
) -> FtpResult<()>
where
    Tr::Conn: Conn,
    ensures settles { Settles (blocking Tr.Conn.Conn) (chosen E.decoded E.encoded
        session.old.encoding.0) left.old session.old.machine session.new.machine
        (unit_answer result) }
    ensures counts { CountsFaults Tr.Conn.tells session.old.machine session.new.machine
        (unit_answer result) }
    ensures looks { left.new ≡ loaded true left.old }
    ensures mark { session.new.mark ≡ session.old.mark }
    ensures keeps { Keeps session.old session.new }
{
    session.settle(alloc, left)
}
