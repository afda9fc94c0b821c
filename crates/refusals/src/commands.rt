//! Calls that send one command, and a login.

ghost use Rattle.std.specs.Prelude.{◌≡◌};
ghost use Rattle.ftp_session.specs.Calls.{unit_answer};
ghost use Rattle.ftp_dialogue.specs.Coding.{chosen};
ghost use Rattle.ftp_dialogue.specs.Counted.{CountsFaults};
ghost use Rattle.ftp_dialogue.specs.Link.{blocking};
ghost use Rattle.ftp_session.specs.Commands.{PlaysCommand};
ghost use Rattle.ftp_session.specs.Trees.{login_tree, unit_tree};
ghost use Rattle.ftp_session.specs.Kept.{Keeps};

use ftp_base::command::Command;
use ftp_base::encoding::Encoding;
use ftp_base::status::Status;
use ftp_base::types::FtpResult;
use ftp_calls::exchange::Codes;
use ftp_session::session::Session;
use ftp_transport::{Conn, Network};
use std::alloc::Global;

/// `Session::cwd`.
pub fn cwd<Tr: Network, K: Drop, E: Encoding, B: Drop>(
    session: &mut Session<Tr, K, E, B>,
    alloc: Global,
    path: &str,
) -> FtpResult<()>
where
    Tr::Conn: Conn,
    ensures plays { PlaysCommand (blocking Tr.Conn.Conn) (unit_tree
        (chosen E.decoded E.encoded session.old.encoding.0) (Command.Cwd path.now)
        (Codes.Either Status.CommandOk Status.RequestedFileActionOk)) session.old.mark
        session.new.mark session.old.machine session.new.machine (unit_answer result) }
    ensures counts { CountsFaults Tr.Conn.tells session.old.machine session.new.machine
        (unit_answer result) }
    ensures keeps { Keeps session.old session.new }
{
    session.cwd(alloc, path)
}

/// `Session::login`.
pub fn login<Tr: Network, K: Drop, E: Encoding, B: Drop>(
    session: &mut Session<Tr, K, E, B>,
    alloc: Global,
    user: &str,
    password: &str,
) -> FtpResult<()>
where
    Tr::Conn: Conn,
    ensures plays { PlaysCommand (blocking Tr.Conn.Conn) (login_tree
        (chosen E.decoded E.encoded session.old.encoding.0) user.now password.now) session.old.mark
        session.new.mark session.old.machine session.new.machine (unit_answer result) }
    ensures counts { CountsFaults Tr.Conn.tells session.old.machine session.new.machine
        (unit_answer result) }
    ensures keeps { Keeps session.old session.new }
{
    session.login(alloc, user, password)
}
