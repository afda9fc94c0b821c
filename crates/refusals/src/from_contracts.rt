//! What follows from the public contracts of the library alone.

ghost use Rattle.std.specs.Prelude.{◌≡◌, ◌⊎◌, ◌∷◌, [], IfOk};
ghost use Rattle.refusals.specs.Aborted.{WasAborted};

use ftp_base::types::FtpResult;
use ftp_runs::RunCalls;
use ftp_session::session::{Answer, Call, Session};
use ftp_transport::{MemoryConn, MemoryTransport};
use std::alloc::Global;

/// A server's bytes are fed, a session is made on their connection, and it reads the greeting and says `NOOP`: both
/// calls succeed, or memory ran out.
pub fn greeting_and_noop(alloc: Global) -> FtpResult<Vec<Answer>>
    ensures { IfOk result (λ answers. (answers.items ≡ Answer.Unit ∷ Answer.Unit ∷ []) ⊎
        WasAborted answers.items) }
{
    let mut conn = MemoryConn::new(alloc);
    conn.feed(b"220 r\r\n200 ok\r\n")?;
    let mut session: Session<MemoryTransport> = Session::new(
        alloc,
        MemoryTransport::new(alloc),
        conn,
    )?;
    let answers = session.run(alloc, &(), &[Call::Greet, Call::Noop])?;
    session.get_ref().unread();
    Ok(answers)
}
