//! A state that waits.

ghost use Rattle.std.specs.Prelude.{◌≡◌};
ghost use Rattle.futures.specs.Task.{IsArmed, Keeps};
ghost use Rattle.futures.specs.declared.task.Poll.TheVariants as poll;

use ftp_base::encoding::Encoding;
use ftp_session::session::{Session, WaitsInTask};
use ftp_transport::{AsksItself, TaskConn, TaskTransport};
use futures::task::{Context, Poll};

/// After a poll of a session's call that waits: the task is registered for what that waits for, or asks to be polled
/// again, where it has come meanwhile or nothing can tell when it comes.
pub(crate) fn wait<Tr: TaskTransport, K: Drop, E: Encoding, B: Drop, T>(
    session: &mut Session<Tr, K, E, B>,
    cx: &mut Context<'_>,
) -> Poll<T>
where
    Tr::Conn: TaskConn,
    ensures pending { result ≡ poll.Pending }
    ensures registered { IsArmed cx.new }
    ensures kept { Keeps cx.old cx.new }
{
    session.poll_ready(&mut AsksItself, cx).wait(cx)
}
