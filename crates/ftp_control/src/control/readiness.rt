//! A task that waits on the control connection.

ghost use Rattle.std.specs.Prelude.{◌≡◌};
ghost use Rattle.futures.specs.Task.{IsArmed, Keeps};
ghost use Rattle.ftp_transport.specs.Registering.Part.{Connection};
ghost use Rattle.ftp_transport.specs.declared.waiting.Waiting.TheVariants as waits;

use super::channel::ControlChannel;
use ftp_transport::{Registrar, TaskConn, TaskTransport, Waiting};
use futures::task::Context;

/// Has the connection of a channel asked to register the task for what its last read and its last write wait for. The
/// channel stays as it is: what is kept of a reply, and the unsent tail of a line.
pub fn ask_channel<Tr: TaskTransport, G: Registrar<Tr>>(
    channel: &mut ControlChannel<Tr::Conn>,
    registrar: &mut G,
    cx: &mut Context<'_>,
) -> Waiting
where
    Tr::Conn: TaskConn,
    ensures asks { G.asks registrar.old (Connection channel.old.told) cx.old result cx.new
        registrar.new }
    ensures same { channel.new ≡ channel.old }
    ensures registered { result ≡ waits.Registered → IsArmed cx.new }
    ensures kept { Keeps cx.old cx.new }
{
    registrar.connection(&mut channel.conn, cx)
}
