//! Whom a machine has asked to register a task.

ghost use Rattle.std.specs.Prelude.{◌≡◌};
ghost use Rattle.futures.specs.Task.{IsArmed, Keeps};
ghost use Rattle.ftp_transport.specs.Registering.{AskInTurn};
ghost use Rattle.ftp_transport.specs.declared.waiting.Waiting.TheVariants as waits;
ghost use Rattle.ftp_dialogue.specs.Waiting.{waiting_parts};

use ftp_dialogue::machine::Machine;
use ftp_transport::{Registrar, TaskConn, TaskTransport, Waiting};
use futures::task::Context;

/// `Machine::poll_ready`.
pub fn poll_ready<Tr: TaskTransport, G: Registrar<Tr>>(
    machine: &mut Machine<Tr>,
    registrar: &mut G,
    cx: &mut Context<'_>,
) -> Waiting
where
    Tr::Conn: TaskConn,
    ensures asks { AskInTurn G.asks (waiting_parts machine.old) registrar.old cx.old result cx.new
        registrar.new }
    ensures same { machine.new ≡ machine.old }
    ensures registered { result ≡ waits.Registered → IsArmed cx.new }
    ensures kept { Keeps cx.old cx.new }
{
    machine.poll_ready(registrar, cx)
}
