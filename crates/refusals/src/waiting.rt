//! Who is asked to register a task.

ghost use Rattle.std.specs.Prelude.{◌≡◌};
ghost use Rattle.futures.specs.Task.{IsArmed, Keeps as KeepsTask};
ghost use Rattle.ftp_transport.specs.Registering.{AskInTurn};
ghost use Rattle.ftp_transport.specs.declared.waiting.Waiting.TheVariants as waits;
ghost use Rattle.ftp_dialogue.specs.Waiting.{waiting_parts};
ghost use Rattle.ftp_session.specs.Kept.{Keeps};

use ftp_base::encoding::Encoding;
use ftp_session::session::{Session, WaitsInTask};
use ftp_transport::{Registrar, TaskConn, TaskTransport, Waiting};
use futures::task::Context;

/// `Session::poll_ready`.
pub fn poll_ready<Tr: TaskTransport, K: Drop, E: Encoding, B: Drop, G: Registrar<Tr>>(
    session: &mut Session<Tr, K, E, B>,
    registrar: &mut G,
    cx: &mut Context<'_>,
) -> Waiting
where
    Tr::Conn: TaskConn,
    ensures asks { AskInTurn G.asks (waiting_parts session.old.machine) registrar.old cx.old result
        cx.new registrar.new }
    ensures same { session.new.machine ≡ session.old.machine }
    ensures mark { session.new.mark ≡ session.old.mark }
    ensures keeps { Keeps session.old session.new }
    ensures registered { result ≡ waits.Registered → IsArmed cx.new }
    ensures kept { KeepsTask cx.old cx.new }
{
    session.poll_ready(registrar, cx)
}

/// `Session::forget_request`.
pub fn forget_request<Tr: TaskTransport, K: Drop, E: Encoding, B: Drop, G: Registrar<Tr>>(
    session: &mut Session<Tr, K, E, B>,
    registrar: &mut G,
)
where
    Tr::Conn: TaskConn,
    ensures forgets { G.forgets registrar.old registrar.new }
    ensures same { session.new.machine ≡ session.old.machine }
    ensures mark { session.new.mark ≡ session.old.mark }
    ensures keeps { Keeps session.old session.new }
{
    session.forget_request(registrar);
}
