//! A list of addresses, and a task that waits.

ghost use Rattle.std.specs.Prelude.{◌≡◌, ◌≤◌, ◌<◌, Ok, Err, drop, length};
ghost use Rattle.futures.specs.Task.{IsArmed, Keeps};
ghost use Rattle.futures.specs.declared.task.Poll.TheVariants as poll;
ghost use Rattle.ftp_transport.specs.Asking.{TriesInTurn, connects_to};

use ftp_transport::{Connected, PollTransport, Tried, Waiting};
use futures::task::{Context, Poll};
use std::net::SocketAddr;
use std::time::Duration;

/// `ftp_transport::poll_connect_in_turn`.
pub fn poll_connect_in_turn<Tr, R, W>(
    transport: &mut Tr,
    rt: &R,
    w: &mut W,
    addresses: &[SocketAddr],
    limit: Option<Duration>,
    tried: &mut Tried,
) -> Poll<Connected<Tr::Conn>>
where
    Tr: PollTransport<R, W>,
    requires within { tried.old.count ≤ length addresses.now }
    ensures within { tried.new.count ≤ length addresses.now }
    ensures waits { result ≡ poll.Pending → Tr.may_wait }
    ensures nowhere { tried.old.count ≡ length addresses.now →
        (result ≡ poll.Ready (Ok (Err tried.old.fault))) × (tried.new ≡ tried.old) }
    ensures tries { Tr.Conn.tells → TriesInTurn Tr.Conn.told Tr.refuses
        (connects_to limit (drop tried.old.count addresses.now))
        (connects_to limit (drop tried.new.count addresses.now))
        tried.old.fault tried.new.fault result (Tr.ready transport.old) (Tr.ready transport.new)
        (Tr.asked transport.old) (Tr.asked transport.new) }
    ensures closed { Tr.closed transport.new ≡ Tr.closed transport.old }
    ensures room { Tr.has_room transport.old → Tr.has_room transport.new }
    ensures port { Tr.port transport.new ≡ Tr.port transport.old }
{
    ftp_transport::poll_connect_in_turn(transport, rt, w, addresses, limit, tried)
}

/// `Waiting::wait`.
pub fn wait<T>(waiting: Waiting, cx: &mut Context<'_>) -> Poll<T>
    requires { waiting ≡ Waiting.Registered → IsArmed cx.old }
    ensures pending { result ≡ poll.Pending }
    ensures registered { IsArmed cx.new }
    ensures kept { Keeps cx.old cx.new }
{
    waiting.wait(cx)
}
