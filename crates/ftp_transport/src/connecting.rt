//! A list of addresses, tried in turn.
//!
//! It is polled, so that a client that waits can drop it and resume where it stopped; over a transport that blocks it
//! never waits. The last error is kept, which is returned where no address connects.

ghost use Rattle.std.specs.Prelude.{◌≡◌, ◌≤◌, Ok, Err, drop, length};
ghost use Rattle.futures.specs.declared.task.Poll.TheVariants as poll;
ghost use Rattle.ftp_transport.specs.Asking.{TriesInTurn, connects_to};

use super::{Connected, PollTransport};
use ftp_base::types::ConnectionError;
use futures::task::Poll;
use std::net::SocketAddr;
use std::time::Duration;

/// How far a list of addresses was tried.
#[derive(Clone, Copy, Debug)]
pub struct Tried {
    /// How many of them failed.
    pub count: usize,
    /// The error of the last one; before the first, what is returned where there is none.
    pub fault: ConnectionError,
}

/// Connects to the first of these addresses that accepts, each within this time where there is a limit. Those that were
/// tried before aren't tried again. Where each fails, the last error is returned.
pub fn poll_connect_in_turn<Tr, R, W>(
    transport: &mut Tr,
    rt: &R,
    w: &mut W,
    addresses: &[SocketAddr],
    limit: Option<Duration>,
    tried: &mut Tried,
) -> Poll<Connected<Tr::Conn>>
where
    Tr: PollTransport<R, W>,
    requires within { tried.old.count ≤ length addresses.now }
    ensures within { tried.new.count ≤ length addresses.now }
    ensures waits { result ≡ poll.Pending → Tr.may_wait }
    ensures nowhere { tried.old.count ≡ length addresses.now →
        (result ≡ poll.Ready (Ok (Err tried.old.fault))) × (tried.new ≡ tried.old) }
    ensures tries { Tr.Conn.tells → TriesInTurn Tr.Conn.told Tr.refuses
        (connects_to limit (drop tried.old.count addresses.now))
        (connects_to limit (drop tried.new.count addresses.now))
        tried.old.fault tried.new.fault result (Tr.ready transport.old) (Tr.ready transport.new)
        (Tr.asked transport.old) (Tr.asked transport.new) }
    ensures closed { Tr.closed transport.new ≡ Tr.closed transport.old }
    ensures room { Tr.has_room transport.old → Tr.has_room transport.new }
    ensures port { Tr.port transport.new ≡ Tr.port transport.old }
{
    while tried.count < addresses.len() {
        match transport.poll_connect(rt, w, addresses[tried.count], limit) {
            Poll::Ready(Ok(Err(fault))) => {
                tried.fault = fault;
                tried.count += 1;
            }
            made => return made,
        }
    }
    Poll::Ready(Ok(Err(tried.fault)))
}
