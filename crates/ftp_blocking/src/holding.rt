//! A hold of a client's lock until a gate is open, for tests of what may go on beside it.
//!
//! A transfer may be left or dropped while another thread holds its client. A test shows that by a gate which the other
//! thread opens once the transfer is dropped: a drop that waited for the lock would never come to open it.

ghost use Rattle.std.specs.Prelude.{◌≡◌, true};

use super::ImplFtpStream;
use ftp_base::encoding::Encoding;
use ftp_transport::Network;
use std::sync::Wait;

/// How often a gate is asked.
const QUESTIONS: u32 = 1_000_000;

/// Until when a client's lock is held. An implementation lets another thread run at each question.
pub trait Gate {
    /// What an open gate shows; `⊤` where that is nothing a contract can name.
    ghost shows: { Self → Type 0 };

    /// Whether the gate is open.
    fn pass(&self) -> bool
        ensures { result ≡ true → shows self.now };
}

/// Takes the client's lock, asks the gate until it is open, at most 1,000,000 times, and lets go of the lock. Returns
/// whether the gate was open.
pub fn hold<R: Wait, Tr: Network, K: Drop, E: Encoding, B: Drop, G: Gate>(
    rt: &R,
    client: &ImplFtpStream<Tr, K, E, B>,
    gate: &G,
) -> bool
    ensures { result ≡ true → G.shows gate.now }
{
    let held = client.session.lock(rt);
    let passed = passes(gate);
    drop(held);
    passed
}

/// Whether a gate is open at one of so many questions.
fn passes<G: Gate>(gate: &G) -> bool
    ensures { result ≡ true → G.shows gate.now }
{
    for _ in 0..QUESTIONS {
        if gate.pass() {
            return true;
        }
    }
    false
}
