//! Active mode: the peers that connect are let in or turned away (RFC 959, section 5.2).
//!
//! A peer is compared with that of the control connection before it opens a transfer. A stranger is dropped, and another
//! may come. In a secure session the data connection is put under TLS then, in the passive modes as well (RFC 4217,
//! section 9).

ghost use Rattle.std.specs.Prelude.{◌≡◌};
ghost use Rattle.ftp_dialogue.specs.Steps.Questions.{admitted_as, met_as, shaken_as, stands_as, turned_as};

use super::Answer;
use super::negotiation::{Reached, asks, refused};
use super::stage::{Asking, Opened, OpeningData, Stage, Transferring};
use super::state::State;
use ftp_base::types::{ConnectionError, FtpError};
use ftp_calls::exchange::Turn;
use ftp_transport::RequestOutcome;
use std::net::SocketAddr;

/// How many strangers one data command drops.
pub const STRANGERS: u64 = 1000;

/// A peer came, or none did: one that is let in opens the transfer, another is turned away.
pub fn met(
    state: &State,
    turn: Turn,
    peer: SocketAddr,
    left: u64,
    opened: Opened,
    outcome: RequestOutcome,
) -> Reached
    ensures { result ≡ met_as state.now turn peer left opened outcome }
{
    match outcome {
        RequestOutcome::Address(from) => {
            let check = &state.settings.active_peer_check;
            if check.allows(from.ip(), peer.ip()) {
                admitted(state.settings.secure, turn, opened)
            } else {
                turned(turn, peer, left, opened)
            }
        }
        RequestOutcome::Refused(fault) => {
            drop(opened);
            refused(fault)
        }
        RequestOutcome::Done => {
            drop(opened);
            refused(ConnectionError::NoAddress)
        }
    }
}

/// A peer was let in: in a secure session its connection is put under TLS.
fn admitted(secure: bool, turn: Turn, opened: Opened) -> Reached
    ensures { result ≡ admitted_as secure turn opened }
{
    if secure {
        asks(turn, Asking::Securing(opened))
    } else {
        stands(opened)
    }
}

/// A stranger is turned away: another may come, or too many have.
fn turned(turn: Turn, peer: SocketAddr, left: u64, opened: Opened) -> Reached
    ensures { result ≡ turned_as turn peer left opened }
{
    if left == 0 {
        drop(opened);
        return refused(ConnectionError::TimedOut);
    }
    let asking = Asking::Accepting(peer, left - 1, opened);
    Reached::Turned(Stage::OpeningData(OpeningData::Asking(turn, asking)))
}

/// The data connection stands: a transfer is live, or a whole file or listing goes over it.
fn stands(opened: Opened) -> Reached
    ensures { result ≡ stands_as opened }
{
    match opened {
        Opened::Gives(answer) => Reached::Opens(answer),
        Opened::Performs(task) => Reached::Node(Stage::Transferring(Transferring::Starting(task))),
    }
}

/// The handshake is over: the data connection stands, or the call ends with why it failed.
pub fn shaken(opened: Opened, fault: Option<FtpError>) -> Reached
    ensures { result ≡ shaken_as opened fault }
{
    match fault {
        None => stands(opened),
        Some(fault) => {
            drop(opened);
            Reached::Answers(Answer::Fault(fault))
        }
    }
}
