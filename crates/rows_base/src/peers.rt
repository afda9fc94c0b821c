//! Peers of active data connections.

use crate::words::said;
use ftp_base::types::{ActivePeerCheck, Items};
use rows_text::{RowError, pair, value};
use std::alloc::Global;
use std::net::IpAddr;

/// Whether a check lets a peer in: `CHECK PEER CONTROL_PEER`.
pub fn admitted(alloc: Global, input: &str) -> Result<Vec<u8>, RowError> {
    let (word, addresses) = pair(input, " ")?;
    let (peer, control_peer) = pair(addresses, " ")?;
    let peer = value(peer)?;
    let control_peer = value(control_peer)?;
    let is_allowed = check(alloc, word)?.allows(peer, control_peer);
    said(alloc, if is_allowed { "yes" } else { "no" })
}

/// A check: `default`, `control_peer`, `any`, `nobody`, or `allow:` and addresses.
pub fn check(alloc: Global, word: &str) -> Result<ActivePeerCheck, RowError> {
    match word {
        "default" => Ok(ActivePeerCheck::default()),
        "control_peer" => Ok(ActivePeerCheck::ControlPeer),
        "any" => Ok(ActivePeerCheck::Any),
        "nobody" => Ok(allow(Vec::new(alloc))),
        _ => Ok(allow(addresses(alloc, word)?)),
    }
}

/// A check that lets these addresses in.
fn allow(addresses: Vec<IpAddr>) -> ActivePeerCheck {
    ActivePeerCheck::Allow(Items::from_vec(addresses))
}

/// The addresses after `allow:`.
fn addresses(alloc: Global, word: &str) -> Result<Vec<IpAddr>, RowError> {
    match word.strip_prefix("allow:") {
        Some(listed) => listed.split(',').map(value::<IpAddr>).try_collect(alloc),
        None => Err(RowError::NotUnderstood),
    }
}
