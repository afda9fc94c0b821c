//! How data connections come about, and which peers may make one (RFC 959, section 3.2; RFC 2428).
//!
//! In the active mode anyone may connect to the address that the server was given, so a client looks at who did. A peer
//! may appear by its IPv4 address or by the IPv6 address that it is mapped to, so canonical addresses are compared.

ghost use Rattle.std.specs.Prelude.{◌≡◌, ◌↔◌, IsTrue};
ghost use Rattle.ftp_base.specs.declared.types.mode.ActivePeerCheck.TheVariants as peers;
ghost use Rattle.ftp_base.specs.Peer.{as_written, canonical, IsAllowed, allows, is_same_address};

use super::Items;
use std::net::IpAddr;

/// Who opens a data connection, and how it is asked for.
#[derive(Clone, Copy, Debug, PartialEq, Eq)]
pub enum Mode {
    /// The server opens it to an address that PORT or EPRT names.
    Active,
    /// The client opens it to the address and port of the reply to PASV.
    Passive,
    /// The client opens it to the port of the reply to EPSV, at the control connection's address.
    ExtendedPassive,
    /// As `ExtendedPassive`; over IPv4, where the server refuses EPSV, as `Passive`. PASV has no IPv6 (RFC 2428, section 1).
    Automatic,
}

/// Which peers may open an active data connection.
#[derive(Clone, Debug, PartialEq, Eq)]
pub enum ActivePeerCheck {
    /// The peer of the control connection, and no other.
    ControlPeer,
    /// Every peer.
    Any,
    /// The listed addresses, and no other.
    Allow(Items<IpAddr>),
}

impl Drop for ActivePeerCheck {
    fn drop(self) {
        match self {
            ActivePeerCheck::ControlPeer | ActivePeerCheck::Any => {}
            ActivePeerCheck::Allow(items) => drop(items),
        }
    }
}

impl Default for ActivePeerCheck {
    ghost is_default = { λ check. check ≡ peers.ControlPeer };

    fn default() -> ActivePeerCheck {
        Self::ControlPeer
    }
}

impl ActivePeerCheck {
    /// Whether a peer may open a data connection, beside a control connection to this peer.
    /// Addresses are compared as canonical ones: an IPv4-mapped IPv6 address is its IPv4 address.
    /// Allocates nothing.
    pub fn allows(&self, peer: IpAddr, control_peer: IpAddr) -> bool
        ensures allowed { IsTrue result ↔ IsAllowed self.now peer control_peer }
        ensures value { result ≡ allows self.now peer control_peer }
    {
        match self {
            ActivePeerCheck::ControlPeer => is_same_address(peer, control_peer),
            ActivePeerCheck::Any => true,
            ActivePeerCheck::Allow(addresses) => addresses
                .as_slice()
                .iter()
                .any(|address| is_same_address(*address, peer)),
        }
    }
}

/// Whether two addresses are canonically the same.
fn is_same_address(one: IpAddr, other: IpAddr) -> bool
    ensures { result ≡ is_same_address one other }
{
    match (canonical_of(one), canonical_of(other)) {
        (IpAddr::V4(one), IpAddr::V4(other)) => one.octets() == other.octets(),
        (IpAddr::V6(one), IpAddr::V6(other)) => one.segments() == other.segments(),
        _ => false,
    }
}

/// The canonical address.
fn canonical_of(address: IpAddr) -> IpAddr
    ensures { as_written result ≡ canonical address }
{
    address.to_canonical()
}
