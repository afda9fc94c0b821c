//! The addresses of data connections: in the reply to PASV an IPv4 address and a port (RFC 959, section 4.1.2), in the
//! reply to EPSV a port alone (RFC 2428, section 3).
//!
//! Both stand at the first place of the text where their form does. A number there that is too large is no reason to
//! look for a later place: what a server means by two addresses can't be known.

ghost use Rattle.std.specs.Prelude.{◌≡◌, ◌≤◌, ◌-◌, length, take, drop};
ghost use Rattle.std.specs.Option.{option_and_then};
ghost use Rattle.ftp_base.specs.Scan.{number_up_to};
ghost use Rattle.ftp_calls.specs.Addresses.{passive_numbers, extended_number, address_of, port_of, passive_address_of, extended_port_of};

use ftp_base::command::number;
use ftp_base::command::scan::{self, Span};
use std::net::{Ipv4Addr, SocketAddr, SocketAddrV4};

/// Why a reply holds no address.
#[derive(Clone, Copy, Debug, PartialEq, Eq)]
pub enum NoAddress {
    /// None stands in its text in the form that is due, or a number of the first is above 255.
    Absent,
    /// It isn't UTF-8, or the port is above 65535.
    Unreadable,
}

/// The address in a reply to PASV: the six numbers at the first place where `(d,d,d,d,d,d)` stands are the four octets
/// of an IPv4 address and the two of a port, the high one first. Leading zeros are allowed.
///
/// # Errors
/// [`NoAddress::Absent`] where no such numbers stand, or one of the first six is above 255; [`NoAddress::Unreadable`]
/// where the reply isn't UTF-8.
pub fn read_passive_address(body: &[u8]) -> Result<SocketAddr, NoAddress>
    ensures { result ≡ passive_address_of body.now }
{
    match str::from_utf8(body) {
        Ok(text) => first_address(text).ok_or(NoAddress::Absent),
        Err(_) => Err(NoAddress::Unreadable),
    }
}

/// The port in a reply to EPSV: the number at the first place where `(|||d|)` stands. Leading zeros are allowed.
///
/// # Errors
/// [`NoAddress::Absent`] where no such number stands; [`NoAddress::Unreadable`] where the first is above 65535, or the
/// reply isn't UTF-8.
pub fn read_extended_port(body: &[u8]) -> Result<u16, NoAddress>
    ensures { result ≡ extended_port_of body.now }
{
    match str::from_utf8(body) {
        Ok(text) => first_port(text),
        Err(_) => Err(NoAddress::Unreadable),
    }
}

/// The address in the first six numbers of a text.
fn first_address(text: &str) -> Option<SocketAddr>
    ensures { result ≡ option_and_then address_of (passive_numbers text.now) }
{
    let [first, second, third, fourth, high, low] = scan::pasv_port(text)?;
    let ip = Ipv4Addr::new(
        octet(text, first)?,
        octet(text, second)?,
        octet(text, third)?,
        octet(text, fourth)?,
    );
    let port = u16::from(octet(text, high)?) * 256 + u16::from(octet(text, low)?);
    Some(SocketAddr::V4(SocketAddrV4::new(ip, port)))
}

/// The port in the first number between bars.
fn first_port(text: &str) -> Result<u16, NoAddress>
    ensures { result ≡ port_of (extended_number text.now) }
{
    let Some(span) = scan::epsv_port(text) else {
        return Err(NoAddress::Absent);
    };
    match number(text, span, 65535) {
        Some(port) => Ok(port as u16),
        None => Err(NoAddress::Unreadable),
    }
}

/// The number of a span, where it is an octet.
fn octet(text: &str, span: Span) -> Option<u8>
    ensures { span.start ≤ span.end → span.end ≤ length text.now → result ≡
        number_up_to 255 (take (span.end - span.start) (drop span.start text.now)) }
{
    let octet = number(text, span, 255)?;
    Some(octet as u8)
}
