//! The command that tells the server where a client listens for a data connection: PORT for an IPv4 address (RFC 959,
//! section 4.1.2), EPRT for an IPv6 address (RFC 2428, section 2).

ghost use Rattle.std.specs.Prelude.{◌≡◌, IfOk};
ghost use Rattle.std.specs.Net.Addr.{ipv4_octets};
ghost use Rattle.std.specs.Net.Socket.{v4_ip, v4_port};
ghost use Rattle.ftp_calls.specs.Active.{host_port, port_command};

use ftp_base::command::Command;
use ftp_base::types::Text;
use std::alloc::{AllocError, Global};
use std::net::{SocketAddr, SocketAddrV4};

/// The command for a listener at this address. An IPv6 address that holds an IPv4 address is sent as it stands.
///
/// # Errors
/// `AllocError`.
pub fn port_command(alloc: Global, address: SocketAddr) -> Result<Command, AllocError>
    ensures { IfOk result (λ command. command ≡ port_command address) }
{
    match address {
        SocketAddr::V4(host) => Ok(Command::Port(numbers(alloc, host)?)),
        SocketAddr::V6(_) => Ok(Command::Eprt(address)),
    }
}

/// The six numbers of an address.
fn numbers(alloc: Global, address: SocketAddrV4) -> Result<Text, AllocError>
    ensures { IfOk result (λ text. text ≡ host_port (ipv4_octets (v4_ip address)) (v4_port address)) }
{
    let [a, b, c, d] = address.ip().octets();
    let port = address.port();
    let text = format!(in alloc; "{a},{b},{c},{d},{},{}", port / 256, port % 256)?;
    Ok(Text::from_string(text))
}
