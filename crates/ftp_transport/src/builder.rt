//! Who makes passive data connections in the transport's place.
//!
//! A caller who has to reach the server another way, through a proxy say, hands a builder to the session. What it is
//! asked is on the transport's record, beside what the transport is asked itself.

ghost use Rattle.std.specs.Prelude.{Result};
ghost use Rattle.std.specs.declared.net.socket_addr.SocketAddr.{SocketAddr as Address};
ghost use Rattle.ftp_base.specs.declared.types.fault.FtpError.{FtpError as Faults};
ghost use Rattle.ftp_transport.specs.Asking.{built_as};
ghost use Rattle.ftp_transport.specs.Told.{Told};

use super::Tells;
use ftp_base::types::FtpResult;
use std::net::SocketAddr;

/// Makes passive data connections to the addresses that it is asked for (RFC 959, section 3.2). It isn't polled: a
/// polled client waits for it as a blocking one does.
pub trait PassiveStreamBuilder<C: Tells>: Drop {
    /// What it may return for an address: a connection of this record, or an error.
    ghost answers: { Self → Address → Result Told Faults → Type 0 };

    /// A connection to this address, on which nothing of the transfer was read or written yet.
    ///
    /// # Errors
    /// Its own: the call that asked for the connection returns the error as it is.
    fn build(&self, address: SocketAddr) -> FtpResult<C>
        ensures answers { answers self.now address (built_as C.told result) };
}
