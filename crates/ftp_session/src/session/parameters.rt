//! Type parameters of a session that may stand for nothing.
//!
//! A session names its connector of TLS and its builder of passive connections from the start. A session without them
//! has these types in their place.

ghost use Rattle.std.specs.Prelude.{◌≡◌, Err};
ghost use Rattle.ftp_base.specs.declared.types.fault.FtpError.TheVariants.{ConnectionError as Connection};
ghost use Rattle.ftp_base.specs.declared.types.fault.ConnectionError.TheVariants as faults;

use ftp_base::types::{ConnectionError, FtpError, FtpResult};
use ftp_transport::{PassiveStreamBuilder, Tells};
use std::net::SocketAddr;

/// No builder of passive data connections: the transport makes them. A session that is given it as a builder has none
/// of its data connections made.
#[derive(Drop)]
pub struct NoStreamBuilder;

impl<C: Tells> PassiveStreamBuilder<C> for NoStreamBuilder {
    ghost answers = { λ _ _ built. built ≡ Err (Connection faults.NoAddress) };

    fn build(&self, _address: SocketAddr) -> FtpResult<C> {
        Err(FtpError::ConnectionError(ConnectionError::NoAddress))
    }
}
