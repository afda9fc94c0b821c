//! The addresses of the control connection's two ends.
//!
//! A client tells the server its own address for an active data connection, and compares the peer of that connection
//! with the server. To ask for them reads and sends nothing, and never waits.

ghost use Rattle.std.specs.Prelude.{◌≡◌, IfErr};
ghost use Rattle.ftp_transport.specs.Told.{AddressTells};

use super::ControlChannel;
use ftp_transport::Tells;
use std::io::ErrorKind;
use std::net::SocketAddr;

impl<C: Tells + Drop> ControlChannel<C> {
    /// The address of this end.
    ///
    /// # Errors
    /// Where the system can't tell it: over memory never. The channel hasn't failed by that.
    pub fn local_addr(&mut self) -> Result<SocketAddr, ErrorKind>
        ensures told { C.tells → AddressTells self.old.told.given.local result self.old.told
            self.new.told }
        ensures same { self.new ≡ record self.old { told = self.new.told } }
        ensures fault { IfErr result (λ kind. C.end_faults kind) }
    {
        self.conn.local_addr()
    }

    /// The address of the other end.
    ///
    /// # Errors
    /// Where the system can't tell it: over memory never. The channel hasn't failed by that.
    pub fn peer_addr(&mut self) -> Result<SocketAddr, ErrorKind>
        ensures told { C.tells → AddressTells self.old.told.given.peer result self.old.told
            self.new.told }
        ensures same { self.new ≡ record self.old { told = self.new.told } }
        ensures fault { IfErr result (λ kind. C.end_faults kind) }
    {
        self.conn.peer_addr()
    }
}
