//! What happens from the outside to a channel over memory.
//!
//! A server's bytes come, or end, and there is room for more of what is written. The channel itself can't tell these
//! from what happens to a socket: none of them reads or sends.

ghost use Rattle.std.specs.Prelude.{◌≡◌, ◌+◌, OnOk, OnErr, length};
ghost use Rattle.ftp_transport.specs.Memory.{fed, closed_memory, widened, IsGiven};
ghost use Rattle.ftp_control.specs.Channel.{IsSound};

use super::ControlChannel;
use ftp_transport::MemoryConn;
use std::alloc::AllocError;

impl ControlChannel<MemoryConn> {
    /// Adds bytes from the server; none after the end, whether it was announced or reached.
    pub fn feed(&mut self, bytes: &[u8]) -> Result<(), AllocError>
        ensures ok { OnOk result (self.new ≡ record self.old {
          told = fed bytes.now self.old.told;
        }) }
        ensures err { OnErr result (self.new ≡ self.old) }
    {
        self.conn.feed(bytes)
    }

    /// How many bytes of the server weren't read yet.
    pub fn unread(&self) -> usize
        ensures value { length self.now.told.received + result ≡
            length self.now.told.given.bytes }
        ensures given { IsGiven self.now.told }
        ensures sound { IsSound (Unit {0}) self.now }
    {
        self.conn.unread()
    }

    /// Announces the end of the server's bytes.
    pub fn end_input(&mut self)
        ensures { self.new ≡ record self.old { told = closed_memory self.old.told } }
    {
        self.conn.end();
    }

    /// Room for so many more bytes; the first call sets how many.
    pub fn allow(&mut self, more: u64)
        ensures { self.new ≡ record self.old { told = widened more self.old.told } }
    {
        self.conn.allow(more);
    }
}
