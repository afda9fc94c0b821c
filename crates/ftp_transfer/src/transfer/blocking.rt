//! Reads and writes that return only when they are done.

ghost use Rattle.std.specs.Prelude.{◌≡◌, ◌<◌, IfErr, Ok, length};
ghost use Rattle.ftp_transport.specs.Memory.{IsGiven};
ghost use Rattle.ftp_transport.specs.Told.{ReadTells, ReadsAtMost, WriteTells, WritesSome, as_poll};

use super::Transfer;
use ftp_transport::Conn;
use std::io::ErrorKind;

impl<C: Conn + Drop> Transfer<C> {
    ghost use Rattle.ftp_transfer.specs.Transfer.{with_told};

    /// Reads bytes into the front of the buffer. 0 bytes are the end of the input; so many are returned for an empty
    /// buffer, too, for which the connection isn't asked.
    ///
    /// # Errors
    /// An error of the connection.
    pub fn read(&mut self, buffer: &mut [u8]) -> Result<usize, ErrorKind>
        ensures told { C.tells → 0 < length buffer.old →
            ReadTells (as_poll result) buffer.new self.old.told self.new.told }
        ensures bound { ReadsAtMost (as_poll result) (length buffer.old) }
        ensures fault { IfErr result (λ kind. C.blocking_read_faults kind) }
        ensures given { C.tells → IsGiven self.old.told → IsGiven self.new.told }
        ensures empty { length buffer.old ≡ 0 → result ≡ Ok 0 }
        ensures unasked { length buffer.old ≡ 0 → self.new ≡ self.old }
        ensures kept { self.new ≡ with_told self.new.told self.old }
    {
        if buffer.is_empty() {
            return Ok(0);
        }
        self.conn.read(buffer)
    }

    /// Writes bytes from the front, at least one where there is one. For no bytes the connection isn't asked.
    ///
    /// # Errors
    /// An error of the connection.
    pub fn write(&mut self, bytes: &[u8]) -> Result<usize, ErrorKind>
        ensures told { C.tells → 0 < length bytes.now →
            WriteTells (as_poll result) bytes.now self.old.told self.new.told }
        ensures bound { 0 < length bytes.now → WritesSome (as_poll result) (length bytes.now) }
        ensures fault { C.tells →
            IfErr result (λ kind. C.blocking_write_faults self.old.told kind) }
        ensures empty { length bytes.now ≡ 0 → result ≡ Ok 0 }
        ensures unasked { length bytes.now ≡ 0 → self.new ≡ self.old }
        ensures kept { self.new ≡ with_told self.new.told self.old }
    {
        if bytes.is_empty() {
            return Ok(0);
        }
        self.conn.write(bytes)
    }
}
