//! A transfer as a reader and a writer of std.
//!
//! Each call is the transfer's own, and an error is an error of the same kind.

ghost use Rattle.std.specs.Prelude.{◌≡◌, ◌<◌, IfOk, None, Ok, length};
ghost use Rattle.std.specs.Io.{ReadsAtMost, WritesAtMost};
ghost use Rattle.std.specs.Io.KnownBytes.{ReadConsumes, WriteAppends};
ghost use Rattle.ftp_transport.specs.Told.{ReadTells, WriteTells, as_poll};

use super::Transfer;
use ftp_transport::Conn;
use std::io;
use std::io::{Read, Write};

impl<C: Conn + Drop> Read for Transfer<C> {
    ghost use Rattle.ftp_transfer.specs.Transfer.{by_kind, with_told};

    fn read(&mut self, buf: &mut [u8]) -> io::Result<usize>
        ensures told { C.tells → 0 < length buf.old →
            ReadTells (as_poll (by_kind result)) buf.new self.old.told self.new.told }
        ensures bound { ReadsAtMost result buf.new }
        ensures bytes { ReadConsumes None None result buf.new }
        ensures empty { length buf.old ≡ 0 → result ≡ Ok 0 }
        ensures unasked { length buf.old ≡ 0 → self.new ≡ self.old }
        ensures kept { self.new ≡ with_told self.new.told self.old }
    {
        Ok(Transfer::read(self, buf)?)
    }
}

impl<C: Conn + Drop> Write for Transfer<C> {
    ghost use Rattle.ftp_transfer.specs.Transfer.{by_kind, with_told};

    fn write(&mut self, buf: &[u8]) -> io::Result<usize>
        ensures told { C.tells → 0 < length buf.now →
            WriteTells (as_poll (by_kind result)) buf.now self.old.told self.new.told }
        ensures bound { WritesAtMost result buf.now }
        ensures bytes { WriteAppends None None result buf.now }
        ensures some { 0 < length buf.now → IfOk result (λ count. 0 < count) }
        ensures empty { length buf.now ≡ 0 → result ≡ Ok 0 }
        ensures unasked { length buf.now ≡ 0 → self.new ≡ self.old }
        ensures kept { self.new ≡ with_told self.new.told self.old }
    {
        Ok(Transfer::write(self, buf)?)
    }

    /// Nothing is held back, so there is nothing to flush.
    fn flush(&mut self) -> io::Result<()>
        ensures done { result ≡ Ok tt }
        ensures unasked { self.new ≡ self.old }
    {
        Ok(())
    }
}
