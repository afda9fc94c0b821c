//! The lines of a listing, read from a data connection or from any other reader.

ghost use Rattle.std.specs.Prelude.{◌≡◌, ◌≤◌, ◌⊎◌, length, map, string_bytes, IfOk, IfErr, IfSome, OnOk};
ghost use Rattle.std.specs.Io.KnownBytes.{IsAtEnd};
ghost use Rattle.std.specs.Str.Lossy.{utf8_lossy};
ghost use Rattle.ftp_calls.specs.Listing.{listing};

use super::ImplFtpStream;
use ftp_base::encoding::Encoding;
use ftp_base::retry::GREATEST_HELD;
use ftp_base::types::{FtpError, FtpResult};
use ftp_transport::Network;
use std::io::Read;

impl<Tr: Network, K: Drop, E: Encoding, B: Drop> ImplFtpStream<Tr, K, E, B> {
    /// The lines of a listing, read to the end of its stream, as of the transfer that `custom_data_command` opened: what
    /// stands between LFs, without one CR at its end, and what follows the last LF likewise (RFC 959, section 3.1.1.5.2).
    /// Empty lines are left out, and each line is read lossily as UTF-8. An interrupted read is tried again, at most 64
    /// times. No client is asked, and no reply is read.
    ///
    /// # Errors
    /// `BadResponse` where the stream returns an error, or more than 2^63 - 1 bytes; `OutOfMemory`.
    pub fn get_lines_from_stream<R: AllocGlobal, S: Read>(
        rt: &R,
        stream: &mut S,
    ) -> FtpResult<Vec<String>>
        ensures lines { IfOk result (λ lines. IfSome (S.remaining stream.old)
            (λ source. map string_bytes lines.items ≡ listing utf8_lossy source)) }
        ensures end { OnOk result (IsAtEnd (S.remaining stream.new)) }
        ensures limit { OnOk result (IfSome (S.remaining stream.old)
            (λ source. length source ≤ GREATEST_HELD)) }
        ensures faults { IfErr result
            (λ fault. (fault ≡ FtpError.BadResponse) ⊎ (fault ≡ FtpError.OutOfMemory)) }
    {
        ftp_calls::answers::get_lines_from_stream(rt.alloc(), stream)
    }
}
