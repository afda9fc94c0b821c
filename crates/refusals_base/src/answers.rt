//! The lines of a listing.

ghost use Rattle.std.specs.Prelude.{◌≡◌, ◌≤◌, ◌⊎◌, length, map, string_bytes, IfOk, IfErr, IfSome, OnOk};
ghost use Rattle.std.specs.Io.KnownBytes.{IsAtEnd};
ghost use Rattle.std.specs.Str.Lossy.{utf8_lossy};
ghost use Rattle.ftp_calls.specs.Listing.{listing};

use ftp_base::retry::GREATEST_HELD;
use ftp_base::types::{FtpError, FtpResult};
use ftp_calls::answers;
use std::alloc::Global;
use std::io::Read;

/// `answers::get_lines_from_stream`.
pub fn get_lines_from_stream<R: Read>(alloc: Global, reader: &mut R) -> FtpResult<Vec<String>>
    ensures lines { IfOk result (λ lines. IfSome (R.remaining reader.old)
        (λ source. map string_bytes lines.items ≡ listing utf8_lossy source)) }
    ensures end { OnOk result (IsAtEnd (R.remaining reader.new)) }
    ensures limit { OnOk result (IfSome (R.remaining reader.old)
        (λ source. length source ≤ GREATEST_HELD)) }
    ensures faults { IfErr result
        (λ fault. (fault ≡ FtpError.BadResponse) ⊎ (fault ≡ FtpError.OutOfMemory)) }
{
    answers::get_lines_from_stream(alloc, reader)
}
