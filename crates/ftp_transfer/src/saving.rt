//! A download goes to a caller's writer, as it comes (RFC 959, section 4.1.3).

ghost use Rattle.std.specs.Prelude.{◌<◌, length};
ghost use Rattle.ftp_transfer.specs.Saving.{Saves};

use crate::progress::{Progress, Watch};
use crate::transfer::Transfer;
use ftp_base::ascii::upload_size;
use ftp_base::retry::write_all_retrying;
use ftp_base::types::FtpResult;
use ftp_transport::Conn;
use std::alloc::Global;
use std::io::Write;

/// How many bytes of the data are read at once.
const BUFFER: usize = 65_536;

/// Writes all bytes of a transfer to a writer, and returns how many they were.
///
/// # Errors
/// `Io` of the kind of the data connection's or the writer's error, an interruption of the writer only after 64 tries
/// in a row were interrupted again; `SourceTooLarge` where more than 2^63 - 1 bytes come; `OutOfMemory`. What came
/// before an error of the data connection has been written.
pub fn save<C: Conn + Drop, W: Write, P: Progress>(
    alloc: Global,
    transfer: &mut Transfer<C>,
    writer: &mut W,
    watch: &mut Watch<'_, P>,
) -> FtpResult<u64>
    ensures saves { Saves C.tells (W.contents writer.old) (W.contents writer.new) transfer.old
        transfer.new result }
{
    let mut buffer = vec![in alloc; 0u8; BUFFER]?;
    save_through(transfer, writer, &mut buffer, watch)
}

/// The same through this buffer.
fn save_through<C: Conn + Drop, W: Write, P: Progress>(
    transfer: &mut Transfer<C>,
    writer: &mut W,
    buffer: &mut [u8],
    watch: &mut Watch<'_, P>,
) -> FtpResult<u64>
    requires { 0 < length buffer.old }
    ensures saves { Saves C.tells (W.contents writer.old) (W.contents writer.new) transfer.old
        transfer.new result }
{
    let mut count = 0u64;
    for _ in 0..u64::MAX {
        let taken = match transfer.read(buffer) {
            Ok(taken) => taken,
            Err(kind) => return Err(watch.fault(kind)),
        };
        if taken == 0 {
            return Ok(count);
        }
        let size = upload_size(count, taken)?;
        write_all_retrying(writer, &buffer[..taken])?;
        watch.went(taken, size);
        count = size;
    }
    unreachable!()
}
