//! An upload whose data connection fails in a write, and whose server says so: the error is the connection's, and the server's
//! last reply is read before the next command.

use crate::device::{Device, Place};
use crate::faults::scene::{made, number, sent, session_for};
use ftp_base::types::FtpResult;
use std::alloc::Global;
use std::io::ErrorKind;
use std::test::Fail;

/// More calls than an upload makes.
const MOST: u32 = 500;

/// A server that agrees to an upload, and says then that it failed.
const REPLIES: &[u8] = b"227 x (192,0,2,7,4,0).\r\n150 b\r\n426 no\r\n200 ok\r\n";

/// What an upload results in whose call of this number fails by this kind: the number of its error; that of the error of
/// `NOOP` after it; and how many bytes were sent in all. None where that call is no write of the data connection.
fn came(alloc: Global, nth: u32, kind: ErrorKind) -> FtpResult<Option<(u8, u8, usize)>> {
    let device = Device::new();
    let mut session = session_for(alloc, &device, false, REPLIES)?;
    device.fail_nth(nth, kind);
    let answer = made(alloc, &mut session, true, kind);
    if device.failed_at() != Some(Place::DataWrite) {
        return Ok(None);
    }
    let next = number(session.noop(alloc), kind);
    Ok(Some((answer, next, sent(&session))))
}

/// The same of the first call that is a write of the data connection.
fn first_write(alloc: Global, kind: ErrorKind) -> FtpResult<Option<(u8, u8, usize)>> {
    for nth in 1..MOST {
        let came = came(alloc, nth, kind)?;
        if came.is_some() {
            return Ok(came);
        }
    }
    Ok(None)
}

#[test]
fn an_upload_returns_the_kind_of_its_failed_write(rt: HostRuntime) -> Result<(), Fail> {
    let pipe = first_write(rt.alloc(), ErrorKind::BrokenPipe)?;
    let reset = first_write(rt.alloc(), ErrorKind::ConnectionReset)?;
    // PASV, STOR f and NOOP
    let due = Some((1, 0, 20));
    assert_eq!(rt; (pipe, reset), (due, due));
    Ok(())
}
