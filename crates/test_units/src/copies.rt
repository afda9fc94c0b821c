//! Copies of a text upload.

use crate::seen::assert_same;
use ftp_base::ascii::copy_crlf;
use ftp_base::retry::write_all_retrying;
use ftp_base::types::FtpError;
use std::io::ErrorKind;
use std::test::Fail;

// The second arm is for a run in which an allocation of the copy is made to fail.
#[test]
fn a_copy_is_whole_unless_an_allocation_fails(rt: HostRuntime) -> Result<(), Fail> {
    let mut source: &[u8] = b"a\nb";
    let mut written = Vec::with_capacity(rt.alloc(), 64)?;
    match copy_crlf(rt.alloc(), &mut source, &mut written) {
        Ok(count) => assert_same(&rt, count, 4),
        Err(fault) => assert!(rt; matches!(fault, FtpError::OutOfMemory), "{fault}"),
    }
    assert!(rt; b"a\r\nb".starts_with(written.as_slice()));
    Ok(())
}

#[test]
fn a_writer_that_takes_nothing_is_an_error_of_its_own(rt: HostRuntime) -> Result<(), Fail> {
    let mut room = [0u8; 2];
    let mut writer = room.as_mut_slice();
    let kind = match write_all_retrying(&mut writer, b"abc") {
        Ok(_) => None,
        Err(error) => Some(error.kind()),
    };
    let due = (Some(ErrorKind::WriteZero), b"ab".as_slice());
    assert_same(&rt, (kind, room.as_slice()), due);
    Ok(())
}
