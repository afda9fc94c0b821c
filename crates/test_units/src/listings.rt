//! The lines of listings.

use crate::seen::assert_same;
use ftp_base::encoding::Utf8Encoding;
use ftp_base::types::FtpError;
use ftp_calls::answers::{get_lines_from_stream, read_listing};
use std::test::Fail;

#[test]
fn an_empty_line_of_a_listing_is_left_out(rt: HostRuntime) -> Result<(), Fail> {
    let lines = read_listing(rt.alloc(), b"a\r\n\r\nb", &Utf8Encoding)?;
    let [first, second] = &lines[..] else {
        return Err(Fail::new(format_args!("two lines stand")));
    };
    assert_same(&rt, (first.as_str(), second.as_str()), ("a", "b"));
    Ok(())
}

// The second arm is for a run in which an allocation of the call is made to fail.
#[test]
fn a_listing_is_whole_unless_an_allocation_fails(rt: HostRuntime) -> Result<(), Fail> {
    let mut stream: &[u8] = b"a\nb";
    match get_lines_from_stream(rt.alloc(), &mut stream) {
        Ok(lines) => assert_same(&rt, lines.len(), 2),
        Err(fault) => assert!(rt; matches!(fault, FtpError::OutOfMemory), "{fault}"),
    }
    Ok(())
}
