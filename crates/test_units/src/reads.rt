//! How often the control connection is read: where nothing is left of what came before, and then for 8,192 bytes.

use crate::scene::{boxed, number};
use ftp_base::status::Status;
use ftp_base::types::FtpResult;
use ftp_control::control::{ControlChannel, ReplyRule};
use ftp_transport::MemoryConn;
use std::alloc::Global;
use std::test::Fail;

/// The number of the error of a read of a greeting that has so many letters in its first line, and how many reads of
/// the connection it takes.
fn greeting(alloc: Global, letters: usize) -> FtpResult<(u8, u64)> {
    let mut conn = MemoryConn::new(alloc);
    conn.feed(b"220-")?;
    let line = vec![in alloc; b'a'; letters]?;
    conn.feed(&line)?;
    conn.feed(b"\r\n220 ready\r\n")?;
    let mut channel = boxed(alloc, ControlChannel::new(alloc, conn, ReplyRule::Strict)?)?;
    let fault = number(channel.read_response(alloc, Status::Ready));
    Ok((fault, channel.get_ref().reads()))
}

#[test]
fn a_reply_is_read_by_8192_bytes(rt: HostRuntime) -> Result<(), Fail> {
    let limit = greeting(rt.alloc(), 262_127)?;
    let above = greeting(rt.alloc(), 262_128)?;
    // `ReplyTooLarge` is 3
    assert_eq!(rt; (limit, above), ((0, 32), (3, 33)));
    Ok(())
}
