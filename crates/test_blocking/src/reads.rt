//! How often the control connection is read for the last reply of a transfer that was left and for the next command's.

use crate::memory_scene::{MemorySession, session_on, transport_with};
use ftp_base::types::{Bytes, FtpResult, Text};
use ftp_runs::{Event, RunEvents};
use ftp_session::session::Call;
use ftp_transport::MemoryConn;
use std::alloc::Global;
use std::test::Fail;

/// The server's bytes come, and a call is made.
fn answered(
    alloc: Global,
    session: &mut MemorySession,
    bytes: &[u8],
    call: Call,
) -> FtpResult<usize> {
    let mut events = Vec::new(alloc);
    events.push(Event::Feed(Bytes::from_slice(alloc, bytes)?))?;
    events.push(Event::Start(call))?;
    events.push(Event::Poll)?;
    let answers = session.run_polled(alloc, &events)?;
    Ok(answers.len())
}

/// An upload is opened and left, and both its last reply and that to NOOP come at once: how many answers each step has, and
/// how many reads it takes to have the last.
fn drained(alloc: Global) -> FtpResult<([usize; 3], u64)> {
    let transport = transport_with(alloc, b"")?;
    let mut session = session_on(alloc, transport, MemoryConn::new(alloc))?;
    let opening = b"227 Entering Passive Mode (192,0,2,7,4,1)\r\n150 go\r\n";
    let put = Call::PutWithStream(Text::from(String::from_str(alloc, "a")?));
    let opened = answered(alloc, &mut session, opening, put)?;
    let before = session.get_ref().reads();
    let left = answered(alloc, &mut session, b"", Call::Leave)?;
    let ended = answered(alloc, &mut session, b"226 done\r\n200 ok\r\n", Call::Noop)?;
    let reads = session.get_ref().reads().saturating_sub(before);
    Ok(([opened, left, ended], reads))
}

#[test]
fn one_read_serves_a_drained_reply_and_the_next(rt: HostRuntime) -> Result<(), Fail> {
    let came = drained(rt.alloc())?;
    assert_eq!(rt; came, ([1, 1, 1], 1));
    Ok(())
}
