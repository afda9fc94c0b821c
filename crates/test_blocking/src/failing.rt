//! Whether a client has failed, and what its calls result in then.

use crate::scene::number;
use crate::server::serving;
use ftp_base::types::FtpResult;
use ftp_blocking::FtpStream;
use ftp_session::session::Failure;
use std::net::{Net, SocketAddr, TcpListener, TcpStream};
use std::sync::Wait;
use std::test::Fail;
use std::time::Clock;

/// The numbers of the errors of three calls, and whether the client has failed after each; and where it did.
fn calls<R>(rt: &R, address: SocketAddr) -> FtpResult<([(u8, bool); 3], [Option<Failure>; 2])>
where
    R: Net<Listener = TcpListener, Stream = TcpStream> + Wait + Clock + AllocGlobal,
{
    let client = FtpStream::connect(rt, &[address])?;
    let refused = (number(client.rm(rt, "a")), client.failed(rt));
    let before = client.last_failure(rt);
    let cut = (number(client.noop(rt)), client.failed(rt));
    let late = (number(client.noop(rt)), client.failed(rt));
    Ok(([refused, cut, late], [before, client.last_failure(rt)]))
}

#[test]
fn a_client_tells_that_it_has_failed(rt: HostRuntime) -> Result<(), Fail> {
    let (serving, address) = serving(rt, "send 220 ready;line;send 550 no;line")?;
    let (calls, places) = calls(&rt, address)?;
    let noted = serving.join(&rt)?;
    // `UnexpectedResponse` is 10, `UnexpectedEof` 2, `SessionFailed` 14
    let due = [(10, false), (2, true), (14, true)];
    assert_eq!(rt;
        (calls, places, noted.as_str()),
        (due, [None, Some(Failure::Control)], "DELE a|NOOP|")
    );
    Ok(())
}
