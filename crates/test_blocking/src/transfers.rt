//! Transfers of a blocking client over memory: what they tell, and how their client aborts them.

use crate::scene::{MemoryClient, add_sent, boxed, client_of, number};
use ftp_base::types::FtpResult;
use ftp_blocking::{Direction, TransferStream};
use ftp_transport::MemoryTransport;
use std::sync::Wait;
use std::test::Fail;

/// A server that accepts a data command, tells that its transfer was aborted, and accepts a command.
const REPLIES: &str = "227 x (10,0,0,1,4,0).\r\n150 b\r\n426 a\r\n226 b\r\n200 ok\r\n";

/// A transfer over memory, in a box, which is dropped by one call.
type Live = Box<TransferStream<MemoryTransport>>;

/// Opens an upload or a download.
fn opened<R: Wait + AllocGlobal>(rt: &R, client: &MemoryClient, uploads: bool) -> FtpResult<Live> {
    let transfer = if uploads {
        client.put_with_stream(rt, "f")?
    } else {
        client.retr_as_stream(rt, "f")?
    };
    boxed(rt.alloc(), transfer)
}

/// Which way a transfer goes, and how many bytes are unread that came on its connection once that was lent.
fn told<R: Wait + AllocGlobal>(rt: &R, uploads: bool) -> Result<(Direction, usize), Fail> {
    let client = client_of(rt.alloc(), REPLIES, "")?;
    let mut transfer = opened(rt, &client, uploads)?;
    transfer.get_mut().feed(b"late")?;
    Ok((transfer.direction(), transfer.get_ref().unread()))
}

#[test]
fn a_transfer_tells_which_way_it_goes_and_lends_its_connection(
    rt: HostRuntime,
) -> Result<(), Fail> {
    let (download, upload) = (told(&rt, false)?, told(&rt, true)?);
    assert_eq!(rt;
        (download, upload),
        ((Direction::Download, 4), (Direction::Upload, 4))
    );
    Ok(())
}

/// The numbers of the errors of an abort and of the command after it, and what was sent.
fn aborted<R: Wait + AllocGlobal>(rt: &R) -> Result<(u8, u8, String), Fail> {
    let client = client_of(rt.alloc(), REPLIES, "")?;
    let transfer = opened(rt, &client, false)?;
    let abort = number(client.abort(rt, Box::into_inner(transfer)));
    let next = number(client.noop(rt));
    let mut text = String::new(rt.alloc());
    add_sent(rt, &client, &mut text)?;
    Ok((abort, next, text))
}

#[test]
fn a_client_aborts_its_transfer_and_goes_on(rt: HostRuntime) -> Result<(), Fail> {
    let (abort, next, sent) = aborted(&rt)?;
    let due = "PASV\r\nRETR f\r\nABOR\r\nNOOP\r\n";
    assert_eq!(rt; (abort, next, sent.as_str()), (0, 0, due));
    Ok(())
}
