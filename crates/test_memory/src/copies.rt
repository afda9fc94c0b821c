//! Whole files of the polled client that are dropped in their midst, or polled again after their end, over connections that
//! wait before each byte.

use ftp_base::types::{ConnectionError, FtpError, FtpResult};
use ftp_polled::{ImplAsyncFtpStream, RetrReader};
use ftp_session::session::Session;
use ftp_transfer::Transfer;
use futures::Future;
use futures::executor::block_on;
use futures::future::poll_immediate;
use futures::task::{Context, Poll};
use rows_tls::{Line, Log, Net, Seal, Wire, Wires};
use std::alloc::{AllocError, Global};
use std::random::RandomSource;
use std::sync::Wait;
use std::test::Fail;

/// A polled client over such connections.
type Client = ImplAsyncFtpStream<Net, Seal>;

/// No call waits so often.
const MOST: usize = 300;

/// What a server replies to a file that is moved whole, then to `NOOP`, and to a file whose transfer begins.
const REPLIES: &str =
    "227 x (127,0,0,1,4,0)\r\n150 go\r\n226 done\r\n200 ok\r\n227 x (127,0,0,1,4,0)\r\n150 go\r\n";

/// Counts the bytes of a download, and asks to be polled again after each.
#[derive(Drop)]
struct Counter {
    count: u64,
}

impl RetrReader<Line> for Counter {
    type Out = u64;

    fn poll(
        &mut self,
        transfer: &mut Transfer<Line>,
        cx: &mut Context<'_>,
    ) -> Poll<FtpResult<u64>> {
        let mut byte = [0u8; 1];
        match transfer.poll_read_in(cx, &mut byte) {
            Ok(Poll::Ready(0)) => Poll::Ready(Ok(self.count)),
            Ok(Poll::Ready(_)) => {
                self.count = self.count.saturating_add(1);
                cx.yield_now()
            }
            Ok(Poll::Pending) => Poll::Pending,
            Err(kind) => Poll::Ready(Err(FtpError::ConnectionError(ConnectionError::Io(kind)))),
        }
    }
}

/// A client, and what is written down of its connections.
#[derive(Drop)]
struct Scene {
    client: Client,
    log: Log,
}

/// A client whose server replies this, and on whose data connections `a\r\nb\r\n` comes, and then nothing.
fn scene_of(alloc: Global, replies: &str) -> FtpResult<Box<Scene>> {
    let log = Log::new(alloc)?;
    let mut wires = Box::new(alloc, Wires::new(alloc, &log)?)?;
    for text in ["a\r\nb\r\n", ""] {
        let mut data = Wire::new(alloc, &log, 'U', true)?;
        data.feed(text.as_bytes())?;
        data.end();
        wires.supply(None, data)?;
    }
    let mut control = Wire::new(alloc, &log, 'C', true)?;
    control.feed(replies.as_bytes())?;
    control.end();
    let net = Net::new(alloc, Box::into_inner(wires));
    let session: Session<Net, Seal> = Session::new(alloc, net, Line::new(control))?;
    let client = Client::new(alloc, session)?;
    Ok(Box::new(alloc, Scene { client, log })?)
}

impl Scene {
    /// The lines that went out whole.
    fn lines(&self, alloc: Global) -> Result<String, AllocError> {
        let mut text = String::new(alloc);
        self.log.show(&mut text)?;
        let mut lines = String::new(alloc);
        for line in text.lines() {
            if let Some(line) = line.strip_prefix("C: ") {
                write!(lines, "{line} ")?;
            }
        }
        Ok(lines)
    }
}

/// Polls a call so often, at most until it has its result: the number of the error of that, 0 where it is none; nothing where
/// it waits.
fn polled<R, F, T>(rt: &R, state: &mut F, polls: usize) -> Option<u8>
where
    R: Wait + RandomSource + AllocGlobal,
    F: Future<Output = FtpResult<T>>,
    T: Drop,
    requires { (state : F) → F.can_poll state }
{
    for _ in 0..polls {
        match block_on(rt, poll_immediate(&mut *state)) {
            Ok(None) => {}
            Ok(Some(outcome)) => return Some(number(outcome)),
            Err(_) => return None,
        }
    }
    None
}

/// The number of an error; 0 where there is none.
fn number<T: Drop>(outcome: FtpResult<T>) -> u8 {
    match &outcome {
        Ok(_) => 0,
        Err(fault) => fault.number(),
    }
}

/// A whole file, as an upload or a download.
#[derive(Clone, Copy)]
enum Copied {
    Uploaded,
    Downloaded,
}

/// Polls a whole file so often and drops it. Whether it waits then.
fn dropped<R>(rt: &R, scene: &Scene, copied: Copied, polls: usize) -> bool
where
    R: Wait + RandomSource + AllocGlobal,
{
    match copied {
        Copied::Uploaded => {
            let mut upload = scene.client.put_file(rt, "a", b"hello".as_slice());
            polled(rt, &mut upload, polls).is_none()
        }
        Copied::Downloaded => {
            let mut download = scene.client.retr(rt, "a", Counter { count: 0 });
            polled(rt, &mut download, polls).is_none()
        }
    }
}

/// The numbers of the errors of a `NOOP`, and of an opening of a transfer.
fn next<R>(rt: &R, scene: &Scene) -> (Option<u8>, Option<u8>)
where
    R: Wait + RandomSource + AllocGlobal,
{
    let mut noop = scene.client.noop(rt);
    let first = polled(rt, &mut noop, MOST);
    drop(noop);
    let mut put = scene.client.put_with_stream(rt, "b");
    (first, polled(rt, &mut put, MOST))
}

/// How often an opening waits before its transfer is there.
fn waits_of_opening<R>(rt: &R) -> Result<usize, Fail>
where
    R: Wait + RandomSource + AllocGlobal,
{
    let scene = scene_of(rt.alloc(), REPLIES)?;
    let mut put = scene.client.put_with_stream(rt, "a");
    for waits in 0..MOST {
        if polled(rt, &mut put, 1).is_some() {
            return Ok(waits);
        }
    }
    Ok(MOST)
}

/// A file is dropped at each wait after its command was accepted: how many such waits there are, and after how many of them
/// the transfer wasn't left: then `NOOP` reads its last reply first, and a transfer can be opened.
fn left<R>(rt: &R, copied: Copied, due: &str) -> Result<(usize, usize), Fail>
where
    R: Wait + RandomSource + AllocGlobal,
{
    let mut plays = 0usize;
    let mut differ = 0usize;
    for polls in waits_of_opening(rt)?..MOST {
        let scene = scene_of(rt.alloc(), REPLIES)?;
        if !dropped(rt, &scene, copied, polls.saturating_add(1)) {
            break;
        }
        plays = plays.saturating_add(1);
        if next(rt, &scene) != (Some(0), Some(0)) || scene.lines(rt.alloc())?.as_str() != due {
            differ = differ.saturating_add(1);
        }
    }
    Ok((plays, differ))
}

#[test]
fn an_upload_that_is_dropped_in_its_data_is_left(rt: HostRuntime) -> Result<(), Fail> {
    let due = "PASV\\r\\n STOR a\\r\\n NOOP\\r\\n PASV\\r\\n STOR b\\r\\n ";
    let (plays, differ) = left(&rt, Copied::Uploaded, due)?;
    assert_eq!(rt; (plays > 10, differ), (true, 0));
    Ok(())
}

#[test]
fn a_download_that_is_dropped_in_its_data_is_left(rt: HostRuntime) -> Result<(), Fail> {
    let due = "PASV\\r\\n RETR a\\r\\n NOOP\\r\\n PASV\\r\\n STOR b\\r\\n ";
    let (plays, differ) = left(&rt, Copied::Downloaded, due)?;
    assert_eq!(rt; (plays > 10, differ), (true, 0));
    Ok(())
}

#[test]
fn an_upload_that_was_made_is_over(rt: HostRuntime) -> Result<(), Fail> {
    let scene = scene_of(rt.alloc(), REPLIES)?;
    let mut upload = scene.client.put_file(&rt, "a", b"b".as_slice());
    let came = (polled(&rt, &mut upload, MOST), polled(&rt, &mut upload, 1));
    drop(upload);
    assert_eq!(rt; came, (Some(0), Some(19)));
    Ok(())
}

#[test]
fn an_upload_that_was_refused_is_over_and_holds_no_lock(rt: HostRuntime) -> Result<(), Fail> {
    let replies = "227 x (127,0,0,1,4,0)\r\n550 no\r\n200 ok\r\n";
    let scene = scene_of(rt.alloc(), replies)?;
    let mut upload = scene.client.put_file(&rt, "a", b"b".as_slice());
    let came = (polled(&rt, &mut upload, MOST), polled(&rt, &mut upload, 1));
    let mut noop = scene.client.noop(&rt);
    let next = polled(&rt, &mut noop, MOST);
    drop(noop);
    drop(upload);
    assert_eq!(rt; (came, next), ((Some(10), Some(19)), Some(0)));
    Ok(())
}

#[test]
fn an_upload_that_is_dropped_while_it_waits_for_the_lock_sends_nothing(
    rt: HostRuntime,
) -> Result<(), Fail> {
    let scene = scene_of(rt.alloc(), "200 a\r\n")?;
    let mut noop = scene.client.noop(&rt);
    let waits = polled(&rt, &mut noop, 1);
    let came = dropped(&rt, &scene, Copied::Uploaded, 1);
    let ends = polled(&rt, &mut noop, MOST);
    drop(noop);
    let lines = scene.lines(rt.alloc())?;
    assert_eq!(rt;
        (waits, came, ends, lines.as_str()),
        (None, true, Some(0), "NOOP\\r\\n ")
    );
    Ok(())
}

#[test]
fn a_command_that_waits_for_an_upload_reads_its_last_reply(rt: HostRuntime) -> Result<(), Fail> {
    let scene = scene_of(rt.alloc(), REPLIES)?;
    let mut upload = scene.client.put_file(&rt, "a", b"hello".as_slice());
    let waits = polled(&rt, &mut upload, waits_of_opening(&rt)?.saturating_add(2));
    let mut noop = scene.client.noop(&rt);
    let beside = polled(&rt, &mut noop, 1);
    drop(upload);
    let ends = polled(&rt, &mut noop, MOST);
    drop(noop);
    let lines = scene.lines(rt.alloc())?;
    let due = "PASV\\r\\n STOR a\\r\\n NOOP\\r\\n ";
    assert_eq!(rt;
        (waits, beside, ends, lines.as_str()),
        (None, None, Some(0), due)
    );
    Ok(())
}
