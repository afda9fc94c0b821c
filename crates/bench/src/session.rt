//! The client's side: a session in which each run is measured.

use crate::figures::Stopwatch;
use crate::pieces::PIECE;
use crate::plan::{Kind, Run};
use crate::{download, listing, text, upload};
use anyhow::Result;
use std::net::{Net, TcpListener, TcpStream};
use std::rt::Files;
use std::sync::Wait;
use std::time::{Clock, CpuClock};
use suppaftp::types::FileType;
use suppaftp::{FtpResult, FtpStream};

/// Makes all runs of the blocking client in one session, in turn, and prints what each carried and took. The session is over
/// at the end.
pub fn run_all<R>(rt: &R, stream: TcpStream, plan: &[Run]) -> Result<()>
where
    R: Net<Listener = TcpListener, Stream = TcpStream>
        + Clock
        + CpuClock
        + Files
        + Wait
        + AllocGlobal
        + Print
        + Eprint,
{
    let client = FtpStream::connect_with_stream(rt, stream)?;
    client.transfer_type(rt, FileType::Binary)?;
    for run in plan {
        if !run.kind.is_polled() {
            measure(rt, &client, *run)?;
        }
    }
    client.quit(rt)?;
    Ok(())
}

/// Makes a run, and prints what it carried and took.
fn measure<R>(rt: &R, client: &FtpStream, run: Run) -> Result<()>
where
    R: Net<Listener = TcpListener, Stream = TcpStream>
        + Clock
        + CpuClock
        + Files
        + Wait
        + AllocGlobal
        + Print
        + Eprint,
{
    let mut buffer = vec![in rt.alloc(); 0u8; PIECE]?;
    let lines = text::lines(rt.alloc())?;
    let watch = Stopwatch::start(rt)?;
    let count = make(rt, client, run, &mut buffer, &lines)?;
    watch.report(rt, run, count)?;
    Ok(())
}

/// Makes a run; how much it carried.
fn make<R>(rt: &R, client: &FtpStream, run: Run, buffer: &mut [u8], lines: &[u8]) -> FtpResult<u64>
where
    R: Net<Listener = TcpListener, Stream = TcpStream> + Clock + Wait + AllocGlobal,
{
    match run.kind {
        Kind::Download => download::by_stream(rt, client, run.amount, buffer),
        Kind::Buffer => download::whole(rt, client, run.amount),
        Kind::Upload => upload::binary(rt, client, run.amount, buffer),
        Kind::Text => upload::text(rt, client, run.amount, lines),
        Kind::Convert => Ok(text::convert(rt.alloc(), lines, run.amount)?),
        Kind::List => listing::listed(rt, client, run.amount),
        Kind::Files => download::small_files(rt, client, run.amount, buffer),
        Kind::Put => upload::from_reader(rt, client, run.amount, lines),
        Kind::BufferFiles => download::small_buffers(rt, client, run.amount),
        Kind::PolledDownload | Kind::PolledPut => Ok(0),
        Kind::PolledFiles | Kind::PolledSaved => Ok(0),
    }
}
