//! The polled client's side: a session in which each of its runs is measured.

use crate::figures::Stopwatch;
use crate::plan::{Kind, Run};
use crate::text::{self, Text};
use anyhow::Result;
use std::io;
use std::net::TcpStream;
use std::random::RandomSource;
use std::rt::Files;
use std::sync::Wait;
use std::time::CpuClock;
use suppaftp::polled_ftp::{AllowStdIo, AsyncFtpStream, TokioConn, TokioTransport};
use suppaftp::{FileType, FtpResult, Host, NoProgress};
use test_loopback::running;
use tokio::runtime::LocalRuntime;

/// How long a small file is.
const SMALL: u64 = 1024;

/// Makes all runs of the polled client in one session, in turn, and prints what each carried and took. The session is over at
/// the end.
pub fn run_all<R>(rt: &R, stream: TcpStream, plan: &[Run]) -> Result<()>
where
    R: Host + Wait + RandomSource + CpuClock + Files + Print + Eprint,
{
    let mut owned = running(rt)?;
    let runtime = owned.local();
    let client = client_on(rt, runtime, stream)?;
    for run in plan {
        if run.kind.is_polled() {
            measure(rt, runtime, &client, *run)?;
        }
    }
    runtime.block_on(rt, client.quit(rt))??;
    Ok(())
}

/// A client on a connection.
fn client_on<R>(rt: &R, runtime: &mut LocalRuntime, stream: TcpStream) -> FtpResult<AsyncFtpStream>
where
    R: Host + Wait + RandomSource,
{
    let transport = TokioTransport::of_runtime(runtime.handle())?;
    let stream = tokio::net::TcpStream::from_std(stream, runtime.handle().reactor())?;
    let conn = TokioConn::new(stream);
    let client = runtime.block_on(rt, AsyncFtpStream::connect_with_stream(rt, transport, conn))??;
    runtime.block_on(rt, client.transfer_type(rt, FileType::Binary))??;
    Ok(client)
}

/// Makes a run, and prints what it carried and took.
fn measure<R>(rt: &R, runtime: &mut LocalRuntime, client: &AsyncFtpStream, run: Run) -> Result<()>
where
    R: Host + Wait + RandomSource + CpuClock + Files + Print + Eprint,
{
    let lines = text::lines(rt.alloc())?;
    let watch = Stopwatch::start(rt)?;
    let count = make(rt, runtime, client, run, &lines)?;
    watch.report(rt, run, count)?;
    Ok(())
}

/// Makes a run; how much it carried.
fn make<R>(
    rt: &R,
    runtime: &mut LocalRuntime,
    client: &AsyncFtpStream,
    run: Run,
    lines: &[u8],
) -> FtpResult<u64>
where
    R: Host + Wait + RandomSource,
{
    match run.kind {
        Kind::PolledDownload => {
            let name = format!(in rt.alloc(); "{}", run.amount)?;
            let writer = AllowStdIo(io::sink());
            runtime.block_on(rt, client.write_to(rt, name.as_str(), writer, NoProgress))?
        }
        Kind::PolledPut => {
            let source = AllowStdIo(Text::new(lines, run.amount));
            runtime.block_on(rt, client.put_file(rt, "binary", source))?
        }
        Kind::PolledFiles => small_files(rt, runtime, client, run.amount),
        Kind::PolledSaved => saved_files(rt, runtime, client, run.amount),
        _ => Ok(0),
    }
}

/// Downloads so many small files, one after another; how many came, by their bytes.
fn small_files<R>(
    rt: &R,
    runtime: &mut LocalRuntime,
    client: &AsyncFtpStream,
    files: u64,
) -> FtpResult<u64>
where
    R: Host + Wait + RandomSource,
{
    let mut total = 0u64;
    for _ in 0..files {
        let bytes = runtime.block_on(rt, client.retr_as_buffer(rt, "1024"))??;
        total = total.saturating_add(bytes.len() as u64);
    }
    Ok(total / SMALL)
}

/// Saves so many small files, one after another; how many came, by their bytes.
fn saved_files<R>(
    rt: &R,
    runtime: &mut LocalRuntime,
    client: &AsyncFtpStream,
    files: u64,
) -> FtpResult<u64>
where
    R: Host + Wait + RandomSource,
{
    let mut total = 0u64;
    for _ in 0..files {
        let writer = AllowStdIo(io::sink());
        let count = runtime.block_on(rt, client.write_to(rt, "1024", writer, NoProgress))??;
        total = total.saturating_add(count);
    }
    Ok(total / SMALL)
}
