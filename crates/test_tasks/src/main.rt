//! Eight tasks share a polled client on a runtime of several threads, and each drops 125 of its calls at random waits: none
//! gets another's answer.
//!
//! A server on loopback answers `SIZE` of a file, whose name is one digit, by that digit, so that each answer says whose it
//! is. This is a program and no test, since it is `main` that has the runtime itself, which tasks on several threads may
//! share.
#![tactic(auto)]

mod caller;
mod server;
mod tally;

use anyhow::{Context, Result, bail};
use caller::{Client, callers};
use ftp_tokio::TokioTransport;
use futures::stream;
use std::net::TcpListener;
use std::thread;
use tally::Tally;
use tokio::runtime::Runtime;

/// How many calls each task drops.
const DROPS: u32 = 125;

fn main(rt: HostRuntime) -> Result<()> {
    let listener = TcpListener::bind(&rt, "127.0.0.1:0")?;
    let address = listener.local_addr()?;
    let serving = thread::spawn(&rt, move || server::serve(&listener))?;
    let mut runtime = Runtime::new(&rt)?;
    let transport = TokioTransport::of_runtime(runtime.handle())?;
    let client = runtime.block_on(&rt, Client::connect(&rt, transport, &[address]))??;
    let tally = Tally::new();
    let tasks = callers(&rt, &client, DROPS, &tally)?;
    runtime.run_all(&rt, stream::iter(tasks))?;
    let counts_agree = runtime.block_on(&rt, client.get_ref())??.counts().opened() == 0;
    drop(client);
    drop(runtime);
    serving.join(&rt).context("the server")?;
    if !counts_agree || !tally.agrees(DROPS) {
        bail!("{tally}");
    }
    println!(rt; "eight tasks dropped 1000 calls, and each answer was its own call's")?;
    Ok(())
}
