//! Makes random calls of the blocking client against a server of its own on loopback, and compares each answer with what
//! must come of the replies that the server sends.
//!
//! The words are how many calls are made and a seed, as `1000000 1`. Server and judge read the same script, which says
//! what is sent for which line; the judge reads the replies by RFC 959, and knows no part of the client. Some sessions are
//! cut: their connection is closed or reset within a reply, or no more is sent. Standard output gets how many answers of
//! which kind came, and each that differs; standard error the pages of memory in use (proc(5)), ten times.
#![tactic(auto)]

mod calls;
mod chance;
mod client;
mod judge;
mod memory;
mod replies;
mod script;
mod server;
mod tally;
mod unread;

use anyhow::{Context, Result, bail};
use std::net::TcpListener;
use std::{env, thread};

fn main(rt: HostRuntime) -> Result<()> {
    let words: Vec<String> = env::args(&rt)?.skip(1).collect(rt.alloc())?;
    let (Some(count), Some(seed)) = (words.first(), words.get(1)) else {
        bail!("usage: soak CALLS SEED");
    };
    let count: u64 = count.as_str().parse().context("the number of calls")?;
    let seed: u64 = seed.as_str().parse().context("the seed")?;
    let listener = TcpListener::bind(&rt, "127.0.0.1:0")?;
    let data = TcpListener::bind(&rt, "127.0.0.1:0")?;
    let address = listener.local_addr()?;
    let port = data.local_addr()?.port();
    let serving = thread::spawn(&rt, move || {
        server::serve(&rt, &listener, &data, seed, port)
    })?;
    let outcome = client::make_calls(&rt, address, port, count, seed);
    client::stop_server(&rt, address)?;
    let served = serving.join(&rt);
    let tally = outcome?;
    served.context("the server")?;
    println!(rt; "{tally}")?;
    if tally.differs > 0 {
        bail!("answers differ");
    }
    Ok(())
}
