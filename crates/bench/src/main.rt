//! Measures the clients against a server of its own on 127.0.0.1, or the parsers of listings.
//!
//! The words are pairs, a kind of run and its amount, as `download 256 list 20000`; those of the blocking client are run in
//! turn, in one session, and then those of the polled one. `download` and `buffer` fetch so many MiB, by a stream and whole;
//! `upload` sends so many MiB, `put` so many from a reader, `text` so many as lines of text, which `convert` converts in memory
//! alone; `list` lists so many lines, and `files` fetches so many files of 1 KiB, `buffer-files` whole. `polled-download`,
//! `polled-put`, `polled-files` and `polled-saved` are the polled client's. Standard output gets what was
//! carried, standard error the times.
//!
//! `parse TIMES FORM` reads lines of listings from standard input. Without words nothing is measured, and the status is 1.
#![tactic(auto)]

mod download;
mod figures;
mod listing;
mod parsing;
mod pieces;
mod plan;
mod polled;
mod server;
mod session;
mod text;
mod ticks;
mod upload;

use anyhow::{Context, Result, bail};
use std::net::{TcpListener, TcpStream};
use std::{env, thread};

fn main(rt: HostRuntime) -> Result<()> {
    let words: Vec<String> = env::args(&rt)?.skip(1).collect(rt.alloc())?;
    let words = words.as_slice();
    match words {
        [] => bail!("usage: bench KIND AMOUNT .. | bench parse TIMES FORM"),
        [first, times, form] if first.as_str() == "parse" => {
            return parsing::run(&rt, times.as_str(), form.as_str());
        }
        _ => {}
    }
    let plan = plan::read(rt.alloc(), words)?;
    let listener = TcpListener::bind(&rt, "127.0.0.1:0")?;
    let data = TcpListener::bind(&rt, "127.0.0.1:0")?;
    // Both ends stand before there is a thread, so neither side waits for one that never comes.
    let near = TcpStream::connect(&rt, listener.local_addr()?)?;
    let (far, _peer) = listener.accept()?;
    let polled_near = TcpStream::connect(&rt, listener.local_addr()?)?;
    let (polled_far, _peer) = listener.accept()?;
    let server = thread::spawn(&rt, move || {
        server::serve_both(rt.alloc(), far, polled_far, &data)
    })?;
    let outcome = session::run_all(&rt, near, &plan);
    let polled = polled::run_all(&rt, polled_near, &plan);
    // The clients are gone by now, which ends the server, too.
    let received = server.join(&rt);
    outcome.context("the blocking client")?;
    polled.context("the polled client")?;
    let received = received.context("the server")?;
    println!(rt; "server: {received} bytes received")?;
    Ok(())
}
