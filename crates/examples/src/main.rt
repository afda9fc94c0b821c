//! First programs, each a module: `put`, `list`, `within`, `resume`, `polled`, `folder` and `secure`; `tour` shows a session.
//!
//! `examples NAME ADDRESS` runs one of them with the server at that address, as `192.0.2.7:21`, which has the files that it
//! names; `examples all` runs all with a server of its own. What they write here is removed again. `examples drive`, with
//! `USER:PASSWORD@HOST:PORT` for each server, makes the calls of docs/SERVERS.md.
#![tactic(auto)]

mod drive;
mod folder;
mod list;
mod login;
mod polled;
mod put;
mod resume;
mod secure;
mod tour;
mod within;

use anyhow::Result;
use own_server::OwnServer;
use std::env;
use std::fs::File;
use std::process::ExitCode;
use std::random::RandomSource;
use std::rt::{Env, Files};
use std::sync::Wait;
use std::thread::Threads;
use suppaftp::Host;

/// The programs, in the order in which `all` runs them.
const NAMES: [&str; 8] = [
    "tour", "put", "list", "within", "resume", "polled", "folder", "secure",
];

/// How many clients the programs are.
const CLIENTS: usize = 11;

fn main(rt: HostRuntime) -> ExitCode {
    match run_words(&rt) {
        Ok(true) => ExitCode::SUCCESS,
        Ok(false) => {
            let _ = eprintln!(rt;
                "usage: examples tour|put|list|within|resume|polled|folder|secure ADDRESS\n       examples all, or examples drive USER:PASSWORD@ADDRESS .."
            );
            ExitCode::from(2)
        }
        Err(error) => {
            let _ = eprintln!(rt; "{error:#}");
            ExitCode::from(1)
        }
    }
}

/// Runs what the program's words say; whether they say anything.
fn run_words<R>(rt: &R) -> Result<bool>
where
    R: Host + Wait + Threads + RandomSource + Env + Files<File = File> + Print,
{
    let words: Vec<String> = env::args(rt)?.skip(1).collect(rt.alloc())?;
    match words.as_slice() {
        [name] if name.as_str() == "all" => run_all(rt),
        [name, servers @ ..] if name.as_str() == "drive" => {
            drive::run(rt, servers)?;
            Ok(true)
        }
        [name, address] => run(rt, name.as_str(), address.as_str()),
        _ => Ok(false),
    }
}

/// Runs a program with the server at an address; whether there is such a program.
fn run<R>(rt: &R, name: &str, address: &str) -> Result<bool>
where
    R: Host + Wait + RandomSource + Files<File = File> + Print,
{
    match name {
        "tour" => tour::run(rt, address)?,
        "put" => put::run(rt, address)?,
        "list" => list::run(rt, address)?,
        "within" => within::run(rt, address)?,
        "resume" => resume::run(rt, address)?,
        "polled" => polled::run(rt, address)?,
        "folder" => folder::run(rt, address)?,
        "secure" => secure::run(rt, address, "two.txt")?,
        _ => return Ok(false),
    }
    Ok(true)
}

/// Runs each program with a server of its own.
fn run_all<R>(rt: &R) -> Result<bool>
where
    R: Host + Wait + Threads + RandomSource + Files<File = File> + Print,
{
    let server = OwnServer::start(rt, CLIENTS)?;
    for name in NAMES {
        println!(rt; "== {name}")?;
        run(rt, name, server.address())?;
    }
    server.join(rt)?;
    Ok(true)
}
