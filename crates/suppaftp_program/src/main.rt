//! The program `suppaftp`.
#![tactic(auto)]

mod program;

use std::process::ExitCode;
use std::rt::Env;
use std::{env, io};

fn main(rt: HostRuntime) -> ExitCode {
    match words(&rt) {
        Ok(words) => program::run(&rt, words.as_slice()),
        Err(fault) => {
            let _ = rt.eprintln(format_args!("suppaftp: {fault}"));
            ExitCode::from(1)
        }
    }
}

/// The words that the program was called with, after its own name.
fn words<R: Env + AllocGlobal>(rt: &R) -> io::Result<Vec<String>> {
    let mut words = Vec::new(rt.alloc());
    for word in env::args(rt)?.skip(1) {
        words.push(word)?;
    }
    Ok(words)
}
