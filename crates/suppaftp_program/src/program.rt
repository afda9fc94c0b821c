//! What the program does: the demo, and the player of scripts.

mod loopback;

use ftp_script::play_script;
use loopback::demo;
use std::io;
use std::io::Input;
use std::net::{Net, TcpListener, TcpStream};
use std::process::ExitCode;
use std::sync::Wait;

/// How the program is called.
pub const USAGE: &str = "usage: suppaftp play|demo";

/// Runs the program with these words, and returns its status: 0, 1 where it failed, 2 where the words or the script
/// aren't understood.
pub fn run<R>(rt: &R, words: &[String]) -> ExitCode
where
    R: Net<Listener = TcpListener, Stream = TcpStream>
        + Wait
        + AllocGlobal
        + Print
        + Eprint
        + Input,
{
    if is_word(words, "demo") {
        show(rt)
    } else if is_word(words, "play") {
        play(rt)
    } else {
        let _ = rt.eprintln(USAGE);
        ExitCode::from(2)
    }
}

/// Whether the program was called with this word alone.
fn is_word(words: &[String], word: &str) -> bool {
    words.len() == 1 && words[0].as_str() == word
}

/// Shows the demo.
fn show<R>(rt: &R) -> ExitCode
where
    R: Net<Listener = TcpListener, Stream = TcpStream> + Wait + AllocGlobal + Print + Eprint,
{
    match demo(rt) {
        Ok(()) => ExitCode::SUCCESS,
        Err(fault) => {
            let _ = rt.eprintln(format_args!("suppaftp: {fault}"));
            ExitCode::from(1)
        }
    }
}

/// Plays the script on standard input.
fn play<R: Input + AllocGlobal + Print + Eprint>(rt: &R) -> ExitCode {
    let mut errors = Vec::new(rt.alloc());
    let mut reader = rt.reader();
    let mut writer = io::writer(rt);
    let status = play_script(rt.alloc(), &mut reader, &mut writer, &mut errors);
    if let Ok(text) = str::from_utf8(errors.as_slice()) {
        let _ = rt.eprint(text);
    }
    ExitCode::from(status)
}
