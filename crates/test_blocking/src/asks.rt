//! What a blocking client over loopback sockets is asked, and its answers as text.
//!
//! It is asked words with semicolons between them, each a word, of which the first letter counts, and an argument:
//!
//! | Word | What is asked |
//! |---|---|
//! | `within` | nothing: as the first word it lets the client connect within five seconds |
//! | `welcome` | what the server greeted with |
//! | `user`, `noop`, `quit` | it logs in, or sends that |
//! | `epsv`, `active` | who opens data connections from here on |
//! | `router` | the host of a reply to PASV is passed over |
//! | `open` | anyone may open an active data connection |
//! | `deadline MS` | such a connection is waited for so many milliseconds |
//! | `get` | a download is read to its end, and finished |
//! | `forget` | a download is opened and dropped |
//! | `buffer` | a file is downloaded whole; how many bytes it has, each of which is 7 |
//! | `list` | a directory is listed; how many lines there are, each of which is `line` |
//! | `count` | a caller's reader counts the bytes of a download |
//! | `put` | `ab` and `c` are written to an upload, which is finished |
//! | `store N` | a file of so many sevens is uploaded |
//! | `text N` | so many ends of lines are uploaded to the end of a file |

use crate::scene::{boxed, number};
use ftp_base::types::{ActivePeerCheck, FtpResult, Mode};
use ftp_blocking::{FtpStream, Transfer, TransferStream};
use ftp_session::session::DownloadReader;
use ftp_transport::{TcpConn, TcpTransport};
use std::io::{Read, Write};
use std::net::{Net, SocketAddr, TcpListener, TcpStream};
use std::sync::Wait;
use std::test::Fail;
use std::time::{Clock, Duration};

/// A client's answers to these, with a bar after each: how many bytes, 0 where none are counted, or `E` and the number
/// of an error. It connects to the first of these addresses that accepts, or to the second within a time; where it
/// doesn't, the error is returned.
pub fn visited<R>(rt: &R, addresses: &[SocketAddr; 2], asks: &str) -> Result<String, Fail>
where
    R: Net<Listener = TcpListener, Stream = TcpStream> + Clock + Wait + AllocGlobal,
{
    let mut text = String::new(rt.alloc());
    match client(rt, addresses, asks.starts_with("within")) {
        Ok(client) => answer_all(rt, &client, asks, &mut text)?,
        refusal => write_count(&mut text, Err(number(refusal)))?,
    }
    Ok(text)
}

/// A client that has connected.
fn client<R>(rt: &R, addresses: &[SocketAddr; 2], within: bool) -> FtpResult<Box<FtpStream>>
where
    R: Net<Listener = TcpListener, Stream = TcpStream> + Clock + AllocGlobal,
{
    let client = if within {
        FtpStream::connect_timeout(rt, addresses[1], Duration::from_secs(5))?
    } else {
        FtpStream::connect(rt, addresses)?
    };
    boxed(rt.alloc(), client)
}

/// Adds the answers.
fn answer_all<R>(rt: &R, client: &FtpStream, asks: &str, text: &mut String) -> Result<(), Fail>
where
    R: Net<Listener = TcpListener, Stream = TcpStream> + Clock + Wait + AllocGlobal,
{
    for ask in asks.split(';') {
        let (word, argument) = ask.split_once(' ').unwrap_or((ask, ""));
        if word == "within" {
            continue;
        }
        let count = answer(rt, client, word, argument, text)?;
        write_count(text, count)?;
    }
    Ok(())
}

/// A count, or the number of an error.
type Counted = Result<u64, u8>;

/// Adds a count or the number of an error.
fn write_count(text: &mut String, count: Counted) -> Result<(), Fail> {
    match count {
        Ok(count) => write!(text, "{count}|")?,
        Err(number) => write!(text, "E{number}|")?,
    }
    Ok(())
}

/// Whether a call fails that counts nothing.
fn unit(answer: FtpResult<()>) -> Counted {
    match number(answer) {
        0 => Ok(0),
        number => Err(number),
    }
}

/// Returns a count; a text is added before it.
fn answer<R>(
    rt: &R,
    client: &FtpStream,
    word: &str,
    argument: &str,
    text: &mut String,
) -> Result<Counted, Fail>
where
    R: Net<Listener = TcpListener, Stream = TcpStream> + Clock + Wait + AllocGlobal,
{
    let number = argument.parse::<usize>().unwrap_or(0);
    match word.as_bytes().first() {
        Some(b'w') => welcome(rt, client, text),
        Some(b'g') => read(rt, client, text),
        Some(b'p') => written(rt, client, text),
        Some(b's') => put(rt, client, false, 7, number),
        Some(b't') => put(rt, client, true, b'\n', number),
        Some(letter) => Ok(carried(rt, client, *letter, number)),
        None => Ok(Err(255)),
    }
}

/// Returns the count of what adds no text.
fn carried<R>(rt: &R, client: &FtpStream, letter: u8, number: usize) -> Counted
where
    R: Net<Listener = TcpListener, Stream = TcpStream> + Clock + Wait + AllocGlobal,
{
    match letter {
        b'u' => unit(client.login(rt, "anonymous", "guest@example.org")),
        b'n' => unit(client.noop(rt)),
        b'q' => unit(client.quit(rt)),
        b'f' => left(rt, client),
        b'b' => fetched(rt, client),
        b'l' => listed(rt, client),
        b'c' => counted(rt, client),
        _ => set(rt, client, letter, number),
    }
}

/// A setting changes.
fn set<R: Wait>(rt: &R, client: &FtpStream, letter: u8, number: usize) -> Counted {
    match letter {
        b'e' => client.set_mode(rt, Mode::ExtendedPassive),
        b'a' => client.set_mode(rt, Mode::Active),
        b'r' => client.set_passive_nat_workaround(rt, true),
        b'o' => client.set_active_peer_check(rt, ActivePeerCheck::Any),
        b'd' => client.set_active_deadline(rt, Duration::from_millis(number as u64)),
        _ => return Err(255),
    }
    Ok(0)
}

/// Adds what the server greeted with.
fn welcome<R: Wait + AllocGlobal>(
    rt: &R,
    client: &FtpStream,
    text: &mut String,
) -> Result<Counted, Fail> {
    let welcome = client.get_welcome_msg(rt)?;
    let shown = welcome.as_deref().unwrap_or("none");
    write!(text, "{shown} ")?;
    Ok(Ok(0))
}

/// A transfer of a client's, in a box.
type Live = Box<TransferStream<TcpTransport>>;

/// Opens a download.
fn opened<R>(rt: &R, client: &FtpStream) -> FtpResult<Live>
where
    R: Net<Listener = TcpListener, Stream = TcpStream> + Clock + Wait + AllocGlobal,
{
    boxed(rt.alloc(), client.retr_as_stream(rt, "a")?)
}

/// Opens a download and drops it.
fn left<R>(rt: &R, client: &FtpStream) -> Counted
where
    R: Net<Listener = TcpListener, Stream = TcpStream> + Clock + Wait + AllocGlobal,
{
    match number(opened(rt, client)) {
        0 => Ok(0),
        number => Err(number),
    }
}

/// Reads a download to its end, and adds its text.
fn read<R>(rt: &R, client: &FtpStream, text: &mut String) -> Result<Counted, Fail>
where
    R: Net<Listener = TcpListener, Stream = TcpStream> + Clock + Wait + AllocGlobal,
{
    let mut transfer = match opened(rt, client) {
        Ok(transfer) => transfer,
        refusal => return Ok(Err(number(refusal))),
    };
    transfer.read_to_string(text)?;
    text.push(' ')?;
    Ok(unit(Box::into_inner(transfer).finish(rt)))
}

/// Writes an upload in two writes, and adds how many bytes they took.
fn written<R>(rt: &R, client: &FtpStream, text: &mut String) -> Result<Counted, Fail>
where
    R: Net<Listener = TcpListener, Stream = TcpStream> + Clock + Wait + AllocGlobal,
{
    let mut transfer = boxed(rt.alloc(), client.put_with_stream(rt, "a")?)?;
    let (first, second) = (transfer.write(b"ab")?, transfer.write(b"c")?);
    write!(text, "{first} {second} ")?;
    Ok(unit(Box::into_inner(transfer).finish(rt)))
}

/// How many bytes a file has, each of which is 7.
fn fetched<R>(rt: &R, client: &FtpStream) -> Counted
where
    R: Net<Listener = TcpListener, Stream = TcpStream> + Clock + Wait + AllocGlobal,
{
    match client.retr_as_buffer(rt, "a") {
        Ok(bytes) => {
            let same = bytes.iter().all(|byte| *byte == 7);
            let count = bytes.len() as u64;
            drop(bytes);
            if same { Ok(count) } else { Err(255) }
        }
        refusal => Err(number(refusal)),
    }
}

/// How many lines a listing has, each of which is `line`.
fn listed<R>(rt: &R, client: &FtpStream) -> Counted
where
    R: Net<Listener = TcpListener, Stream = TcpStream> + Clock + Wait + AllocGlobal,
{
    match client.list(rt, None) {
        Ok(lines) => {
            let same = lines.iter().all(|line| line.as_str() == "line");
            let count = lines.len() as u64;
            drop(lines);
            if same { Ok(count) } else { Err(255) }
        }
        refusal => Err(number(refusal)),
    }
}

/// Uploads a file that has this byte so many times, as a new file or to the end of one.
fn put<R>(
    rt: &R,
    client: &FtpStream,
    appends: bool,
    byte: u8,
    count: usize,
) -> Result<Counted, Fail>
where
    R: Net<Listener = TcpListener, Stream = TcpStream> + Clock + Wait + AllocGlobal,
{
    let bytes = vec![in rt.alloc(); byte; count]?;
    let mut source = bytes.as_slice();
    let answer = if appends {
        client.append_file(rt, "a", &mut source)
    } else {
        client.put_file(rt, "a", &mut source)
    };
    Ok(match answer {
        Ok(count) => Ok(count),
        refusal => Err(number(refusal)),
    })
}

/// Counts the bytes of a download.
#[derive(Drop)]
struct Counts {
    buffer: [u8; 4096],
}

impl DownloadReader<TcpConn, u64> for Counts {
    fn read(&mut self, transfer: &mut Transfer<TcpConn>) -> FtpResult<u64> {
        let mut count = 0u64;
        for _ in 0..10_000_000 {
            let taken = Read::read(transfer, &mut self.buffer)?;
            if taken == 0 {
                break;
            }
            count = count.saturating_add(taken as u64);
        }
        Ok(count)
    }
}

/// How many bytes of a download a reader counts.
fn counted<R>(rt: &R, client: &FtpStream) -> Counted
where
    R: Net<Listener = TcpListener, Stream = TcpStream> + Clock + Wait + AllocGlobal,
{
    let mut counts = Counts {
        buffer: [0u8; 4096],
    };
    match client.retr(rt, "a", &mut counts) {
        Ok(count) => Ok(count),
        refusal => Err(number(refusal)),
    }
}
