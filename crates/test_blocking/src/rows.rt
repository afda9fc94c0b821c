//! What a blocking client and a server over loopback sockets send to each other, a row a situation.
//!
//! A row has five lines: its title, the server's steps (`server`), what the client is asked (`asks`), and what is due:
//! the client's answers, and what the server noted. The rows of a test are one text, since a table in code is dear to prove.

use crate::asks::visited;
use crate::scene::number;
use crate::server::serve;
use ftp_blocking::FtpStream;
use std::net::{Net, SocketAddr, TcpListener, TcpStream};
use std::sync::Wait;
use std::test::Fail;
use std::thread::Threads;
use std::time::{Clock, Duration};
use std::{io, thread};

/// Clients that connect.
const CONNECTING: &str = "\
== a client logs in on the address that answers
send 220 ready;line;send 331 pw;line;send 230 in;line;send 200 ok;line;send 221 bye
welcome;user;noop;quit
220 ready 0|0|0|0|
USER anonymous|PASS guest@example.org|NOOP|QUIT|
== a client connects within a time
send 220 ready
within;welcome
220 ready 0|

== a server closes in its greeting
begin 220-re

E2|

== a server greets in another protocol and closes
send hello
within
E11|

";

/// Whole downloads over data connections that either end opens.
const MODES: &str = "\
== a download is read to its end from where 227 says
send 220 r;line;passive 2;line;send 150 b;accept;data hello;hangup;send 226 d
get
hello 0|
PASV|RETR a|
== a download is read to its end from where 229 says
send 220 r;line;extended;line;send 150 b;accept;data hello;hangup;send 226 d
epsv;get
0|hello 0|
EPSV|RETR a|
== behind a router the host of the reply is not connected to
send 220 r;line;passive 3;line;passive 3;line;send 150 b;accept;data hello;hangup;send 226 d
get;router;get
E1|0|hello 0|
PASV|PASV|RETR a|
== a listener lets in who may come for a whole download
send 220 r;line;send 200 ok;connect;data hello;hangup;line;send 150 b;send 226 d
active;open;deadline 5000;get
0|0|0|hello 0|
PORT|+|RETR a|
== a listener drops who may not come, until its deadline
send 220 r;line;send 200 ok;connect;line;send 150 b
active;deadline 50;get
0|0|E8|
PORT|+|RETR a|
== nobody connects to the listener of a call that is done
send 220 r;line;send 200 ok;line;send 550 no;line;connect;send 200 ok
active;get;noop
0|E10|0|
PORT|RETR a|NOOP|-|
";

/// Downloads of many bytes and of none.
const DOWNLOADS: &str = "\
== a file of 3 MiB comes whole
send 220 r;line;passive 2;line;send 150 b;accept;fill 768;hangup;send 226 d
buffer
3145728|
PASV|RETR a|
== a file of 0 bytes comes whole
send 220 r;line;passive 2;line;send 150 b;accept;hangup;send 226 d
buffer
0|
PASV|RETR a|
== a listing that takes two reads comes whole
send 220 r;line;passive 2;line;send 150 b;accept;names 20000;hangup;send 226 d
list
20000|
PASV|LIST|
== a reader gets a download of a MiB
send 220 r;line;passive 2;line;send 150 b;accept;fill 256;hangup;send 226 d
count
1048576|
PASV|RETR a|
";

/// An upload of many bytes.
const LARGE: &str = "\
== an upload of 3 MiB ends its data before its last reply comes
send 220 r;line;passive 2;line;send 150 b;accept;measure;send 226 d
store 3145728
3145728|
PASV|STOR a|3145728|
";

/// Uploads of few bytes and of none, and of lines.
const UPLOADS: &str = "\
== an upload in two writes arrives whole
send 220 r;line;passive 2;line;send 150 b;accept;text;send 226 d
put
2 1 0|
PASV|STOR a|abc|
== an upload of 0 bytes ends its data before its last reply comes
send 220 r;line;passive 2;line;send 150 b;accept;measure;send 226 d
store 0
0|
PASV|STOR a|0|
== lines arrive with their returns at the end of a file
send 220 r;line;passive 2;line;send 150 b;accept;measure;send 226 d
text 1048576
2097152|
PASV|APPE a|2097152|
";

/// Transfers that end in their midst.
const ENDED_EARLY: &str = "\
== an upload whose server closes its data connection at once fails
send 220 r;line;passive 2;line;send 150 b;accept;hangup;send 426 n;line;send 200 ok
store 16777216;noop
E1|0|
PASV|STOR a|NOOP|
== a client goes on after a transfer that it left
send 220 r;line;passive 2;line;send 150 b;accept;measure;send 426 n;line;send 200 ok
forget;noop
0|0|
PASV|RETR a|0|NOOP|
== a client downloads after a transfer that it left
send 220 r;line;passive 2;line;send 150 b;accept;measure;send 426 n;line;passive 2;line;send 150 b;accept;data hello;hangup;send 226 d
forget;get
0|hello 0|
PASV|RETR a|0|PASV|RETR a|
";

/// The five lines of a row.
fn fields(row: &'static str) -> [&'static str; 5] {
    let mut lines = row.lines();
    let first = lines.next().unwrap_or("");
    let second = lines.next().unwrap_or("");
    let third = lines.next().unwrap_or("");
    let fourth = lines.next().unwrap_or("");
    let fifth = lines.next().unwrap_or("");
    [first, second, third, fourth, fifth]
}

/// A listener for a server, an address where nobody listens, and the listener's.
fn listening<R>(rt: &R) -> io::Result<(TcpListener, [SocketAddr; 2])>
where
    R: Net<Listener = TcpListener, Stream = TcpStream>,
{
    let closed = TcpListener::bind(rt, "127.0.0.2:0")?.local_addr()?;
    let listener = TcpListener::bind(rt, "127.0.0.2:0")?;
    let open = listener.local_addr()?;
    Ok((listener, [closed, open]))
}

/// Plays a row: its title, the client's answers and what the server noted, each in a line.
fn played<R>(rt: R, row: [&'static str; 5]) -> Result<String, Fail>
where
    R: Threads + Net<Listener = TcpListener, Stream = TcpStream>,
    R: Clock + Wait + AllocGlobal + Copy + Send + 'static,
{
    let [title, steps, asks, _answers, _notes] = row;
    let (listener, addresses) = listening(&rt)?;
    let server = thread::spawn(&rt, move || serve(&rt, &listener, steps))?;
    let came = visited(&rt, &addresses, asks)?;
    let noted = server.join(&rt)?;
    Ok(format!(in rt.alloc(); "{title}\n{came}\n{noted}")?)
}

/// Plays rows, until one has another outcome than is due: how many had theirs, and that outcome, or nothing.
fn played_all<R>(rt: R, rows: &'static str) -> Result<(usize, String), Fail>
where
    R: Threads + Net<Listener = TcpListener, Stream = TcpStream>,
    R: Clock + Wait + AllocGlobal + Copy + Send + 'static,
{
    let mut count = 0usize;
    for row in rows.split("== ").skip(1) {
        let row = fields(row);
        let came = played(rt, row)?;
        let due = format!(in rt.alloc(); "{}\n{}\n{}", row[0], row[3], row[4])?;
        if came != due {
            return Ok((count, came));
        }
        count = count.saturating_add(1);
    }
    Ok((count, String::new(rt.alloc())))
}

#[test]
fn a_client_connects_and_is_greeted_or_fails(rt: HostRuntime) -> Result<(), Fail> {
    let (count, other) = played_all(rt, CONNECTING)?;
    assert_eq!(rt; (count, other.as_str()), (4, ""));
    Ok(())
}

#[test]
fn a_file_is_downloaded_in_each_mode(rt: HostRuntime) -> Result<(), Fail> {
    let (count, other) = played_all(rt, MODES)?;
    assert_eq!(rt; (count, other.as_str()), (6, ""));
    Ok(())
}

#[test]
fn many_bytes_and_none_are_downloaded(rt: HostRuntime) -> Result<(), Fail> {
    let (count, other) = played_all(rt, DOWNLOADS)?;
    assert_eq!(rt; (count, other.as_str()), (4, ""));
    Ok(())
}

#[test]
fn many_bytes_are_uploaded(rt: HostRuntime) -> Result<(), Fail> {
    let (count, other) = played_all(rt, LARGE)?;
    assert_eq!(rt; (count, other.as_str()), (1, ""));
    Ok(())
}

#[test]
fn lines_and_few_bytes_are_uploaded(rt: HostRuntime) -> Result<(), Fail> {
    let (count, other) = played_all(rt, UPLOADS)?;
    assert_eq!(rt; (count, other.as_str()), (3, ""));
    Ok(())
}

#[test]
fn a_client_goes_on_after_a_transfer_that_ended_early(rt: HostRuntime) -> Result<(), Fail> {
    let (count, other) = played_all(rt, ENDED_EARLY)?;
    assert_eq!(rt; (count, other.as_str()), (3, ""));
    Ok(())
}

#[test]
fn no_client_connects_within_no_time(rt: HostRuntime) -> Result<(), Fail> {
    let (listener, addresses) = listening(&rt)?;
    let client = FtpStream::connect_timeout(&rt, addresses[1], Duration::ZERO);
    let refusal = number(client);
    drop(listener);
    assert_eq!(rt; refusal, 8);
    Ok(())
}
