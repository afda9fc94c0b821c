//! Clients that are made by their options, over tokio's sockets.

use crate::scene::{Client, noop};
use ftp_base::types::{FileType, FormatControl, Mode};
use ftp_shared::ConnectOptions;
use std::alloc::{AllocGlobal, Global};
use std::io::Write;
use std::net::{Net, SocketAddr, TcpListener, TcpStream};
use std::random::RandomSource;
use std::sync::Wait;
use std::test::Fail;
use std::time::{Clock, Duration};
use std::{io, thread};
use test_loopback::{listening, running, transport};

/// A server that sends this and reads to the end: what it read.
fn serve(alloc: Global, listener: &TcpListener, replies: &str) -> io::Result<String> {
    let (mut server, _address) = listener.accept()?;
    server.write_all(replies.as_bytes())?;
    io::read_to_string(alloc, server)
}

/// What NOOP results in of the client of these options, or the number of the connect's error.
fn answer_of<R>(rt: &R, options: &ConnectOptions) -> Result<(u8, u8), Fail>
where
    R: Net<Listener = TcpListener, Stream = TcpStream> + Wait + Clock + RandomSource + AllocGlobal,
{
    let mut runtime = running(rt)?;
    let connect = Client::connect_with(rt, transport(&runtime)?, options);
    match runtime.local().block_on(rt, connect)? {
        Ok(client) => {
            let client = Box::new(rt.alloc(), client)?;
            let answer = noop(rt, &mut runtime, &client);
            Ok((0, answer))
        }
        Err(fault) => Ok((fault.number(), 0)),
    }
}

/// Options of a client at this address.
fn options_at<R: AllocGlobal>(rt: &R, address: SocketAddr) -> Result<Box<ConnectOptions>, Fail> {
    let address = format!(in rt.alloc(); "{address}")?;
    let options = ConnectOptions::new(rt.alloc(), address.as_str(), "ada", "secret")?;
    Ok(Box::new(rt.alloc(), options)?)
}

#[test]
fn a_client_is_made_by_its_options_and_works(rt: HostRuntime) -> Result<(), Fail> {
    let (listener, address) = listening(&rt)?;
    let replies =
        "220 r\r\n331 p\r\n230 in\r\n200 t\r\n211-F\r\n UTF8\r\n211 end\r\n200 on\r\n200-ok\r\n250 ok\r\n";
    let serving = thread::spawn(&rt, move || serve(rt.alloc(), &listener, replies))?;
    let mut options = options_at(&rt, address)?;
    options.set_limit(Duration::from_secs(5));
    options.set_mode(Mode::Passive);
    options.set_file_type(FileType::Ascii(FormatControl::Default));
    options.set_lenient_replies(true);
    options.set_utf8(true);
    let answers = answer_of(&rt, &options)?;
    let received = serving.join(&rt)?;
    assert_eq!(rt;
        (answers, received.as_str()),
        (
            (0, 10),
            "USER ada\r\nPASS secret\r\nTYPE A N\r\nFEAT\r\nOPTS UTF8 ON\r\nNOOP\r\n"
        )
    );
    Ok(())
}

#[test]
fn a_login_that_is_refused_makes_no_client(rt: HostRuntime) -> Result<(), Fail> {
    let (listener, address) = listening(&rt)?;
    let replies = "220 r\r\n530 no\r\n";
    let serving = thread::spawn(&rt, move || serve(rt.alloc(), &listener, replies))?;
    let options = options_at(&rt, address)?;
    let refused = answer_of(&rt, &options)?;
    let received = serving.join(&rt)?;
    let lost = answer_of(&rt, &options)?;
    assert_eq!(rt;
        (refused, received.as_str(), lost),
        ((10, 0), "USER ada\r\n", (1, 0))
    );
    Ok(())
}
