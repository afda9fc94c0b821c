//! Clients that read replies leniently, and those that don't, on the greeting of a server that opens it with a plus.

use crate::scene::number;
use ftp_blocking::FtpStream;
use std::io::Write;
use std::net::{Net, SocketAddr, TcpListener, TcpStream};
use std::test::Fail;
use std::time::Clock;
use std::{io, thread};

/// Greets four clients so.
fn greet(listener: &TcpListener) -> io::Result<()> {
    for _ in 0..4 {
        let (mut server, _address) = listener.accept()?;
        server.write_all(b"+22 hello\r\n220 ready\r\n")?;
    }
    Ok(())
}

/// The numbers of the errors of clients that connect to this address, strictly and leniently; by themselves, and on a
/// socket.
fn faults<R>(rt: &R, address: SocketAddr) -> io::Result<[u8; 4]>
where
    R: Net<Listener = TcpListener, Stream = TcpStream> + Clock + AllocGlobal,
{
    let strict = number(FtpStream::connect(rt, &[address]));
    let lenient = number(FtpStream::connect_lenient(rt, &[address]));
    let socket = TcpStream::connect(rt, address)?;
    let strict_on = number(FtpStream::connect_with_stream(rt, socket));
    let socket = TcpStream::connect(rt, address)?;
    let lenient_on = number(FtpStream::connect_with_stream_lenient(rt, socket));
    Ok([strict, lenient, strict_on, lenient_on])
}

#[test]
fn a_lenient_client_takes_a_greeting_that_opens_with_a_plus(rt: HostRuntime) -> Result<(), Fail> {
    let listener = TcpListener::bind(&rt, "127.0.0.1:0")?;
    let address = listener.local_addr()?;
    let serving = thread::spawn(&rt, move || greet(&listener))?;
    let faults = faults(&rt, address)?;
    let served = serving.join(&rt).is_ok();
    // `BadResponse` is 11
    assert_eq!(rt; (faults, served), ([11, 0, 11, 0], true));
    Ok(())
}
