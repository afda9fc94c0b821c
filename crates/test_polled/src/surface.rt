//! A client that connects to an address that is a text, what it was greeted with, and the lines of its transfer.

use crate::clients::write_passive;
use crate::scene::{Client, Live, Scene, connects, finished, greeted};
use ftp_base::status::Status;
use ftp_base::types::FtpResult;
use std::alloc::AllocGlobal;
use std::io::Write;
use std::net::{Net, TcpListener, TcpStream};
use std::random::RandomSource;
use std::sync::Wait;
use std::test::Fail;
use std::time::{Clock, Duration};
use std::{io, thread};
use test_loopback::{listening, running, transport};

/// Greets a client.
fn greet(listener: &TcpListener) -> io::Result<()> {
    let (mut server, _address) = listener.accept()?;
    server.write_all(b"220 ready\r\n")
}

/// The number of the error of a client that connects to this text.
fn fault_at<R>(rt: &R, address: &str) -> io::Result<u8>
where
    R: Net<Listener = TcpListener, Stream = TcpStream> + Wait + Clock + RandomSource + AllocGlobal,
{
    let mut runtime = running(rt)?;
    let connect = Client::connect_to(rt, transport(&runtime)?, address);
    Ok(connects(rt, &mut runtime, connect))
}

#[test]
fn a_client_connects_to_an_address_that_is_a_text(rt: HostRuntime) -> Result<(), Fail> {
    let (listener, address) = listening(&rt)?;
    let text = format!(in rt.alloc(); "{address}")?;
    let serving = thread::spawn(&rt, move || greet(&listener))?;
    let connected = fault_at(&rt, text.as_str())?;
    let without_port = fault_at(&rt, "127.0.0.1")?;
    let served = serving.join(&rt).is_ok();
    // an error of kind InvalidInput
    assert_eq!(rt; (connected, without_port, served), (0, 1, true));
    Ok(())
}

/// The number of the error of a client that connects to this text within a time.
fn fault_within<R>(rt: &R, address: &str, limit: Duration) -> io::Result<u8>
where
    R: Net<Listener = TcpListener, Stream = TcpStream> + Wait + Clock + RandomSource + AllocGlobal,
{
    let mut runtime = running(rt)?;
    let connect = Client::connect_to_within(rt, transport(&runtime)?, address, limit);
    Ok(connects(rt, &mut runtime, connect))
}

#[test]
fn a_client_connects_to_such_an_address_within_a_time(rt: HostRuntime) -> Result<(), Fail> {
    let (listener, address) = listening(&rt)?;
    let text = format!(in rt.alloc(); "{address}")?;
    let serving = thread::spawn(&rt, move || greet(&listener))?;
    let timeless = fault_within(&rt, text.as_str(), Duration::ZERO)?;
    let connected = fault_within(&rt, text.as_str(), Duration::from_secs(5))?;
    let served = serving.join(&rt).is_ok();
    // TimedOut
    assert_eq!(rt; (timeless, connected, served), (8, 0, true));
    Ok(())
}

/// Adds what a client was greeted with.
fn add_welcome<R>(rt: &R, scene: &mut Scene, text: &mut String) -> Result<(), Fail>
where
    R: Net + Wait + Clock + RandomSource + AllocGlobal,
{
    let welcome = scene.client.get_welcome_msg(rt);
    let welcome = scene.runtime.local().block_on(rt, welcome)??;
    write!(text, "{}|", welcome.as_deref().unwrap_or("none"))?;
    Ok(())
}

/// A data connection that a client opens by a line of its own, on which these bytes come.
fn opened<R>(rt: &R, scene: &mut Scene, data: &[u8]) -> Result<Live, Fail>
where
    R: Net<Listener = TcpListener, Stream = TcpStream> + Wait + Clock + RandomSource + AllocGlobal,
{
    let (listener, address) = listening(rt)?;
    write_passive(&mut scene.server, address.port())?;
    let expected = [Status::AboutToSend];
    let opening = scene.client.custom_data_command(rt, "LIST -a", &expected);
    let (_reply, transfer) = scene.runtime.local().block_on(rt, opening)??;
    let transfer = Box::new(rt.alloc(), transfer)?;
    let (mut peer, _address) = listener.accept()?;
    peer.write_all(data)?;
    Ok(transfer)
}

/// Adds the lines of a transfer.
fn add_lines<R>(
    rt: &R,
    scene: &mut Scene,
    transfer: &mut Live,
    text: &mut String,
) -> Result<(), Fail>
where
    R: Wait + Clock + RandomSource + AllocGlobal,
{
    let reading = Client::get_lines_from_stream(rt, &mut **transfer);
    let lines: FtpResult<Vec<String>> = scene.runtime.local().block_on(rt, reading)?;
    for line in &lines? {
        write!(text, "{line}|")?;
    }
    Ok(())
}

#[test]
fn a_client_tells_its_greeting_and_the_lines_of_its_transfer(rt: HostRuntime) -> Result<(), Fail> {
    let mut scene = greeted(&rt)?;
    let mut text = String::new(rt.alloc());
    add_welcome(&rt, &mut scene, &mut text)?;
    let mut transfer = opened(&rt, &mut scene, b"a\r\n\r\nb\nc")?;
    add_lines(&rt, &mut scene, &mut transfer, &mut text)?;
    scene.server.write_all(b"226 done\r\n")?;
    let finished = finished(&rt, &mut scene, transfer);
    drop(scene);
    assert_eq!(rt; (text.as_str(), finished), ("220 ready|a|b|c|", 0));
    Ok(())
}
