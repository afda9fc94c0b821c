//! A client of a task, and the server's end of its connections, on loopback.

use ftp_base::encoding::Utf8Encoding;
use ftp_base::types::FtpResult;
use ftp_polled::{Connect, Dialogue, ImplAsyncFtpStream, TransferStream};
use ftp_session::session::{NoStreamBuilder, NoTlsConnector};
use ftp_tokio::TokioTransport;
use futures::Future;
use futures::future::poll_immediate;
use std::alloc::AllocGlobal;
use std::io::{ErrorKind, Read, Write};
use std::net::{Net, TcpListener, TcpStream};
use std::random::RandomSource;
use std::sync::Wait;
use std::test::Fail;
use std::time::Clock;
use test_loopback::{Runtime, pair, running, transport};

/// A polled client over tokio's sockets.
pub type Client = ImplAsyncFtpStream<TokioTransport>;

/// A call of such a client that returns an `A`.
pub type Call<'r, R, A> = Dialogue<
    'r,
    R,
    TokioTransport,
    NoTlsConnector,
    Utf8Encoding,
    NoStreamBuilder,
    A,
>;

/// A client of such a kind that connects.
pub type Connecting<'r, R> = Connect<
    'r,
    R,
    TokioTransport,
    NoTlsConnector,
    Utf8Encoding,
    NoStreamBuilder,
>;

/// A transfer of such a client, in a box.
pub type Live = Box<TransferStream<TokioTransport>>;

/// A client whose greeting was read, the server's end of its control connection, and the runtime that polls it.
#[derive(Drop)]
pub struct Scene {
    pub client: Box<Client>,
    pub server: TcpStream,
    pub runtime: Runtime,
}

/// Such a client. The greeting was written before the client was polled.
pub fn greeted<R>(rt: &R) -> Result<Box<Scene>, Fail>
where
    R: Net<Listener = TcpListener, Stream = TcpStream> + Wait + Clock + RandomSource + AllocGlobal,
{
    let mut runtime = running(rt)?;
    let (client, server) = connected(rt, &mut runtime)?;
    let scene = Scene {
        client,
        server,
        runtime,
    };
    Ok(Box::new(rt.alloc(), scene)?)
}

/// A client whose greeting was read, and its server.
fn connected<R>(rt: &R, runtime: &mut Runtime) -> Result<(Box<Client>, TcpStream), Fail>
where
    R: Net<Listener = TcpListener, Stream = TcpStream> + Wait + Clock + RandomSource + AllocGlobal,
{
    let transport = transport(runtime)?;
    let (conn, server) = pair(rt, runtime, b"220 ready\r\n")?;
    let connect = Client::connect_with_stream(rt, transport, conn);
    Ok((client_of(rt, runtime, connect)?, server))
}

/// The number of an error; 0 where there is none.
pub fn number<T: Drop>(answer: FtpResult<T>) -> u8 {
    match &answer {
        Ok(_) => 0,
        Err(fault) => fault.number(),
    }
}

/// Polls a state to its answer: the number of its error, 0 where there is none, and 255 where the runtime fails. A test
/// that compares it needs no `?` beside what it owns.
pub fn done<R, F, T>(rt: &R, runtime: &mut Runtime, state: F) -> u8
where
    R: Wait + Clock + RandomSource + AllocGlobal,
    F: Future<Output = FtpResult<T>>,
    T: Drop,
    requires { F.can_poll state }
{
    match runtime.local().block_on(rt, state) {
        Ok(answer) => number(answer),
        Err(_error) => 255,
    }
}

/// Polls a command to its answer: the number of its error, as `done` returns it. A call of a function at one type of future
/// is cheaper to prove than one of `done`.
pub fn answered<R>(rt: &R, runtime: &mut Runtime, command: Call<'_, R, ()>) -> u8
where
    R: Net + Wait + Clock + RandomSource + AllocGlobal,
{
    done(rt, runtime, command)
}

/// Sends NOOP: the number of its error.
pub fn noop<R>(rt: &R, runtime: &mut Runtime, client: &Client) -> u8
where
    R: Net + Wait + Clock + RandomSource + AllocGlobal,
{
    answered(rt, runtime, client.noop(rt))
}

/// Sends NOOP on the client of a scene: the number of its error.
pub fn next<R>(rt: &R, scene: &mut Scene) -> u8
where
    R: Net + Wait + Clock + RandomSource + AllocGlobal,
{
    noop(rt, &mut scene.runtime, &scene.client)
}

/// Polls a command once, and returns whether it waits.
pub fn command_waits<R>(rt: &R, runtime: &mut Runtime, command: &mut Call<'_, R, ()>) -> bool
where
    R: Net + Wait + Clock + RandomSource + AllocGlobal,
{
    waits(rt, runtime, command)
}

/// Polls a connect to its answer: the number of its error.
pub fn connects<R>(rt: &R, runtime: &mut Runtime, connect: Connecting<'_, R>) -> u8
where
    R: Net + Wait + Clock + RandomSource + AllocGlobal,
{
    done(rt, runtime, connect)
}

/// The client of a connect, in a box, which is dropped by one call.
pub fn client_of<R>(
    rt: &R,
    runtime: &mut Runtime,
    connect: Connecting<'_, R>,
) -> Result<Box<Client>, Fail>
where
    R: Net + Wait + Clock + RandomSource + AllocGlobal,
{
    let client = runtime.local().block_on(rt, connect)??;
    Ok(Box::new(rt.alloc(), client)?)
}

/// Finishes a transfer: the number of the error.
pub fn finished<R>(rt: &R, scene: &mut Scene, transfer: Live) -> u8
where
    R: Net + Wait + Clock + RandomSource + AllocGlobal,
{
    let finish = scene.client.finish(rt, Box::into_inner(transfer));
    done(rt, &mut scene.runtime, finish)
}

/// Polls a state once, and returns whether it waits.
pub fn waits<R, F, T>(rt: &R, runtime: &mut Runtime, state: &mut F) -> bool
where
    R: Wait + Clock + RandomSource + AllocGlobal,
    F: Future<Output = FtpResult<T>>,
    T: Drop,
    requires { F.can_poll state.old }
{
    match runtime.local().block_on(rt, poll_immediate(state)) {
        Ok(polled) => polled.is_none(),
        Err(_error) => false,
    }
}

/// Sends these bytes on a socket, and returns whether they went out.
pub fn send(socket: &mut TcpStream, bytes: &[u8]) -> bool {
    socket.write_all(bytes).is_ok()
}

/// Whether these bytes have come on a socket, and no other; it doesn't wait for more.
pub fn came(socket: &mut TcpStream, due: &[u8]) -> bool {
    let mut buffer = [0u8; 64];
    if socket.set_nonblocking(true).is_err() {
        return false;
    }
    match socket.read(&mut buffer) {
        Ok(count) => buffer.get(..count) == Some(due),
        Err(_error) => false,
    }
}

/// Whether nothing has come on a socket, which is open; it doesn't wait.
pub fn is_silent(socket: &mut TcpStream) -> bool {
    if socket.set_nonblocking(true).is_err() {
        return false;
    }
    match socket.read(&mut [0u8; 1]) {
        Ok(_count) => false,
        Err(error) => error.kind() == ErrorKind::WouldBlock,
    }
}
