//! Blocking clients as a program holds them: returned, kept, lent, sent to a thread and shared by two.

ghost use Rattle.std.specs.Prelude.{Ok, encode_utf8_all};

use crate::scene::{boxed, conn_with, greeted, number};
use ftp_base::encoding::{EncodeError, Encoding, Utf8Encoding};
use ftp_base::types::FtpResult;
use ftp_blocking::{FtpStream, ImplFtpStream};
use ftp_session::session::{NoTlsConnector, Session};
use ftp_transport::MemoryTransport;
use std::alloc::{AllocError, Global};
use std::io::Write;
use std::net::{Net, TcpListener, TcpStream};
use std::sync::Wait;
use std::test::Fail;
use std::{io, thread};

/// A client over memory.
type MemoryClient = ImplFtpStream<MemoryTransport>;

/// A program's struct that keeps a client.
#[derive(Drop)]
struct Mirror {
    client: Box<MemoryClient>,
}

impl Mirror {
    /// Changes to a directory.
    fn enter<R: Wait + AllocGlobal>(&self, rt: &R, path: &str) -> FtpResult<()> {
        self.client.cwd(rt, path)
    }
}

/// A client whose server sent these bytes, the greeting first.
fn client_of(alloc: Global, input: &[u8]) -> FtpResult<Box<MemoryClient>> {
    let session = greeted(alloc, MemoryTransport::new(alloc), conn_with(alloc, input)?)?;
    boxed(alloc, ImplFtpStream::new(alloc, Box::into_inner(session))?)
}

/// What a client that is lent returns: 0, or the number of its error.
fn lent<R: Wait + AllocGlobal>(rt: &R, client: &MemoryClient) -> u8 {
    number(client.noop(rt))
}

/// How many bytes a client has sent, by its control connection, which it lends.
fn sent<R: Wait>(rt: &R, client: &MemoryClient) -> usize {
    let control = client.get_ref(rt);
    let sent = control.socket().sent().len();
    drop(control);
    sent
}

#[test]
fn a_client_is_returned_kept_lent_and_sent_to_a_thread(rt: HostRuntime) -> Result<(), Fail> {
    let client = client_of(rt.alloc(), b"220 r\r\n250 in\r\n200 ok\r\n200 ok\r\n")?;
    let mirror = Mirror { client };
    let kept = number(mirror.enter(&rt, "pub"));
    let Mirror { client } = mirror;
    let child = thread::spawn(&rt, move || (lent(&rt, &client), client))?;
    let (there, client) = child.join(&rt);
    let before = sent(&rt, &client);
    let here = (lent(&rt, &client), lent(&rt, &client));
    drop(client);
    // CWD pub and NOOP
    assert_eq!(rt; (kept, there, before, here), (0, 0, 15, (0, 2)));
    Ok(())
}

/// Sends NOOP twenty times; how often the result is an error.
fn faults<R: Wait + AllocGlobal>(rt: &R, client: &FtpStream) -> usize {
    let mut faults = 0usize;
    for _ in 0..20 {
        if number(client.noop(rt)) != 0 {
            faults = faults.saturating_add(1);
        }
    }
    faults
}

/// A client and its server's end, which has answered forty commands in advance.
#[derive(Drop)]
struct Pair {
    client: FtpStream,
    server: TcpStream,
}

/// Such a pair.
fn connected<R>(rt: &R) -> Result<Box<Pair>, Fail>
where
    R: Net<Listener = TcpListener, Stream = TcpStream> + AllocGlobal,
{
    let listener = TcpListener::bind(rt, "127.0.0.1:0")?;
    let near = TcpStream::connect(rt, listener.local_addr()?)?;
    let server = answered(&listener)?;
    let client = FtpStream::connect_with_stream(rt, near)?;
    Ok(boxed(rt.alloc(), Pair { client, server })?)
}

/// The next peer, which was greeted and answered forty times in advance.
fn answered(listener: &TcpListener) -> io::Result<TcpStream> {
    let (mut server, _peer) = listener.accept()?;
    server.write_all(b"220 ready\r\n")?;
    for _ in 0..40 {
        server.write_all(b"200 ok\r\n")?;
    }
    Ok(server)
}

/// How often NOOP stands in what a server received whose client is gone, and how many bytes that is.
fn received(alloc: Global, pair: Box<Pair>) -> io::Result<(usize, usize)> {
    let Pair { client, server } = Box::into_inner(pair);
    drop(client);
    let text = io::read_to_string(alloc, server)?;
    Ok((text.matches("NOOP\r\n").count(), text.len()))
}

#[test]
fn lines_of_two_threads_are_not_torn(rt: HostRuntime) -> Result<(), Fail> {
    let pair = connected(&rt)?;
    let client = &pair.client;
    let faults = thread::join(&rt, || faults(&rt, client), || faults(&rt, client));
    let noops = received(rt.alloc(), pair)?;
    assert_eq!(rt; (faults, noops), ((0, 0), (40, 240)));
    Ok(())
}

/// An encoding that reads Latin-1 and writes UTF-8.
#[derive(Drop)]
struct ReadsLatin1;

impl Encoding for ReadsLatin1 {
    ghost decoded = { λ _ bytes. encode_utf8_all bytes };

    ghost encoded = { λ _ text. Ok text };

    fn decode(&self, alloc: Global, bytes: &[u8]) -> Result<String, AllocError> {
        bytes.iter().map(|byte| char::from(*byte)).collect(alloc)
    }

    fn encode(&self, alloc: Global, text: &str) -> Result<Vec<u8>, EncodeError> {
        Utf8Encoding.encode(alloc, text)
    }
}

/// A client that reads Latin-1 once it is set to.
type Client = ImplFtpStream<MemoryTransport, NoTlsConnector, ReadsLatin1>;

/// Such a client, whose server greeted with a byte that is no UTF-8.
fn greeted_in_latin1(alloc: Global) -> FtpResult<Box<Client>> {
    let conn = conn_with(alloc, b"220 caf\xe9\r\n")?;
    let session: Session<MemoryTransport, NoTlsConnector, ReadsLatin1> =
        Session::connect_with_stream(alloc, MemoryTransport::new(alloc), conn)?;
    boxed(alloc, ImplFtpStream::new(alloc, session)?)
}

/// Whether a client was greeted with this text.
fn welcomed<R: Wait + AllocGlobal>(rt: &R, client: &Client, due: &str) -> FtpResult<bool> {
    let text = client.get_welcome_msg(rt)?;
    Ok(text.as_deref() == Some(due))
}

#[test]
fn an_encoding_that_is_set_reads_the_welcome_again(rt: HostRuntime) -> Result<(), Fail> {
    let client = greeted_in_latin1(rt.alloc())?;
    let before = welcomed(&rt, &client, "220 caf\u{fffd}");
    let set = number(client.set_encoding(&rt, ReadsLatin1));
    let after = welcomed(&rt, &client, "220 caf\u{e9}");
    drop(client);
    assert_eq!(rt; (before?, set, after?), (true, 0, true));
    Ok(())
}
