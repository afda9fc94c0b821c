//! A blocking client that is under TLS from its first byte on, over sockets.
//!
//! The connector turns every bit of what goes over the socket, so that nothing is understood in clear, and refuses each
//! server but one.

ghost use Rattle.std.specs.Prelude.{refl};
ghost use Rattle.ftp_transport.specs.Memory.{fresh_memory};

use crate::scene::{boxed, number};
use ftp_base::types::FtpResult;
use ftp_blocking::ImplFtpStream;
use ftp_secure::{Secured, Secures, TlsConnector, TlsStream};
use ftp_transport::{Conn, TcpConn, TcpTransport, Tells};
use std::alloc::Global;
use std::io::{ErrorKind, Read, Write};
use std::net::{Net, SocketAddr, TcpListener, TcpStream};
use std::sync::Wait;
use std::test::Fail;
use std::time::{Clock, Duration};
use std::{io, thread};

/// A client that may be put under TLS, over sockets.
type Client = ImplFtpStream<Secured<TcpTransport, Connector>, Connector>;

/// What puts connections to `ftp.example` under TLS.
#[derive(Drop)]
struct Connector {
    alloc: Global,
}

/// A connection under TLS. Nothing is recorded of a socket.
#[derive(Drop)]
struct Stream {
    conn: TcpConn,
}

/// Turns every bit of these bytes.
fn turn(bytes: &mut [u8]) {
    for byte in bytes.iter_mut() {
        *byte = !*byte;
    }
}

impl Secures<TcpConn> for Connector {
    type Stream = Stream;

    type Connecting = ();

    ghost answers = { λ _ _ _ _. Unit {0} };
}

impl TlsConnector<TcpConn> for Connector {
    fn connect(&self, domain: &str, conn: TcpConn) -> Result<Stream, String> {
        if domain == "ftp.example" {
            return Ok(Stream { conn });
        }
        drop(conn);
        Err(String::new(self.alloc))
    }
}

impl Tells for Stream {
    ghost tells = { ⊥ };

    ghost told = { λ _. fresh_memory };

    ghost end_faults = { λ _. Unit {0} };

    fn begin(&mut self) {}

    fn local_addr(&mut self) -> Result<SocketAddr, ErrorKind> {
        self.conn.local_addr()
    }

    fn peer_addr(&mut self) -> Result<SocketAddr, ErrorKind> {
        self.conn.peer_addr()
    }

    fn close(&mut self) -> Result<(), ErrorKind> {
        self.conn.close()
    }
}

impl Conn for Stream {
    ghost blocking_read_faults = { λ _. Unit {0} };

    ghost blocking_write_faults = { λ _ _. Unit {0} };

    fn read(&mut self, buffer: &mut [u8]) -> Result<usize, ErrorKind> {
        let count = self.conn.read(buffer)?;
        turn(&mut buffer[..count]);
        Ok(count)
    }

    /// Writes a byte at a time.
    fn write(&mut self, bytes: &[u8]) -> Result<usize, ErrorKind> {
        match bytes.first() {
            Some(byte) => self.conn.write(&[!*byte]),
            None => Ok(0),
        }
    }
}

impl TlsStream<TcpConn> for Stream {
    ghost below = { λ stream. stream.conn };

    ghost with_below = { λ stream conn. record stream { conn = conn } };

    ghost stays_below = { λ _ _. refl };

    ghost gives = { λ _ _. Unit {0} };

    fn tcp_stream(self) -> FtpResult<TcpConn> {
        let Stream { conn } = self;
        Ok(conn)
    }

    fn get_ref(&self) -> &TcpConn {
        &self.conn
    }

    fn mut_ref(&mut self) -> &mut TcpConn {
        &mut self.conn
    }

    fn is_recorded(&self) -> bool {
        false
    }
}

/// Sends these bytes under TLS.
fn send_turned(server: &mut TcpStream, bytes: &[u8]) -> io::Result<()> {
    for byte in bytes {
        server.write_all(&[!*byte])?;
    }
    Ok(())
}

/// The next client, which is waited for five seconds at each read.
fn accepted(listener: &TcpListener) -> io::Result<TcpStream> {
    let (server, _address) = listener.accept()?;
    server.set_read_timeout(Some(Duration::from_secs(5)))?;
    Ok(server)
}

/// Greets the first client under TLS, and answers its first command; the second one sends nothing. What the two sent, in
/// clear.
fn serve(listener: &TcpListener) -> io::Result<([u8; 6], usize)> {
    let mut server = accepted(listener)?;
    send_turned(&mut server, b"220 under\r\n")?;
    let mut line = [0u8; 6];
    server.read_exact(&mut line)?;
    turn(&mut line);
    send_turned(&mut server, b"200 ok\r\n")?;
    let mut other = accepted(listener)?;
    Ok((line, other.read(&mut [0u8; 1])?))
}

/// What a client was greeted with that connects under TLS, and the numbers of the errors of its NOOP, and of a client that
/// connects to a server of another name.
fn visited<R>(rt: &R, address: SocketAddr) -> Result<(bool, u8, u8), Fail>
where
    R: Net<Listener = TcpListener, Stream = TcpStream> + Wait + Clock + AllocGlobal,
{
    let alloc = rt.alloc();
    let connector = Connector { alloc };
    let client = Client::connect_secure_implicit(rt, &[address], connector, "ftp.example")?;
    let client = boxed(alloc, client)?;
    let greeted = client.get_welcome_msg(rt)?.as_deref() == Some("220 under");
    let answer = number(client.noop(rt));
    let connector = Connector { alloc };
    let other = Client::connect_secure_implicit(rt, &[address], connector, "other.example");
    Ok((greeted, answer, number(other)))
}

#[test]
fn a_client_is_under_tls_from_its_first_byte_on(rt: HostRuntime) -> Result<(), Fail> {
    let listener = TcpListener::bind(&rt, "127.0.0.1:0")?;
    let address = listener.local_addr()?;
    let serving = thread::spawn(&rt, move || serve(&listener))?;
    let came = visited(&rt, address)?;
    let served = serving.join(&rt)?;
    // SecureError is 9
    assert_eq!(rt; (came, served), ((true, 0, 9), (*b"NOOP\r\n", 0)));
    Ok(())
}
