//! A client is put under TLS, by a connector that the caller hands in.
//!
//! The toolchain has no TLS, so this connector encrypts nothing: it shows what one is made of, over a socket. A real one
//! makes its handshake in `connect`, and checks there that the server is the one that is named; its stream encrypts what is
//! written, and deciphers what is read.

ghost use Rattle.std.specs.Prelude.{refl};
ghost use Rattle.ftp_transport.specs.Memory.{fresh_memory};

use std::io::ErrorKind;
use std::net::SocketAddr;
use std::sync::Wait;
use suppaftp::transport::{Conn, Secured, Secures, TcpConn, Tells, TlsConnector, TlsStream};
use suppaftp::{FtpResult, Host, ImplFtpStream, TcpTransport};

/// A client that may be put under TLS, over sockets.
type Client = ImplFtpStream<Secured<TcpTransport, Connector>, Connector>;

/// What puts connections under TLS.
#[derive(Drop)]
struct Connector;

/// A connection under TLS. Nothing is recorded of a socket.
#[derive(Drop)]
struct Stream {
    conn: TcpConn,
}

impl Secures<TcpConn> for Connector {
    type Stream = Stream;

    type Connecting = ();

    ghost answers = { λ _ _ _ _. Unit {0} };
}

impl TlsConnector<TcpConn> for Connector {
    fn connect(&self, _domain: &str, conn: TcpConn) -> Result<Stream, String> {
        Ok(Stream { conn })
    }
}

impl Tells for Stream {
    ghost tells = { ⊥ };

    ghost told = { λ _. fresh_memory };

    ghost end_faults = { λ _. Unit {0} };

    fn begin(&mut self) {}

    fn local_addr(&mut self) -> Result<SocketAddr, ErrorKind> {
        self.conn.local_addr()
    }

    fn peer_addr(&mut self) -> Result<SocketAddr, ErrorKind> {
        self.conn.peer_addr()
    }

    fn close(&mut self) -> Result<(), ErrorKind> {
        self.conn.close()
    }
}

impl Conn for Stream {
    ghost blocking_read_faults = { λ _. Unit {0} };

    ghost blocking_write_faults = { λ _ _. Unit {0} };

    fn read(&mut self, buffer: &mut [u8]) -> Result<usize, ErrorKind> {
        self.conn.read(buffer)
    }

    fn write(&mut self, bytes: &[u8]) -> Result<usize, ErrorKind> {
        self.conn.write(bytes)
    }
}

impl TlsStream<TcpConn> for Stream {
    ghost below = { λ stream. stream.conn };

    ghost with_below = { λ stream conn. record stream { conn = conn } };

    ghost stays_below = { λ _ _. refl };

    ghost gives = { λ _ _. Unit {0} };

    fn tcp_stream(self) -> FtpResult<TcpConn> {
        let Stream { conn } = self;
        Ok(conn)
    }

    fn get_ref(&self) -> &TcpConn {
        &self.conn
    }

    fn mut_ref(&mut self) -> &mut TcpConn {
        &mut self.conn
    }

    fn is_recorded(&self) -> bool {
        false
    }
}

/// Logs in under TLS, and fetches a file.
fn fetched<R: Host + Wait>(rt: &R, address: &str, name: &str) -> FtpResult<Vec<u8>> {
    let client = Client::connect_to(rt, address)?;
    let client = client.into_secure(rt, Connector, "ftp.example.org")?;
    client.login(rt, "anonymous", "guest@example.org")?;
    let bytes = client.retr_as_buffer(rt, name)?;
    client.quit(rt)?;
    Ok(bytes)
}

/// Fetches a file, and prints how long it is.
pub fn run<R: Host + Wait + Print>(rt: &R, address: &str, name: &str) -> FtpResult<()> {
    let bytes = fetched(rt, address, name)?;
    println!(rt; "under TLS: {name}: {} bytes", bytes.len())?;
    Ok(())
}
