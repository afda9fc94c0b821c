//! A session over memory whose connections take one byte a write and give one a read.
//!
//! Where a row reads a data connection by calls of its own, what these return is how the bytes come, so there the data
//! connections give all that is asked for.

ghost use Rattle.std.specs.Prelude.{[], ◌≡◌, Ok};
ghost use Rattle.ftp_transport.specs.Memory.{fresh_memory};

use crate::answers::texts_of;
use crate::builder::RowBuilder;
use crate::encodings::Named;
use crate::memory::{boxed, had};
use crate::play::Play;
use crate::requests::recorded;
use crate::session::{conn_of, counted, uploaded, welcome};
use crate::transcript::RowState;
use ftp_base::types::FtpResult;
use ftp_runs::RunCalls;
use ftp_session::session::{Call, NoTlsConnector, Session};
use ftp_transport::{
    Accepted, Conn, Connected, Handshaken, Listening, MemoryConn, MemoryListener, MemoryTransport,
    Network, PassiveStreamBuilder, Tells, Transport,
};
use rows_text::RowError;
use std::alloc::{AllocError, Global};
use std::io::ErrorKind;
use std::net::SocketAddr;
use std::time::Duration;

/// A connection over memory that takes one byte a write and, unless it gives all that is asked for, gives one a read.
#[derive(Drop)]
pub struct ByteConn {
    conn: MemoryConn,
    gives_all: bool,
}

impl Tells for ByteConn {
    ghost tells = { ⊥ };

    ghost told = { λ _. fresh_memory };

    fn begin(&mut self) {
        self.conn.begin();
    }

    ghost end_faults = { λ _. Unit {0} };

    fn local_addr(&mut self) -> Result<SocketAddr, ErrorKind> {
        self.conn.local_addr()
    }

    fn peer_addr(&mut self) -> Result<SocketAddr, ErrorKind> {
        self.conn.peer_addr()
    }

    fn close(&mut self) -> Result<(), ErrorKind> {
        self.conn.close()
    }
}

impl Conn for ByteConn {
    ghost blocking_read_faults = { λ _. Unit {0} };

    ghost blocking_write_faults = { λ _ _. Unit {0} };

    fn read(&mut self, buffer: &mut [u8]) -> Result<usize, ErrorKind> {
        if self.gives_all {
            self.conn.read(buffer)
        } else {
            self.conn.read(&mut buffer[..1])
        }
    }

    fn write(&mut self, bytes: &[u8]) -> Result<usize, ErrorKind> {
        self.conn.write(&bytes[..1])
    }
}

/// A transport over memory that hands out such connections.
pub struct ByteTransport {
    memory: MemoryTransport,
    // Whether its data connections give all that is asked for.
    gives_all: bool,
}

impl Drop for ByteTransport {
    fn drop(self) {
        let Self {
            memory,
            gives_all: _,
        } = self;
        drop(memory);
    }
}

impl Network for ByteTransport {
    type Conn = ByteConn;

    type Listener = MemoryListener;

    ghost asked = { λ _. [] };

    ghost ready = { λ _. [] };

    ghost refuses = { λ _ _. Unit {0} };

    ghost accept_refuses = { λ _ _. Unit {0} };

    ghost port = { λ _. 0 };

    ghost binds = { λ _ _ _. Unit {0} };

    ghost closed = { λ _. [] };

    ghost handshake = { λ _ _ outcome. outcome ≡ Ok fresh_memory };

    ghost has_room = { λ _. Unit {0} };

    fn make_room(&mut self) -> Result<(), AllocError> {
        self.memory.make_room()
    }

    fn note_build(&mut self, address: SocketAddr) -> Result<(), AllocError> {
        self.memory.note_build(address)
    }

    fn closed(&mut self, conn: ByteConn) {
        let ByteConn { conn, gives_all: _ } = conn;
        self.memory.closed(conn);
    }
}

/// The same connection, a byte a write, if there is one.
fn bytewise(made: Connected<MemoryConn>, gives_all: bool) -> Connected<ByteConn> {
    match made? {
        Ok(conn) => Ok(Ok(ByteConn { conn, gives_all })),
        Err(fault) => Ok(Err(fault)),
    }
}

impl<R> Transport<R> for ByteTransport {
    fn connect(&mut self, rt: &R, address: SocketAddr) -> Connected<ByteConn> {
        bytewise(self.memory.connect(rt, address), self.gives_all)
    }

    fn connect_timeout(
        &mut self,
        rt: &R,
        address: SocketAddr,
        limit: Duration,
    ) -> Connected<ByteConn> {
        bytewise(
            self.memory.connect_timeout(rt, address, limit),
            self.gives_all,
        )
    }

    fn listen(&mut self, rt: &R, address: SocketAddr) -> Listening<MemoryListener> {
        self.memory.listen(rt, address)
    }

    fn accept(
        &mut self,
        rt: &R,
        listener: &mut MemoryListener,
        deadline: Duration,
    ) -> Accepted<ByteConn> {
        match self.memory.accept(rt, listener, deadline)? {
            Ok((conn, from)) => {
                let gives_all = self.gives_all;
                Ok(Ok((ByteConn { conn, gives_all }, from)))
            }
            Err(fault) => Ok(Err(fault)),
        }
    }

    fn secure(&mut self, rt: &R, conn: ByteConn) -> Handshaken<ByteConn> {
        let ByteConn { conn, gives_all } = conn;
        match self.memory.secure(rt, conn)? {
            Ok(conn) => Ok(Ok(ByteConn { conn, gives_all })),
            Err(fault) => Ok(Err(fault)),
        }
    }
}

/// A row's builder of such connections.
#[derive(Drop)]
pub struct ByteBuilder {
    builder: RowBuilder,
    gives_all: bool,
}

impl ByteBuilder {
    /// A builder that makes what this one does; whether its connections give all that is asked for.
    pub fn new(builder: RowBuilder, gives_all: bool) -> ByteBuilder {
        ByteBuilder { builder, gives_all }
    }
}

impl PassiveStreamBuilder<ByteConn> for ByteBuilder {
    ghost answers = { λ _ _ _. Unit {0} };

    fn build(&self, address: SocketAddr) -> FtpResult<ByteConn> {
        let conn = self.builder.build(address)?;
        let gives_all = self.gives_all;
        Ok(ByteConn { conn, gives_all })
    }
}

/// A session over such connections.
pub type ByteSession = Session<ByteTransport, NoTlsConnector, Named, ByteBuilder>;

/// A session with the row's settings and encoding, of which nothing was read.
fn unread(alloc: Global, play: &Play) -> Result<Box<ByteSession>, RowError> {
    let conn = conn_of(alloc, play)?;
    let memory = match play.setup.transport(alloc) {
        Ok(memory) => memory,
        Err(_) => {
            drop(conn);
            return Err(RowError::OutOfMemory);
        }
    };
    let conn = ByteConn {
        conn,
        gives_all: false,
    };
    let gives_all = play.calls.iter().any(reads);
    let session = Session::new(alloc, ByteTransport { memory, gives_all }, conn);
    let mut session = boxed(alloc, had(session)?)?;
    play.setup.set_bytewise(&mut session, gives_all)?;
    if let Some(encoding) = play.encoding {
        had(session.set_encoding(alloc, encoding))?;
    }
    Ok(session)
}

/// Whether a call is a read of a data connection.
fn reads(call: &Call) -> bool {
    matches!(call, Call::Read(_))
}

/// Where a run of these calls ends whose connections take one byte a write and give one a read.
///
/// # Errors
/// `OutOfMemory`.
pub fn ran_bytewise(alloc: Global, calls: &[Call], play: &Play) -> Result<RowState, RowError> {
    let mut session = unread(alloc, play)?;
    let answers = had(session.run(alloc, &(), calls))?;
    let conn = &session.get_ref().conn;
    let memory = &session.transport().memory;
    Ok(RowState {
        asked: recorded(alloc, memory.requests())?,
        uploaded: uploaded(alloc, memory.uploaded())?,
        sent: Vec::from_slice(alloc, conn.sent())?,
        answers: texts_of(alloc, &answers)?,
        taken: conn.received().saturating_sub(session.untaken()),
        failed: session.failed(),
        welcome: welcome(alloc, session.state())?,
        counts: counted(alloc, session.counts())?,
    })
}
