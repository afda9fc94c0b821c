//! Whole data connections whose reads fail.

ghost use Rattle.std.specs.Prelude.{[]};
ghost use Rattle.ftp_transport.specs.Memory.{fresh_memory};

use crate::memory_scene::{conn_with, number};
use ftp_base::types::{ConnectionError, FtpError, FtpResult};
use ftp_session::session::{Failure, Session};
use ftp_transfer::NoProgress;
use ftp_transport::{
    Accepted, Conn, Connected, Handshaken, Listening, MemoryConn, Network, Tells, Transport,
};
use std::alloc::{AllocError, Global};
use std::io::ErrorKind;
use std::net::SocketAddr;
use std::test::Fail;
use std::time::Duration;

/// A connection that is reset where its bytes end, or ends there.
#[derive(Drop)]
struct Breaking {
    conn: Box<MemoryConn>,
    breaks: bool,
}

impl Tells for Breaking {
    ghost tells = { ⊥ };

    ghost told = { λ _. fresh_memory };

    fn begin(&mut self) {}

    ghost end_faults = { λ _. Unit {0} };

    fn local_addr(&mut self) -> Result<SocketAddr, ErrorKind> {
        Err(ErrorKind::NotConnected)
    }

    fn peer_addr(&mut self) -> Result<SocketAddr, ErrorKind> {
        Err(ErrorKind::NotConnected)
    }

    fn close(&mut self) -> Result<(), ErrorKind> {
        Err(ErrorKind::NotConnected)
    }
}

impl Conn for Breaking {
    ghost blocking_read_faults = { λ _. Unit {0} };

    ghost blocking_write_faults = { λ _ _. Unit {0} };

    fn read(&mut self, buffer: &mut [u8]) -> Result<usize, ErrorKind> {
        match self.conn.read(buffer) {
            Ok(0) if self.breaks => Err(ErrorKind::ConnectionReset),
            read => read,
        }
    }

    fn write(&mut self, bytes: &[u8]) -> Result<usize, ErrorKind> {
        self.conn.write(bytes)
    }
}

/// A transport that has one data connection.
#[derive(Drop)]
struct One {
    data: Vec<Breaking>,
}

impl Network for One {
    type Conn = Breaking;

    type Listener = ();

    ghost asked = { λ _. [] };

    ghost ready = { λ _. [] };

    ghost refuses = { λ _ _. Unit {0} };

    ghost accept_refuses = { λ _ _. Unit {0} };

    ghost port = { λ _. 0 };

    ghost binds = { λ _ _ _. Unit {0} };

    ghost closed = { λ _. [] };

    ghost handshake = { λ _ _ _. Unit {0} };

    ghost has_room = { λ _. Unit {0} };

    fn make_room(&mut self) -> Result<(), AllocError> {
        Ok(())
    }

    fn note_build(&mut self, _address: SocketAddr) -> Result<(), AllocError> {
        Ok(())
    }

    fn closed(&mut self, _conn: Breaking) {}
}

impl<R> Transport<R> for One {
    fn connect(&mut self, _rt: &R, _address: SocketAddr) -> Connected<Breaking> {
        match self.data.pop() {
            Some(conn) => Ok(Ok(conn)),
            None => Ok(Err(ConnectionError::Io(ErrorKind::ConnectionRefused))),
        }
    }

    fn connect_timeout(
        &mut self,
        rt: &R,
        address: SocketAddr,
        _limit: Duration,
    ) -> Connected<Breaking> {
        self.connect(rt, address)
    }

    fn listen(&mut self, _rt: &R, _address: SocketAddr) -> Listening<()> {
        Ok(Err(ConnectionError::Io(ErrorKind::Unsupported)))
    }

    fn accept(&mut self, _rt: &R, _listener: &mut (), _deadline: Duration) -> Accepted<Breaking> {
        Ok(Err(ConnectionError::TimedOut))
    }

    fn secure(&mut self, _rt: &R, conn: Breaking) -> Handshaken<Breaking> {
        Ok(Ok(conn))
    }
}

/// A connection that these bytes came on, and whether it is reset then.
fn conn_of(alloc: Global, bytes: &[u8], breaks: bool) -> Result<Breaking, AllocError> {
    let conn = Box::new(alloc, conn_with(alloc, bytes)?)?;
    Ok(Breaking { conn, breaks })
}

/// A transport whose data connection is reset after these bytes.
fn one_with(alloc: Global, data: &[u8]) -> Result<One, AllocError> {
    let mut conns = Vec::new(alloc);
    conns.push(conn_of(alloc, data, true)?)?;
    Ok(One { data: conns })
}

/// A session whose server sends this, the greeting first; its data connection is reset after a line.
fn session_on(alloc: Global, input: &[u8]) -> FtpResult<Box<Session<One>>> {
    let transport = one_with(alloc, b"a\r\n")?;
    let control = conn_of(alloc, input, false)?;
    let session = Session::connect_with_stream(alloc, transport, control)?;
    Ok(Box::new(alloc, session)?)
}

/// A server that agrees to a data command, and says of its data that they were sent.
const SENT: &[u8] = b"220 r\r\n227 x (10,0,0,1,4,0).\r\n150 b\r\n226 d\r\n200 ok\r\n";

/// One that says that they weren't.
const NOT_SENT: &[u8] = b"220 r\r\n227 x (10,0,0,1,4,0).\r\n150 b\r\n426 no\r\n200 ok\r\n";

/// The numbers of the errors of a listing and of the command after it.
fn listed(alloc: Global, input: &[u8]) -> FtpResult<(u8, u8)> {
    let mut session = session_on(alloc, input)?;
    let list = number(session.list(alloc, &(), None));
    Ok((list, number(session.noop(alloc))))
}

/// Whether the error of a download is the reset, and the number of the error of the command after it.
fn downloaded(alloc: Global, input: &[u8]) -> FtpResult<(bool, u8)> {
    let mut session = session_on(alloc, input)?;
    let reset = is_reset(session.retr_as_buffer(alloc, &(), "a"));
    Ok((reset, number(session.noop(alloc))))
}

/// How many bytes of a download were written whose data are reset, whether its error is the reset, and whether the data
/// connection at that address is recorded as failed; and that of the next download, which has no connection.
fn written(alloc: Global, bytes: &mut Vec<u8>) -> FtpResult<(u8, bool, u8, bool)> {
    let both = b"220 r\r\n227 x (10,0,0,1,4,0).\r\n150 b\r\n426 n\r\n227 x (10,0,0,2,4,1).\r\n";
    let mut session = session_on(alloc, both)?;
    let reset = number(session.write_to(alloc, &(), "a", bytes, &mut NoProgress));
    let first = session.last_failure() == at([10, 0, 0, 1], 1024);
    let refused = number(session.retr_as_buffer(alloc, &(), "a"));
    let second = session.last_failure() == at([10, 0, 0, 2], 1025);
    Ok((reset, first, refused, second))
}

/// A failure of the data connection of this address.
fn at(host: [u8; 4], port: u16) -> Option<Failure> {
    Some(Failure::Data(Some(SocketAddr::from((host, port)))))
}

/// Whether this is the error of a connection that was reset.
fn is_reset(answer: FtpResult<Vec<u8>>) -> bool {
    let reset = match &answer {
        Err(FtpError::ConnectionError(fault)) => fault.kind() == ErrorKind::ConnectionReset,
        _ => false,
    };
    drop(answer);
    reset
}

#[test]
fn broken_data_are_no_listing_whose_last_reply_is_told_first(rt: HostRuntime) -> Result<(), Fail> {
    let came = (listed(rt.alloc(), SENT)?, listed(rt.alloc(), NOT_SENT)?);
    assert_eq!(rt; came, ((11, 0), (10, 0)));
    Ok(())
}

#[test]
fn a_fault_of_a_files_data_is_told_whatever_the_last_reply_is(rt: HostRuntime) -> Result<(), Fail> {
    let came = (
        downloaded(rt.alloc(), SENT)?,
        downloaded(rt.alloc(), NOT_SENT)?,
    );
    assert_eq!(rt; came, ((true, 0), (true, 0)));
    Ok(())
}

#[test]
fn what_came_before_a_reset_is_written_and_where_it_was_is_told(
    rt: HostRuntime,
) -> Result<(), Fail> {
    let mut bytes = Vec::new(rt.alloc());
    let came = written(rt.alloc(), &mut bytes)?;
    assert_eq!(rt;
        (bytes.as_slice(), came),
        (&b"a\r\n"[..], (1, true, 1, true))
    );
    Ok(())
}
