//! A connection that may be under TLS.

ghost use Rattle.std.specs.Prelude.{◌≡◌, IfOk};
ghost use Rattle.std.specs.Option.{option_copied};
ghost use Rattle.ftp_transport.specs.Asking.{built_as};
ghost use Rattle.ftp_secure.specs.Continues.{Continues};
ghost use Rattle.ftp_secure.specs.Streams.{GivesBack, conn_below, told_below};
ghost use Rattle.ftp_secure.specs.declared.data_stream.DataStream.TheVariants as stream;

use crate::gone::GoneConn;
use crate::stream::TlsStream;
use ftp_base::types::{ConnectionError, FtpError, FtpResult};
use ftp_transport::Tells;
use std::io::ErrorKind;

/// A connection as it is, or under TLS. It is read and written by [`Conn`](ftp_transport::Conn), or polled by
/// [`PollConn`](ftp_transport::PollConn).
#[derive(Drop)]
pub enum DataStream<C, S> {
    /// The connection as it is.
    Tcp(C),
    /// The connection under TLS.
    Ssl(S),
    /// What is left where a connector took the connection and gave nothing back.
    #[doc(hidden)]
    Gone(GoneConn),
}

impl<C: Tells + Drop, S: TlsStream<C>> DataStream<C, S> {
    /// The connection itself, from which TLS is taken where it is under it.
    ///
    /// # Errors
    /// The stream's, where it can't give the connection back; `NotConnected` where a connector took it.
    pub fn into_tcp_stream(self) -> FtpResult<C>
        ensures plain { (conn : C) → self ≡ stream.Tcp conn → result ≡ Ok conn }
        ensures gives { GivesBack C.told S.gives self (built_as C.told result) }
        ensures continues { C.tells → IfOk result
            (λ conn. Continues (told_below C.told S.below self) (C.told conn)) }
    {
        match self {
            DataStream::Tcp(conn) => Ok(conn),
            DataStream::Ssl(stream) => stream.tcp_stream(),
            DataStream::Gone(_) => Err(FtpError::ConnectionError(ConnectionError::Io(
                ErrorKind::NotConnected,
            ))),
        }
    }

    /// The connection itself, under whatever TLS; none where a connector took it.
    pub fn get_ref(&self) -> Option<&C>
        ensures { option_copied result ≡ conn_below S.below self.now }
    {
        match self {
            DataStream::Tcp(conn) => Some(conn),
            DataStream::Ssl(stream) => Some(stream.get_ref()),
            DataStream::Gone(_) => None,
        }
    }
}
