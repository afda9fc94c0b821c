//! Putting connections under TLS by calls that return only when they are done.

ghost use Rattle.std.specs.Prelude.{IfOk};
ghost use Rattle.ftp_transport.specs.Asking.{built_as};
ghost use Rattle.ftp_secure.specs.Connectors.{IsUnused};
ghost use Rattle.ftp_secure.specs.Continues.{Continues};
ghost use Rattle.ftp_secure.specs.Securing.{SecuresBy};

use crate::connector::TlsConnector;
use crate::data_stream::DataStream;
use crate::secure_network::SecureNetwork;
use crate::secured::Secured;
use ftp_base::types::{FtpError, FtpResult, Text};
use ftp_transport::Network;

/// A transport that puts connections under TLS, and returns when it is done.
pub trait SecureTransport<K: Drop>: SecureNetwork<K> {
    /// Puts a connection under TLS, to a server of this name. One that is under TLS is taken from under it first.
    ///
    /// # Errors
    /// `SecureError` with the connector's text; the stream's error, where one under TLS can't be taken from under it.
    /// The connection is dropped.
    fn put_under(connector: &K, domain: &str, conn: Self::Conn) -> FtpResult<Self::Conn>
        ensures secures { SecuresBy (Self.gives conn) (Self.answers connector.now domain.now)
            (built_as Self.Conn.told result) }
        ensures below { Self.Conn.tells → IfOk result
            (λ made. Continues (Self.told_below conn) (Self.told_below made)) }
        ensures unused { Self.Conn.tells → IfOk result (λ made. IsUnused (Self.Conn.told made)) }
        ensures made { Self.Conn.tells → Self.Conn.secures (built_as Self.Conn.told result) };
}

impl<Tr: Network, K: TlsConnector<Tr::Conn>> SecureTransport<K> for Secured<Tr, K> {
    fn put_under(
        connector: &K,
        domain: &str,
        conn: DataStream<Tr::Conn, K::Stream>,
    ) -> FtpResult<DataStream<Tr::Conn, K::Stream>> {
        match conn.into_tcp_stream() {
            Ok(bare) => match connector.connect(domain, bare) {
                Ok(stream) => Ok(DataStream::Ssl(stream)),
                Err(text) => Err(FtpError::SecureError(Text::from_string(text))),
            },
            Err(fault) => Err(fault),
        }
    }
}
