//! What a session asks of a transport whose connections can be put under TLS.

ghost use Rattle.std.specs.Prelude.{◌≡◌, ℕ, IfOk, List, Option, Result};
ghost use Rattle.std.specs.declared.alloc.Global.{Global as Memory};
ghost use Rattle.std.specs.declared.string.String.{String as Owned};
ghost use Rattle.ftp_base.specs.declared.types.fault.FtpError.{FtpError as Fault};
ghost use Rattle.ftp_transport.specs.Asking.{built_as};
ghost use Rattle.ftp_transport.specs.Told.{Told};
ghost use Rattle.ftp_secure.specs.Continues.{Continues};
ghost use Rattle.ftp_secure.specs.Gone.{gone_after};
ghost use Rattle.ftp_secure.specs.Streams.{GivesBack, told_below as told_under};

use crate::connector::Secures;
use crate::data_stream::DataStream;
use crate::gone::GoneConn;
use crate::secured::Secured;
use ftp_base::types::FtpResult;
use ftp_transport::Network;

/// A transport whose connections can be put under TLS by a connector of type `K`, and be taken from under it.
/// `SecureTransport`, which blocks, and `PollSecureTransport` put them under it.
pub trait SecureNetwork<K: Drop>: Network {
    /// The record of a connection itself, under whatever TLS.
    ghost told_below: { Self.Conn → Told };

    /// What a connection may return where it is asked for the one below: one of this record, or an error.
    ghost gives: { Self.Conn → Result Told Fault → Type 0 };

    /// What a connector may return for a server of this name and a connection of this record: a stream of this record,
    /// in clear, or the text of an error.
    ghost answers: { K → List ℕ → Told → Result Told (List ℕ) → Type 0 };

    /// The connector that was kept, and the server's name.
    ghost kept: { Self → Option (K × Owned Memory) };

    /// What stands in a connection's place while a connector has it: it is closed, and its calls fail with `NotConnected`.
    fn gone() -> Self::Conn
        ensures gone { Self.Conn.told result ≡ gone_after 0 None };

    /// Takes a connection from under TLS, as after CCC (RFC 2228, section 3; RFC 4217, section 5).
    ///
    /// # Errors
    /// The stream's error, where it can't give the connection back. It is dropped.
    fn take_off(conn: Self::Conn) -> FtpResult<Self::Conn>
        ensures gives { gives conn (built_as Self.Conn.told result) }
        ensures below { Self.Conn.tells → IfOk result
            (λ made. Continues (told_below conn) (told_below made)) }
        ensures plain { IfOk result (λ made. Self.Conn.told made ≡ told_below made) }
        ensures made { Self.Conn.tells → Self.Conn.secures (built_as Self.Conn.told result) };

    /// From now on connections are put under TLS by this connector, to a server of this name.
    fn keep(&mut self, connector: K, domain: String)
        ensures kept { Self.kept self.new ≡ Some (connector, domain) }
        ensures asked { Self.asked self.new ≡ Self.asked self.old }
        ensures ready { Self.ready self.new ≡ Self.ready self.old }
        ensures closed { Self.closed self.new ≡ Self.closed self.old }
        ensures room { Self.has_room self.old → Self.has_room self.new }
        ensures port { Self.port self.new ≡ Self.port self.old };
}

impl<Tr: Network, K: Secures<Tr::Conn>> SecureNetwork<K> for Secured<Tr, K> {
    ghost told_below = { told_under Tr.Conn.told K.Stream.below };

    ghost gives = { GivesBack Tr.Conn.told K.Stream.gives };

    ghost answers = { K.answers };

    ghost kept = { λ t. t.connector };

    fn gone() -> DataStream<Tr::Conn, K::Stream> {
        DataStream::Gone(GoneConn::new())
    }

    fn take_off(
        conn: DataStream<Tr::Conn, K::Stream>,
    ) -> FtpResult<DataStream<Tr::Conn, K::Stream>> {
        match conn.into_tcp_stream() {
            Ok(bare) => Ok(DataStream::Tcp(bare)),
            Err(fault) => Err(fault),
        }
    }

    fn keep(&mut self, connector: K, domain: String) {
        self.connector = Some((connector, domain));
    }
}
