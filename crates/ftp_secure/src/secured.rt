//! A transport whose connections may be under TLS.
//!
//! Requests go to the transport below, and its connections come back as they are: they are put under TLS when the session
//! asks for it, by the connector that it had kept. A handshake that waits is kept beside it. Data connections that are over
//! are handed to the transport below, which takes plain ones; from the first under TLS on they are kept beside it, so that
//! their records stay in order. A stream that needs no record (`TlsStream::is_recorded`), as one over a socket, is dropped.

ghost use Rattle.std.specs.Prelude.{◌≡◌, ◌<◌, [], length, vec_capacity};
ghost use Rattle.ftp_secure.specs.Kept.{over_in_clear};
ghost use Rattle.ftp_secure.specs.Securing.{SecuresAsKept};
ghost use Rattle.ftp_secure.specs.Streams.{GivesBack, told_in_clear};

use crate::connector::Secures;
use crate::data_stream::DataStream;
use crate::stream::TlsStream;
use ftp_transport::Network;
use std::alloc::{AllocError, Global};
use std::net::SocketAddr;

/// A transport whose connections may be under TLS, over a transport `Tr`. `K` is the connector.
pub struct Secured<Tr: Network, K: Secures<Tr::Conn>> {
    pub(crate) below: Tr,
    // What puts connections under TLS, and the server's name.
    pub(crate) connector: Option<(K, String)>,
    // The data connection that is being put under TLS.
    pub(crate) connecting: Option<K::Connecting>,
    // The data connections that are over, from the first that the transport below couldn't take.
    over: Vec<DataStream<Tr::Conn, K::Stream>>,
}

impl<Tr: Network, K: Secures<Tr::Conn>> Drop for Secured<Tr, K> {
    fn drop(self) {
        let Self {
            below,
            connector,
            connecting,
            over,
        } = self;
        drop(below);
        drop(connector);
        drop(connecting);
        drop(over);
    }
}

impl<Tr: Network, K: Secures<Tr::Conn>> Secured<Tr, K> {
    /// A transport over this one, without a connector. Nothing is allocated.
    pub fn new(alloc: Global, below: Tr) -> Secured<Tr, K>
        ensures below { result.below ≡ below }
        ensures connector { result.connector ≡ None }
        ensures over { result.over.items ≡ [] }
    {
        Secured {
            below,
            connector: None,
            connecting: None,
            over: Vec::new(alloc),
        }
    }

    /// The transport below.
    pub fn get_ref(&self) -> &Tr
        ensures { result.now ≡ self.now.below }
    {
        &self.below
    }

    /// The data connections that are over, from the first on that the transport below couldn't take.
    pub fn over(&self) -> &[DataStream<Tr::Conn, K::Stream>]
        ensures { result.now ≡ self.now.over.items }
    {
        self.over.as_slice()
    }
}

impl<Tr: Network, K: Secures<Tr::Conn>> Network for Secured<Tr, K> {
    type Conn = DataStream<Tr::Conn, K::Stream>;

    type Listener = Tr::Listener;

    ghost asked = { λ t. Tr.asked t.below };

    ghost ready = { λ t. Tr.ready t.below };

    ghost refuses = { Tr.refuses };

    ghost accept_refuses = { Tr.accept_refuses };

    ghost port = { λ t. Tr.port t.below };

    ghost binds = { Tr.binds };

    ghost closed = { λ t.
        over_in_clear Tr.Conn.told K.Stream.told (Tr.closed t.below) t.over.items };

    ghost handshake = { λ t conn outcome. SecuresAsKept K.answers t.connector
        (GivesBack Tr.Conn.told K.Stream.gives conn) (told_in_clear Tr.Conn.told K.Stream.told conn)
        outcome };

    ghost has_room = { λ t. Tr.has_room t.below × (length t.over.items < vec_capacity t.over) };

    fn make_room(&mut self) -> Result<(), AllocError> {
        self.below.make_room()?;
        self.over.reserve(1)
    }

    fn note_build(&mut self, address: SocketAddr) -> Result<(), AllocError> {
        self.below.note_build(address)
    }

    fn closed(&mut self, conn: DataStream<Tr::Conn, K::Stream>) {
        match conn {
            DataStream::Tcp(conn) if self.over.is_empty() => self.below.closed(conn),
            DataStream::Ssl(stream) if !stream.is_recorded() => {}
            other => {
                let _ = self.over.push(other);
            }
        }
    }
}
