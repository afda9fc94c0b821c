//! A transport whose connections may be under TLS, as one whose calls block.

use crate::connector::TlsConnector;
use crate::data_stream::DataStream;
use crate::secure_calls::SecureTransport;
use crate::secured::Secured;
use ftp_transport::{Accepted, Connected, Handshaken, Listening, Transport};
use std::net::SocketAddr;
use std::time::Duration;

impl<R, Tr: Transport<R>, K: TlsConnector<Tr::Conn>> Transport<R> for Secured<Tr, K> {
    fn connect(
        &mut self,
        rt: &R,
        address: SocketAddr,
    ) -> Connected<DataStream<Tr::Conn, K::Stream>> {
        match self.below.connect(rt, address) {
            Ok(Ok(conn)) => Ok(Ok(DataStream::Tcp(conn))),
            Ok(Err(fault)) => Ok(Err(fault)),
            Err(full) => Err(full),
        }
    }

    fn connect_timeout(
        &mut self,
        rt: &R,
        address: SocketAddr,
        limit: Duration,
    ) -> Connected<DataStream<Tr::Conn, K::Stream>> {
        match self.below.connect_timeout(rt, address, limit) {
            Ok(Ok(conn)) => Ok(Ok(DataStream::Tcp(conn))),
            Ok(Err(fault)) => Ok(Err(fault)),
            Err(full) => Err(full),
        }
    }

    fn listen(&mut self, rt: &R, address: SocketAddr) -> Listening<Tr::Listener> {
        self.below.listen(rt, address)
    }

    fn accept(
        &mut self,
        rt: &R,
        listener: &mut Tr::Listener,
        deadline: Duration,
    ) -> Accepted<DataStream<Tr::Conn, K::Stream>> {
        match self.below.accept(rt, listener, deadline) {
            Ok(Ok((conn, peer))) => Ok(Ok((DataStream::Tcp(conn), peer))),
            Ok(Err(fault)) => Ok(Err(fault)),
            Err(full) => Err(full),
        }
    }

    fn secure(
        &mut self,
        _rt: &R,
        conn: DataStream<Tr::Conn, K::Stream>,
    ) -> Handshaken<DataStream<Tr::Conn, K::Stream>> {
        match &self.connector {
            Some((connector, domain)) => {
                let domain = domain.as_str();
                Ok(<Secured<Tr, K> as SecureTransport<K>>::put_under(connector, domain, conn))
            }
            None => Ok(Ok(conn)),
        }
    }
}
