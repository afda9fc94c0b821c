//! TLS as a transport (RFC 4217): a connector that the caller hands in puts connections under it.
//!
//! There is no TLS here. `TlsConnector`, or `AsyncTlsConnector` where calls are polled, makes a `TlsStream` of a
//! connection, and `DataStream` is a connection that may be under TLS: it is read and written as any other, and its
//! record is of what goes over it in clear. `Secured` makes any transport one of such connections, and `SecureNetwork` is
//! what a session asks of it after AUTH, CCC or a data command. What is proved rests on what the connector's own contract
//! says; that it keeps anything secret isn't covered by any proof.
#![tactic(auto)]

mod connector;
mod data_conn;
mod data_poll;
mod data_stream;
mod gone;
mod none;
mod polled_connector;
mod secure_calls;
mod secure_network;
mod secured;
mod secured_calls;
mod secured_polls;
mod stream;

pub use connector::{Secures, TlsConnector};
pub use data_stream::DataStream;
pub use gone::GoneConn;
pub use none::{AsyncNoTlsStream, NoTlsConnector, NoTlsStream};
pub use polled_connector::AsyncTlsConnector;
pub use secure_calls::SecureTransport;
pub use secure_network::SecureNetwork;
pub use secured::Secured;
pub use stream::{AsyncTlsStream, TlsStream};
