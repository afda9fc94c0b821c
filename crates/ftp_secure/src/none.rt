//! No TLS: types without values, for clients that are never secured.

/// No connection under TLS. There is no value of it.
#[derive(Drop)]
pub enum NoTlsStream {}

/// No connection under TLS of a polled client. There is no value of it.
#[derive(Drop)]
pub enum AsyncNoTlsStream {}

/// No connector: a client without TLS. There is no value of it.
#[derive(Drop)]
pub enum NoTlsConnector {}
