//! How a row's session comes to its data connections: what it is set to, the ends of its control connection, and what
//! its transport is supplied with.

use crate::builder::RowBuilder;
use crate::bytewise::{ByteBuilder, ByteSession};
use crate::memory::ended;
use crate::session::NamedSession;
use crate::settings::setting;
use ftp_session::session::{Setting, State};
use ftp_transport::{MemoryConn, MemoryTransport, Supply};
use rows_text::{RowError, bytes_of, value};
use std::alloc::{AllocError, Global};
use std::io::ErrorKind;
use std::net::{Ipv4Addr, SocketAddr, SocketAddrV4};

/// What the next request results in that consumes one.
#[derive(Drop)]
enum Item {
    /// A connect is done, and these bytes come on the data connection.
    Connects(Vec<u8>),
    /// An accept: a peer comes from this address, and these bytes on its connection.
    Comes(SocketAddr, Vec<u8>),
    /// Either is refused.
    Refuses(ErrorKind),
}

/// The settings of a row's session, the ends of its connection and what its transport is supplied with.
pub struct Setup {
    /// Whether the session reads replies leniently.
    pub lenient: bool,
    // The one way in which it does, where the row is played in one alone.
    only: Option<bool>,
    state: State,
    local: SocketAddr,
    peer: SocketAddr,
    port: u16,
    items: Vec<Item>,
    builder: Option<Box<RowBuilder>>,
}

impl Drop for Setup {
    fn drop(self) {
        let Self {
            lenient: _,
            only: _,
            state,
            local: _,
            peer: _,
            port: _,
            items,
            builder,
        } = self;
        drop(state);
        drop(items);
        drop(builder);
    }
}

impl Setup {
    /// A session as it begins, between ends without an address, over a transport without connections.
    pub fn new(alloc: Global) -> Setup {
        let unspecified = SocketAddr::V4(SocketAddrV4::new(Ipv4Addr::new(0, 0, 0, 0), 0));
        Setup {
            lenient: false,
            only: None,
            state: State::new(),
            local: unspecified,
            peer: unspecified,
            port: 0,
            items: Vec::new(alloc),
            builder: None,
        }
    }

    /// Takes a word of a setting, an end or a supply, with what stands after it.
    pub fn take(&mut self, alloc: Global, word: &str, argument: &str) -> Result<(), RowError> {
        match word {
            "lenient" => self.only = Some(true),
            "strict" => self.only = Some(false),
            "local" => self.local = value(argument)?,
            "peer" => self.peer = value(argument)?,
            "listens" => self.port = value(argument)?,
            "comes" => self.comes(alloc, argument)?,
            "refuses" => self.items.push(Item::Refuses(kind(argument)?))?,
            _ => self.change(setting(alloc, word, argument)?),
        }
        Ok(())
    }

    /// Has the session read replies leniently, or strictly; whether the row is played so.
    pub fn reads(&mut self, lenient: bool) -> bool {
        self.lenient = lenient;
        self.only.is_none_or(|only| only == lenient)
    }

    /// A setting changes.
    fn change(&mut self, setting: Setting) {
        match setting {
            Setting::Mode(mode) => self.state.settings.mode = mode,
            Setting::PassiveNatWorkaround(enabled) => {
                self.state.settings.passive_nat_workaround = enabled;
            }
            Setting::ActivePeerCheck(check) => self.state.settings.active_peer_check = check,
            Setting::ActiveDeadline(deadline) => self.state.settings.active_deadline = deadline,
            Setting::LenientReplies(lenient) => self.only = Some(lenient),
        }
    }

    /// A data connection connects, and these bytes come on it.
    pub fn connects(&mut self, alloc: Global, bytes: &str) -> Result<(), RowError> {
        self.items.push(Item::Connects(bytes_of(alloc, bytes)?))?;
        Ok(())
    }

    /// The session has this builder of data connections.
    pub fn has_builder(&mut self, builder: Box<RowBuilder>) {
        self.builder = Some(builder);
    }

    /// A peer comes: `ADDRESS`, or `ADDRESS BYTES` with what comes on its connection.
    fn comes(&mut self, alloc: Global, words: &str) -> Result<(), RowError> {
        let (address, bytes) = words.split_once(' ').unwrap_or((words, ""));
        let from = value(address)?;
        self.items.push(Item::Comes(from, bytes_of(alloc, bytes)?))?;
        Ok(())
    }

    /// The ends of the control connection: the client's and the server's.
    pub fn ends(&self) -> (SocketAddr, SocketAddr) {
        (self.local, self.peer)
    }

    /// Sets a session so.
    pub fn set(&self, session: &mut NamedSession) -> Result<(), AllocError> {
        session.set_mode(self.state.settings.mode);
        session.set_passive_nat_workaround(self.state.settings.passive_nat_workaround);
        session.set_active_peer_check(self.state.settings.active_peer_check.clone()?);
        session.set_active_deadline(self.state.settings.active_deadline);
        session.set_lenient_replies(self.lenient);
        if let Some(builder) = &self.builder {
            session.set_passive_stream_builder(builder.again()?);
        }
        Ok(())
    }

    /// Sets a session so whose connections take one byte a write; whether its data connections give all that is asked
    /// for.
    pub fn set_bytewise(
        &self,
        session: &mut ByteSession,
        gives_all: bool,
    ) -> Result<(), AllocError> {
        session.set_mode(self.state.settings.mode);
        session.set_passive_nat_workaround(self.state.settings.passive_nat_workaround);
        session.set_active_peer_check(self.state.settings.active_peer_check.clone()?);
        session.set_active_deadline(self.state.settings.active_deadline);
        session.set_lenient_replies(self.lenient);
        if let Some(builder) = &self.builder {
            session.set_passive_stream_builder(ByteBuilder::new(builder.again()?, gives_all));
        }
        Ok(())
    }

    /// The transport with these supplies.
    pub fn transport(&self, alloc: Global) -> Result<MemoryTransport, AllocError> {
        let mut transport = MemoryTransport::new(alloc);
        transport.listens_on(self.port);
        self.supply(alloc, &mut transport)?;
        Ok(transport)
    }

    /// Supplies a transport with the items.
    fn supply(&self, alloc: Global, transport: &mut MemoryTransport) -> Result<(), AllocError> {
        for item in &self.items {
            transport.supply(match item {
                Item::Connects(bytes) => Supply::Connects(conn_of(alloc, bytes)?),
                Item::Comes(address, bytes) => Supply::Peer(*address, conn_of(alloc, bytes)?),
                Item::Refuses(kind) => Supply::Refuses(*kind),
            })?;
        }
        Ok(())
    }
}

/// A connection on which these bytes came, and ended.
fn conn_of(alloc: Global, bytes: &[u8]) -> Result<MemoryConn, AllocError> {
    ended(MemoryConn::new(alloc), bytes)
}

/// A kind of error by its name.
fn kind(word: &str) -> Result<ErrorKind, RowError> {
    match word {
        "ConnectionRefused" => Ok(ErrorKind::ConnectionRefused),
        "ConnectionReset" => Ok(ErrorKind::ConnectionReset),
        "NotConnected" => Ok(ErrorKind::NotConnected),
        _ => Err(RowError::NotUnderstood),
    }
}
