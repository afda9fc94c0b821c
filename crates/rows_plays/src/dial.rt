//! How a row's session comes to its connection, where the row says so.

use crate::memory::ended;
use ftp_transport::{MemoryConn, MemoryTransport, Supply};
use rows_text::{RowError, bytes_of, pair, value};
use std::alloc::{AllocError, Global};
use std::io::ErrorKind;
use std::net::SocketAddr;
use std::time::Duration;

/// The addresses that are connected to in turn, and what becomes of it.
#[derive(Drop)]
pub struct Dial {
    /// The addresses.
    pub addresses: Vec<SocketAddr>,
    /// How long each may take.
    pub limit: Option<Duration>,
    /// What the server at each of the addresses sends that connects; none where it refuses.
    hosts: Vec<Option<Vec<u8>>>,
}

impl Dial {
    /// No address is connected to.
    pub fn new(alloc: Global) -> Dial {
        Dial {
            addresses: Vec::new(alloc),
            limit: None,
            hosts: Vec::new(alloc),
        }
    }

    /// Adds a server that connects and sends these bytes.
    pub fn add_host(&mut self, alloc: Global, bytes: &str) -> Result<(), RowError> {
        self.hosts.push(Some(bytes_of(alloc, bytes)?))?;
        Ok(())
    }

    /// Adds a server that refuses.
    pub fn add_refusal(&mut self) -> Result<(), RowError> {
        self.hosts.push(None)?;
        Ok(())
    }

    /// The addresses are these: joined by commas, or `none`.
    pub fn connect(&mut self, alloc: Global, words: &str) -> Result<(), RowError> {
        if words == "none" {
            return Ok(());
        }
        self.addresses = words.split(',').map(value).try_collect(alloc)?;
        Ok(())
    }

    /// The address is this one, within so many seconds: `SECONDS ADDRESS`.
    pub fn connect_within(&mut self, words: &str) -> Result<(), RowError> {
        let (seconds, address) = pair(words, " ")?;
        self.limit = Some(Duration::from_secs(value(seconds)?));
        self.addresses.push(value(address)?)?;
        Ok(())
    }

    /// The bytes of the server that is connected to; none where no server is.
    pub fn input(&self, alloc: Global) -> Result<Vec<u8>, AllocError> {
        if !self.has_no_time() {
            for (host, _address) in self.hosts.iter().zip(self.addresses.iter()) {
                if let Some(bytes) = host {
                    return Vec::from_slice(alloc, bytes);
                }
            }
        }
        Ok(Vec::new(alloc))
    }

    /// Whether there is a limit of no time.
    fn has_no_time(&self) -> bool {
        match self.limit {
            Some(limit) => limit.is_zero(),
            None => false,
        }
    }

    /// The transport that leads to these servers.
    pub fn transport(&self, alloc: Global) -> Result<MemoryTransport, AllocError> {
        let mut transport = MemoryTransport::new(alloc);
        self.supply(alloc, &mut transport)?;
        Ok(transport)
    }

    /// Supplies a transport with these servers.
    fn supply(&self, alloc: Global, transport: &mut MemoryTransport) -> Result<(), AllocError> {
        for host in &self.hosts {
            transport.supply(match host {
                Some(bytes) => Supply::Connects(ended(MemoryConn::new(alloc), bytes)?),
                None => Supply::Refuses(ErrorKind::ConnectionRefused),
            })?;
        }
        Ok(())
    }
}
