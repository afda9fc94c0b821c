//! A server of a program's own on loopback, so that the programs of README.md run as they stand.
#![tactic(auto)]

mod files;
mod serving;

use std::alloc::AllocError;
use std::net::{Net, TcpListener, TcpStream};
use std::thread::{JoinHandle, Threads};
use std::{io, thread};

/// A server of a few files, on threads of its own.
#[derive(Drop)]
pub struct OwnServer {
    address: String,
    clients: Vec<JoinHandle<io::Result<()>>>,
}

impl OwnServer {
    /// Serves so many clients, each on a thread.
    ///
    /// # Errors
    /// An error of the system, or `OutOfMemory`.
    pub fn start<R>(rt: &R, clients: usize) -> io::Result<OwnServer>
    where
        R: Net<Listener = TcpListener, Stream = TcpStream> + AllocGlobal + Threads,
    {
        let listener = TcpListener::bind(rt, "127.0.0.1:0")?;
        let mut server = OwnServer {
            address: format!(in rt.alloc(); "{}", listener.local_addr()?)?,
            clients: Vec::new(rt.alloc()),
        };
        for _ in 0..clients {
            server.clients.push(started(rt, listener.try_clone()?)?)?;
        }
        Ok(server)
    }

    /// Where it listens, as `127.0.0.1:2121`.
    pub fn address(&self) -> &str {
        self.address.as_str()
    }

    /// Waits until all clients have quit.
    ///
    /// # Errors
    /// What a thread met first, as where a client is gone before it quits.
    pub fn join<R: Threads>(self, rt: &R) -> io::Result<()> {
        for client in self.clients {
            client.join(rt)?;
        }
        Ok(())
    }
}

/// A thread that serves the next client.
fn started<R>(rt: &R, listener: TcpListener) -> io::Result<JoinHandle<io::Result<()>>>
where
    R: Net<Listener = TcpListener, Stream = TcpStream> + AllocGlobal + Threads,
{
    let alloc = rt.alloc();
    let data = TcpListener::bind(rt, "127.0.0.1:0")?;
    match thread::spawn(rt, move || serving::serve(alloc, &listener, data)) {
        Ok(client) => Ok(client),
        Err(error) => Err(AllocError::from(error).into()),
    }
}
