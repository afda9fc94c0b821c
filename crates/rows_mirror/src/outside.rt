//! What a row needs of the system: a folder, a server in a thread of its own, and standard output.
//!
//! A bound on a type parameter is stated at each call, so the functions of rows have this one alone.

use crate::served::Served;
use crate::server::{STOP, serve};
use std::alloc::{AllocError, Global};
use std::fs::{FileTimes, OpenFile};
use std::io::{Read, Write};
use std::net::{Net, SocketAddr, TcpListener, TcpStream};
use std::rt::Files;
use std::sync::Wait;
use std::thread::{JoinHandle, Threads};
use std::time::{Clock, Duration, SystemTime};
use std::{fs, io, thread};

/// 2024-01-02 03:04:05, in seconds since 1970: when the files were last changed that a row begins with.
const MODIFIED: u64 = 1_704_164_645;

/// A server in a thread of its own.
#[derive(Drop)]
pub struct Serving {
    /// Where it listens.
    pub address: SocketAddr,
    thread: JoinHandle<io::Result<Served>>,
}

/// What a row needs of the system.
pub trait Outside: Wait {
    fn alloc(&self) -> Global;

    fn print(&self, line: &str) -> io::Result<()>;

    /// Makes a folder, and those above it.
    fn make_folder(&self, path: &str) -> io::Result<()>;

    /// Removes a folder and all in it.
    fn remove_all(&self, path: &str) -> io::Result<()>;

    /// Writes a file, and sets its time.
    fn write_file(&self, path: &str, bytes: &[u8]) -> io::Result<()>;

    fn read_file(&self, path: &str) -> io::Result<Vec<u8>>;

    /// The names in a folder, and whether each is a folder.
    fn list(&self, path: &str) -> io::Result<Vec<(String, bool)>>;

    /// Serves on loopback, in a thread of its own.
    fn serve(&self, served: Served) -> io::Result<Serving>;

    /// Stops a server; what it has then.
    fn stop(&self, serving: Serving) -> io::Result<Served>;
}

impl<
    R: Net<Listener = TcpListener, Stream = TcpStream>
        + Clock
        + Wait
        + Threads
        + Files
        + AllocGlobal
        + Clone
        + Drop
        + Print
        + Eprint
        + Sync,
> Outside for R {
    fn alloc(&self) -> Global {
        Alloc::alloc(self)
    }

    fn print(&self, line: &str) -> io::Result<()> {
        println!(self; "{line}")
    }

    fn make_folder(&self, path: &str) -> io::Result<()> {
        fs::create_dir_all(self, path)
    }

    fn remove_all(&self, path: &str) -> io::Result<()> {
        fs::remove_dir_all(self, path)
    }

    fn write_file(&self, path: &str, bytes: &[u8]) -> io::Result<()> {
        let mut file = fs::create(self, path)?;
        file.write_all(bytes)?;
        match SystemTime::UNIX_EPOCH.checked_add(Duration::from_secs(MODIFIED)) {
            Some(time) => file.set_times(FileTimes::new().set_modified(time)),
            None => Ok(()),
        }
    }

    fn read_file(&self, path: &str) -> io::Result<Vec<u8>> {
        fs::read(self, path)
    }

    fn list(&self, path: &str) -> io::Result<Vec<(String, bool)>> {
        let alloc = Alloc::alloc(self);
        let mut entries = Vec::new(alloc);
        for entry in fs::read_dir(self, path)? {
            let entry = entry?;
            let name = String::from_str(alloc, entry.file_name())?;
            entries.push((name, entry.metadata()?.is_dir()))?;
        }
        Ok(entries)
    }

    fn serve(&self, served: Served) -> io::Result<Serving> {
        let alloc = Alloc::alloc(self);
        let listener = TcpListener::bind(self, "127.0.0.1:0")?;
        let data = TcpListener::bind(self, "127.0.0.1:0")?;
        let address = listener.local_addr()?;
        match thread::spawn(self, move || serve(alloc, &listener, &data, served)) {
            Ok(thread) => Ok(Serving { address, thread }),
            Err(error) => Err(AllocError::from(error).into()),
        }
    }

    fn stop(&self, serving: Serving) -> io::Result<Served> {
        let Serving { address, thread } = serving;
        let mut stream = TcpStream::connect(self, address)?;
        stream.write_all(STOP.as_bytes())?;
        stream.write_all(b"\r\n")?;
        let mut greeting = Vec::new(Alloc::alloc(self));
        stream.read_to_end(&mut greeting)?;
        thread.join(self)
    }
}
