//! A runtime is such a system.

use crate::listed::Listed;
use crate::problem::Problem;
use crate::report::Went;
use crate::system::{Change, Connection, System};
use crate::task::Site;
use crate::{here, there};
use ftp_base::types::{FtpError, FtpResult};
use ftp_shared::FromOffset;
use std::alloc::Global;
use std::fs::OpenOptions;
use std::io::{Seek, SeekFrom};
use std::net::{Net, TcpListener, TcpStream};
use std::rt::Files;
use std::sync::Wait;
use std::time::{Clock, Duration, Instant};
use std::{fs, io, thread};

/// The result of a call of a client.
fn of_server<T: Drop>(alloc: Global, came: FtpResult<T>) -> Result<T, Problem> {
    match came {
        Ok(value) => Ok(value),
        Err(fault) => Err(Problem::of_server(alloc, fault)),
    }
}

/// The result of a call that works on a path here.
fn of_file<T: Drop>(alloc: Global, path: &str, came: io::Result<T>) -> Result<T, Problem> {
    match came {
        Ok(value) => Ok(value),
        Err(error) => Err(Problem::of_file(alloc, path, error)),
    }
}

impl<
    R: Net<Listener = TcpListener, Stream = TcpStream>
        + Clock
        + Wait
        + Files
        + AllocGlobal
        + Clone
        + Drop
        + Print
        + Eprint,
> System for R {
    fn alloc(&self) -> Global {
        Alloc::alloc(self)
    }

    fn print(&self, line: &str) {
        let _ = println!(self; "{line}");
    }

    fn complain(&self, line: &str) {
        let _ = eprintln!(self; "{line}");
    }

    fn draw(&self, text: &str) {
        let _ = print!(self; "{text}");
    }

    fn pause(&self, time: Duration) {
        thread::sleep(self, time);
    }

    fn moment(&self) -> Option<Instant> {
        Instant::now(self).ok()
    }

    fn connect(&self, site: &Site) -> Result<Connection, Problem> {
        of_server(Alloc::alloc(self), there::connect(self, site))
    }

    fn quit(&self, connection: Connection) {
        let Connection {
            client,
            lists_facts: _,
            has_mfmt: _,
        } = connection;
        let _ = client.quit(self);
    }

    fn is_lost(&self, connection: &Connection) -> bool {
        connection.client.failed(self)
    }

    fn list_there(
        &self,
        connection: &Connection,
        path: &str,
        follows_links: bool,
    ) -> Result<Listed, Problem> {
        let alloc = Alloc::alloc(self);
        let listing = of_server(alloc, there::list(self, connection, path))?;
        let mut listed = there::listed_as(alloc, &listing)?;
        drop(listing);
        if follows_links {
            of_server(alloc, there::follow(self, connection, path, &mut listed))?;
        }
        Ok(listed)
    }

    fn change_there(&self, connection: &Connection, change: Change<'_>) -> Result<(), Problem> {
        let client = &connection.client;
        let done = match change {
            Change::MakeFolder(path) => client.mkdir(self, path),
            Change::RemoveFile(path) => client.rm(self, path),
            Change::RemoveFolder(path) => client.rmdir(self, path),
        };
        of_server(Alloc::alloc(self), done)
    }

    fn length_there(&self, connection: &Connection, path: &str) -> Option<u64> {
        match connection.client.size(self, path) {
            Ok(length) => Some(length as u64),
            Err(_) => None,
        }
    }

    fn rename_there(&self, connection: &Connection, from: &str, to: &str) -> Result<(), Problem> {
        let client = &connection.client;
        let done = match client.rename(self, from, to) {
            Err(FtpError::UnexpectedResponse(reply)) => {
                drop(reply);
                let _ = client.rm(self, to);
                client.rename(self, from, to)
            }
            other => other,
        };
        of_server(Alloc::alloc(self), done)
    }

    fn set_time_there(
        &self,
        connection: &Connection,
        path: &str,
        seconds: i64,
    ) -> Result<(), Problem> {
        if !connection.has_mfmt {
            return Ok(());
        }
        let Some(time) = there::time_of(seconds) else {
            return Ok(());
        };
        match connection.client.set_modified(self, path, time) {
            Err(FtpError::UnexpectedResponse(reply)) => {
                drop(reply);
                Ok(())
            }
            other => of_server(Alloc::alloc(self), other),
        }
    }

    fn fetch(
        &self,
        connection: &Connection,
        source: &str,
        into: &str,
        offset: u64,
        went: &mut Went<'_>,
    ) -> Result<u64, Problem> {
        let alloc = Alloc::alloc(self);
        let mut options = OpenOptions::new();
        if offset > 0 {
            options.append(true);
        } else {
            options.write(true).create(true).truncate(true);
        }
        let mut file = match options.open(self, into) {
            Ok(file) => file,
            Err(error) => return Err(Problem::of_file(alloc, into, error)),
        };
        let client = &connection.client;
        of_server(
            alloc,
            client.download_to(self, source, &mut file, offset, went),
        )
    }

    fn send(
        &self,
        connection: &Connection,
        source: &str,
        into: &str,
        offset: u64,
        went: &mut Went<'_>,
    ) -> Result<u64, Problem> {
        let alloc = Alloc::alloc(self);
        let mut file = match fs::open(self, source) {
            Ok(file) => file,
            Err(error) => return Err(Problem::of_file(alloc, source, error)),
        };
        let client = &connection.client;
        if offset == 0 {
            return of_server(alloc, client.put_file_with(self, into, &mut file, went));
        }
        if let Err(error) = file.seek(SeekFrom::Start(offset)) {
            return Err(Problem::of_file(alloc, source, error));
        }
        let mut went = FromOffset::new(offset, went);
        of_server(
            alloc,
            client.append_file_with(self, into, &mut file, &mut went),
        )
    }

    fn list_here(&self, path: &str) -> Result<Listed, Problem> {
        of_file(Alloc::alloc(self), path, here::list(self, path))
    }

    fn change_here(&self, change: Change<'_>) -> Result<(), Problem> {
        let (path, done) = match change {
            Change::MakeFolder(path) => (path, fs::create_dir_all(self, path)),
            Change::RemoveFile(path) => (path, fs::remove_file(self, path)),
            Change::RemoveFolder(path) => (path, fs::remove_dir(self, path)),
        };
        of_file(Alloc::alloc(self), path, done)
    }

    fn length_here(&self, path: &str) -> Option<u64> {
        match fs::metadata(self, path) {
            Ok(metadata) => Some(metadata.len()),
            Err(_) => None,
        }
    }

    fn rename_here(&self, from: &str, to: &str) -> Result<(), Problem> {
        of_file(Alloc::alloc(self), from, fs::rename(self, from, to))
    }

    fn set_time_here(&self, path: &str, seconds: i64) -> Result<(), Problem> {
        of_file(
            Alloc::alloc(self),
            path,
            here::set_time(self, path, seconds),
        )
    }
}
