//! What a mirror needs of the system: the network, the files here, the screen and the clock.
//!
//! A bound on a type parameter is stated at each call, so the functions of a mirror have this one, and `Threads` and `Sync`
//! where they start threads.

use crate::listed::Listed;
use crate::problem::Problem;
use crate::report::Went;
use crate::task::Site;
use ftp_base::encoding::Latin1Encoding;
use ftp_blocking::ImplFtpStream;
use ftp_session::session::NoTlsConnector;
use ftp_transport::TcpTransport;
use std::alloc::Global;
use std::sync::Wait;
use std::time::{Duration, Instant};

/// A client. Its names are UTF-8, until it is told otherwise.
pub type Client = ImplFtpStream<TcpTransport, NoTlsConnector, Latin1Encoding>;

/// A client that has logged in, and which of the server's features (RFC 2389) it uses.
#[derive(Drop)]
pub struct Connection {
    pub(crate) client: Client,
    /// Whether folders are listed by `MLSD` (RFC 3659, section 7), and not by `LIST`.
    pub(crate) lists_facts: bool,
    /// Whether the server has `MFMT`.
    pub(crate) has_mfmt: bool,
}

/// What is done at a path, but for copying a file.
#[derive(Clone, Copy)]
pub enum Change<'p> {
    MakeFolder(&'p str),
    RemoveFile(&'p str),
    RemoveFolder(&'p str),
}

/// What a mirror needs of the system.
pub trait System: Wait {
    /// The allocator.
    fn alloc(&self) -> Global;

    /// Prints a line.
    fn print(&self, line: &str);

    /// Prints a line on standard error.
    fn complain(&self, line: &str);

    /// Writes a text to the terminal as it is, with what moves the cursor.
    fn draw(&self, text: &str);

    /// Waits so long.
    fn pause(&self, time: Duration);

    /// The present moment, where the clock can be read.
    fn moment(&self) -> Option<Instant>;

    /// A connection to a site, on which files are moved as they are.
    ///
    /// # Errors
    /// Those of connecting and logging in.
    fn connect(&self, site: &Site) -> Result<Connection, Problem>;

    /// Ends a session.
    fn quit(&self, connection: Connection);

    /// Whether a connection is lost.
    fn is_lost(&self, connection: &Connection) -> bool;

    /// What stands in a folder of the server, by its path. What a link leads to is looked at where `follows_links`.
    ///
    /// # Errors
    /// Those of listing.
    fn list_there(
        &self,
        connection: &Connection,
        path: &str,
        follows_links: bool,
    ) -> Result<Listed, Problem>;

    /// Makes or removes what stands at a path of the server.
    ///
    /// # Errors
    /// Those of the command.
    fn change_there(&self, connection: &Connection, change: Change<'_>) -> Result<(), Problem>;

    /// How long a file of the server is, where it says that.
    fn length_there(&self, connection: &Connection, path: &str) -> Option<u64>;

    /// Renames a file of the server. Where it renames over no file, that is removed first.
    ///
    /// # Errors
    /// Those of the commands.
    fn rename_there(&self, connection: &Connection, from: &str, to: &str) -> Result<(), Problem>;

    /// Sets the time of a file of the server, in seconds since 1970, where that has `MFMT`.
    ///
    /// # Errors
    /// The connection is lost.
    fn set_time_there(
        &self,
        connection: &Connection,
        path: &str,
        seconds: i64,
    ) -> Result<(), Problem>;

    /// Downloads what follows an offset to the end of a file here, or the whole file to a new one. Returns how many bytes
    /// came.
    ///
    /// # Errors
    /// Those of the server and of the file here.
    fn fetch(
        &self,
        connection: &Connection,
        source: &str,
        into: &str,
        offset: u64,
        went: &mut Went<'_>,
    ) -> Result<u64, Problem>;

    /// Uploads what follows an offset to the end of a file of the server, or the whole file to a new one. Returns how many
    /// bytes went out.
    ///
    /// # Errors
    /// Those of the server and of the file here.
    fn send(
        &self,
        connection: &Connection,
        source: &str,
        into: &str,
        offset: u64,
        went: &mut Went<'_>,
    ) -> Result<u64, Problem>;

    /// What stands in a folder here. A part of a file is passed over.
    ///
    /// # Errors
    /// The folder can't be read.
    fn list_here(&self, path: &str) -> Result<Listed, Problem>;

    /// Makes or removes what stands at a path here. A folder is made with those above it.
    ///
    /// # Errors
    /// It can't be done.
    fn change_here(&self, change: Change<'_>) -> Result<(), Problem>;

    /// How long what stands at a path here is, if something does.
    fn length_here(&self, path: &str) -> Option<u64>;

    /// Renames a file here, in place of what had the new name.
    ///
    /// # Errors
    /// It can't be done.
    fn rename_here(&self, from: &str, to: &str) -> Result<(), Problem>;

    /// Sets the time of a file here, in seconds since 1970.
    ///
    /// # Errors
    /// It can't be done.
    fn set_time_here(&self, path: &str, seconds: i64) -> Result<(), Problem>;
}
