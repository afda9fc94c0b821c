//! What is asked of a server.

use crate::listed::{ENTRIES, Kind, Listed};
use crate::problem::Problem;
use crate::system::{Client, Connection};
use crate::task::Site;
use ftp_base::encoding::Latin1Encoding;
use ftp_base::types::{Features, FtpError, FtpResult, Mode};
use ftp_list::{File, Listing, is_plain_name};
use ftp_shared::{ConnectOptions, UTF8, has_facts, has_feature};
use jiff::Timestamp;
use jiff::civil::DateTime;
use jiff::tz::{Offset, TimeZone};
use std::alloc::{AllocError, Global};
use std::net::{Net, TcpListener, TcpStream};
use std::sync::Wait;
use std::time::Clock;

/// A connection to a site, on which files are moved as they are.
///
/// # Errors
/// Those of connecting and logging in.
pub fn connect<R>(rt: &R, site: &Site) -> FtpResult<Connection>
where
    R: Net<Listener = TcpListener, Stream = TcpStream> + Clock + Wait + AllocGlobal,
{
    let client = Client::connect_with(rt, &options_of(rt.alloc(), site)?)?;
    let features = match client.feat(rt) {
        Ok(features) => Some(features),
        Err(FtpError::UnexpectedResponse(reply)) => {
            drop(reply);
            None
        }
        Err(fault) => return Err(fault),
    };
    settle_names(rt, site, &client, &features)?;
    let (lists_facts, has_mfmt) = match &features {
        Some(features) => (has_facts(features), has_feature(features, "MFMT")),
        None => (false, false),
    };
    Ok(Connection {
        client,
        lists_facts,
        has_mfmt,
    })
}

/// How a client of a site is made.
///
/// # Errors
/// `AllocError`.
fn options_of(alloc: Global, site: &Site) -> Result<ConnectOptions, AllocError> {
    let (user, password) = (site.user.as_str(), site.password.as_str());
    let mut options = ConnectOptions::new(alloc, site.address.as_str(), user, password)?;
    options.set_limit(site.limit);
    options.set_lenient_replies(site.is_lenient);
    if site.is_active {
        options.set_mode(Mode::Active);
    }
    Ok(options)
}

/// Has the server send names as they are read here: a byte a character, or UTF-8 (RFC 2640) where it says that it has that,
/// or doesn't say what it has.
fn settle_names<R>(
    rt: &R,
    site: &Site,
    client: &Client,
    features: &Option<Features>,
) -> FtpResult<()>
where
    R: Wait + AllocGlobal,
{
    if site.is_latin1 {
        return client.set_encoding(rt, Latin1Encoding);
    }
    if let Some(features) = features {
        if !has_feature(features, UTF8) {
            return Ok(());
        }
    }
    match client.opts(rt, UTF8, Some("ON")) {
        Err(FtpError::UnexpectedResponse(reply)) => {
            drop(reply);
            Ok(())
        }
        other => other,
    }
}

/// The listing of a folder of the server: by `MLSD`, or else by `LIST`.
///
/// # Errors
/// Those of the command; `BadResponse` where the present moment can't be read, by which a line of `LIST` is dated.
pub fn list<R>(rt: &R, connection: &Connection, path: &str) -> FtpResult<Listing>
where
    R: Net<Listener = TcpListener, Stream = TcpStream> + Clock + Wait + AllocGlobal,
{
    let path = if path.is_empty() { None } else { Some(path) };
    if connection.lists_facts {
        let lines = connection.client.mlsd(rt, path)?;
        return Ok(Listing::of_mlsd(rt.alloc(), &lines)?);
    }
    let lines = connection.client.list(rt, path)?;
    match Timestamp::now(rt) {
        Ok(now) => Ok(Listing::of_list(rt.alloc(), &lines, now)?),
        Err(_) => Err(FtpError::BadResponse),
    }
}

/// What a listing says. It is whole where each line was read, and there aren't too many.
///
/// # Errors
/// Out of memory.
pub fn listed_as(alloc: Global, listing: &Listing) -> Result<Listed, AllocError> {
    let mut entries = Vec::new(alloc);
    for file in listing.files.iter().take(ENTRIES) {
        entries.push((String::from_str(alloc, file.name())?, kind_of(file)))?;
    }
    for other in listing.others.iter().take(ENTRIES) {
        entries.push((String::from_str(alloc, other.name())?, Kind::Other))?;
    }
    Ok(Listed {
        is_whole: listing.unread.is_empty()
            && listing.files.len() <= ENTRIES
            && listing.others.len() <= ENTRIES,
        entries,
    })
}

/// What a listed file is.
fn kind_of(file: &File) -> Kind {
    if file.is_directory() {
        Kind::Folder
    } else if file.is_file() {
        let seconds = i64::try_from(file.modified().as_secs()).ok();
        Kind::File(file.size() as u64, seconds.filter(|seconds| *seconds > 0))
    } else {
        Kind::Link
    }
}

/// Puts in the place of each link what it leads to.
///
/// # Errors
/// The connection is lost, or out of memory.
pub fn follow<R>(
    rt: &R,
    connection: &Connection,
    folder: &str,
    listed: &mut Listed,
) -> FtpResult<()>
where
    R: Wait + AllocGlobal,
{
    for entry in &mut listed.entries {
        if matches!(entry.1, Kind::Link) && is_plain_name(entry.0.as_str()) {
            entry.1 = led_to(rt, connection, folder, entry.0.as_str())?;
        }
    }
    Ok(())
}

/// What a link leads to: a file where the server says how long it is, which it says of no folder (RFC 3659, section 4), and
/// else, until it is listed, a folder.
fn led_to<R>(rt: &R, connection: &Connection, folder: &str, name: &str) -> FtpResult<Kind>
where
    R: Wait + AllocGlobal,
{
    let folder = if folder.is_empty() { "." } else { folder };
    let path = format!(in rt.alloc(); "{folder}/{name}")?;
    let length = match connection.client.size(rt, path.as_str()) {
        Ok(length) => length as u64,
        Err(FtpError::UnexpectedResponse(reply)) => {
            drop(reply);
            return Ok(Kind::LinkedFolder);
        }
        Err(fault) => return Err(fault),
    };
    match connection.client.mdtm(rt, path.as_str()) {
        Ok(time) => Ok(Kind::File(length, seconds_of(time))),
        Err(FtpError::UnexpectedResponse(reply)) => {
            drop(reply);
            Ok(Kind::File(length, None))
        }
        Err(fault) => Err(fault),
    }
}

/// A time in seconds since 1970, of UTC (RFC 3659, section 2.3).
fn seconds_of(time: DateTime) -> Option<i64> {
    match TimeZone::UTC.to_timestamp(time) {
        Ok(time) => Some(time.as_second()),
        Err(_) => None,
    }
}

/// The date and time of UTC that is so many seconds after 1970 (RFC 3659, section 2.3).
pub fn time_of(seconds: i64) -> Option<DateTime> {
    match Timestamp::from_second(seconds) {
        Ok(time) => Some(Offset::UTC.to_datetime(time)),
        Err(_) => None,
    }
}
