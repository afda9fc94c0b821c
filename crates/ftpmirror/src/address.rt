//! Addresses of a server's folder.

use anyhow::{Context, Result, bail};
use mirror_run::Site;
use percent_encoding::percent_decode_str;
use std::alloc::Global;
use std::env;
use std::io::{BufRead, Input};
use std::rt::Env;
use std::time::Duration;
use url::Url;

/// The site of an address, `ftp://[user[:password]@]host[:port]/folder`.
///
/// # Errors
/// The text is no such address, or out of memory.
pub fn site_of<R>(rt: &R, text: &str, asks: bool) -> Result<Site>
where
    R: AllocGlobal + Env + Input,
{
    let alloc = rt.alloc();
    let url = Url::parse(alloc, text).context(format_args!("{text} is no address"))?;
    if url.scheme() != "ftp" {
        bail!("{text} isn't of FTP: ftp://[user[:password]@]host[:port]/folder");
    }
    let host = url.host_str().context("the address has no host")?;
    let port = url.port_or_known_default().unwrap_or(21);
    let user = decoded(alloc, url.username())?;
    let is_anonymous = user.is_empty();
    let password = match url.password() {
        Some(password) => decoded(alloc, password)?,
        None => secret(rt, asks)?,
    };
    Ok(Site {
        address: format!(in alloc; "{host}:{port}")?,
        user: if is_anonymous {
            String::from_str(alloc, "anonymous")?
        } else {
            user
        },
        password: if is_anonymous && password.is_empty() {
            String::from_str(alloc, "guest@")?
        } else {
            password
        },
        folder: folder_of(alloc, url.path())?,
        limit: Duration::from_secs(30),
        is_active: false,
        is_lenient: false,
        is_latin1: false,
    })
}

/// A text of an address, without its escapes.
fn decoded(alloc: Global, text: &str) -> Result<String> {
    let text = percent_decode_str(text)
        .decode_utf8(alloc)
        .context("the address")?;
    Ok(text.into_owned(alloc)?)
}

/// The folder of an address's path: it begins where the login leads to (RFC 1738, section 3.2.2).
fn folder_of(alloc: Global, path: &str) -> Result<String> {
    let path = path.strip_prefix('/').unwrap_or(path);
    let path = path.strip_suffix('/').unwrap_or(path);
    decoded(alloc, path)
}

/// The password that doesn't stand in the address.
fn secret<R>(rt: &R, asks: bool) -> Result<String>
where
    R: AllocGlobal + Env + Input,
{
    if asks {
        let mut line = String::new(rt.alloc());
        rt.reader().read_line(&mut line)?;
        let password = line.trim_end_matches(['\r', '\n'].as_slice());
        return Ok(String::from_str(rt.alloc(), password)?);
    }
    match env::var(rt, "FTP_PASSWORD") {
        Ok(password) => Ok(password),
        Err(_) => Ok(String::new(rt.alloc())),
    }
}
