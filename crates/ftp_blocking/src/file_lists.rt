//! A directory's files, whichever listing its server has: the facts of `MLSD` (RFC 3659, section 7), or else the lines of
//! `LIST` (RFC 959, section 4.1.3), whose form no RFC fixes.

use super::ImplFtpStream;
use ftp_base::encoding::Encoding;
use ftp_base::types::{FtpError, FtpResult};
use ftp_list::{File, Listing};
use ftp_shared::has_facts;
use ftp_transport::{Conn, Network, PassiveStreamBuilder, Transport};
use jiff::Timestamp;
use std::sync::Wait;
use std::time::Clock;

impl<Tr: Network, K: Drop, E: Encoding, B: PassiveStreamBuilder<Tr::Conn>> ImplFtpStream<
    Tr,
    K,
    E,
    B,
>
where
    Tr::Conn: Conn,
{
    /// The files of this directory, or of the current one, as [`list_entries`](Self::list_entries) lists them: without the directory itself and its
    /// parents, and without what in `MLSD` only the server's system has, as a device.
    ///
    /// # Errors
    /// Those of `list_entries`; `BadResponse` where one of the lines can't be read, as that of a device in `LIST`.
    pub fn list_files<R: Wait + Clock + AllocGlobal>(
        &self,
        rt: &R,
        path: Option<&str>,
    ) -> FtpResult<Vec<File>>
    where
        Tr: Transport<R>,
    {
        match self.list_entries(rt, path)?.into_files() {
            Some(files) => Ok(files),
            None => Err(FtpError::BadResponse),
        }
    }

    /// The listing of this directory, or of the current one: its files, the directory itself and its parents where the server
    /// lists them, what only the server's system has, and the lines that can't be read. By `MLSD`, where the reply to `FEAT`
    /// names `MLST`, which stands for both (RFC 3659, section 7.8), or `MLSD`; else, and where the server refuses `FEAT`, by
    /// `LIST`. The lines are read by [`Listing::of_mlsd`] or [`Listing::of_list`]. `FEAT` and the listing are a hold of the
    /// lock each.
    ///
    /// # Errors
    /// Those of `feat`, but for `UnexpectedResponse`; those of `mlsd` or `list`. After a listing by `LIST` `BadResponse`,
    /// where the present moment can't be read, by which a line that names no year is dated; `OutOfMemory`.
    pub fn list_entries<R: Wait + Clock + AllocGlobal>(
        &self,
        rt: &R,
        path: Option<&str>,
    ) -> FtpResult<Listing>
    where
        Tr: Transport<R>,
    {
        let has_facts = self.lists_facts(rt)?;
        self.listing(rt, has_facts, path)
    }

    /// The listing of a directory: by `MLSD` where the server has facts, else by `LIST`.
    pub(crate) fn listing<R: Wait + Clock + AllocGlobal>(
        &self,
        rt: &R,
        has_facts: bool,
        path: Option<&str>,
    ) -> FtpResult<Listing>
    where
        Tr: Transport<R>,
    {
        if has_facts {
            let lines = self.mlsd(rt, path)?;
            return Ok(Listing::of_mlsd(rt.alloc(), &lines)?);
        }
        let lines = self.list(rt, path)?;
        match Timestamp::now(rt) {
            Ok(now) => Ok(Listing::of_list(rt.alloc(), &lines, now)?),
            Err(_) => Err(FtpError::BadResponse),
        }
    }

    /// Whether the server says that it has `MLSD`.
    pub(crate) fn lists_facts<R: Wait + AllocGlobal>(&self, rt: &R) -> FtpResult<bool> {
        match self.features(rt)? {
            Some(features) => Ok(has_facts(&features)),
            None => Ok(false),
        }
    }
}
