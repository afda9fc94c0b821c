//! A folder and all below it. What is listed next, what is entered and where a walk ends is `ftp_shared`'s [`Walk`].

use super::ImplFtpStream;
use ftp_base::encoding::Encoding;
use ftp_base::types::{FtpError, FtpResult};
use ftp_shared::{Place, Visitor, Walk, WalkLimits};
use ftp_transport::{Conn, Network, PassiveStreamBuilder, Transport};
use std::sync::Wait;
use std::time::Clock;

impl<Tr: Network, K: Drop, E: Encoding, B: PassiveStreamBuilder<Tr::Conn>> ImplFtpStream<
    Tr,
    K,
    E,
    B,
>
where
    Tr::Conn: Conn,
{
    /// Shows a folder's entries and those of the folders below it to a visitor, depth first, as [`list_entries`](Self::list_entries)
    /// lists them: by `MLSD` (150, 125; RFC 3659, section 7) or by `LIST`; `FEAT` (211) is asked once. An empty path is the current
    /// directory. The visitor says which folders are entered, and is told what is passed over: a folder that the server
    /// refuses to list, lines that can't be read, what lies too deep or is too many, names that lead elsewhere. What links
    /// lead to isn't looked at. No lock is held while the visitor runs, so it may call the client.
    ///
    /// # Errors
    /// Those of `list_entries`, but for `UnexpectedResponse`; the visitor's.
    pub fn walk<R: Wait + Clock + AllocGlobal, V: Visitor>(
        &self,
        rt: &R,
        path: &str,
        limits: WalkLimits,
        visitor: &mut V,
    ) -> FtpResult<()>
    where
        Tr: Transport<R>,
    {
        let has_facts = self.lists_facts(rt)?;
        let mut walk = Walk::new(rt.alloc(), path, limits)?;
        for _ in 0..u64::MAX {
            let Some(folder) = walk.next_folder(visitor)? else {
                break;
            };
            self.visit(rt, has_facts, &mut walk, &folder, visitor)?;
        }
        Ok(())
    }

    /// Lists a folder of a walk, and shows what is in it.
    fn visit<R: Wait + Clock + AllocGlobal, V: Visitor>(
        &self,
        rt: &R,
        has_facts: bool,
        walk: &mut Walk,
        folder: &Place,
        visitor: &mut V,
    ) -> FtpResult<()>
    where
        Tr: Transport<R>,
    {
        let path = walk.path(rt.alloc(), folder)?;
        match self.listing(rt, has_facts, Some(path.as_str())) {
            Ok(listing) => walk.visit(rt.alloc(), folder, &listing, visitor),
            Err(FtpError::UnexpectedResponse(reply)) => walk.refused(folder, &reply, visitor),
            Err(fault) => Err(fault),
        }
    }
}
