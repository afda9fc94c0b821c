//! Names in UTF-8 (RFC 2640), where a server has to be asked for them.

use super::ImplFtpStream;
use ftp_base::encoding::Encoding;
use ftp_base::status::Status;
use ftp_base::types::{Features, FtpError, FtpResult};
use ftp_shared::{UTF8, UTF8_ON, has_feature};
use ftp_transport::{Conn, Network};
use std::sync::Wait;

impl<Tr: Network, K: Drop, E: Encoding, B: Drop> ImplFtpStream<Tr, K, E, B>
where
    Tr::Conn: Conn,
{
    /// Has the server send and read names in UTF-8: `FEAT` (211; RFC 2389, section 3), and where that names `UTF8`, `OPTS`
    /// (200, 202; RFC 2389, section 4) of `UTF8 ON`. RFC 2640 has the feature, and servers have added the option. Returns
    /// whether that was accepted. The client's own names are UTF-8 all along, unless it has another encoding. `FEAT` and
    /// `OPTS` are a hold of the lock each.
    ///
    /// # Errors
    /// Those of `feat`, but for `UnexpectedResponse`: a server that refuses `FEAT` or `OPTS` has accepted nothing.
    pub fn use_utf8<R: Wait + AllocGlobal>(&self, rt: &R) -> FtpResult<bool> {
        match self.features(rt)? {
            Some(features) if has_feature(&features, UTF8) => {}
            _ => return Ok(false),
        }
        let accepted = [Status::CommandOk, Status::CommandNotImplemented];
        match self.custom_command(rt, UTF8_ON, &accepted) {
            Ok(_reply) => Ok(true),
            Err(FtpError::UnexpectedResponse(_reply)) => Ok(false),
            Err(fault) => Err(fault),
        }
    }

    /// What the server can do beyond the basics, where it says that.
    pub(crate) fn features<R: Wait + AllocGlobal>(&self, rt: &R) -> FtpResult<Option<Features>> {
        match self.feat(rt) {
            Ok(features) => Ok(Some(features)),
            Err(FtpError::UnexpectedResponse(_reply)) => Ok(None),
            Err(fault) => Err(fault),
        }
    }
}
