//! The features in the reply to FEAT (RFC 2389, section 3.2).

ghost use Rattle.std.specs.Prelude.{◌≡◌, IfOk};
ghost use Rattle.ftp_calls.specs.Answers.{features_in};

use crate::answers::lines::lines_of;
use ftp_base::command::feat::parse_features;
use ftp_base::types::{Features, FtpError};
use std::alloc::{AllocError, Global};

/// The features of a whole reply to FEAT, the lines of its list included; `None` where they break the form of such a
/// reply. Each line is read lossily as UTF-8 by itself.
///
/// # Errors
/// `AllocError`.
pub fn read_features(alloc: Global, body: &[u8]) -> Result<Option<Features>, AllocError>
    ensures { IfOk result (λ features. features ≡ features_in body.now) }
{
    let lines = lines_of(alloc, body)?;
    match parse_features(alloc, &lines) {
        Ok(features) => Ok(Some(features)),
        Err(FtpError::BadResponse) => Ok(None),
        Err(_) => Err(AllocError),
    }
}
