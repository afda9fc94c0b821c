//! A file of a listing of a sort that only its server's system has, as a device or a socket.
ghost use Rattle.std.specs.Prelude.{◌≡◌};

use ftp_base::types::Text;

/// A file of a type of the server's own (RFC 3659, section 7.5.1.5), other than a symbolic link.
#[derive(Clone, Debug, PartialEq, Eq, Hash, Drop)]
pub struct OtherFile {
    pub(crate) name: Text,
    pub(crate) kind: Text,
}

impl OtherFile {
    /// The name.
    pub fn name(&self) -> &str
        ensures { result.now ≡ self.now.name }
    {
        self.name.as_str()
    }

    /// The type as the server sent it, as `OS.unix=blkdev-8/1`.
    pub fn kind(&self) -> &str
        ensures { result.now ≡ self.now.kind }
    {
        self.kind.as_str()
    }
}
