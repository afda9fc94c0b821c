//! Permissions of a file: what its owner, its group and all others may do.
//!
//! They are three named fields and no number, since a listing shows letters and only the fact
//! `UNIX.mode` shows bits. By default all is allowed: a server that says nothing of permissions
//! decides by itself what it lets a user do.
/// What one of a file's three classes of users may do.
#[derive(Clone, Copy, Debug, PartialEq, Eq, Hash)]
pub struct PosixPex {
    /// Whether they may read it (4).
    pub read: bool,
    /// Whether they may write it (2).
    pub write: bool,
    /// Whether they may execute it (1).
    pub execute: bool,
}

/// The three classes of users, as a caller asks for one of them.
#[derive(Clone, Copy, Debug, PartialEq, Eq)]
pub enum PosixPexQuery {
    /// The file's owner.
    Owner,
    /// The file's group.
    Group,
    /// All others.
    Others,
}

impl Default for PosixPex {
    ghost use Rattle.ftp_list.specs.Pex.{full_pex};
    ghost use Rattle.std.specs.Prelude.{◌≡◌};

    ghost is_default = { λ p. p ≡ full_pex };

    /// All three are allowed.
    fn default() -> PosixPex {
        PosixPex {
            read: true,
            write: true,
            execute: true,
        }
    }
}

impl From<u8> for PosixPex {
    ghost use Rattle.ftp_list.specs.Pex.{pex_of_bits};
    ghost use Rattle.std.specs.Prelude.{◌≡◌};

    ghost from_gives = { λ bits p. p ≡ pex_of_bits bits };

    /// The bits 4, 2 and 1.
    fn from(bits: u8) -> PosixPex {
        PosixPex {
            read: bits / 4 % 2 == 1,
            write: bits / 2 % 2 == 1,
            execute: bits % 2 == 1,
        }
    }
}
