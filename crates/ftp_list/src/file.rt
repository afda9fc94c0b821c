//! One file of a listing, whatever form its line had.
//!
//! Its fields are private, so that the nanoseconds stay below a second and a later form may keep
//! more. Contracts see a file as an `Entry`, which has texts as bytes and nothing of memory.
ghost use Rattle.std.specs.Prelude.{◌≡◌, ◌+◌, ◌*◌};
ghost use Rattle.std.specs.Option.{option_map};
ghost use Rattle.std.specs.Duration.{as_nanos};
ghost use Rattle.ftp_list.specs.Names.{is_plain_name};
ghost use Rattle.ftp_list.specs.FileTypes.{is_directory, is_file, is_symlink, target_of};

use crate::file_type::FileType;
use crate::names;
use crate::pex::{PosixPex, PosixPexQuery};
use ftp_base::types::Text;
use std::alloc::AllocError;
use std::marker::Model;
use std::time::Duration;

/// One file of a listing.
#[derive(Debug, PartialEq, Eq, Hash)]
pub struct File {
    pub(crate) name: Text,
    pub(crate) file_type: FileType,
    pub(crate) size: usize,
    /// Whole seconds since the Unix epoch.
    pub(crate) seconds: u64,
    pub(crate) nanoseconds: u32,
    pub(crate) uid: Option<u32>,
    pub(crate) gid: Option<u32>,
    pub(crate) owner: PosixPex,
    pub(crate) group: PosixPex,
    pub(crate) others: PosixPex,
}

impl Drop for File {
    fn drop(self) {
        let Self {
            name,
            file_type,
            size: _,
            seconds: _,
            nanoseconds: _,
            uid: _,
            gid: _,
            owner: _,
            group: _,
            others: _,
        } = self;
        drop(name);
        drop(file_type);
    }
}

impl Model for File {
    ghost use Rattle.std.specs.Prelude.{◌<◌};
    ghost use Rattle.ftp_list.specs.Entry.{Entry};

    ghost Value = { Entry };

    ghost view = { λ f. record {
      name = f.name;
      file_type = f.file_type;
      size = f.size;
      seconds = f.seconds;
      nanoseconds = f.nanoseconds;
      uid = f.uid;
      gid = f.gid;
      owner = f.owner;
      group = f.group;
      others = f.others;
    } };

    ghost invariant = { λ f. f.nanoseconds < 1_000_000_000 };

    ghost inverse = { λ e. record {
      name = e.name;
      file_type = e.file_type;
      size = e.size;
      seconds = e.seconds;
      nanoseconds = e.nanoseconds;
      uid = e.uid;
      gid = e.gid;
      owner = e.owner;
      group = e.group;
      others = e.others;
    } };
}

impl Clone for File {
    ghost is_clone = { λ old new. new ≡ old };

    /// The same file.
    fn clone(&self) -> Result<File, AllocError> {
        Ok(File {
            name: self.name.clone()?,
            file_type: self.file_type.clone()?,
            ..*self
        })
    }
}

impl File {
    ghost use Rattle.ftp_list.specs.Entry.{pex_at};

    /// The name.
    pub fn name(&self) -> &str
        ensures { result.now ≡ self.now.name }
    {
        self.name.as_str()
    }

    /// The name, taken out of the file.
    pub(crate) fn into_name(self) -> Text
        ensures { result ≡ self.name }
    {
        let Self {
            name,
            file_type,
            size: _,
            seconds: _,
            nanoseconds: _,
            uid: _,
            gid: _,
            owner: _,
            group: _,
            others: _,
        } = self;
        drop(file_type);
        name
    }

    /// Whether the name can be that of a file in a local directory: [`is_plain_name`](crate::is_plain_name).
    pub fn is_plain_name(&self) -> bool
        ensures { result ≡ is_plain_name self.now.name }
    {
        names::is_plain_name(self.name())
    }

    /// The kind of file.
    pub fn file_type(&self) -> &FileType
        ensures { result.now ≡ self.now.file_type }
    {
        &self.file_type
    }

    /// The size in bytes.
    pub fn size(&self) -> usize
        ensures { result ≡ self.now.size }
    {
        self.size
    }

    /// The span from the Unix epoch to the last change, zero for times before it.
    pub fn modified(&self) -> Duration
        ensures { as_nanos result ≡ self.now.seconds * 1_000_000_000 + self.now.nanoseconds }
    {
        Duration::new(self.seconds, self.nanoseconds)
    }

    /// The number of the user who owns the file, where the line has one.
    pub fn uid(&self) -> Option<u32>
        ensures { result ≡ self.now.uid }
    {
        self.uid
    }

    /// The number of the group that owns the file, where the line has one.
    pub fn gid(&self) -> Option<u32>
        ensures { result ≡ self.now.gid }
    {
        self.gid
    }

    /// Whether the file is a directory.
    pub fn is_directory(&self) -> bool
        ensures { result ≡ is_directory self.now.file_type }
    {
        self.file_type.is_directory()
    }

    /// Whether the file is an ordinary file.
    pub fn is_file(&self) -> bool
        ensures { result ≡ is_file self.now.file_type }
    {
        self.file_type.is_file()
    }

    /// Whether the file is a link.
    pub fn is_symlink(&self) -> bool
        ensures { result ≡ is_symlink self.now.file_type }
    {
        self.file_type.is_symlink()
    }

    /// The target of a link, else `None`.
    pub fn symlink(&self) -> Option<&str>
        ensures { option_map (λ s. s.now) result ≡ target_of self.now.file_type }
    {
        self.file_type.symlink()
    }

    /// Whether these users may read the file.
    pub fn can_read(&self, who: PosixPexQuery) -> bool
        ensures { result ≡ (pex_at self.now who).read }
    {
        self.pex(who).read
    }

    /// Whether these users may write the file.
    pub fn can_write(&self, who: PosixPexQuery) -> bool
        ensures { result ≡ (pex_at self.now who).write }
    {
        self.pex(who).write
    }

    /// Whether these users may execute the file.
    pub fn can_execute(&self, who: PosixPexQuery) -> bool
        ensures { result ≡ (pex_at self.now who).execute }
    {
        self.pex(who).execute
    }

    fn pex(&self, who: PosixPexQuery) -> PosixPex
        ensures { result ≡ pex_at self.now who }
    {
        match who {
            PosixPexQuery::Owner => self.owner,
            PosixPexQuery::Group => self.group,
            PosixPexQuery::Others => self.others,
        }
    }
}
