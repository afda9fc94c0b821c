//! What kind of file a line names.
//!
//! A link holds its target, since no other kind has one. The target is a `Text`, which contracts
//! see as its bytes. Where a line names none it is empty, as in the type `link` of MLSD.
ghost use Rattle.std.specs.Prelude.{◌≡◌};
ghost use Rattle.std.specs.Option.{option_map};
ghost use Rattle.ftp_list.specs.FileTypes.{is_directory, is_file, is_symlink, target_of};

use ftp_base::types::Text;
use std::alloc::AllocError;

/// What kind of file a listing line names.
#[derive(Debug, PartialEq, Eq, Hash, Drop)]
pub enum FileType {
    /// A directory.
    Directory,
    /// An ordinary file.
    File,
    /// A symbolic link, with the target that the line shows.
    Symlink(Text),
}

impl Clone for FileType {
    ghost is_clone = { λ old new. new ≡ old };

    /// The same file type. Only a link's target takes memory.
    fn clone(&self) -> Result<FileType, AllocError> {
        match self {
            FileType::Directory => Ok(FileType::Directory),
            FileType::File => Ok(FileType::File),
            FileType::Symlink(target) => Ok(FileType::Symlink(target.clone()?)),
        }
    }
}

impl FileType {
    /// Whether this is `Directory`.
    pub fn is_directory(&self) -> bool
        ensures { result ≡ is_directory self.now }
    {
        matches!(self, FileType::Directory)
    }

    /// Whether this is `File`.
    pub fn is_file(&self) -> bool
        ensures { result ≡ is_file self.now }
    {
        matches!(self, FileType::File)
    }

    /// Whether this is a `Symlink`.
    pub fn is_symlink(&self) -> bool
        ensures { result ≡ is_symlink self.now }
    {
        matches!(self, FileType::Symlink(_))
    }

    /// The target of a `Symlink`, else `None`.
    pub fn symlink(&self) -> Option<&str>
        ensures { option_map (λ s. s.now) result ≡ target_of self.now }
    {
        match self {
            FileType::Symlink(target) => Some(target.as_str()),
            FileType::Directory | FileType::File => None,
        }
    }
}
