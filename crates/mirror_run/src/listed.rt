//! What is listed of a folder.

use mirror_plan::{PathError, RelativePath};
use std::alloc::{AllocError, Global};

/// How many entries of one folder are read.
pub const ENTRIES: usize = 1_000_000;

/// What stands at a name of a folder.
#[derive(Clone, Copy)]
pub enum Kind {
    /// A folder.
    Folder,
    /// A file of this size, last changed so many seconds after 1970.
    File(u64, Option<i64>),
    /// A link.
    Link,
    /// A link that is taken for a folder.
    LinkedFolder,
    /// What is none of these.
    Other,
}

/// What was listed of a folder.
#[derive(Drop)]
pub struct Listed {
    /// Whether that is all that stands in it.
    pub is_whole: bool,
    /// The names, and what stands there.
    pub entries: Vec<(String, Kind)>,
}

/// A folder that is to be listed.
#[derive(Drop)]
pub struct FolderToList {
    pub number: usize,
    // none for the root
    pub path: Option<RelativePath>,
    // whether a link leads to it, and whether one leads to it or to a folder above it
    pub is_link: bool,
    pub is_linked: bool,
}

impl FolderToList {
    /// The root of a tree.
    pub fn root() -> FolderToList {
        FolderToList {
            number: 0,
            path: None,
            is_link: false,
            is_linked: false,
        }
    }

    /// Its path below a folder.
    pub fn below(&self, alloc: Global, folder: &str) -> Result<String, AllocError> {
        match &self.path {
            Some(path) => path.below(alloc, folder),
            None => String::from_str(alloc, folder),
        }
    }
}

/// The path of a name in a folder, if the name is plain.
pub fn path_of(
    alloc: Global,
    folder: &FolderToList,
    name: &str,
) -> Result<Option<RelativePath>, AllocError> {
    let path = match &folder.path {
        Some(path) => path.child(alloc, name),
        None => RelativePath::of_name(alloc, name),
    };
    match path {
        Ok(path) => Ok(Some(path)),
        Err(PathError::NotPlain) => Ok(None),
        Err(PathError::OutOfMemory) => Err(AllocError),
    }
}
