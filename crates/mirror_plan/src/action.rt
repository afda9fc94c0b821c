//! What a plan has its caller do, and what it leaves undone.

use crate::path::RelativePath;

/// One step of a plan.
#[derive(Debug, Drop)]
pub enum Action {
    /// Make a folder. Its own folder is there.
    MakeFolder(RelativePath),
    /// Copy a file, over the one that is there if there is one. Its folder is there.
    Copy {
        /// The path in both trees.
        path: RelativePath,
        /// The size in the first tree, in bytes.
        size: u64,
        /// The time of the last change in the first tree, in seconds since 1970, if that is known.
        modified: Option<i64>,
    },
    /// Remove a file.
    RemoveFile(RelativePath),
    /// Remove a folder, which is empty by then.
    RemoveFolder(RelativePath),
}

/// Why a path is left as it is.
#[derive(Clone, Copy, Debug, PartialEq, Eq)]
pub enum Reason {
    /// One tree has a file and the other a folder, at the path or above it.
    KindDiffers,
    /// One tree has something that is no file and no folder, at the path or above it.
    NotAFileOrFolder,
    /// It would be removed, but the listing that has it, or that lacks it, wasn't whole.
    ListingNotWhole,
    /// The folder would be removed, but something below it is left.
    NotEmptied,
}

/// A path that a plan leaves as it is.
#[derive(Debug, Drop)]
pub struct Undone {
    /// The path.
    pub path: RelativePath,
    /// Why it is left.
    pub reason: Reason,
}

/// What to do so that one tree becomes like another, in this order, and what is left undone.
#[derive(Debug, Drop)]
pub struct Plan {
    /// The steps.
    pub actions: Vec<Action>,
    /// The paths that are left as they are.
    pub undone: Vec<Undone>,
}
