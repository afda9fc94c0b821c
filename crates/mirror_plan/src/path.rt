//! Paths below the root of a mirror.
//!
//! A server may list any name. A path is a [`Place`], plain names alone, so that it can't lead out of the root.
ghost use Rattle.std.specs.Prelude.{◌≡◌, ◌++◌, [], ◌∷◌, ◌↔◌, ◌<◌, true, false, length, IfOk, OnOk, IsTrue, string_bytes};
ghost use Rattle.ftp_list.specs.Names.{is_plain_name};
ghost use Rattle.ftp_shared.specs.Places.{joined};
ghost use Rattle.mirror_plan.specs.Paths.{is_inside, parent_of, path_cmp, is_below};

use ftp_shared::{Place, PlaceName};
use std::alloc::{AllocError, Global};
use std::cmp::Ordering;
use std::marker::Model;
use thiserror::Error;

/// Why no path was made.
#[derive(Debug, PartialEq, Eq, Drop, Error)]
pub enum PathError {
    /// The name isn't plain: it is empty, `.` or `..`, or has a `/`, `\\`, NUL, CR or LF.
    #[error("the name isn't plain")]
    NotPlain,
    /// An allocation failed.
    #[error("out of memory")]
    OutOfMemory,
}

impl From<AllocError> for PathError {
    ghost use Rattle.mirror_plan.specs.declared.path.PathError.TheVariants.{OutOfMemory};

    ghost from_gives = { λ _ e. e ≡ OutOfMemory };

    fn from(_e: AllocError) -> PathError {
        PathError::OutOfMemory
    }
}

/// A place below the root of a mirror, which isn't the root itself: one or more plain names, the outermost first.
///
/// Contracts see it as the list of its names.
#[derive(Debug, Drop)]
pub struct RelativePath {
    place: Place,
}

impl Model for RelativePath {
    ghost use Rattle.std.specs.Prelude.{IsTrue};
    ghost use Rattle.mirror_plan.specs.Paths.{Path, is_inside};

    ghost Value = { Path };

    ghost view = { λ path. path.place };

    ghost invariant = { λ path. IsTrue (is_inside path.place) };
}

impl Clone for RelativePath {
    ghost is_clone = { λ old new. new ≡ old };

    /// The same path.
    fn clone(&self) -> Result<RelativePath, AllocError> {
        Ok(RelativePath {
            place: self.place.clone()?,
        })
    }
}

impl RelativePath {
    /// The path of a name in the root.
    ///
    /// # Errors
    /// `NotPlain` if and only if the name isn't plain; `OutOfMemory`.
    pub fn of_name(alloc: Global, name: &str) -> Result<RelativePath, PathError>
        ensures path { IfOk result (λ path. path ≡ name.now ∷ []) }
        ensures plain { OnOk result (is_plain_name name.now ≡ true) }
        ensures not_plain { (result ≡ Err PathError.NotPlain) ↔ (is_plain_name name.now ≡ false) }
    {
        inside(&Place::root(alloc), alloc, name)
    }

    /// The path of a name in the folder of this path.
    ///
    /// # Errors
    /// `NotPlain` if and only if the name isn't plain; `OutOfMemory`.
    pub fn child(&self, alloc: Global, name: &str) -> Result<RelativePath, PathError>
        ensures path { IfOk result (λ path. path ≡ self.now ++ name.now ∷ []) }
        ensures plain { OnOk result (is_plain_name name.now ≡ true) }
        ensures not_plain { (result ≡ Err PathError.NotPlain) ↔ (is_plain_name name.now ≡ false) }
    {
        inside(&self.place, alloc, name)
    }

    /// The names, the outermost first.
    pub fn names(&self) -> &[PlaceName]
        ensures names { result.now ≡ self.now }
        ensures inside { IsTrue (is_inside result.now) }
    {
        self.place.names()
    }

    /// How many names it has: 1 in the root.
    pub fn depth(&self) -> usize
        ensures depth { result ≡ length self.now }
        ensures some { 0 < result }
    {
        self.place.depth()
    }

    /// The last name.
    pub fn name(&self) -> &str
        ensures { self.now ≡ parent_of self.now ++ result.now ∷ [] }
    {
        let names = self.place.names();
        names[names.len() - 1].as_str()
    }

    /// The path of the file in a local directory: the directory's, and then each name after a `/`, as
    /// [`Place::below`](ftp_shared::Place::below) has it.
    ///
    /// # Errors
    /// `AllocError`.
    pub fn below(&self, alloc: Global, root: &str) -> Result<String, AllocError>
        ensures path { IfOk result (λ text. string_bytes text ≡ joined root.now self.now) }
        ensures stays { IsTrue (is_inside self.now) }
    {
        self.place.below(alloc, root)
    }
}

/// The path of a name in this folder.
fn inside(folder: &Place, alloc: Global, name: &str) -> Result<RelativePath, PathError>
    ensures path { IfOk result (λ path. path ≡ folder.now ++ name.now ∷ []) }
    ensures plain { OnOk result (is_plain_name name.now ≡ true) }
    ensures not_plain { (result ≡ Err PathError.NotPlain) ↔ (is_plain_name name.now ≡ false) }
{
    match folder.child(alloc, name)? {
        Some(place) => Ok(RelativePath { place }),
        None => Err(PathError::NotPlain),
    }
}

/// Compares two paths name by name.
pub(crate) fn compare(left: &[PlaceName], right: &[PlaceName]) -> Ordering
    ensures { result ≡ path_cmp left.now right.now }
{
    left.cmp(&right)
}

/// Whether a path is below a folder.
pub(crate) fn is_below(path: &[PlaceName], folder: &[PlaceName]) -> bool
    ensures { result ≡ is_below path.now folder.now }
{
    folder.len() < path.len() && path.starts_with(folder)
}
