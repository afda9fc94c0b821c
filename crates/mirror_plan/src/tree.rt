//! A listed tree, as a map from paths to nodes.
//!
//! It is a vector in the order of the paths. A folder comes before what is below it, and what is inserted has its folder
//! in the tree already.
ghost use Rattle.std.specs.Prelude.{◌≡◌, ◌↔◌, [], Some, IsSome, IsTrue, false, IfOk, IfErr, OnOk, OnErr};
ghost use Rattle.mirror_plan.specs.Paths.{Path, parent_of};
ghost use Rattle.mirror_plan.specs.Listing.{is_folder, updated, IsAscending, IsPlace, IsGap, IsStart};

use crate::node::{Node, is_folder};
use crate::path::{RelativePath, compare};
use ftp_shared::PlaceName;
use std::alloc::{AllocFailed, Global};
use std::cmp::Ordering;
use std::marker::Model;
use thiserror::Error;

/// Why nothing was inserted.
#[derive(Debug, PartialEq, Eq, Drop, Error)]
pub enum InsertError {
    /// The path's folder isn't a folder of the tree.
    #[error("no such folder")]
    NoFolder,
    /// Something stands at the path.
    #[error("already there")]
    AlreadyThere,
    /// An allocation failed.
    #[error("out of memory")]
    OutOfMemory,
}

impl From<AllocFailed<(RelativePath, Node)>> for InsertError {
    ghost use Rattle.mirror_plan.specs.declared.tree.InsertError.TheVariants.{OutOfMemory};

    ghost from_gives = { λ _ e. e ≡ OutOfMemory };

    fn from(_e: AllocFailed<(RelativePath, Node)>) -> InsertError {
        InsertError::OutOfMemory
    }
}

/// What stands at each path below a root, as far as it was listed.
#[derive(Debug, Drop)]
pub struct Tree {
    is_whole: bool,
    entries: Vec<(RelativePath, Node)>,
}

impl Model for Tree {
    ghost use Rattle.mirror_plan.specs.Listing.{Listing, IsTree};

    ghost Value = { Listing };

    ghost view = { λ tree. record { is_whole = tree.is_whole; entries = tree.entries.items } };

    ghost invariant = { λ tree. IsTree (record { is_whole = tree.is_whole; entries = tree.entries.items }) };
}

impl Tree {
    ghost use Rattle.mirror_plan.specs.Listing.{IsTree, standing};

    /// A tree with nothing below its root. `is_whole` says whether the root was listed to its end and no line of its
    /// listing was left unread.
    pub fn new(alloc: Global, is_whole: bool) -> Tree
        ensures { result ≡ record { is_whole = is_whole; entries = [] } }
    {
        Tree {
            is_whole,
            entries: Vec::new(alloc),
        }
    }

    /// What stands at a path.
    pub fn get(&self, path: &RelativePath) -> Option<Node>
        ensures { result ≡ standing self.now path.now }
    {
        self.at(path.names())
    }

    /// The paths and what stands there, each folder before what is below it.
    pub fn entries(&self) -> &[(RelativePath, Node)]
        ensures entries { result.now ≡ self.now.entries }
        ensures tree { IsTree self.now }
    {
        self.entries.as_slice()
    }

    /// Adds what stands at a path.
    ///
    /// # Errors
    /// `NoFolder` if the folder of the path isn't a folder of this tree; else `AlreadyThere` if something stands at the
    /// path; `OutOfMemory`. Then the tree is as it was.
    pub fn insert(&mut self, path: RelativePath, node: Node) -> Result<(), InsertError>
        ensures ok { OnOk result ((q : Path) → standing self.new q ≡ updated (standing self.old) path (Some node) q) }
        ensures no_folder { (result ≡ Err InsertError.NoFolder)
            ↔ (is_folder (standing self.old (parent_of path)) ≡ false) }
        ensures already_there { (result ≡ Err InsertError.AlreadyThere)
            ↔ (IsTrue (is_folder (standing self.old (parent_of path))) × IsSome (standing self.old path)) }
        ensures err { OnErr result (self.new ≡ self.old) }
    {
        if !self.has_folder_of(&path) {
            return Err(InsertError::NoFolder);
        }
        match position(self.entries.as_slice(), path.names()) {
            Ok(_) => Err(InsertError::AlreadyThere),
            Err(index) => {
                self.entries.insert(index, (path, node))?;
                Ok(())
            }
        }
    }

    /// Whether the folder of a path is a folder of this tree.
    fn has_folder_of(&self, path: &RelativePath) -> bool
        ensures { result ≡ is_folder (standing self.now (parent_of path.now)) }
    {
        let names = path.names();
        is_folder(self.at(&names[..names.len() - 1]))
    }

    pub(crate) fn at(&self, names: &[PlaceName]) -> Option<Node>
        ensures { result ≡ standing self.now names.now }
    {
        if names.is_empty() {
            return Some(Node::Folder {
                is_whole: self.is_whole,
            });
        }
        match position(self.entries.as_slice(), names) {
            Ok(index) => Some(self.entries[index].1),
            Err(_) => None,
        }
    }
}

/// Where a path is among the entries, or where it would go.
fn position(entries: &[(RelativePath, Node)], names: &[PlaceName]) -> Result<usize, usize>
    requires { IsAscending entries.now }
    ensures found { IfOk result (IsPlace entries.now names.now) }
    ensures absent { IfErr result (IsGap entries.now names.now) }
{
    let mut low = 0;
    let mut high = entries.len();
    while low < high {
        let middle = low + (high - low) / 2;
        match compare(names, entries[middle].0.names()) {
            Ordering::Less => high = middle,
            Ordering::Equal => return Ok(middle),
            Ordering::Greater => low = middle + 1,
        }
    }
    Err(low)
}

/// Where what is below a path begins among the entries.
pub(crate) fn start_below(entries: &[(RelativePath, Node)], names: &[PlaceName]) -> usize
    requires { IsAscending entries.now }
    ensures { IsStart entries.now names.now result }
{
    match position(entries, names) {
        Ok(index) => index + 1,
        Err(index) => index,
    }
}
