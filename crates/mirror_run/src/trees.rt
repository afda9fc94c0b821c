//! Trees, listed level by level.

use crate::filters::{is_excluded, is_mirrored};
use crate::listed::{FolderToList, Kind, Listed, path_of};
use crate::mirror::Mirror;
use crate::problem::Problem;
use crate::system::System;
use crate::task::Task;
use mirror_plan::{InsertError, Node, RelativePath, Tree};
use std::alloc::{AllocError, Global};
use std::collections::{BTreeMap, BTreeSet};
use std::mem;

/// How many levels of folders there may be.
pub const DEPTH: usize = 64;

/// How many folders are listed that links lead to, with those below them. Links that lead back to a folder above them would
/// make up to 2^64.
const LINKED: usize = 10_000;

/// What stands at a path: of a folder its number.
#[derive(Clone, Copy)]
enum Entry {
    Folder(usize),
    File(u64, Option<i64>),
    Other,
}

/// A folder, its entries in the order of their names. What a link leads to may turn out to be none.
#[derive(Drop)]
struct Folder {
    is_folder: bool,
    is_whole: bool,
    entries: Vec<(RelativePath, Entry)>,
}

impl Folder {
    /// A folder of which nothing is known.
    fn unknown(alloc: Global) -> Folder {
        Folder {
            is_folder: true,
            is_whole: false,
            entries: Vec::new(alloc),
        }
    }
}

/// A tree that is listed level by level.
#[derive(Drop)]
pub struct Growing {
    // By their numbers, the root first; none is listed of the last ones.
    folders: Vec<Folder>,
    // What is to be listed next.
    level: Vec<FolderToList>,
    linked: usize,
}

impl Growing {
    /// A tree of which nothing was listed.
    ///
    /// # Errors
    /// Out of memory.
    pub fn new(alloc: Global) -> Result<Growing, AllocError> {
        let mut folders = Vec::new(alloc);
        folders.push(Folder::unknown(alloc))?;
        Ok(Growing {
            folders,
            level: Vec::new(alloc),
            linked: 0,
        })
    }

    /// The folders that are to be listed next; they are no more kept here.
    pub fn next_level(&mut self, alloc: Global) -> Vec<FolderToList> {
        mem::replace(&mut self.level, Vec::new(alloc))
    }

    /// Adds what was listed of a folder. Names that lead elsewhere, and those that differ from one before only in the case
    /// of letters, are told and left alone.
    ///
    /// # Errors
    /// Out of memory.
    pub fn fill<S: System>(
        &mut self,
        system: &S,
        mirror: &Mirror<'_>,
        folder: &FolderToList,
        listed: Listed,
    ) -> Result<(), Problem> {
        let alloc = system.alloc();
        let (is_whole, names) = sorted(system, mirror, listed)?;
        let mut entries = Vec::new(alloc);
        for (name, kind) in names {
            match path_of(alloc, folder, name.as_str())? {
                Some(path) => {
                    let entry = self.begin(alloc, folder, &path, kind)?;
                    entries.push((path, entry))?;
                }
                None => {
                    let line = format!(in alloc; "{name:?}: the name leads elsewhere");
                    mirror.report.leave(system, line);
                }
            }
        }
        if let Some(known) = self.folders.get_mut(folder.number) {
            known.is_whole = is_whole;
            drop(mem::replace(&mut known.entries, entries));
        }
        Ok(())
    }

    /// A folder can't be listed, which is told. A link that the server doesn't list leads to no folder.
    ///
    /// # Errors
    /// Out of memory.
    pub fn miss<S: System>(
        &mut self,
        system: &S,
        mirror: &Mirror<'_>,
        folder: &FolderToList,
        problem: &Problem,
    ) -> Result<(), Problem> {
        if folder.is_link && problem.is_refused() {
            if let Some(known) = self.folders.get_mut(folder.number) {
                known.is_folder = false;
            }
            return Ok(());
        }
        let path = folder.below(system.alloc(), ".")?;
        mirror
            .report
            .leave(system, format!(in system.alloc(); "{path}: {problem}"));
        Ok(())
    }

    /// What stands at a path of a folder. A folder is listed with the next level.
    fn begin(
        &mut self,
        alloc: Global,
        folder: &FolderToList,
        path: &RelativePath,
        kind: Kind,
    ) -> Result<Entry, AllocError> {
        let is_link = match kind {
            Kind::Folder => false,
            Kind::LinkedFolder => true,
            Kind::File(size, modified) => return Ok(Entry::File(size, modified)),
            Kind::Link | Kind::Other => return Ok(Entry::Other),
        };
        let is_linked = is_link || folder.is_linked;
        if is_linked {
            if self.linked >= LINKED {
                return Ok(Entry::Other);
            }
            self.linked += 1;
        }
        let number = self.folders.len();
        self.folders.push(Folder::unknown(alloc))?;
        self.level.push(FolderToList {
            number,
            path: Some(path.clone()?),
            is_link,
            is_linked,
        })?;
        Ok(Entry::Folder(number))
    }

    /// The tree of what was listed. Folders that are too deep to be listed are told.
    ///
    /// # Errors
    /// Out of memory.
    pub fn into_tree<S: System>(self, system: &S, mirror: &Mirror<'_>) -> Result<Tree, Problem> {
        let Self {
            mut folders,
            level,
            linked: _,
        } = self;
        for folder in &level {
            let path = folder.below(system.alloc(), ".")?;
            let line = format!(in system.alloc(); "{path}: more than {DEPTH} levels deep");
            mirror.report.leave(system, line);
        }
        let is_whole = folders.first().is_some_and(|root| root.is_whole);
        let mut tree = Tree::new(system.alloc(), is_whole);
        add(system.alloc(), &mut tree, &mut folders, 0, DEPTH)?;
        Ok(tree)
    }
}

/// Adds what stands in a folder, and below it so many levels, in the order of the paths.
fn add(
    alloc: Global,
    tree: &mut Tree,
    folders: &mut Vec<Folder>,
    number: usize,
    depth: usize,
) -> Result<(), AllocError> {
    let Some(folder) = folders.get_mut(number) else {
        return Ok(());
    };
    let entries = mem::replace(&mut folder.entries, Vec::new(alloc));
    for (path, entry) in entries {
        insert(tree, path, node_of(folders, entry))?;
        if let Entry::Folder(below) = entry {
            if depth > 0 {
                add(alloc, tree, folders, below, depth - 1)?;
            }
        }
    }
    Ok(())
}

/// What stands in the tree for an entry.
fn node_of(folders: &[Folder], entry: Entry) -> Node {
    match entry {
        Entry::Folder(number) => match folders.get(number) {
            Some(folder) if folder.is_folder => Node::Folder {
                is_whole: folder.is_whole,
            },
            _ => Node::Other,
        },
        Entry::File(size, modified) => Node::File { size, modified },
        Entry::Other => Node::Other,
    }
}

/// Inserts a path, which stands in no tree yet, and whose folder does.
fn insert(tree: &mut Tree, path: RelativePath, node: Node) -> Result<(), AllocError> {
    match tree.insert(path, node) {
        Err(InsertError::OutOfMemory) => Err(AllocError),
        _ => Ok(()),
    }
}

/// The names that are mirrored, in their order, and whether they are all. Those that differ from one before only in the case
/// of letters are told and left alone.
fn sorted<S: System>(
    system: &S,
    mirror: &Mirror<'_>,
    listed: Listed,
) -> Result<(bool, BTreeMap<String, Kind>), Problem> {
    let alloc = system.alloc();
    let Listed {
        mut is_whole,
        entries,
    } = listed;
    let mut seen: BTreeSet<String> = BTreeSet::new(alloc);
    let mut names = BTreeMap::new(alloc);
    for (name, kind) in entries {
        if !is_wanted(alloc, mirror.task, name.as_str(), kind)? {
            continue;
        }
        if seen.insert(name.to_lowercase(alloc)?)? {
            names.insert(name, kind)?;
        } else {
            is_whole = false;
            let line = format!(in alloc; "{name:?}: another name differs only in case");
            mirror.report.leave(system, line);
        }
    }
    Ok((is_whole, names))
}

/// Whether what has this name is mirrored. Folders are, unless they are excluded.
fn is_wanted(alloc: Global, task: &Task, name: &str, kind: Kind) -> Result<bool, AllocError> {
    match kind {
        Kind::Folder | Kind::LinkedFolder => Ok(!is_excluded(alloc, task, name)?),
        _ => is_mirrored(alloc, task, name),
    }
}
