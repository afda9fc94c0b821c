//! The tree here.

use crate::listed::{FolderToList, Listed};
use crate::mirror::Mirror;
use crate::problem::Problem;
use crate::system::System;
use crate::trees::{DEPTH, Growing};
use mirror_plan::Tree;

/// What stands below the folder here, which a dry run may lack.
///
/// # Errors
/// A folder can't be read, or out of memory.
pub fn local_tree<S: System>(system: &S, mirror: &Mirror<'_>) -> Result<Tree, Problem> {
    let mut growing = Growing::new(system.alloc())?;
    let root = list_root(system, mirror)?;
    growing.fill(system, mirror, &FolderToList::root(), root)?;
    for _ in 1..DEPTH {
        let level = growing.next_level(system.alloc());
        if level.is_empty() {
            break;
        }
        for folder in &level {
            let path = folder.below(system.alloc(), mirror.task.local.as_str())?;
            let listed = system.list_here(path.as_str())?;
            growing.fill(system, mirror, folder, listed)?;
        }
    }
    growing.into_tree(system, mirror)
}

/// What stands in the folder here; nothing where a dry run of a download would make it.
fn list_root<S: System>(system: &S, mirror: &Mirror<'_>) -> Result<Listed, Problem> {
    let task = mirror.task;
    if task.dry_run && !task.uploads && system.length_here(task.local.as_str()).is_none() {
        return Ok(Listed {
            is_whole: true,
            entries: Vec::new(system.alloc()),
        });
    }
    system.list_here(task.local.as_str())
}
