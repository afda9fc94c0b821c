//! The tree of the server.

use crate::listed::{FolderToList, Listed};
use crate::mirror::{Mirror, Work};
use crate::problem::{Problem, may_pass};
use crate::system::System;
use crate::trees::{DEPTH, Growing};
use mirror_plan::Tree;
use std::sync::Mutex;
use std::thread;
use std::thread::Threads;

/// A folder that was listed, and what came of it.
type Done = (FolderToList, Result<Listed, Problem>);

/// Folders that are to be listed, and those that were.
#[derive(Drop)]
struct Level {
    left: Mutex<Vec<FolderToList>>,
    done: Mutex<Vec<Done>>,
}

impl Work for Level {
    fn is_begun<S: System>(&self, system: &S) -> bool {
        self.left.lock(system).is_empty()
    }
}

/// What stands below the server's folder, listed by all connections at once.
///
/// # Errors
/// The folder itself can't be listed, or out of memory.
pub fn server_tree<S: System + Threads + Sync>(
    system: &S,
    mirror: &Mirror<'_>,
) -> Result<Tree, Problem> {
    let mut growing = Growing::new(system.alloc())?;
    let root = list(system, mirror, mirror.task.site.folder.as_str())?;
    growing.fill(system, mirror, &FolderToList::root(), root)?;
    for _ in 1..DEPTH {
        let level = growing.next_level(system.alloc());
        if level.is_empty() {
            break;
        }
        for (folder, listed) in listed_of(system, mirror, level) {
            match listed {
                Ok(listed) => growing.fill(system, mirror, &folder, listed)?,
                Err(problem) => growing.miss(system, mirror, &folder, &problem)?,
            }
        }
    }
    growing.into_tree(system, mirror)
}

/// Lists these folders, on all connections at once.
fn listed_of<S: System + Threads + Sync>(
    system: &S,
    mirror: &Mirror<'_>,
    folders: Vec<FolderToList>,
) -> Vec<Done> {
    let level = Level {
        left: Mutex::new(folders),
        done: Mutex::new(Vec::new(system.alloc())),
    };
    let shared = &level;
    thread::scope(thread::scope_env(), system, |scope| {
        for number in 1..mirror.task.jobs {
            let _ = scope.spawn(move || {
                mirror.wait_to_help(system, number, shared);
                list_some(system, mirror, shared);
            });
        }
        list_some(system, mirror, shared);
    });
    let Level { left, done } = level;
    drop(left);
    done.into_inner()
}

/// Lists folders until none is left.
fn list_some<S: System>(system: &S, mirror: &Mirror<'_>, level: &Level) {
    for _ in 0..u64::MAX {
        let next = level.left.lock(system).pop();
        let Some(folder) = next else {
            return;
        };
        let listed = list_below(system, mirror, &folder);
        let _ = level.done.lock(system).push((folder, listed));
    }
}

/// Lists a folder below the site's.
fn list_below<S: System>(
    system: &S,
    mirror: &Mirror<'_>,
    folder: &FolderToList,
) -> Result<Listed, Problem> {
    let path = folder.below(system.alloc(), mirror.task.site.root())?;
    list(system, mirror, path.as_str())
}

/// Lists a folder of the server; a connection that is lost is made anew.
fn list<S: System>(system: &S, mirror: &Mirror<'_>, path: &str) -> Result<Listed, Problem> {
    for attempt in 0..mirror.task.retries {
        let listed = try_list(system, mirror, path);
        if !may_pass(&listed) {
            return listed;
        }
        drop(listed);
        mirror.pause(system, attempt);
    }
    try_list(system, mirror, path)
}

/// Lists a folder of the server once.
fn try_list<S: System>(system: &S, mirror: &Mirror<'_>, path: &str) -> Result<Listed, Problem> {
    let connection = mirror.take(system)?;
    let listed = system.list_there(&connection, path, mirror.task.follows_links);
    mirror.give(system, connection);
    listed
}
