//! A folder is mirrored.

use crate::carrying::carry_out;
use crate::local_tree::local_tree;
use crate::mirror::Mirror;
use crate::problem::Problem;
use crate::report::Report;
use crate::server_tree::server_tree;
use crate::system::{Change, System};
use crate::task::Task;
use mirror_plan::{Action, Plan, Reason, Undone, plan};
use std::alloc::{AllocError, Global};
use std::thread::Threads;

/// Makes a folder like another: lists both, plans, and carries the plan out; a dry run only tells it. What can't be done is
/// told. Whether nothing was left undone.
pub fn mirror_folder<S: System + Threads + Sync>(system: &S, task: &Task, report: &Report) -> bool {
    let mirror = Mirror::new(system.alloc(), task, report);
    if let Err(problem) = try_mirror(system, &mirror) {
        report.leave(system, format!(in system.alloc(); "{problem}"));
    }
    mirror.quit(system);
    let counts = report.counts(system);
    let line = format!(in system.alloc();
        "{} files, {} bytes; {} left undone",
        counts.files, counts.bytes, counts.undone
    );
    report.end(system, line);
    counts.undone == 0
}

/// The same. Returns what stops it as a whole.
///
/// # Errors
/// The folder can't be listed, there or here; no connection can be made; out of memory.
fn try_mirror<S: System + Threads + Sync>(system: &S, mirror: &Mirror<'_>) -> Result<(), Problem> {
    let task = mirror.task;
    if !task.dry_run {
        make_root(system, mirror)?;
    }
    let there = server_tree(system, mirror)?;
    let here = local_tree(system, mirror)?;
    let Plan { actions, undone } = if task.uploads {
        plan(system.alloc(), &here, &there, task.policy)?
    } else {
        plan(system.alloc(), &there, &here, task.policy)?
    };
    tell_undone(system, mirror, &undone)?;
    if task.dry_run {
        for action in &actions {
            let line = would(system.alloc(), action)?;
            mirror.report.tell(system, Ok(line));
        }
        return Ok(());
    }
    carry_out(system, mirror, actions)
}

/// Makes the folder that is to become like the other, where it isn't there.
fn make_root<S: System>(system: &S, mirror: &Mirror<'_>) -> Result<(), Problem> {
    let task = mirror.task;
    if !task.uploads {
        return system.change_here(Change::MakeFolder(task.local.as_str()));
    }
    let connection = mirror.take(system)?;
    let folder = task.site.folder.as_str();
    for (index, _) in folder.match_indices('/') {
        let above = folder.get(..index).unwrap_or(folder);
        let _ = system.change_there(&connection, Change::MakeFolder(above));
    }
    if !folder.is_empty() {
        let _ = system.change_there(&connection, Change::MakeFolder(folder));
    }
    mirror.give(system, connection);
    Ok(())
}

/// Tells what a plan leaves undone.
fn tell_undone<S: System>(
    system: &S,
    mirror: &Mirror<'_>,
    undone: &[Undone],
) -> Result<(), AllocError> {
    for left in undone {
        let shown = left.path.below(system.alloc(), ".")?;
        let why = why(left.reason);
        mirror
            .report
            .leave(system, format!(in system.alloc(); "{shown}: {why}"));
    }
    Ok(())
}

/// Why a path is left as it is.
fn why(reason: Reason) -> &'static str {
    match reason {
        Reason::KindDiffers => "one is a file and the other a folder",
        Reason::NotAFileOrFolder => "a link or a device is left alone",
        Reason::ListingNotWhole => "is left, since a listing wasn't read whole",
        Reason::NotEmptied => "is left, since something in it is",
    }
}

/// What an action would do.
fn would(alloc: Global, action: &Action) -> Result<String, AllocError> {
    let (does, path) = match action {
        Action::MakeFolder(path) => ("make", path),
        Action::Copy {
            path,
            size: _,
            modified: _,
        } => ("copy", path),
        Action::RemoveFile(path) | Action::RemoveFolder(path) => ("remove", path),
    };
    let shown = path.below(alloc, ".")?;
    format!(in alloc; "would {does} {shown}")
}
