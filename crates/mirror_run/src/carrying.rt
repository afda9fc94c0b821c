//! A plan is carried out: folders and what is removed in its order, and then the files.

use crate::bar::draw_until_done;
use crate::downloading::{Wanted, download};
use crate::mirror::{Mirror, Work};
use crate::problem::{Problem, may_pass};
use crate::report::Went;
use crate::system::{Change, System};
use crate::uploading::upload;
use mirror_plan::{Action, RelativePath};
use std::alloc::AllocError;
use std::sync::Mutex;
use std::thread;
use std::thread::Threads;

/// The files that are to be copied, of which the last is copied first.
#[derive(Drop)]
struct Copies(Mutex<Vec<Wanted>>);

impl Work for Copies {
    fn is_begun<S: System>(&self, system: &S) -> bool {
        self.0.lock(system).is_empty()
    }
}

/// Carries out a plan; what fails is told.
///
/// # Errors
/// Out of memory.
pub fn carry_out<S: System + Threads + Sync>(
    system: &S,
    mirror: &Mirror<'_>,
    actions: Vec<Action>,
) -> Result<(), Problem> {
    let mut copies = Vec::new(system.alloc());
    for action in actions {
        match action {
            Action::Copy {
                path,
                size,
                modified,
            } => {
                mirror.report.plan(system, size);
                copies.push(Wanted {
                    path,
                    size,
                    modified,
                })?;
            }
            Action::MakeFolder(path) => make_or_remove(system, mirror, Step::Make, &path)?,
            Action::RemoveFile(path) => make_or_remove(system, mirror, Step::RemoveFile, &path)?,
            Action::RemoveFolder(path) => {
                make_or_remove(system, mirror, Step::RemoveFolder, &path)?;
            }
        }
    }
    copies.reverse();
    copy_all(system, mirror, &Copies(Mutex::new(copies)));
    Ok(())
}

/// A step of a plan that copies no file.
#[derive(Clone, Copy)]
enum Step {
    Make,
    RemoveFile,
    RemoveFolder,
}

impl Step {
    /// The same at a path.
    fn at(self, path: &str) -> Change<'_> {
        match self {
            Step::Make => Change::MakeFolder(path),
            Step::RemoveFile => Change::RemoveFile(path),
            Step::RemoveFolder => Change::RemoveFolder(path),
        }
    }

    /// What is told once it is done.
    fn told(self) -> &'static str {
        match self {
            Step::Make => "made",
            Step::RemoveFile | Step::RemoveFolder => "removed",
        }
    }
}

/// Makes a folder, or removes a file or an empty folder; tells it, or why it couldn't be done.
fn make_or_remove<S: System>(
    system: &S,
    mirror: &Mirror<'_>,
    step: Step,
    path: &RelativePath,
) -> Result<(), AllocError> {
    let alloc = system.alloc();
    let shown = path.below(alloc, ".")?;
    let told = step.told();
    match change(system, mirror, step, path) {
        Ok(()) => mirror
            .report
            .tell(system, format!(in alloc; "{told} {shown}")),
        Err(problem) => mirror
            .report
            .leave(system, format!(in alloc; "{shown}: {problem}")),
    }
    Ok(())
}

/// Makes a folder, or removes a file or an empty folder, of the tree that is to become like the other.
fn change<S: System>(
    system: &S,
    mirror: &Mirror<'_>,
    step: Step,
    path: &RelativePath,
) -> Result<(), Problem> {
    let task = mirror.task;
    if !task.uploads {
        let path = path.below(system.alloc(), task.local.as_str())?;
        return system.change_here(step.at(path.as_str()));
    }
    let path = path.below(system.alloc(), task.site.root())?;
    let connection = mirror.take(system)?;
    let done = system.change_there(&connection, step.at(path.as_str()));
    mirror.give(system, connection);
    done
}

/// Copies files on all connections at once.
fn copy_all<S: System + Threads + Sync>(system: &S, mirror: &Mirror<'_>, copies: &Copies) {
    thread::scope(thread::scope_env(), system, |scope| {
        if mirror.report.is_drawn() {
            let _ = scope.spawn(move || draw_until_done(system, mirror.report));
        }
        for number in 1..mirror.task.jobs {
            let _ = scope.spawn(move || {
                mirror.wait_to_help(system, number, copies);
                copy_some(system, mirror, copies);
            });
        }
        copy_some(system, mirror, copies);
    });
}

/// Copies files until none is left. What fails is told.
fn copy_some<S: System>(system: &S, mirror: &Mirror<'_>, copies: &Copies) {
    for _ in 0..u64::MAX {
        let next = copies.0.lock(system).pop();
        let Some(wanted) = next else {
            return;
        };
        let copied = copy_one(system, mirror, &wanted);
        tell_copied(system, mirror, &wanted, copied);
    }
}

/// Tells what came of a copy.
fn tell_copied<S: System>(
    system: &S,
    mirror: &Mirror<'_>,
    wanted: &Wanted,
    copied: Result<u64, Problem>,
) {
    let alloc = system.alloc();
    let shown = match wanted.path.below(alloc, ".") {
        Ok(shown) => shown,
        Err(error) => return mirror.report.leave(system, Err(error)),
    };
    match copied {
        Ok(bytes) => {
            mirror.report.count(system, Some(bytes));
            mirror.report.tell(system, format!(in alloc; "copied {shown} ({bytes} bytes)"));
        }
        Err(problem) => {
            mirror.report.count(system, None);
            mirror
                .report
                .leave(system, format!(in alloc; "{shown}: {problem}"));
        }
    }
}

/// Copies a file, and shows how far it comes.
fn copy_one<S: System>(system: &S, mirror: &Mirror<'_>, wanted: &Wanted) -> Result<u64, Problem> {
    let name = wanted.path.below(system.alloc(), ".")?;
    let mut went = mirror.report.begin(system, name.as_str(), wanted.size);
    let copied = copy_in_tries(system, mirror, wanted, &mut went);
    mirror.report.leave_file(system, &went);
    copied
}

/// Copies a file; a connection that is lost is made anew, and the file goes on where it was.
fn copy_in_tries<S: System>(
    system: &S,
    mirror: &Mirror<'_>,
    wanted: &Wanted,
    went: &mut Went<'_>,
) -> Result<u64, Problem> {
    for attempt in 0..mirror.task.retries {
        let copied = try_copy(system, mirror, wanted, went);
        if !may_pass(&copied) {
            return copied;
        }
        drop(copied);
        mirror.pause(system, attempt);
    }
    try_copy(system, mirror, wanted, went)
}

/// Copies a file once.
fn try_copy<S: System>(
    system: &S,
    mirror: &Mirror<'_>,
    wanted: &Wanted,
    went: &mut Went<'_>,
) -> Result<u64, Problem> {
    let connection = mirror.take(system)?;
    let copied = if mirror.task.uploads {
        upload(system, mirror, &connection, wanted, went)
    } else {
        download(system, mirror, &connection, wanted, went)
    };
    mirror.give(system, connection);
    copied
}
