//! A file of the server is downloaded.

use crate::mirror::Mirror;
use crate::problem::{Problem, is_refused};
use crate::report::Went;
use crate::system::{Change, Connection, System};
use mirror_plan::RelativePath;
use std::alloc::{AllocError, Global};

/// A file that is to be copied, as it was listed.
#[derive(Drop)]
pub struct Wanted {
    pub path: RelativePath,
    pub size: u64,
    pub modified: Option<i64>,
}

impl Wanted {
    /// The name under which a part of it stands, so that only a part of this very file is continued.
    pub fn part_of(&self, alloc: Global, place: &str) -> Result<String, AllocError> {
        let time = self.modified.unwrap_or(0);
        format!(in alloc; "{place}.{}-{}.part", self.size, time.unsigned_abs())
    }
}

/// Downloads a file to a part beside its place, from where that ends, and renames it once it is whole. Returns how many
/// bytes came.
///
/// # Errors
/// Those of the server and of the file here, which leave the part; a size other than was listed, which removes it.
pub fn download<S: System>(
    system: &S,
    mirror: &Mirror<'_>,
    connection: &Connection,
    wanted: &Wanted,
    went: &mut Went<'_>,
) -> Result<u64, Problem> {
    let place = wanted
        .path
        .below(system.alloc(), mirror.task.local.as_str())?;
    let part = wanted.part_of(system.alloc(), place.as_str())?;
    let source = wanted.path.below(system.alloc(), mirror.task.site.root())?;
    let came = continued(
        system,
        connection,
        source.as_str(),
        part.as_str(),
        wanted.size,
        went,
    );
    if came.is_err() && system.length_here(part.as_str()) == Some(0) {
        let _ = system.change_here(Change::RemoveFile(part.as_str()));
    }
    let came = came?;
    settle(system, wanted, part.as_str(), place.as_str())?;
    Ok(came)
}

/// Downloads what a part lacks; all of it where the server has no REST, or refuses it here.
fn continued<S: System>(
    system: &S,
    connection: &Connection,
    source: &str,
    part: &str,
    size: u64,
    went: &mut Went<'_>,
) -> Result<u64, Problem> {
    let length = system.length_here(part).unwrap_or(0);
    if length == 0 || length > size {
        went.begin(0);
        return system.fetch(connection, source, part, 0, went);
    }
    went.begin(length);
    let came = system.fetch(connection, source, part, length, went);
    if !is_refused(&came) {
        return came;
    }
    drop(came);
    went.begin(0);
    system.fetch(connection, source, part, 0, went)
}

/// Gives a part the time of its file, and its name, where it has the size that was listed.
fn settle<S: System>(system: &S, wanted: &Wanted, part: &str, place: &str) -> Result<(), Problem> {
    let came = system.length_here(part).unwrap_or(0);
    if came != wanted.size {
        system.change_here(Change::RemoveFile(part))?;
        return Err(Problem::of_size(system.alloc(), came, wanted.size));
    }
    if let Some(seconds) = wanted.modified {
        system.set_time_here(part, seconds)?;
    }
    system.rename_here(part, place)
}
