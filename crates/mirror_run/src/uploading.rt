//! A file here is uploaded.

use crate::downloading::Wanted;
use crate::mirror::Mirror;
use crate::problem::Problem;
use crate::report::Went;
use crate::system::{Change, Connection, System};

/// From how many bytes on a part at the server is asked for: a smaller file is sent anew.
const WORTH: u64 = 65_536;

/// Uploads a file to a part beside its place, from where that ends, and renames it once it is whole. Returns how many bytes
/// went out.
///
/// # Errors
/// Those of the server and of the file here, which leave the part; a size other than was listed.
pub fn upload<S: System>(
    system: &S,
    mirror: &Mirror<'_>,
    connection: &Connection,
    wanted: &Wanted,
    went: &mut Went<'_>,
) -> Result<u64, Problem> {
    let place = wanted.path.below(system.alloc(), mirror.task.site.root())?;
    let part = wanted.part_of(system.alloc(), place.as_str())?;
    let source = wanted
        .path
        .below(system.alloc(), mirror.task.local.as_str())?;
    let offset = continued_at(system, connection, part.as_str(), wanted.size);
    went.begin(offset);
    let sent = system.send(connection, source.as_str(), part.as_str(), offset, went)?;
    let came = offset.saturating_add(sent);
    if came != wanted.size {
        system.change_there(connection, Change::RemoveFile(part.as_str()))?;
        return Err(Problem::of_size(system.alloc(), came, wanted.size));
    }
    system.rename_there(connection, part.as_str(), place.as_str())?;
    if let Some(seconds) = wanted.modified {
        system.set_time_there(connection, place.as_str(), seconds)?;
    }
    Ok(sent)
}

/// Where an upload goes on: where a part at the server ends that isn't longer than the file.
fn continued_at<S: System>(system: &S, connection: &Connection, part: &str, size: u64) -> u64 {
    if size < WORTH {
        return 0;
    }
    match system.length_there(connection, part) {
        Some(length) if length <= size => length,
        _ => 0,
    }
}
