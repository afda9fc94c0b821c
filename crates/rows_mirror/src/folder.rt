//! The folder that a row mirrors, in a folder of its own.

use crate::outside::Outside;
use anyhow::Result;
use rows_text::{RowError, bytes_of, shown};
use std::alloc::Global;

/// The folder that is made for a row and removed again, and in it that which is mirrored: names that lead two folders up
/// would make something that is seen.
const TOP: &str = "rows_mirror.top";

pub const LOCAL: &str = "rows_mirror.top/in/here";

/// How many entries are shown at most.
const ENTRIES: usize = 1000;

/// Makes the folder, with nothing in it.
///
/// # Errors
/// It can't be made.
pub fn begin<O: Outside>(rt: &O) -> Result<()> {
    let _ = rt.remove_all(TOP);
    rt.make_folder(LOCAL)?;
    Ok(())
}

/// Removes it.
///
/// # Errors
/// It can't be removed.
pub fn end<O: Outside>(rt: &O) -> Result<()> {
    rt.remove_all(TOP)?;
    Ok(())
}

/// Puts a file of these bytes into it, last changed 2024-01-02 03:04:05, or a folder, whose name ends in `/`.
///
/// # Errors
/// It can't be made.
pub fn put<O: Outside>(rt: &O, words: &str) -> Result<()> {
    let alloc = rt.alloc();
    if let Some(name) = words.strip_suffix('/') {
        rt.make_folder(&format!(in alloc; "{LOCAL}/{name}")?)?;
        return Ok(());
    }
    let (name, text) = words.split_once(' ').ok_or(RowError::NotUnderstood)?;
    let path = format!(in alloc; "{LOCAL}/{name}")?;
    rt.write_file(path.as_str(), &bytes_of(alloc, text)?)?;
    Ok(())
}

/// What stands in the folder and beside it, a line for each file and each folder.
///
/// # Errors
/// A folder or a file can't be read.
pub fn all<O: Outside>(rt: &O) -> Result<String> {
    let alloc = rt.alloc();
    let mut left = Vec::new(alloc);
    let mut lines = Vec::new(alloc);
    left.push(String::from_str(alloc, TOP)?)?;
    for _ in 0..ENTRIES {
        let Some(folder) = left.pop() else {
            break;
        };
        for (name, is_folder) in rt.list(folder.as_str())? {
            let path = format!(in alloc; "{folder}/{name}")?;
            if is_folder {
                add(alloc, &mut lines, path.as_str(), "/")?;
                left.push(path)?;
            } else {
                let bytes = rt.read_file(path.as_str())?;
                let text = format!(in alloc; " {}", shown(alloc, &bytes)?)?;
                add(alloc, &mut lines, path.as_str(), text.as_str())?;
            }
        }
    }
    lines.sort()?;
    let mut text = String::new(alloc);
    for line in &lines {
        write!(text, "{line}\n")?;
    }
    Ok(text)
}

/// Adds what stands at a path, but for the folders that each row has.
fn add(alloc: Global, lines: &mut Vec<String>, path: &str, text: &str) -> Result<()> {
    if LOCAL.starts_with(path) {
        return Ok(());
    }
    let line = match path.strip_prefix(LOCAL) {
        Some(inside) => format!(in alloc; "here {}{text}", inside.trim_start_matches('/'))?,
        None => format!(in alloc; "outside {path}{text}")?,
    };
    lines.push(line)?;
    Ok(())
}
