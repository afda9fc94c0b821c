//! Patterns of names.

use crate::task::Task;
use std::alloc::{AllocError, Global};

/// Whether a file of this name is mirrored: it is like a pattern that is included, or none is, and like none that is
/// excluded.
pub fn is_mirrored(alloc: Global, task: &Task, name: &str) -> Result<bool, AllocError> {
    let is_included = task.include.is_empty() || is_like_one(alloc, name, &task.include)?;
    Ok(is_included && !is_excluded(alloc, task, name)?)
}

/// Whether what has this name is left alone, with all below it.
pub fn is_excluded(alloc: Global, task: &Task, name: &str) -> Result<bool, AllocError> {
    is_like_one(alloc, name, &task.exclude)
}

/// Whether a name is like one of these patterns.
fn is_like_one(alloc: Global, name: &str, patterns: &[String]) -> Result<bool, AllocError> {
    for pattern in patterns {
        if is_like(alloc, name, pattern.as_str())? {
            return Ok(true);
        }
    }
    Ok(false)
}

/// Whether a name is like a pattern, in which `*` stands for any text and `?` for one character. The time is that of both
/// lengths multiplied.
pub fn is_like(alloc: Global, name: &str, pattern: &str) -> Result<bool, AllocError> {
    let name: Vec<char> = name.chars().collect(alloc)?;
    // For each front of the name, the shortest first, whether the pattern so far is like it.
    let mut fronts = Vec::new(alloc);
    fronts.push(true)?;
    for _ in &name {
        fronts.push(false)?;
    }
    for wanted in pattern.chars() {
        if wanted == '*' {
            lengthen(&mut fronts);
        } else {
            step(&mut fronts, &name, wanted);
        }
    }
    Ok(fronts.last() == Some(&true))
}

/// After a `*` each front is like the pattern that has a like one before it.
fn lengthen(fronts: &mut [bool]) {
    let mut is_like = false;
    for front in fronts.iter_mut() {
        is_like = is_like || *front;
        *front = is_like;
    }
}

/// After another character of the pattern those fronts are like it whose last character that is, and whose front before was.
fn step(fronts: &mut [bool], name: &[char], wanted: char) {
    let mut letters = name.iter();
    let mut next = false;
    for front in fronts.iter_mut() {
        let was = *front;
        *front = next;
        next = match letters.next() {
            Some(letter) => was && (wanted == '?' || *letter == wanted),
            None => false,
        };
    }
}
