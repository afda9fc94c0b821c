//! What a row results in as a whole, whichever of its calls had what part in it: what was asked, all that was sent, the
//! answers, and the last lines of its transcript.

use std::alloc::{AllocError, Global};

/// A transcript of this form, where that is one with the lines of each call apart.
///
/// # Errors
/// `OutOfMemory`.
pub fn whole(alloc: Global, transcript: &str) -> Result<String, AllocError> {
    let mut asked = String::new(alloc);
    let mut sent = String::new(alloc);
    let mut rest = String::new(alloc);
    for line in transcript.split_inclusive('\n') {
        match line.split_once(": ") {
            Some(("D" | "B" | "L" | "P", _)) => asked.push_str(line)?,
            Some(("C", part)) => sent.push_str(part.strip_suffix('\n').unwrap_or(part))?,
            Some(("A", "none\n")) => {}
            _ => rest.push_str(line)?,
        }
    }
    format!(in alloc; "{asked}C: {sent}\n{rest}")
}
