//! Numbers of bytes as they are shown.

use std::alloc::{AllocError, Global};

/// So many bytes, in three or four digits.
///
/// # Errors
/// `AllocError`.
pub fn amount(alloc: Global, bytes: u64) -> Result<String, AllocError> {
    match bytes {
        0..10_000 => format!(in alloc; "{bytes} B"),
        10_000..10_000_000 => format!(in alloc; "{} kB", bytes / 1_000),
        10_000_000..10_000_000_000 => format!(in alloc; "{} MB", bytes / 1_000_000),
        _ => format!(in alloc; "{} GB", bytes / 1_000_000_000),
    }
}
