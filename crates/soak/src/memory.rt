//! How much memory the program has, where Linux tells it.

use std::fs;
use std::rt::Files;

/// Where Linux tells it (proc(5)).
const STATM: &str = "/proc/self/statm";

/// How many pages are resident, of the program and of what it shares.
pub fn resident_pages<R: Files + AllocGlobal>(rt: &R) -> Option<u64> {
    let text = fs::read_to_string(rt, STATM).ok()?;
    text.as_str().split(' ').nth(1)?.parse().ok()
}
