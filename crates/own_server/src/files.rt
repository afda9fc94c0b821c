//! The files of the server: each a text, so many times, in a folder.

use std::alloc::{AllocError, Global};

/// What stands in the folder that a client begins in.
pub const ROOT: &str = "type=file;size=5; one.txt\r\n\
    type=file;size=10; two.txt\r\n\
    type=file;size=17; three.txt\r\n\
    type=file;size=200000; big.bin\r\n";

/// What stands in `pub`: a folder, two files, a line without a size that is a number, and a name that leads out of it.
pub const PUB: &str = "type=dir; sub\r\n\
    type=file;size=5; one.txt\r\n\
    type=file;size=10; two.txt\r\n\
    type=file;size=many; odd.txt\r\n\
    type=file;size=5; ../one.txt\r\n";

/// What stands in `pub/sub`.
pub const SUB: &str = "type=file;size=17; three.txt\r\n";

/// The facts of a folder's entries, as `MLSD` sends them (RFC 3659, section 7).
pub fn facts(folder: &str) -> &'static str {
    match folder {
        "pub" => PUB,
        "pub/sub" => SUB,
        _ => ROOT,
    }
}

/// What stands in a file, if there is one. In `endless.bin` more would follow.
pub fn contents(alloc: Global, path: &str) -> Result<Option<Vec<u8>>, AllocError> {
    let name = path.rsplit('/').next().unwrap_or(path);
    let (text, times) = match name {
        "one.txt" => ("one\r\n", 1),
        "two.txt" => ("one\r\ntwo\r\n", 1),
        "three.txt" => ("one\r\ntwo\r\nthree\r\n", 1),
        "big.bin" => ("0123456789", 20_000),
        "endless.bin" => ("0123456789", 100),
        _ => return Ok(None),
    };
    let mut bytes = Vec::new(alloc);
    for _ in 0..times {
        bytes.extend_from_slice(text.as_bytes())?;
    }
    Ok(Some(bytes))
}
