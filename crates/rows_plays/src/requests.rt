//! What a transport was asked, as lines of a transcript.

use ftp_transport::{Asked, Request, RequestOutcome};
use std::alloc::{AllocError, Global};

/// A line for each request that a transport recorded and that is shown, by what it resulted in.
///
/// # Errors
/// `OutOfMemory`.
pub fn recorded(alloc: Global, asked: &[Asked]) -> Result<Vec<String>, AllocError> {
    let mut lines = Vec::new(alloc);
    for one in asked {
        add_line(alloc, &mut lines, one.request, one.outcome)?;
    }
    Ok(lines)
}

/// Adds the line of a request: the address that was connected to or listened at, by the transport or by the builder, or
/// the peer that came.
fn add_line(
    alloc: Global,
    lines: &mut Vec<String>,
    request: Request,
    outcome: RequestOutcome,
) -> Result<(), AllocError> {
    let (word, address) = match (request, outcome) {
        (Request::Connect(address, _limit), _) => ("D", address),
        (Request::Build(address), _) => ("B", address),
        (Request::Listen(address), _) => ("L", address),
        (Request::Accept(_), RequestOutcome::Address(from)) => ("P", from),
        (Request::Accept(_), _) => return Ok(()),
    };
    Ok(lines.push(format!(in alloc; "{word}: {address}")?)?)
}
