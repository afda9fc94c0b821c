//! How calls go on.

use futures::Future;
use futures::executor::block_on;
use futures::future::poll_immediate;
use rows_text::RowError;
use std::random::RandomSource;
use std::sync::Wait;

/// More polls than a call of a row has: it waits once for each byte that it reads or writes, and for little else.
const MOST: usize = 100_000;

/// How far a call goes on.
#[derive(Clone, Copy)]
pub enum How {
    /// It is polled so often, at most until it has its answer.
    Polls(usize),
    /// It is polled until it has its answer.
    End,
}

/// The output of a future that goes on so far; none where it waits.
///
/// # Errors
/// `OutOfMemory`.
pub fn go_on<R, F>(rt: &R, state: &mut F, how: How) -> Result<Option<F::Output>, RowError>
where
    R: Wait + RandomSource + AllocGlobal,
    F: Future,
    F::Output: Drop,
    requires { (state : F) → F.can_poll state }
{
    let polls = match how {
        How::Polls(polls) => polls,
        How::End => MOST,
    };
    for _ in 0..polls {
        match block_on(rt, poll_immediate(&mut *state)) {
            Ok(None) => {}
            Ok(output) => return Ok(output),
            Err(_) => return Err(RowError::OutOfMemory),
        }
    }
    Ok(None)
}
