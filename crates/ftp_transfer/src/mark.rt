//! The mark of a transfer, by which a session learns from any thread that the transfer was left.
//!
//! A transfer can be dropped in mid-way while another thread holds its session, and a drop can't wait for that. So it
//! stores one word, which the session loads before its next command; whatever the server still has to send for the
//! transfer is read then. The transfer holds one end of the mark, its session the other. Each end has a seat of its own
//! at the word, and each step is one atomic step of one seat: a `leave` stores, and nothing else does; a look loads. No
//! step waits or allocates.

ghost use Rattle.std.specs.Prelude.{◌≡◌, [], IfOk};

mod left;
mod session_end;
mod transfer_end;
mod word;

pub use left::Left;
pub use session_end::SessionEnd;
use std::alloc::{AllocError, Global};
pub use transfer_end::TransferEnd;

/// Makes the two ends of the mark of the transfer with this number, which isn't left.
///
/// # Errors
/// Where an allocation fails.
pub fn mark(alloc: Global, number: u64) -> Result<(SessionEnd, TransferEnd), AllocError>
    ensures number { IfOk result (λ ends. (ends.0.number ≡ number) × (ends.1.number ≡ number)) }
    ensures no_loads { IfOk result (λ ends. (ends.0.loads ≡ []) × (ends.1.loads ≡ [])) }
    ensures one_mark { IfOk result (λ ends. ends.0.mark ≡ ends.1.mark) }
{
    let mut transfer = TransferEnd::new(alloc, number)?;
    match transfer.session_end() {
        Ok(session) => Ok((session, transfer)),
        Err(error) => {
            transfer.withdraw();
            Err(error)
        }
    }
}
