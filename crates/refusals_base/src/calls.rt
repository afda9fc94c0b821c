//! What calls send and receive, turn by turn.

ghost use Rattle.std.specs.Prelude.{◌≡◌, IfErr, IfOk, false};
ghost use Rattle.ftp_calls.specs.Exchanges.{aborting_row, row_of};

use ftp_calls::call::Call;
use ftp_calls::exchange::{self, Row, Turn};
use std::alloc::{AllocError, Global};

/// `exchange::row_at`.
pub fn row_at(alloc: Global, call: &Call, turn: Turn) -> Result<Row, AllocError>
    ensures row_is { IfOk result (λ row. row ≡ row_of call.now turn) }
    ensures held { IfErr result (λ fault. aborting_row (row_of call.now turn) ≡ false) }
{
    exchange::row_at(alloc, call, turn)
}
