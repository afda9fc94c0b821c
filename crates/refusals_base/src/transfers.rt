//! Marks of transfers, and reads of their data connections.

ghost use Rattle.std.specs.Prelude.{◌≡◌, ◌<◌, [], Contains, IfErr, IfOk, Ok, length, true};
ghost use Rattle.futures.specs.declared.task.Poll.TheVariants as poll;
ghost use Rattle.ftp_transfer.specs.Mark.{loaded};
ghost use Rattle.ftp_transfer.specs.Transfer.{with_told};
ghost use Rattle.ftp_transport.specs.Memory.{IsGiven};
ghost use Rattle.ftp_transport.specs.Told.{ReadTells, ReadsAtMost};

use ftp_transfer::Transfer;
use ftp_transfer::mark::{self, SessionEnd, TransferEnd};
use ftp_transport::{PollConn, Tells};
use futures::task::Poll;
use std::alloc::{AllocError, Global};
use std::io::ErrorKind;

/// `mark::mark`.
pub fn mark(alloc: Global, number: u64) -> Result<(SessionEnd, TransferEnd), AllocError>
    ensures number { IfOk result (λ ends. (ends.0.number ≡ number) × (ends.1.number ≡ number)) }
    ensures no_loads { IfOk result (λ ends. (ends.0.loads ≡ []) × (ends.1.loads ≡ [])) }
    ensures one_mark { IfOk result (λ ends. ends.0.mark ≡ ends.1.mark) }
{
    mark::mark(alloc, number)
}

/// `SessionEnd::look`.
pub fn look(end: &mut SessionEnd) -> bool
    ensures loaded { end.new ≡ loaded result end.old }
    ensures stays { Contains end.old.loads true → result ≡ true }
{
    end.look()
}

/// `Transfer::poll_read`.
pub fn poll_read<C: Tells + Drop, W>(
    transfer: &mut Transfer<C>,
    w: &mut W,
    buffer: &mut [u8],
) -> Result<Poll<usize>, ErrorKind>
where
    C: PollConn<W>,
    ensures told { C.Tells.tells → 0 < length buffer.old →
        ReadTells result buffer.new transfer.old.told transfer.new.told }
    ensures bound { ReadsAtMost result (length buffer.old) }
    ensures waits { result ≡ Ok poll.Pending → C.may_wait }
    ensures fault { IfErr result (λ kind. C.read_faults kind) }
    ensures given { C.Tells.tells → IsGiven transfer.old.told → IsGiven transfer.new.told }
    ensures end { C.Tells.tells → C.may_wait → 0 < length buffer.old → result ≡ Ok (poll.Ready 0) →
        transfer.old.told.given.closed ≡ true }
    ensures empty { length buffer.old ≡ 0 → result ≡ Ok (poll.Ready 0) }
    ensures unasked { length buffer.old ≡ 0 → transfer.new ≡ transfer.old }
    ensures kept { transfer.new ≡ with_told transfer.new.told transfer.old }
{
    transfer.poll_read(w, buffer)
}
