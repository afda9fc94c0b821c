//! A call that waits is dropped.
//!
//! Nothing is sent or read then: the unsent tail of a line goes out before any other byte, and what came of a reply is
//! kept. A transfer that the call held is left, so that its last reply is read before the next command.

ghost use Rattle.std.specs.Prelude.{◌≡◌};
ghost use Rattle.ftp_dialogue.specs.Dropping.{DropsCall, aborted_by, awaits_abort, is_unanswered, left_by, missed_by, owes_last_reply};

use super::Call;
use super::machine::Machine;
use super::recovering::is_out;
use super::stage::{AfterClose, Asking, OpeningData, Stage};
use ftp_calls::exchange::{Turn, aborts, finishes, says_at};
use ftp_transport::Network;

impl<Tr: Network> Machine<Tr> {
    /// A call that waits at this stage is dropped. One that brings a transfer to its end leaves it, but for an abort whose
    /// `ABOR` has gone out whole: that transfer is over. The transfer of a data command that was accepted, of a whole file
    /// or listing that is under way too, is left. The reply of a command whose line was begun is due before later calls.
    pub fn drop_call(&mut self, call: &Call, stage: &Stage)
        ensures drops { DropsCall Tr.Conn.tells call.now stage.now self.old self.new }
    {
        self.leave_by(call, stage);
        self.let_go();
        self.abort_by(call, stage);
        self.miss_by(call, stage);
    }

    /// The transfer of a call that is dropped at this stage is left.
    fn leave_by(&mut self, call: &Call, stage: &Stage)
        ensures { self.new ≡ record self.old { state = left_by call.now stage.now self.old.state } }
    {
        if owes_last_reply(stage) {
            self.state.counts.open();
            self.state.counts.leave();
        } else if finishes(call) {
            self.state.counts.leave();
        }
    }

    /// The transfer of an abort that is dropped once `ABOR` has gone out whole was aborted.
    fn abort_by(&mut self, call: &Call, stage: &Stage)
        ensures { self.new ≡ record self.old {
          state = aborted_by call.now stage.now self.old.state;
        } }
    {
        if aborts(call) && is_out(stage) {
            self.state.counts.abort();
        }
    }
}

impl<Tr: Network> Machine<Tr> {
    /// The reply of a command whose line was begun is due from now on.
    fn miss_by(&mut self, call: &Call, stage: &Stage)
        ensures { self.new ≡ record self.old { state = missed_by call.now stage.now self.old.state } }
    {
        if is_unanswered(call, stage) {
            self.state.miss(aborts(call) && awaits_abort(stage));
        }
    }
}

/// Whether a line of the call was begun whose reply hasn't come.
fn is_unanswered(call: &Call, stage: &Stage) -> bool
    ensures { result ≡ is_unanswered call.now stage.now }
{
    match stage {
        Stage::Saying(line, _after) => line.is_none(),
        _ if aborts(call) => is_out(stage),
        Stage::Hearing(awaits) => says_at(call, awaits.turn),
        Stage::Seeking(..) => true,
        _ => false,
    }
}

/// Whether the first reply of `ABOR`, which has gone out, hasn't come.
fn awaits_abort(stage: &Stage) -> bool
    ensures { result ≡ awaits_abort stage.now }
{
    match stage {
        Stage::At(turn) => matches!(turn, Turn::Aborted),
        Stage::Hearing(awaits) => matches!(awaits.turn, Turn::Aborted),
        Stage::Closing(after) => matches!(after, AfterClose::Aborts),
        _ => false,
    }
}

/// Whether a data command was accepted whose transfer isn't counted yet: its peer is waited for, or TLS, or a whole file
/// or listing is under way.
fn owes_last_reply(stage: &Stage) -> bool
    ensures { result ≡ owes_last_reply stage.now }
{
    match stage {
        Stage::Transferring(_) => true,
        Stage::Closing(after) => matches!(after, AfterClose::Fetched(..)),
        Stage::OpeningData(OpeningData::Asking(_, asking)) => {
            matches!(
                asking,
                Asking::Peer(_) | Asking::Accepting(..) | Asking::Securing(_)
            )
        }
        _ => false,
    }
}
