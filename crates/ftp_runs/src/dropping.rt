//! Calls that are dropped in a list of events, and transfers that are left there (RFC 959, sections 4.2 and 5.4).

ghost use Rattle.std.specs.Prelude.{◌≡◌, option_map, None, Some};
ghost use Rattle.ftp_runs.specs.Following.{DropsCall, HasLeft, HasLeftIf, LeavesNow};
ghost use Rattle.ftp_runs.specs.Script.{drops_begun};

use super::events::{Course, holds_memory, resting};
use ftp_calls::exchange::{aborts, finishes, is_read};
use ftp_dialogue::machine::Machine;
use ftp_dialogue::stage::Stage;
use ftp_session::session::{Answer, Call};
use ftp_transport::MemoryTransport;
use std::alloc::Global;

/// The call under way is dropped. One that has begun is dropped where it stands, so that the reply of a line that was
/// begun is due before later calls; after it a transfer is left that was to be left once it is over. One that brings a
/// transfer to its end leaves it. Nothing goes over the control connection.
pub(crate) fn drop_call<'e>(
    machine: &mut Machine<MemoryTransport>,
    alloc: Global,
    under_way: &mut Option<&'e Call>,
    stage: &Stage,
    course: &mut Course,
)
    ensures none { under_way.new ≡ None }
    ensures drops { DropsCall (option_map (λ c. c.now) under_way.old) course.old stage.now
        machine.old machine.new course.new }
{
    let Some(call) = *under_way else {
        return;
    };
    let was = *course;
    *under_way = None;
    *course = resting();
    if has_begun(call, was.polled) {
        machine.drop_call(call, stage);
        leave_then(machine, alloc, was.leaving);
    } else if !finishes(call) {
        leave_then(machine, alloc, was.leaving);
    } else if !was.polled {
        leave_held(machine, alloc);
    }
}

/// Whether a call has begun so that a reply of it may be due where it is dropped: it was polled, and is no plain read,
/// nor `Finish`.
fn has_begun(call: &Call, polled: bool) -> bool
    ensures { result ≡ drops_begun (Some call.now) polled }
{
    polled && !(is_read(call) || (finishes(call) && !aborts(call)))
}

/// The transfer that is held is left: before a call under way that wasn't polled, unless it took the transfer as it
/// began; and after one that was.
pub(crate) fn leave_now<'e>(
    machine: &mut Machine<MemoryTransport>,
    alloc: Global,
    under_way: &Option<&'e Call>,
    course: &mut Course,
)
    ensures leaves { LeavesNow (option_map (λ c. c.now) under_way.now) course.old machine.old
        machine.new course.new }
{
    let Some(call) = *under_way else {
        leave_held(machine, alloc);
        return;
    };
    if course.polled {
        course.leaving = course.leaving || machine.holds_transfer();
    } else if !finishes(call) {
        leave_held(machine, alloc);
    }
}

/// The transfer that is held is left, where that was to be done.
pub(crate) fn leave_then(machine: &mut Machine<MemoryTransport>, alloc: Global, leaving: bool)
    ensures leaves { HasLeftIf leaving machine.old machine.new }
{
    if leaving {
        leave_held(machine, alloc);
    }
}

/// The transfer that is held, if any, is left: its data connection is closed.
fn leave_held(machine: &mut Machine<MemoryTransport>, alloc: Global)
    ensures leaves { HasLeft machine.old machine.new }
{
    if machine.holds_transfer() {
        told_to_nobody(machine.local_call(alloc, &Call::Leave));
    }
    holds_memory(machine);
}

/// This answer is discarded.
fn told_to_nobody(answer: Answer) {
    drop(answer);
}
