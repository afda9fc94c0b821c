//! A call of a list, after the last reply of a transfer that was left where one is due.

ghost use Rattle.std.specs.Prelude.{◌≡◌, false};
ghost use Rattle.ftp_calls.specs.Exchanges.{is_local, of_transfer};
ghost use Rattle.ftp_dialogue.specs.CatchingUp.{PlaysInStep};
ghost use Rattle.ftp_dialogue.specs.Coding.{coding_of};
ghost use Rattle.ftp_dialogue.specs.Link.{asking, blocking, built_by};
ghost use Rattle.ftp_dialogue.specs.Steps.Moving.{MadeDrained};

use super::{Answer, Call};
use ftp_base::encoding::Encoding;
use ftp_calls::exchange::is_local;
use ftp_dialogue::data_path::BlockingData;
use ftp_dialogue::machine::Machine;
use ftp_transport::{Conn, Network, PassiveStreamBuilder, Transport};
use std::alloc::Global;

/// Makes a call of a list (`ftp_runs`): one that is none of the control connection is carried out.
pub fn make<Tr: Network, R, E: Encoding, B: PassiveStreamBuilder<Tr::Conn>>(
    machine: &mut Machine<Tr>,
    alloc: Global,
    rt: &R,
    builder: &Option<B>,
    encoding: &E,
    call: &Call,
) -> Answer
where
    Tr::Conn: Conn,
    Tr: Transport<R>,
    ensures made { MadeDrained (asking (built_by B.answers builder.now) ⊥ (blocking Tr.Conn.Conn))
        (coding_of E.decoded E.encoded encoding.now) call.now machine.old machine.new result }
{
    if is_local(call) {
        machine.local_call(alloc, call)
    } else {
        machine.call(&BlockingData(rt, builder), alloc, encoding, call)
    }
}

/// Makes a call that goes over the control connection in step: after the replies that are due to commands that were dropped.
pub(super) fn make_in_step<Tr: Network, R, E: Encoding, B: PassiveStreamBuilder<Tr::Conn>>(
    machine: &mut Machine<Tr>,
    alloc: Global,
    rt: &R,
    builder: &Option<B>,
    encoding: &E,
    call: &Call,
) -> Answer
where
    Tr::Conn: Conn,
    Tr: Transport<R>,
    requires channel { is_local call.now ≡ false }
    requires unheld { of_transfer call.now ≡ false }
    ensures made { PlaysInStep (asking (built_by B.answers builder.now) ⊥ (blocking Tr.Conn.Conn))
        (coding_of E.decoded E.encoded encoding.now) call.now machine.old machine.new result }
{
    machine.call_in_step(&BlockingData(rt, builder), alloc, encoding, call)
}
