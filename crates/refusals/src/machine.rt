//! Calls of the machine that plays every dialogue.

ghost use Rattle.std.specs.Prelude.{◌≡◌, ◌⊎◌, true, false};
ghost use Rattle.futures.specs.declared.task.Poll.TheVariants as poll;
ghost use Rattle.ftp_calls.specs.Exchanges.{drains, is_local, negotiates, of_transfer};
ghost use Rattle.ftp_dialogue.specs.CatchingUp.{CatchesUp, InStepIf, PollsReadInStep, reads_dropped_first, is_plain_read};
ghost use Rattle.ftp_dialogue.specs.Coding.{coding_of};
ghost use Rattle.ftp_dialogue.specs.Dropping.{DropsCall};
ghost use Rattle.ftp_dialogue.specs.Link.{asking, blocking, polling};
ghost use Rattle.ftp_dialogue.specs.Play.{Lacking};
ghost use Rattle.ftp_dialogue.specs.Dialogue.{expecting};
ghost use Rattle.ftp_dialogue.specs.Promises.{GivesFault, refusal_of};
ghost use Rattle.ftp_dialogue.specs.Steps.Moving.{Made, MadeDrained};
ghost use Rattle.ftp_dialogue.specs.Steps.Stages.{MayAnswer};

use ftp_base::encoding::Encoding;
use ftp_base::status::Status;
use ftp_base::types::{FtpError, FtpResult, Response};
use ftp_dialogue::data_path::DataPath;
use ftp_dialogue::machine::Machine;
use ftp_dialogue::stage::Stage;
use ftp_dialogue::{Answer, Call};
use ftp_transport::{Conn, Network, NeverWaits, PollConn};
use futures::task::Poll;
use std::alloc::Global;

/// `Machine::call`.
pub fn call<Tr: Network, E: Encoding, A: DataPath<Tr, NeverWaits>>(
    machine: &mut Machine<Tr>,
    data_path: &A,
    alloc: Global,
    encoding: &E,
    call: &Call,
) -> Answer
where
    Tr::Conn: Conn,
    requires may { negotiates call.now ≡ true → A.may_ask }
    requires channel { is_local call.now ≡ false }
    requires blocks { A.may_wait → ⊥ }
    ensures answers { of_transfer call.now ≡ false → MayAnswer call.now result }
    ensures made { MadeDrained (asking (A.builds data_path.now) A.may_wait (blocking Tr.Conn.Conn))
        (coding_of E.decoded E.encoded encoding.now) call.now machine.old machine.new result }
{
    machine.call(data_path, alloc, encoding, call)
}

/// `Machine::call_alone`.
pub fn call_alone<Tr: Network, E: Encoding, A: DataPath<Tr, NeverWaits>>(
    machine: &mut Machine<Tr>,
    data_path: &A,
    alloc: Global,
    encoding: &E,
    call: &Call,
) -> Answer
where
    Tr::Conn: Conn,
    requires may { negotiates call.now ≡ true → A.may_ask }
    requires channel { is_local call.now ≡ false }
    requires blocks { A.may_wait → ⊥ }
    ensures answers { (refusal_of call.now machine.old ≡ Lacking → ⊥) → MayAnswer call.now result }
    ensures made { Made (asking (A.builds data_path.now) A.may_wait (blocking Tr.Conn.Conn))
        (coding_of E.decoded E.encoded encoding.now) call.now machine.old machine.new result }
{
    machine.call_alone(data_path, alloc, encoding, call)
}

/// `Machine::call_in_step`.
pub fn call_in_step<Tr: Network, E: Encoding, A: DataPath<Tr, NeverWaits>>(
    machine: &mut Machine<Tr>,
    data_path: &A,
    alloc: Global,
    encoding: &E,
    call: &Call,
) -> Answer
where
    Tr::Conn: Conn,
    requires may { negotiates call.now ≡ true → A.may_ask }
    requires channel { is_local call.now ≡ false }
    requires blocks { A.may_wait → ⊥ }
    requires unheld { of_transfer call.now ≡ false }
    ensures answers { MayAnswer call.now result }
    ensures made { InStepIf (reads_dropped_first call.now machine.old) (blocking Tr.Conn.Conn)
        (is_plain_read call.now) (drains call.now) (MadeDrained
        (asking (A.builds data_path.now) A.may_wait (blocking Tr.Conn.Conn))
        (coding_of E.decoded E.encoded encoding.now) call.now) machine.old machine.new result }
{
    machine.call_in_step(data_path, alloc, encoding, call)
}

/// `Machine::poll_dropped_replies`.
pub fn poll_dropped_replies<Tr: Network, W>(
    machine: &mut Machine<Tr>,
    alloc: Global,
    call: &Call,
    w: &mut W,
) -> Poll<Option<FtpError>>
where
    Tr::Conn: PollConn<W>,
    requires going { machine.old.channel.failed ≡ false }
    ensures waits { result ≡ poll.Pending → Tr.Conn.may_wait }
    ensures catches_up { CatchesUp (polling Tr.Conn.PollConn) (is_plain_read call.now) machine.old
        machine.new result }
{
    machine.poll_dropped_replies(alloc, call, w)
}

/// `Machine::drop_call`.
pub fn drop_call<Tr: Network>(machine: &mut Machine<Tr>, call: &Call, stage: &Stage)
    ensures drops { DropsCall Tr.Conn.tells call.now stage.now machine.old machine.new }
{
    machine.drop_call(call, stage);
}

/// `Machine::poll_read`.
pub fn poll_read<Tr: Network, W, E: Encoding>(
    machine: &mut Machine<Tr>,
    alloc: Global,
    encoding: &E,
    expected: &[Status],
    w: &mut W,
) -> Poll<FtpResult<Response>>
where
    Tr::Conn: PollConn<W>,
    ensures waits { result ≡ poll.Pending → Tr.Conn.may_wait }
    ensures fails { machine.new.channel.failed ≡ true →
        (machine.old.channel.failed ≡ true) ⊎ GivesFault result }
    ensures reads { PollsReadInStep (polling Tr.Conn.PollConn) (coding_of E.decoded E.encoded encoding.now) (expecting expected.now)
        machine.old machine.new result }
{
    machine.poll_read(alloc, encoding, expected, w)
}
