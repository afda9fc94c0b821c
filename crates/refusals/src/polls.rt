//! Polled calls, and runs of events.

ghost use Rattle.std.specs.Prelude.{◌≡◌, ◌⊎◌, IfOk, IfErr, None, OnErr, OnOk};
ghost use Rattle.ftp_dialogue.specs.Coding.{chosen};
ghost use Rattle.ftp_session.specs.Handed.{LooksIf, as_seen, watches};
ghost use Rattle.ftp_dialogue.specs.Link.{asking, built_by, polling};
ghost use Rattle.ftp_dialogue.specs.Promises.{FailsWith};
ghost use Rattle.ftp_calls.specs.Kinds.{IsPlain};
ghost use Rattle.ftp_dialogue.specs.PollCauses.{CausesPoll, kept_error};
ghost use Rattle.ftp_session.specs.Polled.{CountsPoll, PollsCall};
ghost use Rattle.ftp_runs.specs.Counting.{CountsEvents};
ghost use Rattle.ftp_runs.specs.Scripted.{IsScripted, StopsAtFeed};
ghost use Rattle.ftp_dialogue.specs.Sound.{Sound};
ghost use Rattle.ftp_runs.specs.Following.{Grows};
ghost use Rattle.ftp_session.specs.Kept.{Keeps};

use ftp_base::encoding::Encoding;
use ftp_base::types::{FtpError, FtpResult};
use ftp_runs::{Event, RunEvents};
use ftp_session::session::{Answer, PolledCall, PollsCalls, Session};
use ftp_transport::{
    MemoryConn, MemoryTransport, Network, PassiveStreamBuilder, PollConn, PollTransport,
};
use futures::task::Poll;
use std::alloc::Global;

/// `Session::run_polled`.
pub fn run_polled<K: Drop, E: Encoding, B: PassiveStreamBuilder<MemoryConn>>(
    session: &mut Session<MemoryTransport, K, E, B>,
    alloc: Global,
    events: &[Event],
) -> FtpResult<Vec<Answer>>
    ensures scripted { IfOk result (λ answers. IsScripted (built_by B.answers session.old.builder)
        (chosen E.decoded E.encoded session.old.encoding.0)
        (as_seen session.new.mark session.old.machine) events.now session.new.machine answers.items) }
    ensures counts { IfOk result (λ answers. CountsEvents (built_by B.answers session.old.builder)
        None None events.now (as_seen session.new.mark session.old.machine) session.new.machine
        answers.items) }
    ensures looks { OnOk result (LooksIf (watches session.old.mark session.old.machine)
        session.old.mark session.new.mark) }
    ensures keeps { Keeps session.old session.new }
    ensures memory { IfErr result (λ fault. fault ≡ FtpError.OutOfMemory) }
    ensures stops { OnErr result ((session.new ≡ session.old) ⊎
        (LooksIf (watches session.old.mark session.old.machine) session.old.mark session.new.mark ×
        StopsAtFeed (built_by B.answers session.old.builder)
        (chosen E.decoded E.encoded session.old.encoding.0)
        (as_seen session.new.mark session.old.machine) events.now session.new.machine)) }
    ensures grows { Grows (built_by B.answers session.old.builder)
        (as_seen session.new.mark session.old.machine) session.new.machine }
    ensures fails { IfOk result (λ answers. FailsWith (as_seen session.new.mark session.old.machine)
        session.new.machine answers.items) }
    ensures sound { Sound (Unit {0}) session.new.machine.channel
        session.new.machine.state.counts }
{
    session.run_polled(alloc, events)
}

/// `Session::poll_call`.
pub fn poll_call<
    R,
    W,
    Tr: PollTransport<R, W>,
    K: Drop,
    E: Encoding,
    B: PassiveStreamBuilder<Tr::Conn>,
>(
    session: &mut Session<Tr, K, E, B>,
    alloc: Global,
    rt: &R,
    polled: &mut PolledCall,
    w: &mut W,
) -> Poll<Answer>
where
    Tr::Conn: PollConn<W>,
    ensures polls { PollsCall (asking (built_by B.answers session.old.builder)
        (Tr.PollTransport.may_wait ⊎ Tr.Conn.PollConn.may_wait) (polling Tr.Conn.PollConn))
        Tr.Conn.PollConn.may_wait (chosen E.decoded E.encoded session.old.encoding.0) polled.old
        polled.new session.old.mark session.new.mark session.old.machine session.new.machine result }
    ensures counts { IsPlain polled.old.call → CountsPoll Tr.Conn.tells session.old.machine
        session.new.machine result }
    ensures causes { CausesPoll (asking (built_by B.answers session.old.builder)
        (Tr.PollTransport.may_wait ⊎ Tr.Conn.PollConn.may_wait) (polling Tr.Conn.PollConn))
        polled.old.call (kept_error polled.old.stage) (kept_error polled.new.stage) session.old.machine
        session.new.machine result }
    ensures keeps { Keeps session.old session.new }
{
    session.poll_call(alloc, rt, polled, w)
}
