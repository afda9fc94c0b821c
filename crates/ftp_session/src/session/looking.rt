//! How a session learns that a transfer was left which it handed out (RFC 959, section 3.2).
//!
//! Whoever holds the transfer may leave it on any thread while another holds the session; that stores its mark. A
//! session looks at the mark once, as the first step of each call that goes over the control connection: a transfer
//! that was left by then has its last reply read before the call sends or receives anything of its own.

ghost use Rattle.std.specs.Prelude.{◌≡◌};
ghost use Rattle.ftp_session.specs.Handed.{LooksIf, as_seen, watches};

use ftp_dialogue::machine::Machine;
use ftp_transfer::mark::SessionEnd;
use ftp_transport::Network;

/// Looks once at the mark of the transfer that is live, where it was handed out: one that was left is owed.
pub(super) fn look<Tr: Network>(machine: &mut Machine<Tr>, mark: &mut Option<SessionEnd>)
    ensures looks { LooksIf (watches mark.old machine.old) mark.old mark.new }
    ensures seen { machine.new ≡ as_seen mark.new machine.old }
{
    let Some(end) = mark else {
        return;
    };
    if !machine.state.counts.is_live(end.number()) {
        return;
    }
    if end.look() {
        machine.state.counts.leave();
    }
}
