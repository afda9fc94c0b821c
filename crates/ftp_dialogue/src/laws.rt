//! Laws of the dialogues, each the contract of a function that does nothing else.
//!
//! The first are of the calls that open a data connection: RETR, STOR and APPE (RFC 959, section 4.1.3) and a caller's own
//! data commands. What such a call results in
//! is defined by its dialogue, which is long. These laws say of each such dialogue, whatever the server sends, what a
//! reader of the RFCs would ask first. A run that isn't aborted results in what the definition says (`Session::run`:
//! `runs`), so they hold of its calls.

ghost use Rattle.std.specs.Prelude.{◌≡◌, ◌==◌, ℕ, None, true, false};
ghost use Rattle.futures.specs.declared.task.Poll.TheVariants.{Ready};
ghost use Rattle.ftp_dialogue.specs.CatchingUp.{BeginsAnew, CatchesUp};
ghost use Rattle.ftp_dialogue.specs.Link.{polling};
ghost use Rattle.ftp_dialogue.specs.State.{SessionValue};
ghost use Rattle.ftp_base.specs.declared.types.fault.FtpError.TheVariants.{DataConnectionAlreadyOpen};
ghost use Rattle.ftp_calls.specs.declared.call.Answer.TheVariants.{Fault};
ghost use Rattle.ftp_calls.specs.Exchanges.{negotiates};
ghost use Rattle.ftp_transport.specs.declared.room.Room.{Room};
ghost use Rattle.ftp_dialogue.specs.Coding.{Coding};
ghost use Rattle.ftp_dialogue.specs.Dialogue.{opened_from};
ghost use Rattle.ftp_dialogue.specs.Laws.{AsksPeerAlone, UsesPeerHost, offset_after};
ghost use Rattle.ftp_dialogue.specs.Play.{play_call};
ghost use Rattle.ftp_dialogue.specs.declared.model.Played.TheVariants.{Done};
ghost use Rattle.ftp_dialogue.specs.declared.model.PlayState.{PlayState};
ghost use Rattle.ftp_dialogue.specs.declared.state.Owed.TheVariants.{Live};

use crate::Call;
use ftp_transport::PollConn;

/// While a transfer is live no other is opened: unless the session has failed, the call fails with
/// `DataConnectionAlreadyOpen`. Nothing is sent or consumed, the transport is asked for nothing, the data connection
/// stays as it is, and of what the session keeps the offset alone is taken away (RFC 959, section 3.2).
pub fn a_live_transfer_refuses_another(call: &Call)
    requires { negotiates call.now ≡ true }
    ensures refused { (coding : Coding) (room : Room) (s : PlayState) (number : ℕ) →
        s.failed ≡ false → s.state.counts.owed ≡ Live number →
        play_call room coding call.now s
        ≡ Done (Fault DataConnectionAlreadyOpen) (record s { state = opened_from call.now s.state }) }
{}

/// An offset is of the next data command alone: whether the call opens a data connection, fails or still waits, no
/// offset is left for the one after it, unless the session had failed before (RFC 3659, section 5).
pub fn a_data_command_takes_the_offset_away(call: &Call)
    requires { negotiates call.now ≡ true }
    ensures none_left { (coding : Coding) (room : Room) (s : PlayState) →
        s.failed ≡ false → offset_after (play_call room coding call.now s) ≡ 0 }
{}

/// In the extended passive mode, and in the passive mode behind a router that rewrites addresses, each connection that
/// the call asks for leads to the host of the control connection's peer, whatever the server sends (RFC 2428, section 3;
/// RFC 959, section 3.2). So a server can't turn its client against a third host, as in the bounce attack of RFC 2577.
pub fn a_data_connection_leads_to_the_control_peer(call: &Call)
    requires { negotiates call.now ≡ true }
    ensures to_peer { (coding : Coding) (room : Room) (s : PlayState) →
        UsesPeerHost s.state.settings → AsksPeerAlone s (play_call room coding call.now s) }
{}

/// Once the replies that were due to dropped commands have been read, nothing is kept of a reply: the call after them reads
/// its own from its first byte, by the session's setting, whatever it is (RFC 959, section 4.2).
pub fn replies_that_were_due_leave_nothing<W, C: PollConn<W>>()
    ensures anew { (old new : SessionValue) → (old.state.unanswered == 0) ≡ false →
        CatchesUp (polling C.PollConn) false old new (Ready None) → BeginsAnew new }
{}
