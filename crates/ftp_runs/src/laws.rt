//! Laws of lists of events, each the contract of a function that does nothing else.

ghost use Rattle.std.specs.Prelude.{◌≡◌, List, zero};
ghost use Rattle.ftp_transport.specs.declared.room.Room.{Room};
ghost use Rattle.ftp_control.specs.declared.control.form.ReplyForm.{ReplyForm};
ghost use Rattle.ftp_calls.specs.declared.call.Call.{Call};
ghost use Rattle.ftp_calls.specs.declared.call.Event.{Event};
ghost use Rattle.ftp_dialogue.specs.Coding.{Coding};
ghost use Rattle.ftp_dialogue.specs.Laws.{reached};
ghost use Rattle.ftp_dialogue.specs.Play.{play_call};
ghost use Rattle.ftp_dialogue.specs.State.{SessionValue};
ghost use Rattle.ftp_dialogue.specs.declared.model.NetOutcome.{NetOutcome};
ghost use Rattle.ftp_dialogue.specs.declared.model.PlayState.{PlayState};
ghost use Rattle.ftp_runs.specs.OneScript.{DropsFreely};
ghost use Rattle.ftp_runs.specs.Script.{Whole, script_of, start_of};

/// A call that is made where no reply is due to a command that was dropped leaves none due, whatever comes of it (RFC 959,
/// section 4.2).
pub fn a_call_in_step_leaves_none_due()
    ensures none { (coding : Coding) (room : Room) (call : Call) (s : PlayState) →
        s.state.unanswered ≡ 0 → (reached (play_call room coding call s)).state.unanswered ≡ 0 }
{}

/// On a session on which no reply is due, a list in which each call that is dropped wasn't polled, or is a plain read, or
/// `Finish`, is one script: no drop ends it, and no call reads what is due to another (RFC 959, section 5.4).
pub fn a_list_of_free_drops_is_one_script()
    ensures whole { (coding : Coding) (outcomes : List NetOutcome) (old : SessionValue) (form :
        ReplyForm) (events : List Event) →
        old.state.unanswered ≡ 0 →
        DropsFreely coding (start_of old outcomes) (script_of old form) events →
        Whole coding (start_of old outcomes) zero (script_of old form) events }
{}
