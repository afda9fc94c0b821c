//! What the definitions of lists of calls and of events speak of.
//!
//! They are types of code and not of specs alone, so that the definitions can be computed, and a session be compared
//! with them.

use ftp_base::types::{Bytes, Items};
use ftp_control::control::{ReplyForm, ReplyRule};
use ftp_dialogue::model::{NetRecord, PlayState, Wait};
use ftp_session::session::{Answer, Call, State};
use ftp_transport::Room;

/// What a list of calls results in.
#[derive(Drop)]
pub enum Ran {
    /// Their answers, and where the run stands then.
    Finished(Items<Answer>, PlayState),
    /// The answers of those before the one that waits for this, here.
    Waiting(Items<Answer>, Wait, PlayState),
}

/// A call of a script that is done.
#[derive(Drop)]
pub enum Item {
    /// Its answer is one of the script's.
    Shown(Call),
    /// Its answer is discarded.
    Hidden(Call),
}

/// What events have made of a session.
pub struct Script {
    /// The calls that are done. The last reply of a transfer that was left is an item by itself, where one was read.
    pub items: Items<Item>,
    /// Their answers.
    pub answers: Items<Answer>,
    /// The call under way.
    pub call: Option<Call>,
    /// Whether it was polled.
    pub polled: bool,
    /// Whether the transfer that is held is left once it is over.
    pub leaving: bool,
    /// Whether it has begun to read: not while it waits for room for its first line.
    pub heard: bool,
    /// All bytes that came.
    pub bytes: Bytes,
    /// Whether they ended.
    pub ended: bool,
    /// How much may be written.
    pub room: Room,
    /// All that was to be sent, the line that waits for room with it.
    pub said: Bytes,
    /// The bytes that went out.
    pub sent: Bytes,
    /// The unsent tail of a line that was begun before.
    pub unsent: Bytes,
    /// The bytes that are part of no reply.
    pub untaken: Bytes,
    /// What stands beside the control connection.
    pub net_record: NetRecord,
    /// How many of these a Poll has read.
    pub seen: usize,
    /// The form of the reply that it read them as.
    pub form: ReplyForm,
    /// The rule by which it read them.
    pub rule: ReplyRule,
    /// What the session keeps beside its channel.
    pub state: State,
    /// Whether it has failed.
    pub failed: bool,
}

impl Drop for Script {
    fn drop(self) {
        let Self {
            items,
            answers,
            call,
            polled: _,
            leaving: _,
            heard: _,
            bytes,
            ended: _,
            room: _,
            said,
            sent,
            unsent,
            untaken,
            net_record,
            seen: _,
            form: _,
            rule: _,
            state,
            failed: _,
        } = self;
        drop(items);
        drop(answers);
        drop(call);
        drop(bytes);
        drop(said);
        drop(sent);
        drop(unsent);
        drop(untaken);
        drop(net_record);
        drop(state);
    }
}
