//! What is done beside the control connection: bytes on the data connection, its end, and settings.
//!
//! Such a call sends no command and reads no reply, so a session that has failed makes it, too, and it never waits.

ghost use Rattle.std.specs.Prelude.{◌≡◌, ◌<◌, ℕ, length, None, Some, is_none, true, false};
ghost use Rattle.ftp_calls.specs.Exchanges.{is_local};
ghost use Rattle.ftp_calls.specs.declared.exchange.Movement.TheVariants as movement;
ghost use Rattle.ftp_dialogue.specs.NetEvents.{ReadIs, WriteIs, answers};
ghost use Rattle.ftp_dialogue.specs.Dialogue.{moved_answer};
ghost use Rattle.ftp_dialogue.specs.Play.{Taken, lacks};
ghost use Rattle.ftp_dialogue.specs.Promises.{IsRefused, LeavesIf, refusal_of};
ghost use Rattle.ftp_dialogue.specs.Steps.Moving.{Carries, CarriesOut, Sets};

use super::closing::pass_over;
use super::gathered::fitted;
use super::machine::Machine;
use super::{Answer, Call, Owed, Setting, rule_by};
use crate::model::NetOutcome;
use ftp_base::types::{Bytes, ConnectionError, FtpError};
use ftp_calls::exchange::{drains, finishes, is_local, of_transfer};
use ftp_transport::{Conn, Network, Tells};
use std::alloc::Global;
use std::io::ErrorKind;

impl<Tr: Network> Machine<Tr> {
    /// The answer of a call that isn't made: it is of a transfer, and none is held; or the session has failed. A
    /// transfer that such a call would bring to its end is left.
    pub(super) fn refuse(&mut self, call: &Call) -> Option<Answer>
        ensures taken { result ≡ None →
            (refusal_of call.now self.old ≡ Taken) × (self.new ≡ self.old) }
        ensures refused { (answer : Answer) → result ≡ Some answer →
            IsRefused Tr.Conn.tells call.now self.old self.new answer }
    {
        if of_transfer(call) && self.lacks(call) {
            return Some(Answer::NoTransfer);
        }
        if is_local(call) || !self.channel.failed() {
            return None;
        }
        if finishes(call) {
            self.leave();
        }
        Some(Answer::Fault(FtpError::SessionFailed))
    }

    /// Whether a call lacks its transfer: none is held; or, where it drains one that was left, none was.
    fn lacks(&self, call: &Call) -> bool
        ensures { result ≡ lacks call.now (is_none self.now.net.data_conn)
            self.now.state.counts.owed }
    {
        if drains(call) {
            !matches!(self.state.counts.owed(), Owed::Left(_))
        } else {
            self.data_conn.is_none()
        }
    }

    /// The transfer is left, and its data connection is closed, whatever that results in.
    fn leave(&mut self)
        ensures { LeavesIf true Tr.Conn.tells self.old self.new }
    {
        self.state.counts.leave();
        pass_over(self.close_data());
    }
}

impl<Tr: Network> Machine<Tr>
where
    Tr::Conn: Conn,
{
    /// Makes a call that is none of the control connection: a setting, one read or write on the data connection, or its
    /// close where the transfer is left. A session that has failed makes it, too.
    ///
    /// Returns `NoTransfer` where it is of a transfer and no data connection is held; `OutOfMemory` where there is
    /// no memory for a setting or for the bytes that are read; the error of the read or of the write.
    pub fn local_call(&mut self, alloc: Global, call: &Call) -> Answer
        requires local { is_local call.now ≡ true }
        ensures carries { CarriesOut Tr.Conn.tells call.now self.old self.new result }
    {
        if let Some(answer) = self.refuse(call) {
            return answer;
        }
        let answer = match call {
            Call::Set(setting) => self.set(setting),
            Call::Read(most) => self.read_data(alloc, *most),
            Call::Write(bytes) => self.write_data(bytes.as_slice()),
            Call::Leave => self.leave_held(),
            _ => unreachable!(),
        };
        self.let_go();
        answer
    }

    /// A setting changes.
    fn set(&mut self, setting: &Setting) -> Answer
        ensures sets { Sets setting.now self.old self.new result }
    {
        let Ok(setting) = setting.clone() else {
            return Answer::Fault(FtpError::OutOfMemory);
        };
        match setting {
            Setting::Mode(mode) => self.state.settings.mode = mode,
            Setting::PassiveNatWorkaround(enabled) => {
                self.state.settings.passive_nat_workaround = enabled;
            }
            Setting::ActivePeerCheck(check) => self.state.settings.active_peer_check = check,
            Setting::ActiveDeadline(deadline) => self.state.settings.active_deadline = deadline,
            Setting::LenientReplies(lenient) => self.state.settings.reply_rule = rule_by(lenient),
        }
        Answer::Unit
    }

    /// The transfer is left.
    fn leave_held(&mut self) -> Answer
        ensures leaves { Carries Tr.Conn.tells movement.Close self.old self.new result }
    {
        self.state.counts.leave();
        pass_over(self.close_data());
        Answer::Unit
    }

    /// At most so many bytes are read from the data connection, in one read.
    fn read_data(&mut self, alloc: Global, most: usize) -> Answer
        requires held { is_none self.old.net.data_conn ≡ false }
        ensures reads { Carries Tr.Conn.tells (movement.Read most) self.old self.new result }
    {
        if most == 0 {
            return Answer::Bytes(Bytes::new(alloc));
        }
        let Ok(buffer) = vec![in alloc; 0u8; most] else {
            return Answer::Fault(FtpError::OutOfMemory);
        };
        let Some(conn) = &mut self.data_conn else {
            unreachable!();
        };
        moved_answer(read_once(conn, buffer))
    }

    /// Bytes are written to the data connection, in one write.
    fn write_data(&mut self, bytes: &[u8]) -> Answer
        requires held { is_none self.old.net.data_conn ≡ false }
        ensures writes { Carries Tr.Conn.tells (movement.Write bytes.now) self.old self.new result }
    {
        if bytes.is_empty() {
            return Answer::Count(0);
        }
        let Some(conn) = &mut self.data_conn else {
            unreachable!();
        };
        moved_answer(write_once(conn, bytes))
    }
}

/// One read, of as many bytes as the buffer has at most.
fn read_once<C: Conn>(conn: &mut C, mut buffer: Vec<u8>) -> NetOutcome
    requires some { 0 < length buffer.items }
    ensures reads { C.tells →
        ReadIs (length buffer.items) result (C.told conn.old) (C.told conn.new) }
    ensures answers { (most : ℕ) → answers (movement.Read most) result ≡ true }
{
    match conn.read(&mut buffer) {
        Ok(count) => {
            buffer.truncate(count);
            NetOutcome::Read(fitted(buffer))
        }
        Err(kind) => NetOutcome::Failed(kind),
    }
}

/// One write.
fn write_once<C: Conn>(conn: &mut C, bytes: &[u8]) -> NetOutcome
    requires some { 0 < length bytes.now }
    ensures writes { C.tells → WriteIs bytes.now result (C.told conn.old) (C.told conn.new) }
    ensures answers { answers (movement.Write bytes.now) result ≡ true }
{
    match conn.write(bytes) {
        Ok(count) => NetOutcome::Wrote(count),
        Err(kind) => NetOutcome::Failed(kind),
    }
}

/// The answer by what was done on the data connection.
fn moved_answer(outcome: NetOutcome) -> Answer
    ensures { result ≡ moved_answer outcome }
{
    match outcome {
        NetOutcome::Answered(_outcome) => Answer::Unit,
        NetOutcome::Built(_fault) => Answer::Unit,
        NetOutcome::Secured(_fault) => Answer::Unit,
        NetOutcome::Read(bytes) => Answer::Bytes(bytes),
        NetOutcome::Wrote(count) => Answer::Count(count as u64),
        NetOutcome::Closed => Answer::Unit,
        NetOutcome::Failed(kind) => {
            Answer::Fault(FtpError::ConnectionError(ConnectionError::Io(kind)))
        }
        NetOutcome::NoMemory => Answer::Fault(FtpError::OutOfMemory),
    }
}
