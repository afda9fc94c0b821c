//! How a transfer that was handed out comes to its end by its session (RFC 959, section 3.2).
//!
//! A session knows transfers and receipts by number alone; that they are its own is the caller's care. A transfer of
//! another number is left, and nothing of the session changes.

ghost use Rattle.std.specs.Prelude.{◌≡◌, None, OnErr, OnOk, Some, true};
ghost use Rattle.ftp_transfer.specs.Mark.{loaded};
ghost use Rattle.ftp_session.specs.Calls.{unit_answer};
ghost use Rattle.ftp_dialogue.specs.Coding.{chosen};
ghost use Rattle.ftp_dialogue.specs.Counted.{CountsFaults, CountsFaultsBeside};
ghost use Rattle.ftp_session.specs.Handed.{BeginsToSettle, BringsToEnd, EndsOnly, Settles, TakesBack, is_out, left_if, passed_over, with_data};
ghost use Rattle.ftp_dialogue.specs.Link.{blocking};
ghost use Rattle.ftp_dialogue.specs.Sound.{is_owed};
ghost use Rattle.ftp_session.specs.Kept.{Keeps};

use super::client::Session;
use super::polling::DropsCalls;
use super::{Answer, Call};
use ftp_base::encoding::Encoding;
use ftp_base::types::{ConnectionError, FtpError, FtpResult};
use ftp_dialogue::data_path::NoData;
use ftp_dialogue::machine::Machine;
use ftp_transfer::mark::{Left, SessionEnd};
use ftp_transfer::{Transfer, TransferParts};
use ftp_transport::{Conn, Network};
use std::alloc::Global;

impl<Tr: Network, K: Drop, E: Encoding, B: Drop> Session<Tr, K, E, B>
where
    Tr::Conn: Conn,
{
    /// Brings a transfer to its end: closes its data connection, which ends an upload's file, and reads its last reply
    /// (226, 250). Whatever that is, the transfer is over.
    ///
    /// # Errors
    /// Those of a read of one reply; before them, of an upload, the error of the close. `NotOwed` where the session
    /// owes no transfer of this number: that is left, and nothing of the session changes. On a session that has failed
    /// `SessionFailed`, whichever transfer it is; where there is no memory for the record of the data connection
    /// `OutOfMemory`; the transfer is left then.
    pub fn finish(&mut self, alloc: Global, transfer: Transfer<Tr::Conn>) -> FtpResult<()>
        ensures finishes { BringsToEnd (blocking Tr.Conn.Conn)
            (chosen E.decoded E.encoded self.old.encoding.0) Call.Finish transfer self.old.mark
            self.new.mark self.old.machine self.new.machine (unit_answer result) }
        ensures counts { CountsFaultsBeside (blocking Tr.Conn.Conn)
            (with_data (Some transfer.told) self.old.machine) self.new.machine (unit_answer
            result) }
        ensures keeps { Keeps self.old self.new }
    {
        match take_back(self, transfer) {
            Ok(()) => ended(
                self.machine
                    .call_alone(&NoData, alloc, &self.encoding, &Call::Finish),
            ),
            Err(fault) => Err(fault),
        }
    }

    /// Aborts a transfer: `ABOR` goes out, its data connection is closed, and what the server replies is read (226, or
    /// 426 and then 226; RFC 959, section 4.1.3). Once `ABOR` is out the transfer is over, whatever is read.
    ///
    /// # Errors
    /// Those of a command that goes out: where it can't, the transfer is left, and the next command reads its last reply
    /// first. Those of a read of one reply. `NotOwed` where the session owes no transfer of this number: that is left, and
    /// nothing of the session changes. On a session that has failed `SessionFailed`; where there is no memory for the
    /// record of the data connection `OutOfMemory`; the transfer is left then.
    pub fn abort(&mut self, alloc: Global, transfer: Transfer<Tr::Conn>) -> FtpResult<()>
        ensures aborts { BringsToEnd (blocking Tr.Conn.Conn)
            (chosen E.decoded E.encoded self.old.encoding.0) Call.Abort transfer self.old.mark
            self.new.mark self.old.machine self.new.machine (unit_answer result) }
        ensures counts { CountsFaultsBeside (blocking Tr.Conn.Conn)
            (with_data (Some transfer.told) self.old.machine) self.new.machine (unit_answer
            result) }
        ensures keeps { Keeps self.old self.new }
    {
        match take_back(self, transfer) {
            Ok(()) => ended(
                self.machine
                    .call_alone(&NoData, alloc, &self.encoding, &Call::Abort),
            ),
            Err(fault) => Err(fault),
        }
    }

    /// Reads the last reply of a transfer that was left (226, 250), by its receipt, and those that are due to commands that
    /// were dropped. A reply of another status ends the
    /// transfer as well. One whose last reply was read before is over, and nothing is read.
    ///
    /// # Errors
    /// Those of a read of one reply, but for `UnexpectedResponse`; `SessionFailed` on a session that has failed.
    pub fn settle(&mut self, alloc: Global, left: &mut Left) -> FtpResult<()>
        ensures settles { Settles (blocking Tr.Conn.Conn) (chosen E.decoded E.encoded
            self.old.encoding.0) left.old self.old.machine self.new.machine (unit_answer result) }
        ensures counts { CountsFaults Tr.Conn.tells self.old.machine self.new.machine
            (unit_answer result) }
        ensures looks { left.new ≡ loaded true left.old }
        ensures mark { self.new.mark ≡ self.old.mark }
        ensures keeps { Keeps self.old self.new }
    {
        let owed = match begin_settle(self, left) {
            Ok(owed) => owed,
            Err(fault) => return Err(fault),
        };
        if !owed {
            return Ok(());
        }
        self.machine.settle(alloc, &self.encoding)
    }
}

/// Takes a transfer that is live back into the session, to be brought to its end by a polled call. One of another number
/// is left.
///
/// # Errors
/// `NotOwed` for one of another number, which is left; `OutOfMemory` where there is no memory for the record that a
/// close will need, and the transfer is left. On a session that has failed `SessionFailed` in both cases.
pub fn take_back<Tr: Network, K: Drop, E: Encoding, B: Drop>(
    session: &mut Session<Tr, K, E, B>,
    transfer: Transfer<Tr::Conn>,
) -> FtpResult<()>
    ensures takes { TakesBack transfer session.old.mark session.new.mark session.old.machine
        session.new.machine result }
    ensures keeps { Keeps session.old session.new }
{
    if !is_out(&session.machine, &session.mark, transfer.number()) {
        return Err(passed_over(&session.machine));
    }
    match put_back(&mut session.machine, &mut session.mark, transfer) {
        Ok(()) => Ok(()),
        Err(_transfer) => {
            leave_behind(&mut session.machine);
            Err(session.withheld())
        }
    }
}

/// Looks at a receipt, and returns whether its transfer's last reply is still to be read, which `Call::Drain` does. The
/// transfer is left then.
///
/// # Errors
/// `SessionFailed` on a session that has failed.
pub fn begin_settle<Tr: Network, K: Drop, E: Encoding, B: Drop>(
    session: &mut Session<Tr, K, E, B>,
    left: &mut Left,
) -> FtpResult<bool>
    ensures begins { BeginsToSettle left.old session.old.machine session.new.machine result }
    ensures looks { left.new ≡ loaded true left.old }
    ensures mark { session.new.mark ≡ session.old.mark }
    ensures keeps { Keeps session.old session.new }
{
    left.look_after();
    if has_failed(&session.machine) {
        return Err(FtpError::SessionFailed);
    }
    if !is_owed(&session.machine, left.number()) {
        return Ok(false);
    }
    leave_behind(&mut session.machine);
    Ok(true)
}

/// Why a transfer of another number isn't brought to its end.
fn passed_over<Tr: Network>(machine: &Machine<Tr>) -> FtpError
    ensures { result ≡ passed_over machine.now }
{
    if has_failed(machine) {
        FtpError::SessionFailed
    } else {
        FtpError::ConnectionError(ConnectionError::NotOwed)
    }
}

/// Whether the session has failed.
fn has_failed<Tr: Network>(machine: &Machine<Tr>) -> bool
    ensures { result ≡ machine.now.channel.failed }
{
    machine.channel.failed()
}

/// Whether the transfer of this number was handed out, and is live.
#[tactic(auto, unfolding(crate::specs::Handed::is_out))]
fn is_out<Tr: Network>(machine: &Machine<Tr>, mark: &Option<SessionEnd>, number: u64) -> bool
    ensures { result ≡ is_out number mark.now machine.now }
{
    match mark {
        Some(end) => machine.state.counts.is_live(end.number()) && end.number() == number,
        None => false,
    }
}

/// Whether the last reply of the transfer of this number is owed.
fn is_owed<Tr: Network>(machine: &Machine<Tr>, number: u64) -> bool
    ensures { result ≡ is_owed number machine.now.state.counts.owed }
{
    machine.state.counts.is_owed(number)
}

/// The transfer that is live, if there is one, is left.
pub(super) fn leave_behind<Tr: Network>(machine: &mut Machine<Tr>)
    ensures { machine.new ≡ left_if true machine.old }
{
    machine.state.counts.leave();
}

/// The data connection of a transfer stands beside the control connection again, and its mark is given up. Where there
/// is no memory for the record that a close will need, or no end of a mark, the transfer is returned.
fn put_back<Tr: Network>(
    machine: &mut Machine<Tr>,
    mark: &mut Option<SessionEnd>,
    transfer: Transfer<Tr::Conn>,
) -> Result<(), Transfer<Tr::Conn>>
    ensures taken { OnOk result (machine.new ≡ with_data (Some transfer.told) machine.old) }
    ensures given_up { OnOk result (mark.new ≡ None) }
    ensures unchanged { OnErr result (machine.new ≡ machine.old) }
    ensures mark_stays { OnErr result (mark.new ≡ mark.old) }
{
    if machine.transport.make_room().is_err() {
        return Err(transfer);
    }
    let Some(end) = mark.take() else {
        return Err(transfer);
    };
    machine.data_conn = Some(transfer.into_conn(end));
    Ok(())
}

/// The result of a call that brings a transfer to its end.
pub(super) fn ended(answer: Answer) -> FtpResult<()>
    requires { EndsOnly answer }
    ensures { unit_answer result ≡ answer }
{
    match answer {
        Answer::Unit => Ok(()),
        Answer::Fault(fault) => Err(fault),
        Answer::Reply(_) => unreachable!(),
        Answer::Text(_) => unreachable!(),
        Answer::Time(_) => unreachable!(),
        Answer::Size(_) => unreachable!(),
        Answer::Features(_) => unreachable!(),
        Answer::Opened => unreachable!(),
        Answer::OpenedWith(_) => unreachable!(),
        Answer::Bytes(_) => unreachable!(),
        Answer::Count(_) => unreachable!(),
        Answer::Lines(_) => unreachable!(),
        Answer::NoTransfer => unreachable!(),
    }
}
