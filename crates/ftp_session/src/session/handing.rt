//! A transfer that was opened is handed out.
//!
//! The two ends of its mark are made before anything is sent, since there may be no memory for them. One goes with the
//! transfer, the other stays with the session.

ghost use Rattle.std.specs.Prelude.{◌≡◌, ◌⊎◌, [], IfOk, IfErr, Some, None, true, false, is_none};
ghost use Rattle.ftp_session.specs.Polled.{HandsOver};
ghost use Rattle.ftp_session.specs.Handed.{ComesTo, GivesUp, with_data};
ghost use Rattle.ftp_dialogue.specs.Sound.{is_live, next_number};
ghost use Rattle.ftp_dialogue.specs.Steps.Moving.{withheld};
ghost use Rattle.ftp_session.specs.Kept.{KeepsChoices};

use super::Answer;
use super::client::Session;
use super::ending::leave_behind;
use super::polling::DropsCalls;
use ftp_base::encoding::Encoding;
use ftp_base::types::{ConnectionError, FtpError, FtpResult, Response};
use ftp_dialogue::machine::Machine;
use ftp_transfer::mark::{SessionEnd, TransferEnd, mark};
use ftp_transfer::{Direction, Transfer, TransferParts};
use ftp_transport::{Network, Tells};
use std::alloc::Global;
use std::marker::Model;
use std::mem;

/// The two ends of the mark of a transfer that is to be opened. Where none is, both are given up with it.
pub struct NewMark {
    session: SessionEnd,
    transfer: TransferEnd,
}

impl Model for NewMark {
    ghost use Rattle.std.specs.Prelude.{◌≡◌, []};
    ghost use Rattle.ftp_transfer.specs.Mark.{End};

    ghost Value = { End };

    ghost view = { λ m. m.transfer };

    ghost invariant = { λ m. (m.session ≡ m.transfer) × (m.transfer.loads ≡ []) };
}

impl NewMark {
    ghost use Rattle.std.specs.Prelude.{◌≡◌, []};

    /// The number of the transfer.
    fn number(&self) -> u64
        ensures { result ≡ self.now.number }
    {
        self.transfer.number()
    }

    /// The two ends, of the session and of the transfer that is handed out.
    fn into_ends(self) -> (SessionEnd, TransferEnd)
        ensures session { result.0 ≡ self }
        ensures transfer { result.1 ≡ self }
        ensures no_loads { self.loads ≡ [] }
    {
        let NewMark { session, transfer } = self;
        (session, transfer)
    }
}

impl Drop for NewMark {
    fn drop(self) {
        let (session, transfer) = self.into_ends();
        session.dissolve(transfer);
    }
}

/// Hands out transfers: for the clients that are made of a session, which open them by polled calls.
pub trait HandsTransfers<C: Tells + Drop> {
    /// Makes the mark of the transfer that is opened next.
    ///
    /// # Errors
    /// `OutOfMemory`; `SessionFailed` on a session that has failed where there is no memory.
    fn new_mark(&self, alloc: Global) -> FtpResult<NewMark>;

    /// Hands out the transfer that this answer has opened, under this mark; with the reply, where that is part of the
    /// answer.
    ///
    /// # Errors
    /// The answer's error. `NotOwed` where it opens no transfer of this number: one that is live is left then.
    fn hand_over(
        &mut self,
        mark: NewMark,
        answer: Answer,
        replies: bool,
        direction: Direction,
    ) -> FtpResult<(Option<Response>, Transfer<C>)>;
}

impl<Tr: Network, K: Drop, E: Encoding, B: Drop> HandsTransfers<Tr::Conn> for Session<Tr, K, E, B> {
    /// Makes the mark of the transfer that is opened next.
    ///
    /// # Errors
    /// `OutOfMemory`; `SessionFailed` on a session that has failed where there is no memory.
    fn new_mark(&self, alloc: Global) -> FtpResult<NewMark>
        ensures number { IfOk result (λ end. end.number ≡ next_number
            self.now.machine.state.counts) }
        ensures memory { IfErr result (λ fault. fault ≡ withheld self.now.machine) }
    {
        match mark(alloc, next_number(&self.machine)) {
            Ok((session, transfer)) => Ok(NewMark { session, transfer }),
            Err(_) => Err(self.withheld()),
        }
    }

    /// Hands out the transfer that this answer has opened, under this mark; with the reply, where that is part of the
    /// answer. The look at a later call is at this mark.
    ///
    /// # Errors
    /// The answer's error. `NotOwed` where it opens no transfer of this number: one that is live is left then.
    fn hand_over(
        &mut self,
        mark: NewMark,
        answer: Answer,
        replies: bool,
        direction: Direction,
    ) -> FtpResult<(Option<Response>, Transfer<Tr::Conn>)>
        ensures hands { HandsOver replies direction mark answer self.old.mark self.new.mark
            self.old.former self.new.former self.old.machine self.new.machine result }
        ensures keeps { KeepsChoices self.old self.new }
    {
        let reply = match opened(answer, replies) {
            Ok(reply) => reply,
            Err(fault) => return Err(give_up(&mut self.machine, fault)),
        };
        match hand_out(&mut self.machine, mark.number()) {
            Some(conn) => {
                let (session, transfer) = mark.into_ends();
                self.former = mem::replace(&mut self.mark, Some(session));
                Ok((reply, Transfer::new(conn, direction, transfer)))
            }
            None => Err(give_up(&mut self.machine, None)),
        }
    }
}

/// Takes the data connection out of the session, where the transfer of this number is live on it.
fn hand_out<Tr: Network>(machine: &mut Machine<Tr>, number: u64) -> Option<Tr::Conn>
    ensures told { (conn : Tr.Conn) → result ≡ Some conn → machine.old.net.data_conn ≡ Some
        (Tr.Conn.told conn) }
    ensures live { is_none result ≡ false → is_live number machine.old.state.counts.owed ≡ true }
    ensures taken { is_none result ≡ false → machine.new ≡ with_data None machine.old }
    ensures lacks { is_none result ≡ true → (is_none machine.old.net.data_conn ≡ true) ⊎
        (is_live number machine.old.state.counts.owed ≡ false) }
    ensures unchanged { is_none result ≡ true → machine.new ≡ machine.old }
{
    if !machine.state.counts.is_live(number) {
        return None;
    }
    machine.data_conn.take()
}

/// The number that the next transfer has.
fn next_number<Tr: Network>(machine: &Machine<Tr>) -> u64
    ensures { result ≡ next_number machine.now.state.counts }
{
    machine.state.counts.next_number()
}

/// Why no transfer is handed out. Where there is no error, which no dialogue results in, the transfer that is live is
/// left, if there is one.
fn give_up<Tr: Network>(machine: &mut Machine<Tr>, fault: Option<FtpError>) -> FtpError
    ensures { GivesUp fault result machine.old machine.new }
{
    match fault {
        Some(fault) => fault,
        None => {
            leave_behind(machine);
            FtpError::ConnectionError(ConnectionError::NotOwed)
        }
    }
}

/// The result of an opening call: its reply, where that is part of it; or an error, if it is one.
fn opened(answer: Answer, replies: bool) -> Result<Option<Response>, Option<FtpError>>
    ensures { ComesTo replies answer result }
{
    match answer {
        Answer::Opened if !replies => Ok(None),
        Answer::OpenedWith(reply) if replies => Ok(Some(reply)),
        Answer::Fault(fault) => Err(Some(fault)),
        other => {
            drop(other);
            Err(None)
        }
    }
}
