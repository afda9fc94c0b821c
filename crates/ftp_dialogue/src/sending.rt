//! A whole upload: a file's bytes are written to the data connection (RFC 959, section 4.1.3).
//!
//! Where they can't be, the transfer is left, and what the server replies is read before the next command.

ghost use Rattle.std.specs.Prelude.{◌≡◌, ◌<◌, is_none, false, length};
ghost use Rattle.ftp_calls.specs.declared.call.Call.{Call};
ghost use Rattle.ftp_calls.specs.declared.exchange.Fetch.TheVariants.{Whole};
ghost use Rattle.ftp_calls.specs.declared.exchange.Task.TheVariants.{Store};
ghost use Rattle.ftp_dialogue.specs.Coding.{Coding};
ghost use Rattle.ftp_dialogue.specs.Dialogue.{with_abandoned};
ghost use Rattle.ftp_dialogue.specs.Link.{asking, polling};
ghost use Rattle.ftp_dialogue.specs.Steps.Moving.{MakesStep, Sends, StartsTask};
ghost use Rattle.ftp_dialogue.specs.Steps.Stages.{MayFetch};

use super::Answer;
use super::data_path::DataPath;
use super::machine::Machine;
use super::stage::{AfterClose, Stage, Step, Transferring, go_to};
use super::unsent::{Unsent, size_to_send};
use ftp_base::types::{ConnectionError, FtpError, Items};
use ftp_calls::exchange::Fetch;
use ftp_transport::{Network, PollConn};
use futures::task::Poll;
use std::io::ErrorKind;

impl<Tr: Network> Machine<Tr> {
    /// No byte was written yet.
    pub(super) fn start_store(&mut self, bytes: Items<u8>, stage: &mut Stage) -> Step
        ensures { StartsTask (Store bytes) stage.new self.old self.new result }
    {
        let text = self.state.settings.text;
        match size_to_send(text, bytes.as_slice()) {
            Some(total) => {
                let unsent = Unsent::new(text, bytes);
                go_to(
                    stage,
                    Stage::Transferring(Transferring::Sending(total, total, unsent)),
                );
                Step::Next
            }
            None => self.give_up(ConnectionError::SourceTooLarge),
        }
    }

    /// Some bytes are written, where any are left.
    pub(super) fn send_more<W, A: DataPath<Tr, W>>(
        &mut self,
        data_path: &A,
        left: u64,
        total: u64,
        mut unsent: Unsent,
        stage: &mut Stage,
        w: &mut W,
    ) -> Step
    where
        Tr::Conn: PollConn<W>,
        requires going { self.old.channel.failed ≡ false }
        requires may { A.may_ask }
        ensures waits { result ≡ Step.Pending → A.may_wait }
        ensures end { self.new.channel.ended ≡ self.old.channel.ended }
        ensures makes { (coding : Coding) (call : Call) → MayFetch call Whole →
            MakesStep (asking (A.builds data_path.now) A.may_wait (polling Tr.Conn.PollConn)) coding
            call (Stage.Transferring (Transferring.Sending left total unsent)) stage.new self.old
            self.new result }
    {
        if unsent.is_empty() {
            let answer = Answer::Count(total);
            go_to(
                stage,
                Stage::Closing(AfterClose::Fetched(Fetch::Whole, answer)),
            );
            return Step::Next;
        }
        if left == 0 {
            return self.give_up(ConnectionError::Io(ErrorKind::WriteZero));
        }
        if self.is_unheld() {
            return self.lack_memory();
        }
        match self.write_some(data_path, &mut unsent, w) {
            Ok(Poll::Ready(())) => {
                go_to(
                    stage,
                    Stage::Transferring(Transferring::Sending(left - 1, total, unsent)),
                );
                Step::Next
            }
            Ok(Poll::Pending) => {
                go_to(
                    stage,
                    Stage::Transferring(Transferring::Sending(left, total, unsent)),
                );
                Step::Pending
            }
            Err(kind) => self.give_up(ConnectionError::Io(kind)),
        }
    }

    /// Writes some of the bytes that haven't gone out.
    fn write_some<W, A: DataPath<Tr, W>>(
        &mut self,
        data_path: &A,
        unsent: &mut Unsent,
        w: &mut W,
    ) -> Result<Poll<()>, ErrorKind>
    where
        Tr::Conn: PollConn<W>,
        requires some { 0 < length unsent.old }
        requires held { is_none self.old.net.data_conn ≡ false }
        requires may { A.may_ask }
        ensures end { self.new.channel.ended ≡ self.old.channel.ended }
        ensures state { self.new.state ≡ self.old.state }
        ensures sends { Sends (asking (A.builds data_path.now) A.may_wait (polling Tr.Conn.PollConn))
            unsent.old unsent.new self.old self.new result }
    {
        let Some(conn) = &mut self.data_conn else {
            unreachable!();
        };
        let written = unsent.write_some(data_path, conn, w);
        self.failures.note_data(written.is_err());
        written
    }

    /// The upload can't go on: its transfer was opened, and is left.
    fn give_up(&mut self, fault: ConnectionError) -> Step
        ensures done { result ≡ Step.Done (Answer.Fault (FtpError.ConnectionError fault)) }
        ensures left { self.new ≡ record self.old { state = with_abandoned self.old.state } }
    {
        self.state.counts.open();
        self.state.counts.leave();
        Step::Done(Answer::Fault(FtpError::ConnectionError(fault)))
    }
}
