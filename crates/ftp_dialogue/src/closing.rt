//! A data connection is closed, and handed back to the transport (RFC 959, section 3.2).

ghost use Rattle.std.specs.Prelude.{◌≡◌};
ghost use Rattle.ftp_calls.specs.declared.exchange.Movement.TheVariants as movement;
ghost use Rattle.ftp_dialogue.specs.Dialogue.{closed_as, told_of_close};
ghost use Rattle.ftp_dialogue.specs.NetEvents.{MovementIs};
ghost use Rattle.ftp_dialogue.specs.Steps.Moving.{Closes};
ghost use Rattle.ftp_dialogue.specs.Steps.Stages.{stage_closed};

use super::Answer;
use super::machine::Machine;
use super::stage::{AfterClose, Stage, Transferring, go_to};
use crate::model::NetOutcome;
use ftp_base::types::{ConnectionError, FtpError};
use ftp_calls::exchange::Turn;
use ftp_transport::{Conn, Network, Tells};
use std::io::ErrorKind;

impl<Tr: Network> Machine<Tr> {
    /// Closes the data connection, where there is one, and hands it back to the transport.
    pub(super) fn close_data(&mut self) -> NetOutcome
        ensures beside { self.new ≡ record self.old { net = self.new.net } }
        ensures closes { Tr.Conn.tells →
            MovementIs movement.Close result self.old.net self.new.net }
    {
        let Some(mut conn) = self.data_conn.take() else {
            return NetOutcome::Closed;
        };
        let outcome = match conn.close() {
            Ok(()) => NetOutcome::Closed,
            Err(kind) => {
                self.failures.note_data(true);
                NetOutcome::Failed(kind)
            }
        };
        self.transport.closed(conn);
        outcome
    }

    /// The data connection is closed, and what the server says of it is due.
    pub(super) fn close(&mut self, after: AfterClose, stage: &mut Stage)
        ensures { Closes Tr.Conn.tells after stage.new self.old self.new }
    {
        let outcome = self.close_data();
        let told = told_of_close(self.state.uploads, &outcome);
        drop(outcome);
        go_to(stage, stage_closed(after, told));
    }
}

/// What a close resulted in is discarded.
pub(super) fn pass_over(outcome: NetOutcome) {
    drop(outcome);
}

/// The error of a close that goes before the reply's: that of an upload.
fn told_of_close(uploads: bool, outcome: &NetOutcome) -> Option<ErrorKind>
    ensures { result ≡ told_of_close uploads outcome.now }
{
    match outcome {
        NetOutcome::Failed(kind) if uploads => Some(*kind),
        _ => None,
    }
}

/// What follows a close, by its error, where that is returned. Whatever an abort's close results in is discarded.
fn stage_closed(after: AfterClose, told: Option<ErrorKind>) -> Stage
    ensures { result ≡ stage_closed after told }
{
    match after {
        AfterClose::Finishes => Stage::At(Turn::Closed(told)),
        AfterClose::Aborts => Stage::At(Turn::Aborted),
        AfterClose::Fetched(form, answer) => {
            Stage::Transferring(Transferring::Ending(form, closed_as(told, answer)))
        }
    }
}

/// The answer after a close: its error, where that is returned.
fn closed_as(told: Option<ErrorKind>, answer: Answer) -> Answer
    ensures { result ≡ closed_as told answer }
{
    match told {
        None => answer,
        Some(kind) => {
            drop(answer);
            Answer::Fault(FtpError::ConnectionError(ConnectionError::Io(kind)))
        }
    }
}
