//! How far a call has come.
//!
//! A stage is the node of the call's dialogue that comes next, with what it needs: a line that wasn't begun, the
//! statuses that a reply may have, a setting that changes, what is asked. It also keeps whether something of the
//! dialogue was sent or consumed, on which depends what a failed allocation leaves.

ghost use Rattle.std.specs.Prelude.{◌≡◌, Ok, IfOk, IfErr, true, false};
ghost use Rattle.ftp_base.specs.Command.{text_of};
ghost use Rattle.ftp_base.specs.Wire.{wire};
ghost use Rattle.ftp_control.specs.Refusal.{IsRefusalOf};
ghost use Rattle.ftp_dialogue.specs.Coding.{coding_of};
ghost use Rattle.ftp_dialogue.specs.Steps.Stages.{Begins, FirstNode, GoesOnTo, TurnOf, falling_back, is_later};

use super::gathered::Gathered;
use super::unsent::Unsent;
use super::{Answer, Call};
use ftp_base::command::Command;
use ftp_base::encoding::Encoding;
use ftp_base::types::FtpResult;
use ftp_calls::exchange::{Codes, Ending, Exchange, Fetch, Row, Task, Turn, next_turn, row_at};
use ftp_control::control::WireLine;
use std::alloc::Global;
use std::mem;
use std::net::SocketAddr;

/// Where a call stands: the node of its dialogue that comes next.
#[derive(Drop)]
pub enum Stage {
    /// An exchange begins.
    At(Turn),
    /// A command beside the exchanges is put into a line.
    Composing(Recovery),
    /// A line goes out, whole; none once it has begun to.
    Saying(Option<WireLine>, AfterLine),
    /// The reply of an exchange is read.
    Hearing(Awaits),
    /// The reply to `NOOP` is sought; so many others may come before it.
    Seeking(Turn, u64),
    /// Nothing is sent or received: the next transfer begins at this offset, in bytes.
    SettingOffset(Turn, u64),
    /// The way to a data connection, beside the exchanges.
    OpeningData(OpeningData),
    /// A whole file or listing goes over the data connection.
    Transferring(Transferring),
    /// The data connection is closed.
    Closing(AfterClose),
}

/// A command that no row of a call has, by which a session recovers.
#[derive(Drop)]
pub enum Recovery {
    /// `ABOR`, by which a transfer is aborted.
    Abort,
    /// `NOOP`, whose reply is sought among those that come before it: the row of this turn.
    Resync(Turn),
}

/// What follows once a line has gone out.
#[derive(Drop)]
pub enum AfterLine {
    /// The reply of its exchange is read.
    Hears(Awaits),
    /// After `ABOR` the data connection is closed; after `NOOP` its reply is sought.
    Recovers(Recovery),
}

/// What follows once the data connection was closed.
#[derive(Drop)]
pub enum AfterClose {
    /// The transfer's last reply is read.
    Finishes,
    /// The replies to `ABOR` are read.
    Aborts,
    /// The last reply of a whole file or listing is read. This is the answer, by what came of the data.
    Fetched(Fetch, Answer),
}

/// How far a whole file or listing has gone over the data connection, and the end of its transfer.
#[derive(Drop)]
pub enum Transferring {
    /// It begins.
    Starting(Task),
    /// It is read, by so many reads more at most, after these bytes.
    Gathering(Fetch, u64, Gathered),
    /// It is written, by so many writes more at most: the number of all its bytes, and those that haven't gone out.
    Sending(u64, u64, Unsent),
    /// The transfer's last reply is read. This is the answer, by what came of the data.
    Ending(Fetch, Answer),
}

/// What follows once the data connection stands.
#[derive(Drop)]
pub enum Opened {
    /// It carries a transfer, and this is the answer.
    Gives(Answer),
    /// It carries a whole file or listing.
    Performs(Task),
}

/// How far the way to a data connection was gone.
#[derive(Drop)]
pub enum OpeningData {
    /// It begins, for a transfer at this offset.
    Negotiating(u64),
    /// The peer's address is looked up, for how the server is asked.
    Choosing(u64),
    /// The address of this end of the control connection is looked up.
    Locating(u64),
    /// The transport is asked to listen at this address.
    Binding(SocketAddr, u64),
    /// After the reply of this turn the transport is asked, or the peer's address looked up.
    Asking(Turn, Asking),
}

/// What is asked after a reply.
#[derive(Drop)]
pub enum Asking {
    /// The peer's address, to connect to this port of it.
    PeerPort(u16),
    /// A connection to this address.
    Connection(SocketAddr),
    /// The peer's address, which is compared with those that connect; what follows once one is let in.
    Peer(Opened),
    /// A connection of this peer, or of another that is let in; so many others may come before.
    Accepting(SocketAddr, u64, Opened),
    /// The data connection under TLS; what follows then.
    Securing(Opened),
}

/// The reply that is awaited.
#[derive(Drop)]
pub struct Awaits {
    /// Of which exchange.
    pub(super) turn: Turn,
    /// Whether something of the dialogue was sent or consumed.
    pub(super) begun: bool,
    /// The statuses that are accepted.
    pub(super) hears: Codes,
    /// What an accepted reply does.
    pub(super) ending: Ending,
}

/// The result of a step of a dialogue.
#[derive(Drop)]
pub(crate) enum Step {
    /// The next node was reached.
    Next,
    /// The connection waits.
    Pending,
    /// The call has its answer.
    Done(Answer),
}

/// A stage is reached.
pub(super) fn go_to(stage: &mut Stage, next: Stage)
    ensures { stage.new ≡ next }
{
    drop(mem::replace(stage, next));
}

/// The next turn begins, or the call is done.
pub(super) fn go_on(call: &Call, turn: Turn, stage: &mut Stage) -> Step
    ensures on { GoesOnTo call.now turn stage.new result }
{
    match next_turn(call, turn) {
        Some(next) => {
            go_to(stage, Stage::At(next));
            Step::Next
        }
        None => Step::Done(Answer::Unit),
    }
}

/// The turn at which `PASV` follows a refusal of `EPSV`.
pub(super) fn falling_back(turn: Turn) -> Turn
    ensures { result ≡ falling_back turn }
{
    match turn {
        Turn::ExtendedPassive(offset, _tries) => Turn::Passive(offset, true),
        other => other,
    }
}

/// The first node of a row: its line, its reply, or a change of settings.
///
/// # Errors
/// The command has no wire line, or `OutOfMemory`.
pub(super) fn begin<E: Encoding>(
    alloc: Global,
    encoding: &E,
    call: &Call,
    turn: Turn,
) -> FtpResult<Stage>
    requires { TurnOf call.now turn }
    ensures { Begins (coding_of E.decoded E.encoded encoding.now) call.now turn result }
{
    match row_at(alloc, call, turn)? {
        Row::Exchanges(exchange) => first_node(alloc, encoding, turn, exchange),
        Row::Arms(offset) => Ok(Stage::SettingOffset(turn, offset)),
        Row::Resyncs => Ok(Stage::Composing(Recovery::Resync(turn))),
        Row::Sets(_) | Row::Moves(_) => unreachable!(),
    }
}

/// The first node of an exchange.
fn first_node<E: Encoding>(
    alloc: Global,
    encoding: &E,
    turn: Turn,
    exchange: Exchange,
) -> FtpResult<Stage>
    ensures { FirstNode (coding_of E.decoded E.encoded encoding.now) turn exchange result }
{
    let Exchange {
        says,
        hears,
        ending,
    } = exchange;
    let awaits = Awaits {
        turn,
        begun: is_later(turn),
        hears,
        ending,
    };
    match says {
        None => Ok(Stage::Hearing(awaits)),
        Some(command) => match line_of(alloc, encoding, command) {
            Ok(line) => Ok(Stage::Saying(Some(line), AfterLine::Hears(awaits))),
            Err(fault) => {
                drop(awaits);
                Err(fault)
            }
        },
    }
}

/// Whether an exchange was made before.
pub(super) fn is_later(turn: Turn) -> bool
    ensures { result ≡ is_later turn }
{
    match turn {
        Turn::Second | Turn::Restart(_) | Turn::Aborted => true,
        Turn::Passive(_offset, after) => after,
        Turn::First | Turn::ExtendedPassive(..) | Turn::Active(..) | Turn::Closed(_) => false,
    }
}

/// The line of a command.
pub(super) fn line_of<E: Encoding>(
    alloc: Global,
    encoding: &E,
    command: Command,
) -> FtpResult<WireLine>
    ensures line { IfOk result (λ line. wire (E.encoded encoding.now) (text_of command) ≡ Ok line) }
    ensures refused { IfErr result (IsRefusalOf (wire (E.encoded encoding.now) (text_of command))) }
{
    let line = WireLine::of(alloc, &command, encoding);
    drop(command);
    line
}
