//! The way to a data connection, beside the exchanges (RFC 959, sections 3.2 and 5.2; RFC 1123, section 4.1.2.7;
//! RFC 2428).
//!
//! Addresses are looked up on the control connection; the transport is asked to connect, or to listen and to accept.
//! What it makes stays in the machine. `open_data` asks what is due (`questions`), and `after` says what follows.

ghost use Rattle.std.specs.Prelude.{◌≡◌, true, false};
ghost use Rattle.ftp_calls.specs.Exchanges.{negotiates, next_turn};
ghost use Rattle.ftp_dialogue.specs.Coding.{Coding};
ghost use Rattle.ftp_dialogue.specs.Dialogue.{at_port, is_ipv4};
ghost use Rattle.ftp_dialogue.specs.Link.{asking, polling};
ghost use Rattle.ftp_dialogue.specs.Sound.{cannot_open};
ghost use Rattle.ftp_dialogue.specs.Steps.Moving.{MakesStep};
ghost use Rattle.ftp_dialogue.specs.Steps.Questions.{Arrives, Continues, Fits, builds_as, connects_as, first_unless, listens_as, question_at, to_turn};
ghost use Rattle.ftp_dialogue.specs.Steps.Stages.{AskingOf, WayOf, first_by, has_asked};

use super::admitting::{STRANGERS, met, shaken};
use super::data_path::DataPath;
use super::machine::Machine;
use super::questions::{Asked, Found, question_of};
use super::stage::{Asking, OpeningData, Stage, Step, go_to};
use super::state::State;
use super::{Answer, Call};
use ftp_base::types::{ConnectionError, FtpError, Mode};
use ftp_calls::exchange::{Turn, next_turn};
use ftp_transport::{Network, PollConn, RequestOutcome};
use std::net::{SocketAddr, SocketAddrV4, SocketAddrV6};

/// What follows what was found.
#[derive(Drop)]
pub enum Reached {
    /// The next node.
    Node(Stage),
    /// The next node, once a stranger's connection is dropped.
    Turned(Stage),
    /// The answer: a transfer is live.
    Opens(Answer),
    /// The answer.
    Answers(Answer),
}

impl<Tr: Network> Machine<Tr> {
    /// One node on the way to a data connection.
    pub(super) fn open_data<W, A: DataPath<Tr, W>>(
        &mut self,
        data_path: &A,
        call: &Call,
        opening_data: OpeningData,
        stage: &mut Stage,
        w: &mut W,
    ) -> Step
    where
        Tr::Conn: PollConn<W>,
        requires going { self.old.channel.failed ≡ false }
        requires opens { negotiates call.now ≡ true }
        requires may { A.may_ask }
        requires way { WayOf call.now opening_data }
        ensures waits { result ≡ Step.Pending → A.may_wait }
        ensures end { self.new.channel.ended ≡ self.old.channel.ended }
        ensures makes { (coding : Coding) →
            MakesStep (asking (A.builds data_path.now) A.may_wait (polling Tr.Conn.PollConn)) coding
            call.now
            (Stage.OpeningData opening_data) stage.new self.old self.new result }
    {
        let question = question_of(&opening_data, self.state.settings.stream_builder);
        match self.ask(data_path, question, w) {
            Asked::Found(found) => {
                let reached = after(call, opening_data, found, &self.state);
                self.arrive(reached, stage)
            }
            Asked::Waits => {
                go_to(stage, Stage::OpeningData(opening_data));
                Step::Pending
            }
            Asked::Failed(kind) => {
                drop(opening_data);
                Step::Done(Answer::Fault(FtpError::ConnectionError(ConnectionError::Io(kind))))
            }
            Asked::NoMemory => {
                let begun = has_asked(&opening_data);
                drop(opening_data);
                self.abort_dialogue(begun, &FtpError::OutOfMemory);
                Step::Done(Answer::Fault(FtpError::OutOfMemory))
            }
        }
    }

    /// The machine gets there.
    fn arrive(&mut self, reached: Reached, stage: &mut Stage) -> Step
        ensures moves { result ≡ Step.Pending → ⊥ }
        ensures end { self.new.channel.ended ≡ self.old.channel.ended }
        ensures arrives { Arrives reached stage.new self.old self.new result }
    {
        match reached {
            Reached::Node(next) => {
                go_to(stage, next);
                Step::Next
            }
            Reached::Turned(next) => {
                let _stranger = self.data_conn.take();
                go_to(stage, next);
                Step::Next
            }
            Reached::Opens(answer) => {
                self.state.counts.open();
                Step::Done(answer)
            }
            Reached::Answers(answer) => Step::Done(answer),
        }
    }
}

/// What follows what was found at this place.
fn after(call: &Call, opening_data: OpeningData, found: Found, state: &State) -> Reached
    requires opens { negotiates call.now ≡ true }
    requires fits { Fits (question_at state.now opening_data) found }
    requires way { WayOf call.now opening_data }
    ensures { (coding : Coding) → Continues coding call.now opening_data found state.now result }
{
    match (opening_data, found) {
        (OpeningData::Negotiating(offset), Found::Room) => first(state, offset),
        (OpeningData::Choosing(offset), Found::Address(peer)) => {
            Reached::Node(Stage::At(Turn::ExtendedPassive(offset, is_ipv4(peer))))
        }
        (OpeningData::Locating(offset), Found::Address(local)) => {
            Reached::Node(Stage::OpeningData(OpeningData::Binding(local, offset)))
        }
        (OpeningData::Binding(local, offset), Found::Outcome(outcome)) => {
            listens(local, offset, outcome)
        }
        (OpeningData::Asking(turn, asking), found) => {
            after_asking(call, turn, asking, found, state)
        }
        _ => unreachable!(),
    }
}

/// What follows what was found after the reply of this turn.
fn after_asking(call: &Call, turn: Turn, asking: Asking, found: Found, state: &State) -> Reached
    requires opens { negotiates call.now ≡ true }
    requires fits { Fits (question_at state.now (OpeningData.Asking turn asking)) found }
    requires way { AskingOf call.now asking }
    ensures { (coding : Coding) →
        Continues coding call.now (OpeningData.Asking turn asking) found state.now result }
{
    match (asking, found) {
        (Asking::PeerPort(port), Found::Address(peer)) => {
            asks(turn, Asking::Connection(at_port(port, peer)))
        }
        (Asking::Connection(_), Found::Outcome(outcome)) => {
            connects(next_turn(call, turn), outcome)
        }
        (Asking::Connection(_), Found::Made(fault)) => builds(next_turn(call, turn), fault),
        (Asking::Peer(opened), Found::Address(peer)) => {
            asks(turn, Asking::Accepting(peer, STRANGERS, opened))
        }
        (Asking::Accepting(peer, left, opened), Found::Outcome(outcome)) => {
            met(state, turn, peer, left, opened, outcome)
        }
        (Asking::Securing(opened), Found::Made(fault)) => shaken(opened, fault),
        _ => unreachable!(),
    }
}

/// Something is asked after the reply of this turn.
pub(super) fn asks(turn: Turn, asking: Asking) -> Reached
    ensures { result ≡ Reached.Node (Stage.OpeningData (OpeningData.Asking turn asking)) }
{
    Reached::Node(Stage::OpeningData(OpeningData::Asking(turn, asking)))
}

/// The first node, by who opens the data connection; an error where no transfer can be opened.
fn first(state: &State, offset: u64) -> Reached
    ensures { result ≡ first_unless (cannot_open state.now.counts) state.now.settings.mode offset }
{
    match state.counts.cannot_open() {
        Some(fault) => Reached::Answers(Answer::Fault(fault)),
        None => Reached::Node(first_by(state.settings.mode, offset)),
    }
}

/// The transport listens, and the server is told where.
fn listens(local: SocketAddr, offset: u64, outcome: RequestOutcome) -> Reached
    ensures { result ≡ listens_as local offset outcome }
{
    match outcome {
        RequestOutcome::Address(bound) => {
            Reached::Node(Stage::At(Turn::Active(at_port(bound.port(), local), offset)))
        }
        RequestOutcome::Refused(fault) => refused(fault),
        RequestOutcome::Done => refused(ConnectionError::NoAddress),
    }
}

/// The transport connects, and the next turn begins.
fn connects(next: Option<Turn>, outcome: RequestOutcome) -> Reached
    ensures { result ≡ connects_as next outcome }
{
    match outcome {
        RequestOutcome::Refused(fault) => refused(fault),
        RequestOutcome::Done | RequestOutcome::Address(_) => goes_on(next),
    }
}

/// The builder made a connection, and the next turn begins; its error is the answer as it is.
fn builds(next: Option<Turn>, fault: Option<FtpError>) -> Reached
    ensures { result ≡ builds_as next fault }
{
    match fault {
        None => goes_on(next),
        Some(fault) => Reached::Answers(Answer::Fault(fault)),
    }
}

/// The next turn begins, or the call is done.
fn goes_on(next: Option<Turn>) -> Reached
    ensures { result ≡ to_turn next }
{
    match next {
        Some(turn) => Reached::Node(Stage::At(turn)),
        None => Reached::Answers(Answer::Unit),
    }
}

/// A request failed.
pub(super) fn refused(fault: ConnectionError) -> Reached
    ensures { result ≡ Reached.Answers (Answer.Fault (FtpError.ConnectionError fault)) }
{
    Reached::Answers(Answer::Fault(FtpError::ConnectionError(fault)))
}

/// The first node, by who opens the data connection.
fn first_by(mode: Mode, offset: u64) -> Stage
    ensures { result ≡ first_by mode offset }
{
    match mode {
        Mode::Active => Stage::OpeningData(OpeningData::Locating(offset)),
        Mode::Passive => Stage::At(Turn::Passive(offset, false)),
        Mode::ExtendedPassive => Stage::At(Turn::ExtendedPassive(offset, false)),
        Mode::Automatic => Stage::OpeningData(OpeningData::Choosing(offset)),
    }
}

/// Whether a reply was taken on the way to this place.
fn has_asked(opening_data: &OpeningData) -> bool
    ensures { result ≡ has_asked opening_data.now }
{
    matches!(opening_data, OpeningData::Asking(..))
}

/// Whether an address is one of IPv4.
fn is_ipv4(address: SocketAddr) -> bool
    ensures { result ≡ is_ipv4 address }
{
    matches!(address, SocketAddr::V4(_))
}

/// An address with another port.
pub(super) fn at_port(port: u16, address: SocketAddr) -> SocketAddr
    ensures { result ≡ at_port port address }
{
    match address {
        SocketAddr::V4(host) => SocketAddr::V4(SocketAddrV4::new(*host.ip(), port)),
        SocketAddr::V6(host) => SocketAddr::V6(SocketAddrV6::new(
            *host.ip(),
            port,
            host.flowinfo(),
            host.scope_id(),
        )),
    }
}
