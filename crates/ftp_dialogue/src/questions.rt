//! What is asked on the way to a data connection: a node of the dialogue's tree, and what came of it.
//!
//! `ask` performs a node, whichever it is; what follows what it found is a function without input and output (`after` of
//! `negotiation`).

ghost use Rattle.std.specs.Prelude.{◌≡◌, false};
ghost use Rattle.ftp_dialogue.specs.Link.{asking, polling};
ghost use Rattle.ftp_dialogue.specs.Steps.Questions.{AsksNode, question_of};

use super::data_path::DataPath;
use super::machine::Machine;
use super::negotiation::at_port;
use super::stage::{Asking, OpeningData};
use ftp_base::types::FtpError;
use ftp_transport::{Network, PollConn, RequestOutcome};
use std::io::ErrorKind;
use std::net::SocketAddr;

/// What is asked.
#[derive(Clone, Copy)]
pub enum Question {
    /// For room for the record of a data connection, where a transfer can be opened.
    Room,
    /// For the address of this end of the control connection.
    OwnAddress,
    /// For that of its peer.
    PeerAddress,
    /// The transport, for a connection to this address.
    Connection(SocketAddr),
    /// The caller's builder, for one.
    Building(SocketAddr),
    /// The transport, for a listener at this address.
    Listener(SocketAddr),
    /// The transport, for a peer's connection.
    Peer,
    /// The connector, for the data connection under TLS.
    Handshake,
}

/// What came of it.
#[derive(Drop)]
pub enum Found {
    /// There is room.
    Room,
    /// An address.
    Address(SocketAddr),
    /// What the transport says.
    Outcome(RequestOutcome),
    /// A connection that was built, or put under TLS; or an error.
    Made(Option<FtpError>),
}

/// How a question ends.
#[derive(Drop)]
pub enum Asked {
    /// With an answer.
    Found(Found),
    /// With an error of the control connection.
    Failed(ErrorKind),
    /// Memory ran out.
    NoMemory,
    /// It is waited for, and has to be asked again.
    Waits,
}

impl<Tr: Network> Machine<Tr> {
    /// Asks.
    pub(super) fn ask<W, A: DataPath<Tr, W>>(
        &mut self,
        data_path: &A,
        question: Question,
        w: &mut W,
    ) -> Asked
    where
        Tr::Conn: PollConn<W>,
        requires going { self.old.channel.failed ≡ false }
        requires may { A.may_ask }
        ensures end { self.new.channel.ended ≡ self.old.channel.ended }
        ensures asks { AsksNode (asking (A.builds data_path.now) A.may_wait (polling Tr.Conn.PollConn))
            question self.old self.new result }
    {
        match question {
            Question::Room => self.ask_for_room(data_path, w),
            Question::OwnAddress => self.local_addr(data_path, w),
            Question::PeerAddress => self.peer_addr(data_path, w),
            Question::Connection(address) => self.ask_to_connect(data_path, address, w),
            Question::Building(address) => self.ask_to_build(data_path, address, w),
            Question::Listener(address) => self.ask_to_listen(data_path, address, w),
            Question::Peer => self.ask_to_accept(data_path, w),
            Question::Handshake => self.ask_to_secure(data_path, w),
        }
    }

    /// Makes room for the record of a data connection, where a transfer can be opened.
    fn ask_for_room<W, A: DataPath<Tr, W>>(&mut self, _data_path: &A, _w: &mut W) -> Asked
    where
        Tr::Conn: PollConn<W>,
        requires going { self.old.channel.failed ≡ false }
        ensures end { self.new.channel.ended ≡ self.old.channel.ended }
        ensures asks { AsksNode (asking (A.builds _data_path.now) A.may_wait (polling
            Tr.Conn.PollConn)) Question.Room self.old self.new result }
    {
        match self.state.counts.cannot_open() {
            Some(fault) => {
                drop(fault);
                return Asked::Found(Found::Room);
            }
            None => {}
        }
        if self.transport.make_room().is_err() {
            return Asked::NoMemory;
        }
        Asked::Found(Found::Room)
    }
}

/// The question at a place on the way; a connection is built where the session has a builder.
pub(super) fn question_of(opening_data: &OpeningData, builds: bool) -> Question
    ensures { result ≡ question_of builds opening_data.now }
{
    match opening_data {
        OpeningData::Negotiating(_) => Question::Room,
        OpeningData::Choosing(_) => Question::PeerAddress,
        OpeningData::Locating(_) => Question::OwnAddress,
        OpeningData::Binding(local, _) => Question::Listener(at_port(0, *local)),
        OpeningData::Asking(_, asking) => match asking {
            Asking::PeerPort(_) | Asking::Peer(_) => Question::PeerAddress,
            Asking::Connection(address) => {
                if builds {
                    Question::Building(*address)
                } else {
                    Question::Connection(*address)
                }
            }
            Asking::Accepting(..) => Question::Peer,
            Asking::Securing(_) => Question::Handshake,
        },
    }
}
