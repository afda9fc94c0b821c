//! What is asked for a data connection: of the control connection, of the transport, of the caller's builder, or of a
//! secure session's connector.
//!
//! Each function is one question. A connection that comes of it is kept in the machine, and is on the transport's record.

ghost use Rattle.std.specs.Prelude.{◌≡◌, false};
ghost use Rattle.ftp_dialogue.specs.Link.{asking, polling};
ghost use Rattle.ftp_dialogue.specs.Steps.Questions.{AsksNode, looked_as};

use super::data_path::DataPath;
use super::failures::Failure;
use super::machine::Machine;
use super::questions::{Asked, Found, Question};
use ftp_base::types::FtpError;
use ftp_transport::{Network, PollConn, RequestOutcome, Tells};
use futures::task::Poll;
use std::alloc::AllocError;
use std::io::ErrorKind;
use std::net::SocketAddr;

impl<Tr: Network> Machine<Tr> {
    /// Asks the transport for a connection, and keeps it. The room for its record was made when the call began, so that
    /// nothing is allocated here.
    pub(super) fn ask_to_connect<W, A: DataPath<Tr, W>>(
        &mut self,
        data_path: &A,
        address: SocketAddr,
        w: &mut W,
    ) -> Asked
    where
        Tr::Conn: PollConn<W>,
        requires may { A.may_ask }
        ensures end { self.new.channel.ended ≡ self.old.channel.ended }
        ensures asks { AsksNode (asking (A.builds data_path.now) A.may_wait (polling Tr.Conn.PollConn))
            (Question.Connection address) self.old self.new result }
    {
        if self.transport.make_room().is_err() {
            return Asked::NoMemory;
        }
        self.failures.at(address);
        match data_path.connect(&mut self.transport, w, address) {
            Poll::Ready(Ok(Ok(mut conn))) => {
                conn.begin();
                self.data_conn = Some(conn);
                Asked::Found(Found::Outcome(RequestOutcome::Done))
            }
            Poll::Ready(Ok(Err(fault))) => {
                self.failures.note_data(true);
                Asked::Found(Found::Outcome(RequestOutcome::Refused(fault)))
            }
            Poll::Ready(Err(AllocError)) => Asked::NoMemory,
            Poll::Pending => Asked::Waits,
        }
    }

    /// Asks the caller's builder for a connection, and keeps it; or returns its error. What it is asked is put on the
    /// transport's record first.
    pub(super) fn ask_to_build<W, A: DataPath<Tr, W>>(
        &mut self,
        data_path: &A,
        address: SocketAddr,
        _w: &mut W,
    ) -> Asked
    where
        Tr::Conn: PollConn<W>,
        requires may { A.may_ask }
        ensures end { self.new.channel.ended ≡ self.old.channel.ended }
        ensures asks { AsksNode (asking (A.builds data_path.now) A.may_wait (polling Tr.Conn.PollConn))
            (Question.Building address) self.old self.new result }
    {
        if self.transport.make_room().is_err() {
            return Asked::NoMemory;
        }
        let Ok(()) = self.transport.note_build(address) else {
            return Asked::NoMemory;
        };
        self.failures.at(address);
        match data_path.build(address) {
            Ok(mut conn) => {
                conn.begin();
                self.data_conn = Some(conn);
                Asked::Found(Found::Made(None))
            }
            Err(fault) => {
                self.failures.note(Failure::Caller);
                Asked::Found(Found::Made(Some(fault)))
            }
        }
    }

    /// Asks the transport for a listener, and keeps it.
    pub(super) fn ask_to_listen<W, A: DataPath<Tr, W>>(
        &mut self,
        data_path: &A,
        address: SocketAddr,
        w: &mut W,
    ) -> Asked
    where
        Tr::Conn: PollConn<W>,
        requires may { A.may_ask }
        ensures end { self.new.channel.ended ≡ self.old.channel.ended }
        ensures asks { AsksNode (asking (A.builds data_path.now) A.may_wait (polling Tr.Conn.PollConn))
            (Question.Listener address) self.old self.new result }
    {
        self.failures.at(address);
        match data_path.listen(&mut self.transport, w, address) {
            Poll::Ready(Ok(Ok((listener, bound)))) => {
                self.listener = Some(listener);
                self.failures.at(bound);
                Asked::Found(Found::Outcome(RequestOutcome::Address(bound)))
            }
            Poll::Ready(Ok(Err(fault))) => {
                self.failures.note_data(true);
                Asked::Found(Found::Outcome(RequestOutcome::Refused(fault)))
            }
            Poll::Ready(Err(AllocError)) => Asked::NoMemory,
            Poll::Pending => Asked::Waits,
        }
    }

    /// Asks the transport for a connection on the listener, and keeps it. A listener stands from the moment that the
    /// server was told of it.
    pub(super) fn ask_to_accept<W, A: DataPath<Tr, W>>(&mut self, data_path: &A, w: &mut W) -> Asked
    where
        Tr::Conn: PollConn<W>,
        requires may { A.may_ask }
        ensures end { self.new.channel.ended ≡ self.old.channel.ended }
        ensures asks { AsksNode (asking (A.builds data_path.now) A.may_wait (polling Tr.Conn.PollConn))
            Question.Peer self.old self.new result }
    {
        let Some(listener) = &mut self.listener else {
            return Asked::NoMemory;
        };
        if self.transport.make_room().is_err() {
            return Asked::NoMemory;
        }
        let deadline = self.state.settings.active_deadline;
        match data_path.accept(&mut self.transport, w, listener, deadline) {
            Poll::Ready(Ok(Ok((mut conn, from)))) => {
                conn.begin();
                self.data_conn = Some(conn);
                self.failures.at(from);
                Asked::Found(Found::Outcome(RequestOutcome::Address(from)))
            }
            Poll::Ready(Ok(Err(fault))) => {
                self.data_conn = None;
                self.failures.note_data(true);
                Asked::Found(Found::Outcome(RequestOutcome::Refused(fault)))
            }
            Poll::Ready(Err(AllocError)) => Asked::NoMemory,
            Poll::Pending => Asked::Waits,
        }
    }

    /// Asks for the data connection to be put under TLS, and keeps what comes of it. While that waits the transport has
    /// the connection.
    pub(super) fn ask_to_secure<W, A: DataPath<Tr, W>>(&mut self, data_path: &A, w: &mut W) -> Asked
    where
        Tr::Conn: PollConn<W>,
        requires may { A.may_ask }
        ensures end { self.new.channel.ended ≡ self.old.channel.ended }
        ensures asks { AsksNode (asking (A.builds data_path.now) A.may_wait (polling Tr.Conn.PollConn))
            Question.Handshake self.old self.new result }
    {
        if self.transport.make_room().is_err() {
            return Asked::NoMemory;
        }
        let conn = self.data_conn.take();
        self.data_conn = None;
        match data_path.secure(&mut self.transport, w, conn) {
            Poll::Ready(Ok(Ok(mut conn))) => {
                conn.begin();
                self.data_conn = Some(conn);
                Asked::Found(Found::Made(None))
            }
            Poll::Ready(Ok(Err(fault))) => {
                self.failures.note_data(true);
                Asked::Found(Found::Made(Some(fault)))
            }
            Poll::Ready(Err(AllocError)) => Asked::NoMemory,
            Poll::Pending => Asked::Waits,
        }
    }

    /// The address of this end of the control connection.
    pub(super) fn local_addr<W, A: DataPath<Tr, W>>(&mut self, _data_path: &A, _w: &mut W) -> Asked
    where
        Tr::Conn: PollConn<W>,
        requires going { self.old.channel.failed ≡ false }
        ensures end { self.new.channel.ended ≡ self.old.channel.ended }
        ensures asks { AsksNode (asking (A.builds _data_path.now) A.may_wait (polling Tr.Conn.PollConn))
            Question.OwnAddress self.old self.new result }
    {
        let address = self.channel.local_addr();
        self.failures.note_control(address.is_err());
        looked(address)
    }

    /// The address of the other end of the control connection.
    pub(super) fn peer_addr<W, A: DataPath<Tr, W>>(&mut self, _data_path: &A, _w: &mut W) -> Asked
    where
        Tr::Conn: PollConn<W>,
        requires going { self.old.channel.failed ≡ false }
        ensures end { self.new.channel.ended ≡ self.old.channel.ended }
        ensures asks { AsksNode (asking (A.builds _data_path.now) A.may_wait (polling Tr.Conn.PollConn))
            Question.PeerAddress self.old self.new result }
    {
        let address = self.channel.peer_addr();
        self.failures.note_control(address.is_err());
        looked(address)
    }
}

/// An address was looked up.
fn looked(outcome: Result<SocketAddr, ErrorKind>) -> Asked
    ensures { result ≡ looked_as outcome }
{
    match outcome {
        Ok(address) => Asked::Found(Found::Address(address)),
        Err(kind) => Asked::Failed(kind),
    }
}
