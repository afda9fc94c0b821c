//! The calls that open a data connection and hand the transfer on it to their caller (RFC 959, sections 3.2 and 4.1.3).
//!
//! The mark by which the session learns that the transfer was left is made before anything is sent, so a transfer that
//! stands always has one.

ghost use Rattle.std.specs.Prelude.{◌≡◌, IfErr, IfOk, false, is_none, not};
ghost use Rattle.ftp_calls.specs.declared.call.Answer.TheVariants.{Fault};
ghost use Rattle.ftp_calls.specs.Exchanges.{call_of};
ghost use Rattle.ftp_dialogue.specs.PollCauses.{sends};
ghost use Rattle.ftp_dialogue.specs.Coding.{chosen};
ghost use Rattle.ftp_dialogue.specs.Counted.{CountsFaultsBeside};
ghost use Rattle.ftp_session.specs.Handed.{HandsConnection, OpensAs, OpensEither, Opens, OpensReplied, with_reply, without_reply};
ghost use Rattle.ftp_dialogue.specs.Link.{asking, blocking, built_by};
ghost use Rattle.ftp_transfer.specs.declared.direction.Direction.TheVariants as directions;
ghost use Rattle.ftp_session.specs.Kept.{KeepsChoices};

use super::client::Session;
use super::handing::HandsTransfers;
use super::looking::look;
use super::making::make_in_step;
use super::polling::DropsCalls;
use super::{Answer, Call};
use ftp_base::encoding::Encoding;
use ftp_base::status::Status;
use ftp_base::types::{FtpResult, Response};
use ftp_calls::call::BorrowedCall;
use ftp_transfer::{Direction, Transfer};
use ftp_transport::{Conn, Network, PassiveStreamBuilder, Tells, Transport};
use std::alloc::{AllocError, Global};

impl<Tr: Network, K: Drop, E: Encoding, B: PassiveStreamBuilder<Tr::Conn>> Session<Tr, K, E, B>
where
    Tr::Conn: Conn,
{
    /// Opens a download of this file: `RETR` (150, 125). It begins at the offset that `resume_transfer` set, if it did;
    /// the offset is taken away.
    ///
    /// # Errors
    /// Those of a data command: `DataConnectionAlreadyOpen` where a transfer is live, and nothing is sent.
    pub fn retr_as_stream<R>(
        &mut self,
        alloc: Global,
        rt: &R,
        path: &str,
    ) -> FtpResult<Transfer<Tr::Conn>>
    where
        Tr: Transport<R>,
        ensures opens { Opens (asking (built_by B.answers self.old.builder) ⊥
            (blocking Tr.Conn.Conn)) (chosen E.decoded E.encoded self.old.encoding.0)
            (Call.RetrAsStream path.now) directions.Download self.old.mark self.new.mark
            self.old.former self.new.former self.old.machine self.new.machine result }
        ensures counts { IfErr result (λ fault. CountsFaultsBeside
            (asking (built_by B.answers self.old.builder) ⊥ (blocking Tr.Conn.Conn))
            self.old.machine self.new.machine (Fault fault)) }
        ensures keeps { KeepsChoices self.old self.new }
    {
        self.open_silent(
            alloc,
            rt,
            BorrowedCall::RetrAsStream(path),
            Direction::Download,
        )
    }

    /// Opens an upload to this file: `STOR` (125, 150). The offset is used as by `retr_as_stream`.
    ///
    /// # Errors
    /// Those of a data command: `DataConnectionAlreadyOpen` where a transfer is live, and nothing is sent.
    pub fn put_with_stream<R>(
        &mut self,
        alloc: Global,
        rt: &R,
        path: &str,
    ) -> FtpResult<Transfer<Tr::Conn>>
    where
        Tr: Transport<R>,
        ensures opens { Opens (asking (built_by B.answers self.old.builder) ⊥
            (blocking Tr.Conn.Conn)) (chosen E.decoded E.encoded self.old.encoding.0)
            (Call.PutWithStream path.now) directions.Upload self.old.mark self.new.mark
            self.old.former self.new.former self.old.machine self.new.machine result }
        ensures counts { IfErr result (λ fault. CountsFaultsBeside
            (asking (built_by B.answers self.old.builder) ⊥ (blocking Tr.Conn.Conn))
            self.old.machine self.new.machine (Fault fault)) }
        ensures keeps { KeepsChoices self.old self.new }
    {
        self.open_silent(
            alloc,
            rt,
            BorrowedCall::PutWithStream(path),
            Direction::Upload,
        )
    }

    /// Opens an upload to the end of this file: `APPE` (125, 150). The offset is used as by `retr_as_stream`.
    ///
    /// # Errors
    /// Those of a data command: `DataConnectionAlreadyOpen` where a transfer is live, and nothing is sent.
    pub fn append_with_stream<R>(
        &mut self,
        alloc: Global,
        rt: &R,
        path: &str,
    ) -> FtpResult<Transfer<Tr::Conn>>
    where
        Tr: Transport<R>,
        ensures opens { Opens (asking (built_by B.answers self.old.builder) ⊥
            (blocking Tr.Conn.Conn)) (chosen E.decoded E.encoded self.old.encoding.0)
            (Call.AppendWithStream path.now) directions.Upload self.old.mark self.new.mark
            self.old.former self.new.former self.old.machine self.new.machine result }
        ensures counts { IfErr result (λ fault. CountsFaultsBeside
            (asking (built_by B.answers self.old.builder) ⊥ (blocking Tr.Conn.Conn))
            self.old.machine self.new.machine (Fault fault)) }
        ensures keeps { KeepsChoices self.old self.new }
    {
        self.open_silent(
            alloc,
            rt,
            BorrowedCall::AppendWithStream(path),
            Direction::Upload,
        )
    }

    /// Opens a data connection by a caller-supplied line, whose reply's status is among the expected, and returns that
    /// reply. The offset is used as by `retr_as_stream`.
    ///
    /// # Errors
    /// Those of a data command: `DataConnectionAlreadyOpen` where a transfer is live, and nothing is sent. `LineBreak`
    /// where CR or LF stands in the line.
    pub fn custom_data_command<R>(
        &mut self,
        alloc: Global,
        rt: &R,
        line: &str,
        expected: &[Status],
    ) -> FtpResult<(Response, Transfer<Tr::Conn>)>
    where
        Tr: Transport<R>,
        ensures opens { OpensReplied (asking (built_by B.answers self.old.builder) ⊥
            (blocking Tr.Conn.Conn)) (chosen E.decoded E.encoded self.old.encoding.0)
            (Call.CustomDataCommand line.now expected.now) directions.Download self.old.mark
            self.new.mark self.old.former self.new.former self.old.machine self.new.machine result }
        ensures counts { IfErr result (λ fault. CountsFaultsBeside
            (asking (built_by B.answers self.old.builder) ⊥ (blocking Tr.Conn.Conn))
            self.old.machine self.new.machine (Fault fault)) }
        ensures keeps { KeepsChoices self.old self.new }
    {
        with_reply(self.open(
            alloc,
            rt,
            BorrowedCall::CustomDataCommand(line, expected),
            true,
            Direction::Download,
        ))
    }

    /// Opens a data connection by a call whose reply is no part of its answer, and hands the transfer out.
    fn open_silent<R>(
        &mut self,
        alloc: Global,
        rt: &R,
        call: BorrowedCall<'_>,
        direction: Direction,
    ) -> FtpResult<Transfer<Tr::Conn>>
    where
        Tr: Transport<R>,
        requires hands { HandsConnection false (call_of call) }
        requires gives { sends (call_of call) ≡ false }
        ensures opens { Opens (asking (built_by B.answers self.old.builder) ⊥
            (blocking Tr.Conn.Conn)) (chosen E.decoded E.encoded self.old.encoding.0)
            (call_of call.entry) direction self.old.mark self.new.mark self.old.former
            self.new.former self.old.machine self.new.machine result }
        ensures counts { IfErr result (λ fault. CountsFaultsBeside
            (asking (built_by B.answers self.old.builder) ⊥ (blocking Tr.Conn.Conn))
            self.old.machine self.new.machine (Fault fault)) }
        ensures keeps { KeepsChoices self.old self.new }
    {
        without_reply(self.open(alloc, rt, call, false, direction))
    }

    /// Opens a data connection, after the look, and hands the transfer out. Where memory runs out for the call's texts,
    /// nothing is sent.
    fn open<R>(
        &mut self,
        alloc: Global,
        rt: &R,
        call: BorrowedCall<'_>,
        replies: bool,
        direction: Direction,
    ) -> FtpResult<(Option<Response>, Transfer<Tr::Conn>)>
    where
        Tr: Transport<R>,
        requires { HandsConnection replies (call_of call) }
        ensures opens { OpensAs (asking (built_by B.answers self.old.builder) ⊥
            (blocking Tr.Conn.Conn)) (chosen E.decoded E.encoded self.old.encoding.0)
            (call_of call.entry) replies direction self.old.mark self.new.mark self.old.former
            self.new.former self.old.machine self.new.machine result }
        ensures replies { IfOk result (λ opened. is_none opened.0 ≡ not replies) }
        ensures keeps { KeepsChoices self.old self.new }
    {
        look(&mut self.machine, &mut self.mark);
        match call.owned(alloc) {
            Ok(call) => {
                let opened = self.open_call(alloc, rt, &call, replies, direction);
                drop(call);
                opened
            }
            Err(AllocError) => Err(self.withheld()),
        }
    }

    /// Opens a data connection, and hands the transfer out. Where memory runs out for its mark, nothing is sent.
    fn open_call<R>(
        &mut self,
        alloc: Global,
        rt: &R,
        call: &Call,
        replies: bool,
        direction: Direction,
    ) -> FtpResult<(Option<Response>, Transfer<Tr::Conn>)>
    where
        Tr: Transport<R>,
        requires { HandsConnection replies call.now }
        ensures opens { OpensEither (asking (built_by B.answers self.old.builder) ⊥
            (blocking Tr.Conn.Conn)) (chosen E.decoded E.encoded self.old.encoding.0) call.now
            replies direction self.old.mark self.new.mark self.old.former self.new.former
            self.old.machine self.new.machine result }
        ensures replies { IfOk result (λ opened. is_none opened.0 ≡ not replies) }
        ensures keeps { KeepsChoices self.old self.new }
    {
        let mark = match self.new_mark(alloc) {
            Ok(mark) => mark,
            Err(fault) => return Err(fault),
        };
        let answer = make_in_step(
            &mut self.machine,
            alloc,
            rt,
            &self.builder,
            &self.encoding,
            call,
        );
        self.hand_over(mark, answer, replies, direction)
    }
}

/// A transfer that was opened without a reply.
fn without_reply<C: Tells + Drop>(
    opened: FtpResult<(Option<Response>, Transfer<C>)>,
) -> FtpResult<Transfer<C>>
    ensures { result ≡ without_reply opened }
{
    match opened {
        Ok((_reply, transfer)) => Ok(transfer),
        Err(fault) => Err(fault),
    }
}

/// A transfer that was opened with a reply.
fn with_reply<C: Tells + Drop>(
    opened: FtpResult<(Option<Response>, Transfer<C>)>,
) -> FtpResult<(Response, Transfer<C>)>
    requires { IfOk opened (λ o. is_none o.0 ≡ false) }
    ensures { opened ≡ with_reply result }
{
    let (reply, transfer) = match opened {
        Ok(pair) => pair,
        Err(fault) => return Err(fault),
    };
    match reply {
        Some(reply) => Ok((reply, transfer)),
        None => unreachable!(),
    }
}
