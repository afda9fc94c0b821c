//! The calls that return all that a data connection carries: a file as bytes, and the lines of a listing (RFC 959,
//! sections 4.1.3 and 5.4; RFC 3659, section 7).
//!
//! Each opens a data connection, reads it to its end, closes it, and reads the transfer's last reply, also where the data
//! failed. The transfer is never handed out.

ghost use Rattle.std.specs.Prelude.{◌≡◌, false, option_map};
ghost use Rattle.ftp_calls.specs.Exchanges.{call_of, own_row};
ghost use Rattle.ftp_calls.specs.declared.exchange.Fetch.{Fetch};
ghost use Rattle.ftp_calls.specs.declared.exchange.Fetch.TheVariants.{Listed, Whole};
ghost use Rattle.ftp_dialogue.specs.Coding.{chosen};
ghost use Rattle.ftp_dialogue.specs.Counted.{CountsFaultsBeside};
ghost use Rattle.ftp_dialogue.specs.Link.{asking, blocking, built_by};
ghost use Rattle.ftp_session.specs.Calls.{bytes_answer, lines_answer};
ghost use Rattle.ftp_dialogue.specs.PollCauses.{sends};
ghost use Rattle.ftp_session.specs.Fetched.{FetchesRow, IsFetched};
ghost use Rattle.ftp_calls.specs.Kinds.{IsOpening};
ghost use Rattle.ftp_session.specs.Handed.{PlaysSeen};
ghost use Rattle.ftp_session.specs.Kept.{Keeps};

use super::client::Session;
use super::looking::look;
use super::making::make_in_step;
use super::polling::DropsCalls;
use super::{Answer, Call};
use ftp_base::encoding::Encoding;
use ftp_base::types::FtpResult;
use ftp_calls::call::BorrowedCall;
use ftp_transport::{Conn, Network, PassiveStreamBuilder, Transport};
use std::alloc::{AllocError, Global};

impl<Tr: Network, K: Drop, E: Encoding, B: PassiveStreamBuilder<Tr::Conn>> Session<Tr, K, E, B>
where
    Tr::Conn: Conn,
{
    /// Downloads this file, whole and as it is: `RETR` (150, 125), its bytes, and the last reply (226, 250). It begins at
    /// the offset that `resume_transfer` set, if it did; the offset is taken away.
    ///
    /// # Errors
    /// Those of a data command: `DataConnectionAlreadyOpen` where a transfer is live, and nothing is sent. An error of
    /// the data comes before the last reply's; `OutOfMemory` where there is no memory for the bytes, and the session
    /// goes on.
    pub fn retr_as_buffer<R>(&mut self, alloc: Global, rt: &R, path: &str) -> FtpResult<Vec<u8>>
    where
        Tr: Transport<R>,
        ensures fetches { PlaysSeen (asking (built_by B.answers self.old.builder) ⊥
            (blocking Tr.Conn.Conn)) (chosen E.decoded E.encoded self.old.encoding.0)
            (Call.Retr path.now) self.old.mark self.new.mark self.old.machine self.new.machine
            (bytes_answer result) }
        ensures counts { CountsFaultsBeside (asking (built_by B.answers self.old.builder) ⊥
            (blocking Tr.Conn.Conn)) self.old.machine self.new.machine (bytes_answer result) }
        ensures keeps { Keeps self.old self.new }
    {
        bytes(self.fetch(alloc, rt, BorrowedCall::Retr(path)))
    }

    /// The lines of a listing of this path, or of the current directory: `LIST` (150, 125), its lines, and the last reply
    /// (226, 250). A line ends at an LF, before which one CR is cut; empty lines are left out. The offset of
    /// `resume_transfer` is taken away, and `REST` isn't sent.
    ///
    /// # Errors
    /// Those of a data command: `DataConnectionAlreadyOpen` where a transfer is live, and nothing is sent. An error of
    /// the last reply comes before `BadResponse`, where the data failed; `OutOfMemory` where there is no memory for the
    /// lines, and the session goes on.
    pub fn list<R>(&mut self, alloc: Global, rt: &R, path: Option<&str>) -> FtpResult<Vec<String>>
    where
        Tr: Transport<R>,
        ensures fetches { PlaysSeen (asking (built_by B.answers self.old.builder) ⊥
            (blocking Tr.Conn.Conn)) (chosen E.decoded E.encoded self.old.encoding.0)
            (Call.List (option_map (λ text. text.now) path.entry)) self.old.mark self.new.mark
            self.old.machine self.new.machine (lines_answer result) }
        ensures counts { CountsFaultsBeside (asking (built_by B.answers self.old.builder) ⊥
            (blocking Tr.Conn.Conn)) self.old.machine self.new.machine (lines_answer result) }
        ensures keeps { Keeps self.old self.new }
    {
        self.listing(alloc, rt, BorrowedCall::List(path))
    }

    /// The names in a directory: `NLST` (150, 125), as `list` does.
    ///
    /// # Errors
    /// Those of `list`.
    pub fn nlst<R>(&mut self, alloc: Global, rt: &R, path: Option<&str>) -> FtpResult<Vec<String>>
    where
        Tr: Transport<R>,
        ensures fetches { PlaysSeen (asking (built_by B.answers self.old.builder) ⊥
            (blocking Tr.Conn.Conn)) (chosen E.decoded E.encoded self.old.encoding.0)
            (Call.Nlst (option_map (λ text. text.now) path.entry)) self.old.mark self.new.mark
            self.old.machine self.new.machine (lines_answer result) }
        ensures counts { CountsFaultsBeside (asking (built_by B.answers self.old.builder) ⊥
            (blocking Tr.Conn.Conn)) self.old.machine self.new.machine (lines_answer result) }
        ensures keeps { Keeps self.old self.new }
    {
        self.listing(alloc, rt, BorrowedCall::Nlst(path))
    }

    /// The facts of a directory's files, a line each: `MLSD` (150, 125; RFC 3659, section 7), as `list` does.
    ///
    /// # Errors
    /// Those of `list`.
    pub fn mlsd<R>(&mut self, alloc: Global, rt: &R, path: Option<&str>) -> FtpResult<Vec<String>>
    where
        Tr: Transport<R>,
        ensures fetches { PlaysSeen (asking (built_by B.answers self.old.builder) ⊥
            (blocking Tr.Conn.Conn)) (chosen E.decoded E.encoded self.old.encoding.0)
            (Call.Mlsd (option_map (λ text. text.now) path.entry)) self.old.mark self.new.mark
            self.old.machine self.new.machine (lines_answer result) }
        ensures counts { CountsFaultsBeside (asking (built_by B.answers self.old.builder) ⊥
            (blocking Tr.Conn.Conn)) self.old.machine self.new.machine (lines_answer result) }
        ensures keeps { Keeps self.old self.new }
    {
        self.listing(alloc, rt, BorrowedCall::Mlsd(path))
    }

    /// The lines that such a call reads.
    fn listing<R>(
        &mut self,
        alloc: Global,
        rt: &R,
        call: BorrowedCall<'_>,
    ) -> FtpResult<Vec<String>>
    where
        Tr: Transport<R>,
        requires opens { IsOpening (call_of call) }
        requires reads { FetchesRow Listed (own_row (call_of call) false) }
        requires gives { sends (call_of call) ≡ false }
        ensures fetches { PlaysSeen (asking (built_by B.answers self.old.builder) ⊥
            (blocking Tr.Conn.Conn)) (chosen E.decoded E.encoded self.old.encoding.0)
            (call_of call.entry) self.old.mark self.new.mark self.old.machine self.new.machine
            (lines_answer result) }
        ensures counts { CountsFaultsBeside (asking (built_by B.answers self.old.builder) ⊥
            (blocking Tr.Conn.Conn)) self.old.machine self.new.machine (lines_answer result) }
        ensures keeps { Keeps self.old self.new }
    {
        lines(self.fetch(alloc, rt, call))
    }

    /// Makes a call that reads a whole data connection, after the look. Where memory runs out for the call's texts,
    /// nothing is sent.
    fn fetch<R>(&mut self, alloc: Global, rt: &R, call: BorrowedCall<'_>) -> Answer
    where
        Tr: Transport<R>,
        requires { IsOpening (call_of call) }
        ensures plays { PlaysSeen (asking (built_by B.answers self.old.builder) ⊥
            (blocking Tr.Conn.Conn)) (chosen E.decoded E.encoded self.old.encoding.0)
            (call_of call.entry) self.old.mark self.new.mark self.old.machine self.new.machine
            result }
        ensures fetched { (form : Fetch) → FetchesRow form (own_row (call_of call.entry) false) →
            IsFetched form result }
        ensures keeps { Keeps self.old self.new }
    {
        look(&mut self.machine, &mut self.mark);
        match call.owned(alloc) {
            Ok(call) => {
                let answer = make_in_step(
                    &mut self.machine,
                    alloc,
                    rt,
                    &self.builder,
                    &self.encoding,
                    &call,
                );
                drop(call);
                answer
            }
            Err(AllocError) => Answer::Fault(self.withheld()),
        }
    }
}

/// The result of a call that returns bytes.
fn bytes(answer: Answer) -> FtpResult<Vec<u8>>
    requires { IsFetched Whole answer }
    ensures { bytes_answer result ≡ answer }
{
    match answer {
        Answer::Unit => unreachable!(),
        Answer::Reply(_) => unreachable!(),
        Answer::Text(_) => unreachable!(),
        Answer::Time(_) => unreachable!(),
        Answer::Size(_) => unreachable!(),
        Answer::Features(_) => unreachable!(),
        Answer::Opened => unreachable!(),
        Answer::OpenedWith(_) => unreachable!(),
        Answer::Bytes(bytes) => Ok(bytes.into_vec()),
        Answer::Count(_) => unreachable!(),
        Answer::Lines(_) => unreachable!(),
        Answer::NoTransfer => unreachable!(),
        Answer::Fault(fault) => Err(fault),
    }
}

/// The result of a call that returns lines.
fn lines(answer: Answer) -> FtpResult<Vec<String>>
    requires { IsFetched Listed answer }
    ensures { lines_answer result ≡ answer }
{
    match answer {
        Answer::Unit => unreachable!(),
        Answer::Reply(_) => unreachable!(),
        Answer::Text(_) => unreachable!(),
        Answer::Time(_) => unreachable!(),
        Answer::Size(_) => unreachable!(),
        Answer::Features(_) => unreachable!(),
        Answer::Opened => unreachable!(),
        Answer::OpenedWith(_) => unreachable!(),
        Answer::Bytes(_) => unreachable!(),
        Answer::Count(_) => unreachable!(),
        Answer::Lines(lines) => Ok(lines.into_vec()),
        Answer::NoTransfer => unreachable!(),
        Answer::Fault(fault) => Err(fault),
    }
}
