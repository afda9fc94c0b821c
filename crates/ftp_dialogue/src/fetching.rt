//! A whole file or listing goes over a data connection, and its transfer is brought to its end (RFC 959, sections 4.1.3
//! and 5.4).
//!
//! Bytes that come are read into one growing buffer, which is returned, or of which the lines of a listing are made.
//! Whatever comes of them, the data connection is closed and the transfer's last reply is read; only then is the
//! transfer counted, as opened and as finished.

ghost use Rattle.std.specs.Prelude.{◌≡◌, ◌⊎◌, is_none, true, false};
ghost use Rattle.ftp_transport.specs.Told.{EndsAsTold};
ghost use Rattle.ftp_dialogue.specs.Coding.{Coding, coding_of};
ghost use Rattle.ftp_calls.specs.declared.call.Call.{Call};
ghost use Rattle.ftp_dialogue.specs.Dialogue.{fault_or, fetched, first_fault, too_long, unfetched};
ghost use Rattle.ftp_dialogue.specs.Link.{asking, polling};
ghost use Rattle.ftp_dialogue.specs.Steps.Moving.{EndsFetch, Follows, Grows, MakesStep, StartsTask};
ghost use Rattle.ftp_dialogue.specs.Steps.Stages.{FetchOf, MayFetch};

use super::Answer;
use super::data_path::DataPath;
use super::gathered::{Gathered, More};
use super::machine::Machine;
use super::nodes::wants_memory;
use super::stage::{AfterClose, Stage, Step, Transferring, go_to};
use ftp_base::encoding::Encoding;
use ftp_base::status::Status;
use ftp_base::types::{ConnectionError, FtpError};
use ftp_calls::answers::read_listing;
use ftp_calls::exchange::{Fetch, Task};
use ftp_calls::lines::Lines;
use ftp_transport::{Network, PollConn};
use futures::task::Poll;
use std::alloc::{AllocError, Global};
use std::io::ErrorKind;

/// How many bytes can be held.
const MOST_BYTES: usize = (1 << 63) - 1;

/// How many reads are made: each but the last returns a byte.
const MOST_READS: u64 = 1 << 63;

impl<Tr: Network> Machine<Tr> {
    /// One node of a call that reads or writes a whole data connection.
    pub(super) fn transfer<W, E: Encoding, A: DataPath<Tr, W>>(
        &mut self,
        data_path: &A,
        alloc: Global,
        encoding: &E,
        transferring: Transferring,
        stage: &mut Stage,
        w: &mut W,
    ) -> Step
    where
        Tr::Conn: PollConn<W>,
        requires going { self.old.channel.failed ≡ false }
        requires may { A.may_ask }
        ensures waits { result ≡ Step.Pending → Tr.Conn.may_wait ⊎ A.may_wait }
        ensures end { Tr.Conn.tells → Tr.Conn.may_wait →
            EndsAsTold self.old.channel.ended self.new.channel.ended self.old.channel.told }
        ensures makes { (call : Call) → FetchOf call transferring →
            MakesStep (asking (A.builds data_path.now) A.may_wait (polling Tr.Conn.PollConn))
            (coding_of E.decoded E.encoded encoding.now) call (Stage.Transferring transferring)
            stage.new self.old self.new result }
    {
        match transferring {
            Transferring::Starting(task) => self.start(alloc, task, stage),
            Transferring::Gathering(form, left, gathered) => self.gather(
                data_path, alloc, encoding, form, left, gathered, stage, w,
            ),
            Transferring::Sending(left, total, unsent) => {
                self.send_more(data_path, left, total, unsent, stage, w)
            }
            Transferring::Ending(form, answer) => {
                self.end_fetched(data_path, alloc, form, answer, stage, w)
            }
        }
    }

    /// No byte was read or written yet.
    fn start(&mut self, alloc: Global, task: Task, stage: &mut Stage) -> Step
        ensures { StartsTask task stage.new self.old self.new result }
    {
        match task {
            Task::Fetch(form) => {
                let none = Gathered::new(alloc);
                go_to(
                    stage,
                    Stage::Transferring(Transferring::Gathering(form, MOST_READS, none)),
                );
                Step::Next
            }
            Task::Store(bytes) => self.start_store(bytes, stage),
        }
    }

    /// The data connection is read once.
    fn gather<W, E: Encoding, A: DataPath<Tr, W>>(
        &mut self,
        data_path: &A,
        alloc: Global,
        encoding: &E,
        form: Fetch,
        left: u64,
        mut gathered: Gathered,
        stage: &mut Stage,
        w: &mut W,
    ) -> Step
    where
        Tr::Conn: PollConn<W>,
        requires going { self.old.channel.failed ≡ false }
        requires may { A.may_ask }
        ensures waits { result ≡ Step.Pending → A.may_wait }
        ensures end { self.new.channel.ended ≡ self.old.channel.ended }
        ensures makes { (call : Call) → MayFetch call form →
            MakesStep (asking (A.builds data_path.now) A.may_wait (polling Tr.Conn.PollConn))
            (coding_of E.decoded E.encoded encoding.now) call
            (Stage.Transferring (Transferring.Gathering form left gathered)) stage.new self.old
            self.new result }
    {
        if left == 0 {
            go_to(
                stage,
                Stage::Closing(AfterClose::Fetched(form, too_long(form))),
            );
            return Step::Next;
        }
        if self.is_unheld() {
            return self.lack_memory();
        }
        match self.read_more(data_path, &mut gathered, w) {
            Poll::Ready(more) => {
                let next = follow(alloc, encoding, form, left - 1, gathered, more);
                go_to(stage, next);
                Step::Next
            }
            Poll::Pending => {
                go_to(
                    stage,
                    Stage::Transferring(Transferring::Gathering(form, left, gathered)),
                );
                Step::Pending
            }
        }
    }

    /// Whether there is no data connection.
    pub(super) fn is_unheld(&self) -> bool
        ensures { result ≡ is_none self.now.net.data_conn }
    {
        self.data_conn.is_none()
    }

    /// Reads more bytes after those that were read, and makes room for them first.
    fn read_more<W, A: DataPath<Tr, W>>(
        &mut self,
        data_path: &A,
        gathered: &mut Gathered,
        w: &mut W,
    ) -> Poll<More>
    where
        Tr::Conn: PollConn<W>,
        requires held { is_none self.old.net.data_conn ≡ false }
        requires may { A.may_ask }
        ensures end { self.new.channel.ended ≡ self.old.channel.ended }
        ensures grows { Grows (asking (A.builds data_path.now) A.may_wait (polling Tr.Conn.PollConn))
            gathered.old gathered.new self.old self.new result }
    {
        let Some(conn) = &mut self.data_conn else {
            unreachable!();
        };
        let more = gathered.read_more(data_path, conn, w);
        self.failures.note_data(has_failed(&more));
        more
    }

    /// The transfer's last reply is read: the transfer was opened and has come to its end.
    fn end_fetched<W, A: DataPath<Tr, W>>(
        &mut self,
        data_path: &A,
        alloc: Global,
        form: Fetch,
        answer: Answer,
        stage: &mut Stage,
        w: &mut W,
    ) -> Step
    where
        Tr::Conn: PollConn<W>,
        requires going { self.old.channel.failed ≡ false }
        ensures waits { result ≡ Step.Pending → Tr.Conn.may_wait }
        ensures end { Tr.Conn.tells → Tr.Conn.may_wait →
            EndsAsTold self.old.channel.ended self.new.channel.ended self.old.channel.told }
        ensures makes { (coding : Coding) (call : Call) →
            FetchOf call (Transferring.Ending form answer) →
            MakesStep (asking (A.builds data_path.now) A.may_wait (polling Tr.Conn.PollConn)) coding
            call (Stage.Transferring (Transferring.Ending form answer)) stage.new self.old self.new
            result }
    {
        let codes = [Status::ClosingDataConnection, Status::RequestedFileActionOk];
        match self.hear(data_path, alloc, &codes, w) {
            Poll::Ready(Ok(_reply)) => {
                self.state.counts.open();
                self.state.counts.finish();
                Step::Done(answer)
            }
            Poll::Ready(Err(fault)) => Step::Done(self.fail_fetch(form, answer, fault)),
            Poll::Pending => {
                go_to(
                    stage,
                    Stage::Transferring(Transferring::Ending(form, answer)),
                );
                Step::Pending
            }
        }
    }

    /// An error was read in place of the last reply. Out of memory fails the session, and the transfer is left.
    fn fail_fetch(&mut self, form: Fetch, answer: Answer, fault: FtpError) -> Answer
        ensures { EndsFetch form answer fault self.old self.new result }
    {
        self.abort_dialogue(true, &fault);
        self.state.counts.open();
        if wants_memory(&fault) {
            self.state.counts.leave();
            drop(answer);
            return Answer::Fault(fault);
        }
        self.state.counts.finish();
        Answer::Fault(first_fault(form, answer, fault))
    }
}

/// Whether a read failed.
fn has_failed(more: &Poll<More>) -> bool {
    matches!(more, Poll::Ready(More::Failed(_)))
}

/// What follows a read, where so many more may be made.
fn follow<E: Encoding>(
    alloc: Global,
    encoding: &E,
    form: Fetch,
    left: u64,
    gathered: Gathered,
    more: More,
) -> Stage
    ensures { Follows (coding_of E.decoded E.encoded encoding.now) form left gathered more result }
{
    let answer = match more {
        More::Grew => {
            if gathered.len() <= MOST_BYTES {
                return Stage::Transferring(Transferring::Gathering(form, left, gathered));
            }
            too_long(form)
        }
        More::Ended => answer_of(alloc, encoding, form, gathered),
        More::Failed(kind) => unfetched(form, kind),
        More::NoMemory => Answer::Fault(FtpError::OutOfMemory),
    };
    Stage::Closing(AfterClose::Fetched(form, answer))
}

/// The answer for all that came; `OutOfMemory` where there is no memory for its lines.
fn answer_of<E: Encoding>(alloc: Global, encoding: &E, form: Fetch, gathered: Gathered) -> Answer
    ensures { (result ≡ fetched (coding_of E.decoded E.encoded encoding.now) form gathered) ⊎
        (result ≡ Answer.Fault FtpError.OutOfMemory) }
{
    let bytes = gathered.into_bytes();
    match form {
        Fetch::Whole => Answer::Bytes(bytes),
        Fetch::Listed => match read_listing(alloc, bytes.as_slice(), encoding) {
            Ok(lines) => Answer::Lines(Lines::from_vec(lines)),
            Err(AllocError) => Answer::Fault(FtpError::OutOfMemory),
        },
    }
}

/// The answer where a read failed.
fn unfetched(form: Fetch, kind: ErrorKind) -> Answer
    ensures { result ≡ unfetched form kind }
{
    match form {
        Fetch::Whole => Answer::Fault(FtpError::ConnectionError(ConnectionError::Io(kind))),
        Fetch::Listed => Answer::Fault(FtpError::BadResponse),
    }
}

/// The answer where more came than can be held.
fn too_long(form: Fetch) -> Answer
    ensures { result ≡ too_long form }
{
    match form {
        Fetch::Whole => Answer::Fault(FtpError::OutOfMemory),
        Fetch::Listed => Answer::Fault(FtpError::BadResponse),
    }
}

/// The error that is returned where the last reply isn't as expected: that of the data first, and last for a listing.
fn first_fault(form: Fetch, answer: Answer, fault: FtpError) -> FtpError
    ensures { result ≡ first_fault form answer fault }
{
    match form {
        Fetch::Whole => fault_or(answer, fault),
        Fetch::Listed => {
            drop(answer);
            fault
        }
    }
}

/// The error of an answer, or this one where it is none.
fn fault_or(answer: Answer, fault: FtpError) -> FtpError
    ensures { result ≡ fault_or answer fault }
{
    match answer {
        Answer::Fault(first) => {
            drop(fault);
            first
        }
        other => {
            drop(other);
            fault
        }
    }
}
