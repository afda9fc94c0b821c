//! Polled reads of one reply.
//!
//! Each poll is a read of its own, which is begun, polled and dropped where it waits: so each looks at the mark, and polls
//! the last reply of a transfer that was left before its own, where that is due.

ghost use Rattle.std.specs.Prelude.{◌⊎◌, ◌≡◌, true, [], ◌∷◌};
ghost use Rattle.futures.specs.declared.task.Poll.TheVariants as poll;
ghost use Rattle.ftp_calls.specs.declared.call.Answer.TheVariants.{Fault};
ghost use Rattle.ftp_dialogue.specs.Coding.{chosen};
ghost use Rattle.ftp_dialogue.specs.Counted.{CountsFaults};
ghost use Rattle.ftp_dialogue.specs.Dialogue.{expecting};
ghost use Rattle.ftp_dialogue.specs.Link.{polling};
ghost use Rattle.ftp_dialogue.specs.Promises.{GivesFault};
ghost use Rattle.ftp_session.specs.Handed.{ReadsSeen};
ghost use Rattle.ftp_session.specs.Polled.{IfFails};
ghost use Rattle.ftp_session.specs.Kept.{Keeps};

use super::client::Session;
use super::looking::look;
use ftp_base::encoding::Encoding;
use ftp_base::status::Status;
use ftp_base::types::{FtpResult, Response};
use ftp_transport::{Network, PollConn};
use futures::task::Poll;
use std::alloc::Global;

impl<Tr: Network, K: Drop, E: Encoding, B: Drop> Session<Tr, K, E, B> {
    /// Polls a read of one reply whose status is among the expected: that of a command that was dropped, where one is due;
    /// the unsent tail of a line goes out first then. Whether a transfer was left is looked at first; the
    /// last reply of one that was is polled before the read: while it is waited for the read waits, too, and once it is
    /// over the read is polled at once. What came of a reply that waits is kept, and a read that was dropped resumes
    /// where it stopped.
    ///
    /// # Errors
    /// Those of a read of one reply, also of that last reply, but for `UnexpectedResponse` of it; `SessionFailed`.
    pub fn poll_read_response_in<W>(
        &mut self,
        alloc: Global,
        expected: &[Status],
        w: &mut W,
    ) -> Poll<FtpResult<Response>>
    where
        Tr::Conn: PollConn<W>,
        ensures reads { ReadsSeen (polling Tr.Conn.PollConn)
            (chosen E.decoded E.encoded self.old.encoding.0) (expecting expected.now) self.old.mark
            self.new.mark self.old.machine self.new.machine result }
        ensures counts { IfFails result (λ fault. CountsFaults Tr.Conn.tells self.old.machine
            self.new.machine (Fault fault)) }
        ensures waits { result ≡ poll.Pending → Tr.Conn.may_wait }
        ensures fails { self.new.machine.channel.failed ≡ true →
            (self.old.machine.channel.failed ≡ true) ⊎ GivesFault result }
        ensures keeps { Keeps self.old self.new }
    {
        look(&mut self.machine, &mut self.mark);
        self.machine.poll_read(alloc, &self.encoding, expected, w)
    }

    /// Polls a read of one reply of this status, as `poll_read_response_in` does.
    ///
    /// # Errors
    /// Those of `poll_read_response_in`.
    pub fn poll_read_response<W>(
        &mut self,
        alloc: Global,
        expected: Status,
        w: &mut W,
    ) -> Poll<FtpResult<Response>>
    where
        Tr::Conn: PollConn<W>,
        ensures reads { ReadsSeen (polling Tr.Conn.PollConn)
            (chosen E.decoded E.encoded self.old.encoding.0) (expecting (expected ∷ []))
            self.old.mark self.new.mark self.old.machine self.new.machine result }
        ensures counts { IfFails result (λ fault. CountsFaults Tr.Conn.tells self.old.machine
            self.new.machine (Fault fault)) }
        ensures waits { result ≡ poll.Pending → Tr.Conn.may_wait }
        ensures fails { self.new.machine.channel.failed ≡ true →
            (self.old.machine.channel.failed ≡ true) ⊎ GivesFault result }
        ensures keeps { Keeps self.old self.new }
    {
        self.poll_read_response_in(alloc, &[expected], w)
    }
}
