//! The calls of a session that ask the server something, a method each.
//!
//! What they return is in the text of the reply: a path (RFC 959, section 4.1.3), the facts of a file, its time and its
//! size (RFC 3659), the server's features (RFC 2389). A reply of the right status that doesn't hold it is an error,
//! which leaves the session as it would be otherwise.

ghost use Rattle.std.specs.Prelude.{◌≡◌, option_map};
ghost use Rattle.ftp_calls.specs.declared.call.Call.{Call as Called};
ghost use Rattle.ftp_session.specs.Calls.{features_answer, size_answer, text_answer, time_answer};
ghost use Rattle.ftp_dialogue.specs.Coding.{chosen};
ghost use Rattle.ftp_dialogue.specs.Counted.{CountsFaults};
ghost use Rattle.ftp_dialogue.specs.Link.{blocking};
ghost use Rattle.ftp_session.specs.Commands.{PlaysCommand};
ghost use Rattle.ftp_session.specs.Trees.{feat_tree, mdtm_tree, mlst_tree, pwd_tree, size_tree};
ghost use Rattle.ftp_calls.specs.Kinds.{GivesFeatures, GivesSize, GivesText, GivesTime};
ghost use Rattle.ftp_dialogue.specs.Steps.Stages.{MayAnswer};
ghost use Rattle.ftp_session.specs.Kept.{Keeps};

use super::client::Session;
use super::{Answer, Call};
use ftp_base::encoding::Encoding;
use ftp_base::types::{Features, FtpResult};
use ftp_calls::call::BorrowedCall;
use ftp_transport::{Conn, Network};
use jiff::civil::DateTime;
use std::alloc::Global;

impl<Tr: Network, K: Drop, E: Encoding, B: Drop> Session<Tr, K, E, B>
where
    Tr::Conn: Conn,
{
    /// The current directory: `PWD` (257), the reply's text between its first quote and its last. Doubled quotes stay
    /// doubled.
    ///
    /// # Errors
    /// Those of a command and its reply; `UnexpectedResponse` where the reply has fewer than two quotes.
    pub fn pwd(&mut self, alloc: Global) -> FtpResult<String>
        ensures plays { PlaysCommand (blocking Tr.Conn.Conn)
            (pwd_tree (chosen E.decoded E.encoded self.old.encoding.0)) self.old.mark self.new.mark
            self.old.machine self.new.machine (text_answer result) }
        ensures counts { CountsFaults Tr.Conn.tells self.old.machine self.new.machine
            (text_answer result) }
        ensures keeps { Keeps self.old self.new }
    {
        text(self.call(alloc, &Call::Pwd))
    }

    /// The facts of a file, or of the current directory: `MLST` (250), the second line of the reply, white space cut at
    /// both ends (RFC 3659, section 7).
    ///
    /// # Errors
    /// Those of a command and its reply; `BadResponse` where the second line is absent or empty.
    pub fn mlst(&mut self, alloc: Global, path: Option<&str>) -> FtpResult<String>
        ensures plays { PlaysCommand (blocking Tr.Conn.Conn)
            (mlst_tree (chosen E.decoded E.encoded self.old.encoding.0)
            (option_map (λ text. text.now) path.entry)) self.old.mark self.new.mark self.old.machine
            self.new.machine (text_answer result) }
        ensures counts { CountsFaults Tr.Conn.tells self.old.machine self.new.machine
            (text_answer result) }
        ensures keeps { Keeps self.old self.new }
    {
        text(self.made(alloc, BorrowedCall::Mlst(path)))
    }

    /// When a file was last changed, in UTC: `MDTM` (213), the first fourteen digits of the reply that are no part of a
    /// longer word (RFC 3659, section 3).
    ///
    /// # Errors
    /// Those of a command and its reply; `BadResponse` where the reply isn't UTF-8 or holds no date and time.
    pub fn mdtm(&mut self, alloc: Global, path: &str) -> FtpResult<DateTime>
        ensures plays { PlaysCommand (blocking Tr.Conn.Conn)
            (mdtm_tree (chosen E.decoded E.encoded self.old.encoding.0) path.now) self.old.mark
            self.new.mark self.old.machine self.new.machine (time_answer result) }
        ensures counts { CountsFaults Tr.Conn.tells self.old.machine self.new.machine
            (time_answer result) }
        ensures keeps { Keeps self.old self.new }
    {
        time(self.made(alloc, BorrowedCall::Mdtm(path)))
    }

    /// How many bytes a file has: `SIZE` (213), the last word of the reply (RFC 3659, section 4).
    ///
    /// # Errors
    /// Those of a command and its reply; `BadResponse` where the reply isn't UTF-8 or its last word is no number below
    /// 2^64.
    pub fn size(&mut self, alloc: Global, path: &str) -> FtpResult<usize>
        ensures plays { PlaysCommand (blocking Tr.Conn.Conn)
            (size_tree (chosen E.decoded E.encoded self.old.encoding.0) path.now) self.old.mark
            self.new.mark self.old.machine self.new.machine (size_answer result) }
        ensures counts { CountsFaults Tr.Conn.tells self.old.machine self.new.machine
            (size_answer result) }
        ensures keeps { Keeps self.old self.new }
    {
        size(self.made(alloc, BorrowedCall::Size(path)))
    }

    /// What the server can do beyond RFC 959: `FEAT` (211; RFC 2389, section 3), whose reply has a feature in each line
    /// between its first and its last; read leniently, the end of the input ends it as well. A reply of one line, `211 `,
    /// is a server without features.
    ///
    /// # Errors
    /// Those of a command and its reply; `BadResponse` where a line of the list
    /// doesn't begin with a space.
    pub fn feat(&mut self, alloc: Global) -> FtpResult<Features>
        ensures plays { PlaysCommand (blocking Tr.Conn.Conn)
            (feat_tree (chosen E.decoded E.encoded self.old.encoding.0)) self.old.mark self.new.mark
            self.old.machine self.new.machine (features_answer result) }
        ensures counts { CountsFaults Tr.Conn.tells self.old.machine self.new.machine
            (features_answer result) }
        ensures keeps { Keeps self.old self.new }
    {
        features(self.call(alloc, &Call::Feat))
    }
}

/// The result of a call that returns a text.
fn text(answer: Answer) -> FtpResult<String>
    requires { (call : Called) × MayAnswer call answer × GivesText call }
    ensures { text_answer result ≡ answer }
{
    match answer {
        Answer::Unit => unreachable!(),
        Answer::Reply(_) => unreachable!(),
        Answer::Text(text) => Ok(text.into_string()),
        Answer::Time(_) => unreachable!(),
        Answer::Size(_) => unreachable!(),
        Answer::Features(_) => unreachable!(),
        Answer::Opened => unreachable!(),
        Answer::OpenedWith(_) => unreachable!(),
        Answer::Bytes(_) => unreachable!(),
        Answer::Count(_) => unreachable!(),
        Answer::Lines(_) => unreachable!(),
        Answer::NoTransfer => unreachable!(),
        Answer::Fault(fault) => Err(fault),
    }
}

/// The result of a call that returns a time.
fn time(answer: Answer) -> FtpResult<DateTime>
    requires { (call : Called) × MayAnswer call answer × GivesTime call }
    ensures { time_answer result ≡ answer }
{
    match answer {
        Answer::Unit => unreachable!(),
        Answer::Reply(_) => unreachable!(),
        Answer::Text(_) => unreachable!(),
        Answer::Time(time) => Ok(time),
        Answer::Size(_) => unreachable!(),
        Answer::Features(_) => unreachable!(),
        Answer::Opened => unreachable!(),
        Answer::OpenedWith(_) => unreachable!(),
        Answer::Bytes(_) => unreachable!(),
        Answer::Count(_) => unreachable!(),
        Answer::Lines(_) => unreachable!(),
        Answer::NoTransfer => unreachable!(),
        Answer::Fault(fault) => Err(fault),
    }
}

/// The result of a call that returns a number of bytes.
fn size(answer: Answer) -> FtpResult<usize>
    requires { (call : Called) × MayAnswer call answer × GivesSize call }
    ensures { size_answer result ≡ answer }
{
    match answer {
        Answer::Unit => unreachable!(),
        Answer::Reply(_) => unreachable!(),
        Answer::Text(_) => unreachable!(),
        Answer::Time(_) => unreachable!(),
        Answer::Size(size) => Ok(size),
        Answer::Features(_) => unreachable!(),
        Answer::Opened => unreachable!(),
        Answer::OpenedWith(_) => unreachable!(),
        Answer::Bytes(_) => unreachable!(),
        Answer::Count(_) => unreachable!(),
        Answer::Lines(_) => unreachable!(),
        Answer::NoTransfer => unreachable!(),
        Answer::Fault(fault) => Err(fault),
    }
}

/// The result of a call that returns features.
fn features(answer: Answer) -> FtpResult<Features>
    requires { (call : Called) × MayAnswer call answer × GivesFeatures call }
    ensures { features_answer result ≡ answer }
{
    match answer {
        Answer::Unit => unreachable!(),
        Answer::Reply(_) => unreachable!(),
        Answer::Text(_) => unreachable!(),
        Answer::Time(_) => unreachable!(),
        Answer::Size(_) => unreachable!(),
        Answer::Features(features) => Ok(features),
        Answer::Opened => unreachable!(),
        Answer::OpenedWith(_) => unreachable!(),
        Answer::Bytes(_) => unreachable!(),
        Answer::Count(_) => unreachable!(),
        Answer::Lines(_) => unreachable!(),
        Answer::NoTransfer => unreachable!(),
        Answer::Fault(fault) => Err(fault),
    }
}
