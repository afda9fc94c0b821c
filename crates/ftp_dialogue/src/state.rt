//! What a session keeps beside its channel: settings, counts of transfers, and what the server greeted with.
//!
//! A call changes it only by an accepted reply. The counts have an invariant, so no call can forget a transfer: each
//! that was opened was finished, aborted or drained, or is owed.

ghost use Rattle.std.specs.Prelude.{◌≡◌};
ghost use Rattle.ftp_dialogue.specs.Dialogue.{rule_by};
ghost use Rattle.ftp_dialogue.specs.Sound.{SoundCounts, cannot_open, is_live, is_owed, left_behind, next_number, no_transfers, one_aborted, one_drained, one_finished, one_more};
ghost use Rattle.ftp_dialogue.specs.State.{IsFirst};
ghost use Rattle.ftp_dialogue.specs.Unanswered.{after_faulty, answered_by, missed, one_counted};

use ftp_base::encoding::WelcomeMessage;
use ftp_base::status::Status;
use ftp_base::types::{ActivePeerCheck, FtpError, Mode, Response};
use ftp_control::control::ReplyRule;
use std::marker::Model;
use std::time::Duration;

/// How many seconds a session waits for an active data connection, unless it is set otherwise.
pub const ACTIVE_DEADLINE_SECONDS: u64 = 60;

/// The settings of a session.
#[derive(Clone)]
pub struct Settings {
    /// Who opens data connections.
    pub mode: Mode,
    /// Whether the host of a reply to PASV is passed over for the control peer's.
    pub passive_nat_workaround: bool,
    /// Which peers may open an active data connection.
    pub active_peer_check: ActivePeerCheck,
    /// How long an active data connection is waited for.
    pub active_deadline: Duration,
    /// Which lines open and end the replies that begin (RFC 959, section 4.2).
    pub reply_rule: ReplyRule,
    /// Whether transfers are of text.
    pub text: bool,
    /// Whether data connections are secure.
    pub secure: bool,
    /// Where the next transfer begins, in bytes (RFC 3659, section 5).
    pub restart_offset: u64,
    /// Whether the caller's builder makes passive data connections, in the transport's place.
    pub stream_builder: bool,
}

impl Drop for Settings {
    fn drop(self) {
        let Self {
            mode: _,
            passive_nat_workaround: _,
            active_peer_check,
            active_deadline: _,
            reply_rule: _,
            text: _,
            secure: _,
            restart_offset: _,
            stream_builder: _,
        } = self;
        drop(active_peer_check);
    }
}

/// The rule of lenient replies, or of strict ones.
pub fn rule_by(lenient: bool) -> ReplyRule
    ensures { result ≡ rule_by lenient }
{
    if lenient {
        ReplyRule::Lenient
    } else {
        ReplyRule::Strict
    }
}

/// The transfer whose last reply hasn't been read.
#[derive(Clone, Copy, Debug, PartialEq, Eq)]
pub enum Owed {
    /// None.
    Nothing,
    /// One that is still held, of this number.
    Live(u64),
    /// One that was left, of this number.
    Left(u64),
}

/// How many transfers were opened, and how they came to their end.
#[derive(Clone, Drop)]
pub struct Counts {
    opened: u64,
    finished: u64,
    aborted: u64,
    drained: u64,
    owed: Owed,
}

impl Model for Counts {
    ghost use Rattle.ftp_dialogue.specs.Sound.{Transfers, SoundCounts};

    ghost Value = { Transfers };

    ghost view = { λ c. record {
      opened = c.opened;
      finished = c.finished;
      aborted = c.aborted;
      drained = c.drained;
      owed = c.owed;
    } };

    ghost invariant = { λ c. SoundCounts (record {
      opened = c.opened;
      finished = c.finished;
      aborted = c.aborted;
      drained = c.drained;
      owed = c.owed;
    }) };
}

impl Counts {
    /// No transfer was opened.
    pub fn new() -> Counts
        ensures { result ≡ no_transfers }
    {
        Counts {
            opened: 0,
            finished: 0,
            aborted: 0,
            drained: 0,
            owed: Owed::Nothing,
        }
    }

    /// Why no transfer can be opened: `DataConnectionAlreadyOpen` where one is owed, `SessionFailed` where no other
    /// can be counted.
    pub fn cannot_open(&self) -> Option<FtpError>
        ensures { result ≡ cannot_open self.now }
    {
        match self.owed {
            Owed::Live(_) | Owed::Left(_) => Some(FtpError::DataConnectionAlreadyOpen),
            Owed::Nothing => {
                if self.opened == u64::MAX {
                    Some(FtpError::SessionFailed)
                } else {
                    None
                }
            }
        }
    }

    /// The number that the next transfer has.
    pub fn next_number(&self) -> u64
        ensures { result ≡ next_number self.now }
    {
        if self.opened == u64::MAX {
            self.opened
        } else {
            self.opened + 1
        }
    }

    /// Whether the transfer of this number is live.
    pub fn is_live(&self, number: u64) -> bool
        ensures { result ≡ is_live number self.now.owed }
    {
        match self.owed {
            Owed::Live(live) => number == live,
            Owed::Nothing | Owed::Left(_) => false,
        }
    }

    /// Whether the last reply of the transfer of this number is still owed.
    pub fn is_owed(&self, number: u64) -> bool
        ensures { result ≡ is_owed number self.now.owed }
    {
        match self.owed {
            Owed::Live(owed) | Owed::Left(owed) => number == owed,
            Owed::Nothing => false,
        }
    }

    /// One transfer more is opened, and is owed, where it can be.
    pub fn open(&mut self)
        ensures { self.new ≡ one_more self.old }
    {
        if let Owed::Nothing = self.owed {
            if self.opened < u64::MAX {
                self.opened += 1;
                self.owed = Owed::Live(self.opened);
            }
        }
    }

    /// The transfer that is owed has come to its end, if there is one: its last reply was read, or its read failed.
    pub fn finish(&mut self)
        ensures { self.new ≡ one_finished self.old }
    {
        match self.owed {
            Owed::Nothing => {}
            Owed::Live(_) | Owed::Left(_) => {
                self.finished += 1;
                self.owed = Owed::Nothing;
            }
        }
    }

    /// The transfer that was left has come to its end, if one is owed: its last reply was read, or its read failed.
    pub fn drain(&mut self)
        ensures { self.new ≡ one_drained self.old }
    {
        match self.owed {
            Owed::Nothing => {}
            Owed::Live(_) | Owed::Left(_) => {
                self.drained += 1;
                self.owed = Owed::Nothing;
            }
        }
    }

    /// The transfer that is owed was aborted, if there is one.
    pub fn abort(&mut self)
        ensures { self.new ≡ one_aborted self.old }
    {
        match self.owed {
            Owed::Nothing => {}
            Owed::Live(_) | Owed::Left(_) => {
                self.aborted += 1;
                self.owed = Owed::Nothing;
            }
        }
    }

    /// The transfer that is live, if there is one, is left: its last reply is still owed.
    pub fn leave(&mut self)
        ensures { self.new ≡ left_behind self.old }
    {
        if let Owed::Live(number) = self.owed {
            self.owed = Owed::Left(number);
        }
    }

    /// The transfer whose last reply hasn't been read.
    pub fn owed(&self) -> Owed
        ensures { result ≡ self.now.owed }
    {
        self.owed
    }

    /// How many transfers were opened. Each was finished, aborted or drained since, but for the one that is owed.
    pub fn opened(&self) -> u64
        ensures value { result ≡ self.now.opened }
        ensures sound { SoundCounts self.now }
    {
        self.opened
    }

    /// How many came to their end by `finish`: their last reply was read, or its read failed.
    pub fn finished(&self) -> u64
        ensures { result ≡ self.now.finished }
    {
        self.finished
    }

    /// How many were aborted: `ABOR` went out, whatever the server replied.
    pub fn aborted(&self) -> u64
        ensures { result ≡ self.now.aborted }
    {
        self.aborted
    }

    /// How many were left, and had their last reply read before a later command, or its read failed.
    pub fn drained(&self) -> u64
        ensures { result ≡ self.now.drained }
    {
        self.drained
    }
}

/// What a session keeps beside its control channel.
#[derive(Clone)]
pub struct State {
    /// Its settings.
    pub settings: Settings,
    /// The transfers that it counted.
    pub counts: Counts,
    /// Whether the transfer that is live, or that was opened last, is an upload.
    pub uploads: bool,
    /// What the server greeted with, once the greeting was accepted.
    pub welcome: Option<WelcomeMessage>,
    /// How many commands were dropped whose replies haven't been read.
    pub unanswered: u64,
    /// Whether one of them is `ABOR`, and 426 may come before its reply.
    pub aborting: bool,
}

impl Drop for State {
    fn drop(self) {
        let Self {
            settings,
            counts,
            uploads: _,
            welcome,
            unanswered: _,
            aborting: _,
        } = self;
        drop(settings);
        drop(counts);
        drop(welcome);
    }
}

impl State {
    /// A session begins: passive, its transfers of text, the control peer alone let in, its replies strict.
    pub fn new() -> State
        ensures first { IsFirst result }
        ensures rule { result.settings.reply_rule ≡ ReplyRule.Strict }
    {
        State {
            settings: Settings {
                mode: Mode::Passive,
                passive_nat_workaround: false,
                active_peer_check: ActivePeerCheck::ControlPeer,
                active_deadline: Duration::from_secs(ACTIVE_DEADLINE_SECONDS),
                reply_rule: ReplyRule::Strict,
                text: true,
                secure: false,
                restart_offset: 0,
                stream_builder: false,
            },
            counts: Counts::new(),
            uploads: false,
            welcome: None,
            unanswered: 0,
            aborting: false,
        }
    }

    /// A command was dropped after its line was begun and before its reply was read; of `ABOR` 426 may come first.
    pub fn miss(&mut self, aborting: bool)
        ensures { self.new ≡ missed aborting self.old }
    {
        self.unanswered = self.unanswered.saturating_add(1);
        if aborting {
            self.aborting = true;
        }
    }

    /// This reply was read. Where replies are due to dropped commands it settles a transfer that was left, or answers one
    /// of them; a preliminary reply (RFC 959, section 4.2.1) and the 426 of an abort count for none.
    pub fn answer(&mut self, reply: &Response)
        ensures { self.new ≡ answered_by reply.now self.old }
    {
        if self.unanswered == 0 || reply.is_preliminary() {
            return;
        }
        if self.aborting && reply.status.code() == Status::TransferAborted.code() {
            self.aborting = false;
        } else {
            self.count();
        }
    }

    /// An error took the place of a reply: what can't be read as one counts as one.
    pub fn answer_faulty(&mut self, fault: &FtpError)
        ensures { self.new ≡ after_faulty fault.now self.old }
    {
        match fault {
            FtpError::UnexpectedResponse(reply) => self.answer(reply),
            FtpError::BadResponse => {
                if self.unanswered > 0 {
                    self.count();
                }
            }
            _ => {}
        }
    }

    /// A reply counts: a transfer that was left has come to its end by it, or it is that of a dropped command.
    fn count(&mut self)
        ensures { self.new ≡ one_counted self.old }
    {
        if let Owed::Left(_) = self.counts.owed() {
            self.counts.drain();
        } else if self.unanswered <= 1 {
            self.unanswered = 0;
            self.aborting = false;
        } else {
            self.unanswered -= 1;
        }
    }
}
