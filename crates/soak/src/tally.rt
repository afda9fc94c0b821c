//! How many answers of which kind came.

use std::fmt;

/// How many answers came that say so.
#[derive(Clone, Copy)]
pub struct Tally {
    sessions: u64,
    /// How many calls were made.
    pub calls: u64,
    accepted: u64,
    refused: u64,
    bad: u64,
    ended: u64,
    timed_out: u64,
    reset: u64,
    failed: u64,
    others: u64,
    /// How many answers aren't those due.
    pub differs: u64,
}

impl fmt::Display for Tally {
    fn fmt<W: fmt::Write>(&self, f: &mut fmt::Formatter<W>) -> fmt::Result {
        write!(f, "{} sessions, {} calls: ", self.sessions, self.calls)?;
        write!(f, "{} accepted, {} refused, ", self.accepted, self.refused)?;
        write!(
            f,
            "{} bad replies, {} ends of input, ",
            self.bad, self.ended
        )?;
        write!(f, "{} timed out, {} reset, ", self.timed_out, self.reset)?;
        write!(
            f,
            "{} of a failed session, {} others; ",
            self.failed, self.others
        )?;
        write!(f, "{} differ", self.differs)
    }
}

impl Tally {
    /// None came.
    pub fn new() -> Tally {
        Tally {
            sessions: 0,
            calls: 0,
            accepted: 0,
            refused: 0,
            bad: 0,
            ended: 0,
            timed_out: 0,
            reset: 0,
            failed: 0,
            others: 0,
            differs: 0,
        }
    }

    /// A session began.
    pub fn begin_session(&mut self) {
        self.sessions = self.sessions.saturating_add(1);
    }

    /// An answer came, as rows write it.
    pub fn add(&mut self, answer: &str, is_due: bool) {
        self.calls = self.calls.saturating_add(1);
        if !is_due {
            self.differs = self.differs.saturating_add(1);
        }
        let count = self.count_of(answer);
        *count = count.saturating_add(1);
    }

    /// The count of such answers.
    fn count_of(&mut self, answer: &str) -> &mut u64 {
        match answer {
            "E2" => &mut self.ended,
            "E11" => &mut self.bad,
            "E14" => &mut self.failed,
            "E1 TimedOut" => &mut self.timed_out,
            "E1 ConnectionReset" => &mut self.reset,
            _ if answer.starts_with("E10 ") => &mut self.refused,
            _ if answer.starts_with('E') => &mut self.others,
            _ => &mut self.accepted,
        }
    }
}
