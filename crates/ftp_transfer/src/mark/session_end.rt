//! The session's end of a mark.

ghost use Rattle.std.specs.Prelude.{◌≡◌, true, Contains};
ghost use Rattle.ftp_transfer.specs.Mark.{loaded};

use super::TransferEnd;
use super::word::Place;
use std::marker::Model;

/// The end that a session holds of the transfer that it owes.
pub struct SessionEnd {
    pub(super) number: u64,
    pub(super) place: Place,
}

impl Drop for SessionEnd {
    fn drop(self) {
        let Self { number: _, place } = self;
        drop(place);
    }
}

impl Model for SessionEnd {
    ghost use Rattle.ftp_transfer.specs.Mark.{End};

    ghost Value = { End };

    ghost view = { λ e. record {
      mark = e.place.seat.table_id;
      number = e.number;
      loads = e.place.seat.me.0.seen;
    } };
}

impl SessionEnd {
    /// The number of the transfer.
    pub fn number(&self) -> u64
        ensures { result ≡ self.now.number }
    {
        self.number
    }

    /// Whether the transfer was left, by one load. After a result true every later one is true.
    pub fn look(&mut self) -> bool
        ensures loaded { self.new ≡ loaded result self.old }
        ensures stays { Contains self.old.loads true → result ≡ true }
    {
        self.place.load()
    }

    /// Gives up the mark with both of its ends: of a transfer that was never handed out, or that its session has taken
    /// back. Nothing is stored.
    pub fn dissolve(self, end: TransferEnd) {
        let TransferEnd { number: _, place } = end;
        drop(place);
    }
}
