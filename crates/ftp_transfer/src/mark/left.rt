//! The receipt for a transfer that was left.

ghost use Rattle.std.specs.Prelude.{◌≡◌, true};
ghost use Rattle.ftp_transfer.specs.Mark.{loaded};

use super::word::Place;
use std::marker::Model;

/// The receipt for a transfer that was left: what became of its end of the mark.
///
/// Who is shown the receipt finds the transfer left, whichever thread left it.
pub struct Left {
    pub(super) number: u64,
    pub(super) place: Place,
}

impl Drop for Left {
    fn drop(self) {
        let Self { number: _, place } = self;
        drop(place);
    }
}

impl Model for Left {
    ghost use Rattle.std.specs.Prelude.{◌≡◌, true};
    ghost use Rattle.ftp_transfer.specs.Mark.{End};

    ghost Value = { End };

    ghost view = { λ e. record {
      mark = e.place.seat.table_id;
      number = e.number;
      loads = e.place.seat.me.0.seen;
    } };

    ghost invariant = { λ e. (e.place.seat.me.0.owns ≡ true) × (e.place.seat.me.0.stored ≡ true) };
}

impl Left {
    /// The number of the transfer.
    pub fn number(&self) -> u64
        ensures { result ≡ self.now.number }
    {
        self.number
    }

    /// Whether the transfer was left, by one load. It was.
    pub fn look_after(&mut self) -> bool
        ensures left { result ≡ true }
        ensures loaded { self.new ≡ loaded result self.old }
    {
        self.place.load()
    }
}
