//! The transfer's end of a mark.

ghost use Rattle.std.specs.Prelude.{◌≡◌, [], false, IfOk};
ghost use Rattle.ftp_transfer.specs.Mark.{loaded};

use super::word::Place;
use super::{Left, SessionEnd};
use std::alloc::{AllocError, Global};
use std::marker::Model;

/// The end that a transfer holds. As long as it stands the transfer isn't left.
///
/// It can't be dropped, or its session would never find the mark: it is left, or the session's end of the same mark takes
/// it back ([`SessionEnd::dissolve`]).
pub struct TransferEnd {
    pub(super) number: u64,
    pub(super) place: Place,
}

impl Model for TransferEnd {
    ghost use Rattle.std.specs.Prelude.{◌≡◌, true, false};
    ghost use Rattle.ftp_transfer.specs.Mark.{End};

    ghost Value = { End };

    ghost view = { λ e. record {
      mark = e.place.seat.table_id;
      number = e.number;
      loads = e.place.seat.me.0.seen;
    } };

    ghost invariant = { λ e. (e.place.seat.me.0.owns ≡ true) × (e.place.seat.me.0.stored ≡ false) };
}

impl TransferEnd {
    /// The transfer's end of a new mark.
    pub(super) fn new(alloc: Global, number: u64) -> Result<TransferEnd, AllocError>
        ensures number { IfOk result (λ end. end.number ≡ number) }
        ensures no_loads { IfOk result (λ end. end.loads ≡ []) }
    {
        let place = Place::new(alloc)?;
        Ok(TransferEnd { number, place })
    }

    /// The session's end of the same mark.
    pub(super) fn session_end(&mut self) -> Result<SessionEnd, AllocError>
        ensures kept { self.new ≡ self.old }
        ensures fresh { IfOk result (λ end. end ≡ record self.old { loads = [] }) }
    {
        let place = self.place.beside()?;
        Ok(SessionEnd {
            number: self.number,
            place,
        })
    }

    /// Gives up an end whose session's end couldn't be made.
    pub(super) fn withdraw(self) {
        let TransferEnd { number: _, place } = self;
        drop(place);
    }

    /// The number of the transfer.
    pub fn number(&self) -> u64
        ensures { result ≡ self.now.number }
    {
        self.number
    }

    /// Whether the transfer was left, by one load. It wasn't: no step but this end's `leave` leaves it.
    pub fn look_beside(&mut self) -> bool
        ensures live { result ≡ false }
        ensures loaded { self.new ≡ loaded result self.old }
    {
        self.place.load()
    }

    /// Leaves the transfer, by one store, and returns the receipt for it.
    pub fn leave(self) -> Left
        ensures kept { result ≡ self }
    {
        let TransferEnd { number, mut place } = self;
        place.store();
        Left { number, place }
    }
}
