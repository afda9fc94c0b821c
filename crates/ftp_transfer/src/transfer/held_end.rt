//! The end of the mark, as a transfer holds it.
//!
//! Neither this nor a [`TransferEnd`] can be dropped: the session would then never find the mark. The ways out are to
//! leave, which needs the closed connection, and to give the end up against the session's end of a mark, which only the
//! session that brings the transfer to its end has.
//!
//! It is an end beside a connection of the type `C`. What is generic over `C` can make no such connection, so the only one
//! that a transfer can close for its end is its own.

ghost use Rattle.std.specs.Prelude.{◌≡◌, false, true};
ghost use Rattle.ftp_transfer.specs.Mark.{loaded};

use crate::mark::{Left, SessionEnd, TransferEnd};
use ftp_transport::Tells;
use std::marker::{Model, PhantomData};

/// The end of a transfer's mark, which is left only once the connection is closed.
pub(super) struct HeldEnd<C> {
    end: TransferEnd,
    beside: PhantomData<C>,
}

impl<C> Model for HeldEnd<C> {
    ghost use Rattle.ftp_transfer.specs.Mark.{End};

    ghost Value = { End };

    ghost view = { λ held. held.end };
}

impl<C: Tells + Drop> HeldEnd<C> {
    /// Holds an end.
    pub(super) fn new(end: TransferEnd) -> HeldEnd<C>
        ensures { result ≡ end }
    {
        HeldEnd {
            end,
            beside: PhantomData,
        }
    }

    /// The number of the transfer.
    pub(super) fn number(&self) -> u64
        ensures { result ≡ self.now.number }
    {
        self.end.number()
    }

    /// Whether the transfer was left, by one load. It wasn't.
    pub(super) fn look_beside(&mut self) -> bool
        ensures live { result ≡ false }
        ensures loaded { self.new ≡ loaded result self.old }
    {
        self.end.look_beside()
    }

    /// Gives the mark up, for the session that brings the transfer to its end. Nothing is stored.
    pub(super) fn dissolve(self, session: SessionEnd) {
        let HeldEnd { end, beside: _ } = self;
        session.dissolve(end);
    }

    /// Drops the connection, which is closed, and then stores the mark.
    pub(super) fn leave(self, conn: C) -> Left
        requires { C.tells → (C.told conn).closed_here ≡ true }
        ensures { result ≡ self }
    {
        let HeldEnd { end, beside: _ } = self;
        drop(conn);
        end.leave()
    }
}
