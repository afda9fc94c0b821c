//! What a session makes a transfer of, and what it takes back of one that it brings to its end.
//!
//! A program has no use for it: a transfer that was taken apart is neither closed nor left, and only its session may do
//! that.

ghost use Rattle.std.specs.Prelude.{◌≡◌};

use super::Transfer;
use super::held_end::HeldEnd;
use crate::Direction;
use crate::mark::{SessionEnd, TransferEnd};
use ftp_transport::Tells;

/// Makes transfers, and takes back their data connections: for the session whose they are.
pub trait TransferParts<C: Tells + Drop>: Sized {
    /// A transfer on a data connection that stands.
    fn new(conn: C, direction: Direction, end: TransferEnd) -> Self;

    /// The data connection, for the session that brings the transfer to its end. Nothing is closed, and nothing is
    /// stored.
    fn into_conn(self, session: SessionEnd) -> C;
}

impl<C: Tells + Drop> TransferParts<C> for Transfer<C> {
    /// A transfer on a data connection that stands.
    fn new(conn: C, direction: Direction, end: TransferEnd) -> Transfer<C>
        ensures told { result.told ≡ C.told conn }
        ensures direction { result.direction ≡ direction }
        ensures end { result.end ≡ end }
    {
        Transfer {
            conn,
            direction,
            end: HeldEnd::new(end),
        }
    }

    /// The data connection, for the session that brings the transfer to its end: the mark is given up with both of its
    /// ends. Nothing is closed, and nothing is stored.
    fn into_conn(self, session: SessionEnd) -> C
        ensures { C.told result ≡ self.told }
    {
        let Transfer {
            conn,
            direction: _,
            end,
        } = self;
        end.dissolve(session);
        conn
    }
}
