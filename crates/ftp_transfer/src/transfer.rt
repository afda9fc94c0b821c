//! A transfer, from its opening to its leaving.
//!
//! Leaving has one order: the connection is closed, then it is dropped, and then the mark is stored. So who finds the
//! mark knows that the connection is gone. A drop does the same, and keeps no receipt.

ghost use Rattle.std.specs.Prelude.{◌≡◌, false, true};
ghost use Rattle.ftp_transport.specs.Told.{after_close, before_fault};

use crate::Direction;
use crate::mark::Left;
use ftp_transport::Tells;
use held_end::HeldEnd;
pub use parts::TransferParts;
use std::marker::Model;

mod blocking;
mod held_end;
mod parts;
mod polled;
mod streams;
mod task;

/// A data connection that carries a transfer (RFC 959, section 3.2), and the transfer's end of its mark.
///
/// A dropped transfer is left, as by [`Transfer::leave`].
pub struct Transfer<C: Tells + Drop> {
    conn: C,
    direction: Direction,
    end: HeldEnd<C>,
}

impl<C: Tells + Drop> Model for Transfer<C> {
    ghost use Rattle.ftp_transfer.specs.Transfer.{TransferValue};

    ghost Value = { TransferValue };

    ghost view = { λ t. record {
      told = C.told t.conn;
      direction = t.direction;
      end = t.end;
    } };
}

impl<C: Tells + Drop> Transfer<C> {
    ghost use Rattle.std.specs.Borrow.{Lends, sem};
    ghost use Rattle.ftp_transfer.specs.contracts.transfer.Transfer.{the_row};
    ghost use Rattle.ftp_transfer.specs.Transfer.{WasClosed, looked, with_told};

    /// The data connection.
    pub fn get_ref(&self) -> &C
        ensures { C.told result.now ≡ self.now.told }
    {
        &self.conn
    }

    /// The data connection, to be changed.
    pub fn get_mut(&mut self) -> &mut C
        ensures told { C.told result.now ≡ self.old.told }
        ensures* writes_back { sem 𝓛 (Lends (the_row C.row C.Tells) C.row self.entry result
            (λ conn. with_told (C.told conn) self.old)) }
    {
        &mut self.conn
    }

    /// The number by which its session knows the transfer.
    pub fn number(&self) -> u64
        ensures { result ≡ self.now.end.number }
    {
        self.end.number()
    }

    /// Which way the bytes go.
    pub fn direction(&self) -> Direction
        ensures { result ≡ self.now.direction }
    {
        self.direction
    }

    /// Whether the transfer was left, by one load of its own end. It wasn't: as long as the transfer stands, no thread
    /// leaves it.
    pub fn look_beside(&mut self) -> bool
        ensures live { result ≡ false }
        ensures looked { self.new ≡ looked result self.old }
    {
        self.end.look_beside()
    }

    /// Leaves the transfer: closes the data connection, then stores the mark, and returns the receipt for it. In stream
    /// mode the close is the end of an upload's file (RFC 959, section 3.4.1). An error of the close is discarded.
    pub fn leave(self) -> Left
        ensures left { result ≡ self.end }
        ensures closed { C.tells → WasClosed C C.told self.told }
    {
        let Transfer {
            mut conn,
            direction: _,
            end,
        } = self;
        close(&mut conn);
        end.leave(conn)
    }
}

impl<C: Tells + Drop> Drop for Transfer<C> {
    fn drop(self) {
        let _receipt = self.leave();
    }
}

/// Closes the data connection at this end, whether or not the system could.
fn close<C: Tells>(conn: &mut C)
    ensures closed { C.tells → (C.told conn.new).closed_here ≡ true }
    ensures stays { C.tells →
        before_fault (C.told conn.old) (C.told conn.new) ≡ after_close (C.told conn.old) }
{
    let _ = conn.close();
}
