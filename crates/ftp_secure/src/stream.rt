//! A connection under TLS.

ghost use Rattle.std.specs.Prelude.{◌≡◌, IfOk, Result, true};
ghost use Rattle.std.specs.Borrow.{Lends, sem};
ghost use Rattle.ftp_base.specs.declared.types.fault.FtpError.{FtpError as Fault};
ghost use Rattle.ftp_transport.specs.Asking.{built_as};
ghost use Rattle.ftp_transport.specs.Told.{Told};
ghost use Rattle.ftp_secure.specs.Continues.{Continues};

use ftp_base::types::FtpResult;
use ftp_transport::{PollConn, Tells};

/// A connection under TLS, over a connection of this type. Its record is of what its caller reads and writes, in clear.
pub trait TlsStream<C: Tells>: Tells + Drop {
    /// The connection below, as it is now.
    ghost below: { Self → C };

    /// What it may return where it is asked for that connection: one of this record, or an error.
    ghost gives: { Self → Result Told Fault → Type 0 };

    /// Ends TLS, and returns the connection below (RFC 4217, section 5).
    ///
    /// # Errors
    /// Where the stream can't give it back.
    fn tcp_stream(self) -> FtpResult<C>
    where
        Self: Sized,
        ensures gives { gives self (built_as C.told result) }
        ensures continues { C.tells →
            IfOk result (λ conn. Continues (C.told (below self)) (C.told conn)) };

    /// The connection below.
    fn get_ref(&self) -> &C
        ensures { result.now ≡ below self.now };

    /// The stream with this connection below in place of its own.
    ghost with_below: { Self → C → Self };

    /// The connection below, to be changed.
    fn mut_ref(&mut self) -> &mut C
        ensures* changes { sem 𝓛 (Lends Self.row C.row self.entry result (with_below
            self.entry.now)) }
        ensures value { result.now ≡ below self.old };

    /// Whether its record is to be kept once it is over.
    fn is_recorded(&self) -> bool
        ensures { Self.tells → result ≡ true };

    /// What was put below is below.
    ghost stays_below: { (stream : Self) → (conn : C) → below (with_below stream conn) ≡ conn };
}

/// A connection under TLS that is polled, over one that is polled, too.
pub trait AsyncTlsStream<C: PollConn<()>>: TlsStream<C> + PollConn<()> {
    /// It may wait where the connection below may, and nowhere else.
    ghost waits_as_below: { Self → (C.may_wait → Self.may_wait) × (Self.may_wait → C.may_wait) };
}
