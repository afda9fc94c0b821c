//! Connections that TLS over memory can be put over.

ghost use Rattle.std.specs.Prelude.{◌≡◌, IfOk};
ghost use Rattle.rows_tls.specs.Sealed.{comes_in_clear};

use ftp_transport::{MemoryConn, Tells};
use std::alloc::{AllocError, Global};

/// A connection over memory that can be put under TLS.
pub trait Covers: Tells + Drop + Sized {
    /// A handshake begins on it, to a server of this name.
    fn begin_handshake(&self, domain: &str);

    /// The connection that stands beside this one for what goes over it in clear: these bytes come on it, and then the end.
    ///
    /// # Errors
    /// Where an allocation fails.
    fn cover(&self, alloc: Global, clear: &str) -> Result<Self, AllocError>
        ensures { Self.tells → IfOk result (λ conn. Self.told conn ≡ comes_in_clear clear.now) };
}

impl Covers for MemoryConn {
    fn begin_handshake(&self, _domain: &str) {}

    fn cover(&self, alloc: Global, clear: &str) -> Result<MemoryConn, AllocError> {
        let mut conn = MemoryConn::new(alloc);
        conn.feed(clear.as_bytes())?;
        conn.end();
        Ok(conn)
    }
}
