//! The data connections of a script.

ghost use Rattle.std.specs.Prelude.{◌≡◌, IfOk, map};
ghost use Rattle.ftp_transport.specs.Memory.{nothing_asked};
ghost use Rattle.ftp_script.specs.Playing.{supply_of};

use ftp_base::types::Bytes;
use ftp_transport::{MemoryConn, MemoryTransport, Supply};
use std::alloc::{AllocError, Global};
use std::io::ErrorKind;

/// What becomes of a data connection that is asked for.
#[derive(Drop)]
pub(crate) enum DataConn {
    /// It connects, delivers these bytes and then ends.
    Gives(Bytes),
    /// It is refused.
    Refused,
}

/// A transport over memory whose data connections are these, in order; each one after them is refused.
pub(crate) fn transport_of(
    alloc: Global,
    data_conns: &[DataConn],
) -> Result<MemoryTransport, AllocError>
    ensures { IfOk result (λ transport.
        transport ≡ record nothing_asked { ready = map supply_of data_conns.now }) }
{
    let mut transport = MemoryTransport::new(alloc);
    for data_conn in data_conns {
        transport.supply(supply_of(alloc, data_conn)?)?;
    }
    Ok(transport)
}

/// What such a data connection is to the transport.
fn supply_of(alloc: Global, data_conn: &DataConn) -> Result<Supply, AllocError>
    ensures { IfOk result (λ supply. supply ≡ supply_of data_conn.now) }
{
    match data_conn {
        DataConn::Gives(bytes) => {
            let mut conn = MemoryConn::new(alloc);
            conn.feed(bytes.as_slice())?;
            conn.end();
            Ok(Supply::Connects(conn))
        }
        DataConn::Refused => Ok(Supply::Refuses(ErrorKind::ConnectionRefused)),
    }
}
