//! Values in boxes, those that only memory keeps from coming, and connections over memory.

use ftp_base::types::FtpResult;
use ftp_transport::MemoryConn;
use rows_text::RowError;
use std::alloc::{AllocError, Global};

/// The same value in a box.
///
/// # Errors
/// `OutOfMemory`.
pub fn boxed<T: Drop>(alloc: Global, value: T) -> Result<Box<T>, AllocError> {
    Ok(Box::new(alloc, value)?)
}

/// What fails only where memory ran out.
///
/// # Errors
/// `OutOfMemory`, whatever failed.
pub fn had<T: Drop>(outcome: FtpResult<T>) -> Result<T, RowError> {
    match outcome {
        Ok(value) => Ok(value),
        Err(fault) => {
            drop(fault);
            Err(RowError::OutOfMemory)
        }
    }
}

/// A connection on which these bytes came, and then it ended.
pub fn ended(mut conn: MemoryConn, bytes: &[u8]) -> Result<MemoryConn, AllocError> {
    conn.feed(bytes)?;
    conn.end();
    Ok(conn)
}
