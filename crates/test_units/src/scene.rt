//! What the tests share: values in boxes, and the numbers of errors.

use ftp_base::types::FtpResult;
use std::alloc::Global;

/// The same value in a box.
pub fn boxed<T: Drop>(alloc: Global, value: T) -> FtpResult<Box<T>> {
    Ok(Box::new(alloc, value)?)
}

/// The number of an error; 0 where there is none.
pub fn number<T: Drop>(answer: FtpResult<T>) -> u8 {
    match &answer {
        Ok(_) => 0,
        Err(fault) => fault.number(),
    }
}
