//! The number that the input begins with, and so many allocations.

use std::alloc::Global;
use std::io::Read;

/// The longest first line.
const LONGEST: u8 = 10;

/// The number that stands on the first line, 0 where none does. It is read a byte at a time, so that nothing is allocated.
pub fn first_number<R: Read>(input: &mut R) -> u32 {
    let mut number = 0u32;
    let mut byte = [0u8; 1];
    for _ in 0..LONGEST {
        match input.read(&mut byte) {
            Ok(1) if byte[0].is_ascii_digit() => {
                let digit = u32::from(byte[0].saturating_sub(b'0'));
                number = number.saturating_mul(10).saturating_add(digit);
            }
            _ => return number,
        }
    }
    number
}

/// Makes so many allocations, and gives each back.
pub fn allocate(alloc: Global, count: u32) {
    for _ in 0..count {
        drop(Box::new(alloc, 0u64));
    }
}
