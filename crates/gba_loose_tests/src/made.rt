//! Numbers and bytes of I/O registers that are made by hand.

use gba_numbers::{Field, Numbers, fits, is_field};
use std::process::Abort;

/// A console's numbers, each set in its turn, and every other one 0.
pub(crate) fn numbers_of<R: Abort>(rt: &R, values: &[(Field, u64)]) -> Numbers {
    let mut numbers = Numbers::new();
    for &(field, value) in values {
        assert!(rt; is_field(field));
        assert!(rt; numbers.has(field));
        assert!(rt; fits(field, value));
        numbers.set(field, value);
    }
    numbers
}

/// The bytes of I/O registers with these halfwords, and 0 elsewhere.
pub(crate) fn io_of<R: Abort>(rt: &R, halves: &[(u32, u16)]) -> [u8; 1024] {
    let mut io = [0; 1024];
    for &(offset, half) in halves {
        let place = offset as usize;
        assert!(rt; place < 1023);
        io[place] = (half % 0x100) as u8;
        io[place + 1] = (half / 0x100) as u8;
    }
    io
}
