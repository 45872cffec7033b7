//! Which writes to video memory would change nothing.

use crate::memories::memories;
use gba_bus::Width::{self, Byte, Half, Word};
use gba_mem::{Memory, is_in_video};
use std::process::Abort;
use std::test::Fail;

/// What stands in video memory: a mode of the picture, an address, a width and a number.
static WRITTEN: [(u32, u32, Width, u32); 8] = [
    (0, 0x0500_0000, Word, 0x4433_2211),
    (0, 0x0500_0004, Byte, 0x5A),
    (0, 0x0600_0000, Word, 0x8877_6655),
    (0, 0x0600_0005, Byte, 0x6B),
    (0, 0x0601_0000, Half, 0x1234),
    (0, 0x0601_3FFE, Half, 0x7C7C),
    (0, 0x0700_0000, Word, 0xDDCC_BBAA),
    (0, 0x0700_0006, Half, 0x9999),
];

/// Whether a write changes nothing there: all bytes of its width must be the same, of a byte that goes to both bytes of
/// its halfword both of them. What is dropped changes nothing.
static CASES: [(u32, u32, Width, u32, bool); 32] = [
    (0, 0x0500_0000, Word, 0x4433_2211, true),
    (0, 0x05FF_FC03, Word, 0x4433_2211, true),
    (0, 0x0500_0000, Word, 0x4433_2210, false),
    (0, 0x0500_0000, Word, 0x4433_2311, false),
    (0, 0x0500_0000, Word, 0x4432_2211, false),
    (0, 0x0500_0000, Word, 0xC433_2211, false),
    (0, 0x0500_0002, Half, 0xFFFF_4433, true),
    (0, 0x0500_0002, Half, 0x4432, false),
    (0, 0x0500_0002, Half, 0x4333, false),
    (0, 0x0500_0005, Byte, 0xFF5A, true),
    (0, 0x0500_0004, Byte, 0x5B, false),
    (0, 0x0500_0000, Byte, 0x11, false),
    (0, 0x0500_0001, Byte, 0x22, false),
    (0, 0x0600_0000, Word, 0x8877_6655, true),
    (0, 0x0602_0001, Half, 0x6655, true),
    (0, 0x0600_0000, Half, 0x6654, false),
    (0, 0x0600_0004, Byte, 0x6B, true),
    (0, 0x0600_0000, Byte, 0x55, false),
    (0, 0x0601_8001, Half, 0x1234, true),
    (0, 0x0601_0000, Word, 0x1234, true),
    (0, 0x0601_8000, Word, 0x0001_1234, false),
    (0, 0x0601_0000, Byte, 0x99, true),
    (2, 0x0601_0001, Byte, 0x99, true),
    (3, 0x0601_0000, Byte, 0x34, false),
    (5, 0x0601_3FFF, Byte, 0x7C, true),
    (5, 0x0601_3FFF, Byte, 0x7D, false),
    (4, 0x0601_C000, Byte, 0x99, true),
    (0, 0x0700_0000, Word, 0xDDCC_BBAA, true),
    (0, 0x07FF_FC00, Word, 0xDDCC_BBAB, false),
    (0, 0x0700_0006, Half, 0x9999, true),
    (0, 0x0700_0006, Half, 0x9899, false),
    (0, 0x0700_0006, Byte, 0x55, true),
];

/// Addresses at both sides of video memory's regions, and whether they are in it.
static EDGES: [(u32, bool); 8] = [
    (0x0000_0000, false),
    (0x0300_0000, false),
    (0x04FF_FFFF, false),
    (0x0500_0000, true),
    (0x06FF_FFFF, true),
    (0x07FF_FFFF, true),
    (0x0800_0000, false),
    (0x1500_0000, false),
];

fn check<R: Abort>(rt: &R, memory: &Memory, case: &(u32, u32, Width, u32, bool)) {
    let (mode, address, width, value, keeps) = *case;
    assert!(rt; is_in_video(address));
    let kept = memory.keeps(mode, address, width, value);
    assert_eq!(rt; kept, keeps, "at {address}");
}

#[test]
fn writes_that_change_nothing(rt: HostRuntime) -> Result<(), Fail> {
    let mut memory = memories(&rt, rt.alloc())?;
    for (mode, address, width, value) in WRITTEN {
        memory.store(mode, address, width, value);
    }
    for case in &CASES {
        check(&rt, &memory, case);
    }
    for (address, is_in) in EDGES {
        assert_eq!(rt; is_in_video(address), is_in, "at {address}");
    }
    Ok(())
}
