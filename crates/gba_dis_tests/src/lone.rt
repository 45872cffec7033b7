//! Statements of one unit, wherever it stands.

use gba_dis::{Set, statement};
use std::test::Fail;

/// A word at an address: branches by where they stand, up to the wrap of 32 bits, and what no statement gives
/// as its data.
static WORDS: [(u32, u32, &[u8]); 4] = [
    (0x0800_0000, 0xEAFF_FFFE, b"; b 0x08000000"),
    (0xFFFF_FFFC, 0xEB00_0000, b"; bl 0x00000004"),
    (0x0300_0002, 0xE3A0_1C01, b"; mov r1, #0x100"),
    (0, 0xE7F0_00F0, b"; .word 0xe7f000f0"),
];

/// A halfword at an address; the halves of BL are data.
static HALVES: [(u32, u16, &[u8]); 5] = [
    (0x0800_0100, 0xE7FE, b"; b 0x08000100"),
    (0xFFFF_FFFE, 0xE000, b"; b 0x00000002"),
    (0, 0x2105, b"; mov r1, #0x5"),
    (0x100, 0xF000, b"; .half 0xf000"),
    (0x102, 0xF800, b"; .half 0xf800"),
];

#[test]
fn units_have_their_statements(rt: HostRuntime) -> Result<(), Fail> {
    let alloc = rt.alloc();
    for &(address, word, want) in &WORDS {
        let mut line = Vec::from_slice(alloc, b"; ")?;
        statement(alloc, address, word, Set::Arm, &mut line)?;
        assert_eq!(rt; line.as_slice(), want);
    }
    for &(address, half, want) in &HALVES {
        let mut line = Vec::from_slice(alloc, b"; ")?;
        statement(alloc, address, u32::from(half), Set::Thumb, &mut line)?;
        assert_eq!(rt; line.as_slice(), want);
    }
    Ok(())
}
