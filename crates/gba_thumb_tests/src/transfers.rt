//! Loads, stores, PUSH, POP and blocks, by the ARM Architecture Reference Manual, A7.1.

use crate::start::{at, patterned};
use gba_bus::{Bus, Width};
use gba_thumb_exec::execute;

// r1, r2, r13 and a halfword at 08000000h; r0, r1, r13 and r15 after it, a word of memory then, and the cycles. Before
// it r0 is A1B2C3D4h and r14 03000041h; the word is at the address that stands after the halfword.
type Case = (u32, u32, u32, u16, u32, (u32, u32, u32, u32, u32, u32));

static SINGLES: [Case; 18] = [
    (
        0x0200_0000,
        5,
        0,
        0x5088,
        0x0200_0004,
        (0xa1b2_c3d4, 0x0200_0000, 0, 0x0800_0002, 0xa1b2_c3d4, 12),
    ),
    (
        0x0200_0000,
        5,
        0,
        0x5488,
        0x0200_0004,
        (0xa1b2_c3d4, 0x0200_0000, 0, 0x0800_0002, 0x8877_d455, 12),
    ),
    (
        0x0200_0000,
        5,
        0,
        0x5888,
        0x0200_0004,
        (0x5588_7766, 0x0200_0000, 0, 0x0800_0002, 0x8877_6655, 11),
    ),
    (
        0x0200_0000,
        5,
        0,
        0x5c88,
        0x0200_0004,
        (0x66, 0x0200_0000, 0, 0x0800_0002, 0x8877_6655, 11),
    ),
    (
        0x0200_0000,
        8,
        0,
        0x5288,
        0x0200_0008,
        (0xa1b2_c3d4, 0x0200_0000, 0, 0x0800_0002, 0xccbb_c3d4, 12),
    ),
    (
        0x0200_0000,
        9,
        0,
        0x5288,
        0x0200_0008,
        (0xa1b2_c3d4, 0x0200_0000, 0, 0x0800_0002, 0xccbb_c3d4, 12),
    ),
    (
        0x0200_0000,
        8,
        0,
        0x5688,
        0x0200_0008,
        (0xffff_ff99, 0x0200_0000, 0, 0x0800_0002, 0xccbb_aa99, 11),
    ),
    (
        0x0200_0000,
        8,
        0,
        0x5a88,
        0x0200_0008,
        (0xaa99, 0x0200_0000, 0, 0x0800_0002, 0xccbb_aa99, 11),
    ),
    (
        0x0200_0000,
        9,
        0,
        0x5a88,
        0x0200_0008,
        (0x9900_00aa, 0x0200_0000, 0, 0x0800_0002, 0xccbb_aa99, 11),
    ),
    (
        0x0200_0000,
        8,
        0,
        0x5e88,
        0x0200_0008,
        (0xffff_aa99, 0x0200_0000, 0, 0x0800_0002, 0xccbb_aa99, 11),
    ),
    (
        0x0200_0000,
        9,
        0,
        0x5e88,
        0x0200_0008,
        (0xffff_ffaa, 0x0200_0000, 0, 0x0800_0002, 0xccbb_aa99, 11),
    ),
    (
        0x0200_0000,
        0,
        0,
        0x6088,
        0x0200_0008,
        (0xa1b2_c3d4, 0x0200_0000, 0, 0x0800_0002, 0xa1b2_c3d4, 12),
    ),
    (
        0x0200_0000,
        0,
        0,
        0x6888,
        0x0200_0008,
        (0xccbb_aa99, 0x0200_0000, 0, 0x0800_0002, 0xccbb_aa99, 11),
    ),
    (
        0x0200_0000,
        0,
        0,
        0x7088,
        0x0200_0000,
        (0xa1b2_c3d4, 0x0200_0000, 0, 0x0800_0002, 0x44d4_2211, 12),
    ),
    (
        0x0200_0000,
        0,
        0,
        0x7888,
        0x0200_0000,
        (0x33, 0x0200_0000, 0, 0x0800_0002, 0x4433_2211, 11),
    ),
    (
        0x0200_0000,
        0,
        0,
        0x80c8,
        0x0200_0004,
        (0xa1b2_c3d4, 0x0200_0000, 0, 0x0800_0002, 0xc3d4_6655, 12),
    ),
    (
        0x0200_0000,
        0,
        0,
        0x88c8,
        0x0200_0004,
        (0x8877, 0x0200_0000, 0, 0x0800_0002, 0x8877_6655, 11),
    ),
    (
        0,
        0,
        0x0200_0004,
        0x9803,
        0x0200_0010,
        (0x5443_3221, 0, 0x0200_0004, 0x0800_0002, 0x5443_3221, 11),
    ),
];

static BLOCKS: [Case; 16] = [
    (
        0,
        0,
        0x0200_0004,
        0x9003,
        0x0200_0010,
        (0xa1b2_c3d4, 0, 0x0200_0004, 0x0800_0002, 0xa1b2_c3d4, 12),
    ),
    (
        0,
        0,
        0x0200_0010,
        0xb501,
        0x0200_0008,
        (0xa1b2_c3d4, 0, 0x0200_0008, 0x0800_0002, 0xa1b2_c3d4, 17),
    ),
    (
        0,
        0,
        0x0200_0010,
        0xb501,
        0x0200_000c,
        (0xa1b2_c3d4, 0, 0x0200_0008, 0x0800_0002, 0x0300_0041, 17),
    ),
    (
        7,
        0,
        0x0200_0010,
        0xb403,
        0x0200_000c,
        (0xa1b2_c3d4, 7, 0x0200_0008, 0x0800_0002, 7, 17),
    ),
    (
        0,
        0,
        0x0200_0040,
        0xb400,
        0x0200_0000,
        (0xa1b2_c3d4, 0, 0x0200_0000, 0x0800_0002, 0x0800_000c, 12),
    ),
    (
        0,
        0,
        0x0200_0000,
        0xbd01,
        0x0200_0000,
        (0x4433_2211, 0, 0x0200_0008, 0x8877_6654, 0x4433_2211, 24),
    ),
    (
        0,
        0,
        0x0200_0000,
        0xbc01,
        0x0200_0000,
        (0x4433_2211, 0, 0x0200_0004, 0x0800_0002, 0x4433_2211, 11),
    ),
    (
        0,
        0,
        0x0200_0000,
        0xbd00,
        0x0200_0000,
        (0xa1b2_c3d4, 0, 0x0200_0004, 0x4433_2210, 0x4433_2211, 19),
    ),
    (
        0,
        0,
        0x0200_0000,
        0xbc00,
        0x0200_0000,
        (0xa1b2_c3d4, 0, 0x0200_0040, 0x4433_2210, 0x4433_2211, 19),
    ),
    (
        0x0200_0000,
        0,
        0,
        0xc103,
        0x0200_0004,
        (0xa1b2_c3d4, 0x0200_0008, 0, 0x0800_0002, 0x0200_0008, 17),
    ),
    (
        0x0200_0000,
        0,
        0,
        0xc102,
        0x0200_0000,
        (0xa1b2_c3d4, 0x0200_0004, 0, 0x0800_0002, 0x0200_0000, 12),
    ),
    (
        0x0200_0000,
        0,
        0,
        0xc100,
        0x0200_0000,
        (0xa1b2_c3d4, 0x0200_0040, 0, 0x0800_0002, 0x0800_000c, 12),
    ),
    (
        0x0200_0000,
        0,
        0,
        0xc903,
        0x0200_0000,
        (0x4433_2211, 0x8877_6655, 0, 0x0800_0002, 0x4433_2211, 16),
    ),
    (
        0x0200_0000,
        0,
        0,
        0xc901,
        0x0200_0000,
        (0x4433_2211, 0x0200_0004, 0, 0x0800_0002, 0x4433_2211, 11),
    ),
    (
        0x0200_0000,
        0,
        0,
        0xc902,
        0x0200_0000,
        (0xa1b2_c3d4, 0x4433_2211, 0, 0x0800_0002, 0x4433_2211, 11),
    ),
    (
        0x0200_0000,
        0,
        0,
        0xc900,
        0x0200_0000,
        (0xa1b2_c3d4, 0x0200_0040, 0, 0x4433_2210, 0x4433_2211, 19),
    ),
];

// r0, r1, r13, r15, the word at `place` and the cycles after a halfword, and CPSR.
fn after(
    low: (u32, u32),
    r13: u32,
    half: u16,
    place: u32,
) -> ((u32, u32, u32, u32, u32, u32), u32) {
    let mut registers = at(0x0800_0000, 0x3000_0030, [0xa1b2_c3d4, low.0, low.1]);
    registers.set(13, r13);
    let mut regions = patterned();
    let cycles = execute(&mut registers, &mut regions, half);
    let left = (
        registers.get(0),
        registers.get(1),
        registers.get(13),
        registers.get(15),
        regions.load(0, place, Width::Word, false).0,
        cycles,
    );
    (left, registers.cpsr())
}

#[test]
fn single_transfers(rt: HostRuntime) {
    for &(r1, r2, r13, half, place, want) in &SINGLES {
        assert_eq!(rt;
            after((r1, r2), r13, half, place),
            (want, 0x3000_0030),
            "{half:x}"
        );
    }
}

#[test]
fn stacks_and_blocks(rt: HostRuntime) {
    for &(r1, r2, r13, half, place, want) in &BLOCKS {
        assert_eq!(rt;
            after((r1, r2), r13, half, place),
            (want, 0x3000_0030),
            "{half:x}"
        );
    }
}

// An even address stays in Thumb state.
#[test]
fn pop_keeps_the_state(rt: HostRuntime) {
    let mut registers = at(0x0800_0000, 0x30, [9, 9, 9]);
    let mut regions = patterned();
    let _ = regions.store(0x0200_0004, Width::Word, 0x0300_0006, false);
    let _ = execute(&mut registers, &mut regions, 0xbd00);
    assert_eq!(rt; (registers.get(15), registers.cpsr()), (0x0300_0006, 0x30));
}
