//! Data processing on low registers, by the ARM Architecture Reference Manual, A7.1.

use crate::start::{at, patterned};
use gba_thumb_exec::execute;

// CPSR, r0, r1 and a halfword at 08000000h; r0, r1, CPSR and cycles after it.
type Case = (u32, u32, u32, u16, (u32, u32, u32, u32));

// shifts by a constant, add and subtract, and numbers
static NUMBERS: [Case; 15] = [
    (
        0x3000_0030,
        9,
        0x8000_0001,
        0x0108,
        (0x10, 0x8000_0001, 0x1000_0030, 3),
    ),
    (
        0x3000_0030,
        9,
        0x8000_0001,
        0x0808,
        (0, 0x8000_0001, 0x7000_0030, 3),
    ),
    (
        0x3000_0030,
        9,
        0x8000_0001,
        0x1048,
        (0xc000_0000, 0x8000_0001, 0xb000_0030, 3),
    ),
    (
        0x3000_0030,
        9,
        0x8000_0001,
        0x0008,
        (0x8000_0001, 0x8000_0001, 0xb000_0030, 3),
    ),
    (
        0x0000_0030,
        9,
        0x8000_0001,
        0x0008,
        (0x8000_0001, 0x8000_0001, 0x8000_0030, 3),
    ),
    (
        0x3000_0030,
        1,
        0x7fff_ffff,
        0x1808,
        (0x8000_0000, 0x7fff_ffff, 0x9000_0030, 3),
    ),
    (0x3000_0030, 3, 5, 0x1a08, (2, 5, 0x2000_0030, 3)),
    (
        0x3000_0030,
        9,
        0xffff_ffff,
        0x1c88,
        (1, 0xffff_ffff, 0x2000_0030, 3),
    ),
    (0x3000_0030, 9, 1, 0x1e88, (0xffff_ffff, 1, 0x8000_0030, 3)),
    (0x3000_0030, 9, 7, 0x21ff, (9, 0xff, 0x3000_0030, 3)),
    (0x3000_0030, 9, 7, 0x2100, (9, 0, 0x7000_0030, 3)),
    (0x3000_0030, 9, 5, 0x2905, (9, 5, 0x6000_0030, 3)),
    (0x3000_0030, 9, 1, 0x31ff, (9, 0x100, 0x0000_0030, 3)),
    (0x3000_0030, 9, 5, 0x3906, (9, 0xffff_ffff, 0x8000_0030, 3)),
    (0x3000_0030, 9, 6, 0x3906, (9, 0, 0x6000_0030, 3)),
];

// the sixteen operations on r0 and r1; a shift by a register costs one more, MUL as many as the old r0 asks
static REGISTERS: [Case; 27] = [
    (
        0x3000_0030,
        0xf0f0_f0f0,
        0xff00_ff00,
        0x4008,
        (0xf000_f000, 0xff00_ff00, 0xb000_0030, 3),
    ),
    (
        0x3000_0030,
        0xf0f0_f0f0,
        0xff00_ff00,
        0x4048,
        (0x0ff0_0ff0, 0xff00_ff00, 0x3000_0030, 3),
    ),
    (0x3000_0030, 1, 32, 0x4088, (0, 32, 0x7000_0030, 4)),
    (0x3000_0030, 1, 33, 0x4088, (0, 33, 0x5000_0030, 4)),
    (
        0x3000_0030,
        0x8000_0001,
        0x100,
        0x4088,
        (0x8000_0001, 0x100, 0xb000_0030, 4),
    ),
    (
        0x3000_0030,
        0x8000_0000,
        32,
        0x40c8,
        (0, 32, 0x7000_0030, 4),
    ),
    (
        0x3000_0030,
        0x8000_0000,
        40,
        0x4108,
        (0xffff_ffff, 40, 0xb000_0030, 4),
    ),
    (0x3000_0030, 0xffff_ffff, 0, 0x4148, (0, 0, 0x6000_0030, 3)),
    (0x0000_0030, 5, 3, 0x4188, (1, 3, 0x2000_0030, 3)),
    (
        0x3000_0030,
        0x8000_0001,
        64,
        0x41c8,
        (0x8000_0001, 64, 0xb000_0030, 4),
    ),
    (0x3000_0030, 1, 1, 0x41c8, (0x8000_0000, 1, 0xb000_0030, 4)),
    (
        0x3000_0030,
        0xf0,
        0x0f,
        0x4208,
        (0xf0, 0x0f, 0x7000_0030, 3),
    ),
    (0x3000_0030, 9, 1, 0x4248, (0xffff_ffff, 1, 0x8000_0030, 3)),
    (0x0000_0030, 9, 0, 0x4248, (0, 0, 0x6000_0030, 3)),
    (
        0x3000_0030,
        9,
        0x8000_0000,
        0x4248,
        (0x8000_0000, 0x8000_0000, 0x9000_0030, 3),
    ),
    (0x3000_0030, 3, 5, 0x4288, (3, 5, 0x8000_0030, 3)),
    (
        0x3000_0030,
        0x8000_0000,
        0x8000_0000,
        0x42c8,
        (0x8000_0000, 0x8000_0000, 0x7000_0030, 3),
    ),
    (
        0x3000_0030,
        0xf0,
        0x0f,
        0x4308,
        (0xff, 0x0f, 0x3000_0030, 3),
    ),
    (
        0x3000_0030,
        7,
        0xff00,
        0x4348,
        (0x6_f900, 0xff00, 0x3000_0030, 4),
    ),
    (
        0x3000_0030,
        0xff00,
        7,
        0x4348,
        (0x6_f900, 7, 0x3000_0030, 5),
    ),
    (
        0x3000_0030,
        0x1_0000,
        7,
        0x4348,
        (0x7_0000, 7, 0x3000_0030, 6),
    ),
    (
        0x3000_0030,
        0x100_0000,
        7,
        0x4348,
        (0x700_0000, 7, 0x3000_0030, 7),
    ),
    (
        0x3000_0030,
        0xffff_ffff,
        7,
        0x4348,
        (0xffff_fff9, 7, 0xb000_0030, 4),
    ),
    (
        0x3000_0030,
        0xff,
        0x0f,
        0x4388,
        (0xf0, 0x0f, 0x3000_0030, 3),
    ),
    (0x3000_0030, 9, 0, 0x43c8, (0xffff_ffff, 0, 0xb000_0030, 3)),
    (0x3000_0030, 5, 5, 0x4408, (10, 5, 0x3000_0030, 3)),
    (0x3000_0030, 5, 5, 0x4508, (5, 5, 0x6000_0030, 3)),
];

// r0, r1, CPSR and cycles after a halfword, and how far it stands from r15 then.
fn after(status: u32, r0: u32, r1: u32, half: u16) -> ((u32, u32, u32, u32), u32) {
    let mut registers = at(0x0800_0000, status, [r0, r1, 0]);
    let cycles = execute(&mut registers, &mut patterned(), half);
    let left = (registers.get(0), registers.get(1), registers.cpsr(), cycles);
    (left, registers.get(15).wrapping_sub(0x0800_0000))
}

#[test]
fn shifts_and_numbers(rt: HostRuntime) {
    for &(status, r0, r1, half, want) in &NUMBERS {
        assert_eq!(rt; after(status, r0, r1, half), (want, 2), "{half:x}");
    }
}

#[test]
fn operations_on_two_registers(rt: HostRuntime) {
    for &(status, r0, r1, half, want) in &REGISTERS {
        assert_eq!(rt; after(status, r0, r1, half), (want, 2), "{half:x}");
    }
}
