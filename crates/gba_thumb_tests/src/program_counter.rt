//! r15 in each place: the worked halves of BL, high registers, addresses near the PC and the stack, branches, traps.

use crate::start::{at, patterned};
use gba_thumb_exec::{decode_half, execute, execute_decoded, execute_first};

// Address, r0, r1 and a halfword there; r0, r13, r14, r15, CPSR and cycles after it. Before it CPSR is 30000030h, r13
// 02000004h and r14 03000041h.
type Case = (u32, u32, u32, u16, (u32, u32, u32, u32, u32, u32));

static HIGH_REGISTERS: [Case; 14] = [
    (
        0x0800_0000,
        9,
        0,
        0x4478,
        (
            0x0800_000d,
            0x0200_0004,
            0x0300_0041,
            0x0800_0002,
            0x3000_0030,
            3,
        ),
    ),
    (
        0x0800_0000,
        0x11,
        0,
        0x4487,
        (0x11, 0x0200_0004, 0x0300_0041, 0x0800_0014, 0x3000_0030, 11),
    ),
    (
        0x0800_0000,
        9,
        0x10,
        0x448d,
        (9, 0x0200_0014, 0x0300_0041, 0x0800_0002, 0x3000_0030, 3),
    ),
    (
        0x0800_0000,
        9,
        0x0800_0004,
        0x458f,
        (9, 0x0200_0004, 0x0300_0041, 0x0800_0002, 0x6000_0030, 3),
    ),
    (
        0x0800_0000,
        9,
        0x0300_0007,
        0x468f,
        (9, 0x0200_0004, 0x0300_0041, 0x0300_0006, 0x3000_0030, 11),
    ),
    (
        0x0800_0000,
        9,
        0,
        0x4678,
        (
            0x0800_0004,
            0x0200_0004,
            0x0300_0041,
            0x0800_0002,
            0x3000_0030,
            3,
        ),
    ),
    (
        0x0800_0000,
        9,
        0x10,
        0x468d,
        (9, 0x10, 0x0300_0041, 0x0800_0002, 0x3000_0030, 3),
    ),
    (
        0x0800_0000,
        9,
        0,
        0x46ee,
        (9, 0x0200_0004, 0x0200_0004, 0x0800_0002, 0x3000_0030, 3),
    ),
    (
        0x0800_0000,
        9,
        0x0300_0003,
        0x4708,
        (9, 0x0200_0004, 0x0300_0041, 0x0300_0002, 0x3000_0030, 11),
    ),
    (
        0x0800_0000,
        9,
        0x0300_0002,
        0x4708,
        (9, 0x0200_0004, 0x0300_0041, 0x0300_0000, 0x3000_0010, 11),
    ),
    (
        0x0800_0000,
        9,
        0x0300_0002,
        0x4788,
        (9, 0x0200_0004, 0x0300_0041, 0x0300_0000, 0x3000_0010, 11),
    ),
    (
        0x0800_0002,
        9,
        0,
        0x4778,
        (9, 0x0200_0004, 0x0300_0041, 0x0800_0004, 0x3000_0010, 11),
    ),
    (
        0x0800_0000,
        9,
        0,
        0x4770,
        (9, 0x0200_0004, 0x0300_0041, 0x0300_0040, 0x3000_0030, 11),
    ),
    (
        0xffff_fffe,
        9,
        0,
        0x46c0,
        (9, 0x0200_0004, 0x0300_0041, 0, 0x3000_0030, 1),
    ),
];

static ADDRESSES: [Case; 11] = [
    (
        0x0800_0000,
        9,
        0,
        0x4800,
        (
            0x8877_6655,
            0x0200_0004,
            0x0300_0041,
            0x0800_0002,
            0x3000_0030,
            11,
        ),
    ),
    (
        0x0800_0000,
        9,
        0,
        0x4801,
        (
            0xccbb_aa99,
            0x0200_0004,
            0x0300_0041,
            0x0800_0002,
            0x3000_0030,
            11,
        ),
    ),
    (
        0x0800_0002,
        9,
        0,
        0x4801,
        (
            0xccbb_aa99,
            0x0200_0004,
            0x0300_0041,
            0x0800_0004,
            0x3000_0030,
            11,
        ),
    ),
    (
        0x0800_0000,
        9,
        0,
        0xa001,
        (
            0x0800_0008,
            0x0200_0004,
            0x0300_0041,
            0x0800_0002,
            0x3000_0030,
            3,
        ),
    ),
    (
        0x0800_0002,
        9,
        0,
        0xa001,
        (
            0x0800_0008,
            0x0200_0004,
            0x0300_0041,
            0x0800_0004,
            0x3000_0030,
            3,
        ),
    ),
    (
        0x0800_0000,
        9,
        0,
        0xa0ff,
        (
            0x0800_0400,
            0x0200_0004,
            0x0300_0041,
            0x0800_0002,
            0x3000_0030,
            3,
        ),
    ),
    (
        0x0800_0000,
        9,
        0,
        0xa801,
        (
            0x0200_0008,
            0x0200_0004,
            0x0300_0041,
            0x0800_0002,
            0x3000_0030,
            3,
        ),
    ),
    (
        0x0800_0000,
        9,
        0,
        0xa8ff,
        (
            0x0200_0400,
            0x0200_0004,
            0x0300_0041,
            0x0800_0002,
            0x3000_0030,
            3,
        ),
    ),
    (
        0x0800_0000,
        9,
        0,
        0xb001,
        (9, 0x0200_0008, 0x0300_0041, 0x0800_0002, 0x3000_0030, 3),
    ),
    (
        0x0800_0000,
        9,
        0,
        0xb081,
        (9, 0x0200_0000, 0x0300_0041, 0x0800_0002, 0x3000_0030, 3),
    ),
    (
        0x0800_0000,
        9,
        0,
        0xb0ff,
        (9, 0x01ff_fe08, 0x0300_0041, 0x0800_0002, 0x3000_0030, 3),
    ),
];

static BRANCHES: [Case; 12] = [
    (
        0x0800_0000,
        9,
        0,
        0xdf42,
        (9, 0, 0x0800_0002, 8, 0x3000_0093, 11),
    ),
    (
        0x0800_0000,
        9,
        0,
        0xde00,
        (9, 0, 0x0800_0002, 4, 0x3000_009b, 12),
    ),
    (
        0x0800_0000,
        9,
        0,
        0xe7fe,
        (9, 0x0200_0004, 0x0300_0041, 0x0800_0000, 0x3000_0030, 11),
    ),
    (
        0x0800_0000,
        9,
        0,
        0xe000,
        (9, 0x0200_0004, 0x0300_0041, 0x0800_0004, 0x3000_0030, 11),
    ),
    (
        0x0800_0000,
        9,
        0,
        0xe3ff,
        (9, 0x0200_0004, 0x0300_0041, 0x0800_0802, 0x3000_0030, 11),
    ),
    (
        0x0800_0000,
        9,
        0,
        0xe400,
        (9, 0x0200_0004, 0x0300_0041, 0x07ff_f804, 0x3000_0030, 11),
    ),
    (
        0x0800_0000,
        9,
        0,
        0xf000,
        (9, 0x0200_0004, 0x0800_0004, 0x0800_0002, 0x3000_0030, 3),
    ),
    (
        0x0800_0000,
        9,
        0,
        0xf7ff,
        (9, 0x0200_0004, 0x07ff_f004, 0x0800_0002, 0x3000_0030, 3),
    ),
    (
        0x0800_0000,
        9,
        0,
        0xf3ff,
        (9, 0x0200_0004, 0x083f_f004, 0x0800_0002, 0x3000_0030, 3),
    ),
    (
        0x0800_0000,
        9,
        0,
        0xf400,
        (9, 0x0200_0004, 0x07c0_0004, 0x0800_0002, 0x3000_0030, 3),
    ),
    (
        0x0800_0000,
        9,
        0,
        0xf802,
        (9, 0x0200_0004, 0x0800_0003, 0x0300_0044, 0x3000_0030, 11),
    ),
    (
        0x0800_0000,
        9,
        0,
        0xffff,
        (9, 0x0200_0004, 0x0800_0003, 0x0300_103e, 0x3000_0030, 11),
    ),
];

// r0, r13, r14, r15, CPSR and cycles after a halfword.
fn after(address: u32, r0: u32, r1: u32, half: u16) -> (u32, u32, u32, u32, u32, u32) {
    let mut registers = at(address, 0x3000_0030, [r0, r1, 0]);
    let cycles = execute(&mut registers, &mut patterned(), half);
    (
        registers.get(0),
        registers.get(13),
        registers.get(14),
        registers.get(15),
        registers.cpsr(),
        cycles,
    )
}

#[test]
fn high_registers(rt: HostRuntime) {
    for &(address, r0, r1, half, want) in &HIGH_REGISTERS {
        assert_eq!(rt;
            after(address, r0, r1, half),
            want,
            "{half:x} at {address:x}"
        );
    }
}

#[test]
fn addresses(rt: HostRuntime) {
    for &(address, r0, r1, half, want) in &ADDRESSES {
        assert_eq!(rt;
            after(address, r0, r1, half),
            want,
            "{half:x} at {address:x}"
        );
    }
}

#[test]
fn branches_and_traps(rt: HostRuntime) {
    for &(address, r0, r1, half, want) in &BRANCHES {
        assert_eq!(rt;
            after(address, r0, r1, half),
            want,
            "{half:x} at {address:x}"
        );
    }
}

#[test]
fn a_long_branch_has_two_halves(rt: HostRuntime) {
    let mut registers = at(0x0300_0000, 0x30, [9, 9, 9]);
    let mut regions = patterned();
    let first = execute(&mut registers, &mut regions, 0xf000);
    let second = execute(&mut registers, &mut regions, 0xf802);
    assert_eq!(rt;
        (first, second, registers.get(15), registers.get(14)),
        (1, 3, 0x0300_0008, 0x0300_0005)
    );
}

#[test]
fn an_undefined_halfword_traps(rt: HostRuntime) {
    let mut registers = at(0x0300_0000, 0x30, [9, 9, 9]);
    let cycles = execute(&mut registers, &mut patterned(), 0xde00);
    let after = (
        registers.get(15),
        registers.get(14),
        registers.cpsr(),
        registers.spsr(),
        cycles,
    );
    assert_eq!(rt; after, (4, 0x0300_0002, 0x9b, 0x30, 4));
}

// For each condition the flags NZCV, as a number, at which it holds: bit n of the mask is number n.
#[test]
fn conditions(rt: HostRuntime) {
    let masks: [u32; 14] = [
        0xf0f0, 0x0f0f, 0xcccc, 0x3333, 0xff00, 0x00ff, 0xaaaa, 0x5555, 0x0c0c, 0xf3f3, 0xaa55,
        0x55aa, 0x0a05, 0xf5fa,
    ];
    for condition in 0..14u16 {
        for flags in 0..16u32 {
            let status = (flags << 28) + 0x30;
            let half = 0xd080 + (condition << 8);
            let mut kept = decode_half(0);
            let mut first = at(0x0800_0100, status, [9, 9, 9]);
            let cycles = execute_first(&mut first, &mut patterned(), &mut kept, half);
            assert_eq!(rt; kept.half, half);
            let mut again = at(0x0800_0100, status, [9, 9, 9]);
            let as_kept = execute_decoded(&mut again, &mut patterned(), &kept);
            let holds = (masks[condition as usize] >> flags) % 2 == 1;
            let want = if holds {
                (0x0800_0004, 11)
            } else {
                (0x0800_0102, 3)
            };
            assert_eq!(rt;
                [(first.get(15), cycles), (again.get(15), as_kept)],
                [want, want],
                "condition {condition} at {flags:x}"
            );
        }
    }
}
