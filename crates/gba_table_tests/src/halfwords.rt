//! Thumb halfwords and their operations: all of them against a second reading of the formats, and some by hand.

use gba_arm_table::EncodeError;
use gba_thumb_table::{ThumbOp as Op, *};
use std::process::Abort;

/// What decodes, without what the table's contracts say of it, which the tests don't read.
fn decoded(half: u16) -> Option<Op> {
    decode(half)
}

/// What encodes, likewise.
fn encoded(op: &Op) -> Result<u16, EncodeError> {
    encode(op)
}

// The formats once more, each drawn from bit 15 down, in the order in which they are tried. A run of one
// letter is a field; `.` is any bit.
static PATTERNS: [(u32, &[u8; 16]); 20] = [
    (2, b"00011ioxxxsssddd"),
    (1, b"000oonnnnnsssddd"),
    (3, b"001oodddnnnnnnnn"),
    (4, b"010000oooosssddd"),
    (5, b"010001ooHhsssddd"),
    (6, b"01001dddnnnnnnnn"),
    (7, b"0101LB0xxxbbbddd"),
    (8, b"0101HS1xxxbbbddd"),
    (9, b"011BLnnnnnbbbddd"),
    (10, b"1000Lnnnnnbbbddd"),
    (11, b"1001Ldddnnnnnnnn"),
    (12, b"1010Pdddnnnnnnnn"),
    (13, b"10110000Snnnnnnn"),
    (14, b"1011L10Rnnnnnnnn"),
    (15, b"1100Lbbbnnnnnnnn"),
    (17, b"11011111nnnnnnnn"),
    (0, b"11011110........"),
    (16, b"1101ccccnnnnnnnn"),
    (18, b"11100nnnnnnnnnnn"),
    (19, b"1111Lnnnnnnnnnnn"),
];

/// Whether the zeros and ones of a pattern are the halfword's.
fn has_pattern(half: u16, pattern: &[u8; 16]) -> bool {
    let mut rest = half;
    for mark in pattern {
        let set = rest >= 0x8000;
        if *mark == b'0' && set || *mark == b'1' && !set {
            return false;
        }
        rest <<= 1;
    }
    true
}

/// The number in the bits of a letter, none of which makes 0.
fn letter(half: u16, pattern: &[u8; 16], letter: u8) -> u16 {
    let mut rest = half;
    let mut value = 0u16;
    for mark in pattern {
        if *mark == letter {
            value = (value << 1) | (rest >> 15);
        }
        rest <<= 1;
    }
    value
}

/// The operation of a halfword by the patterns alone.
fn plain_reading(half: u16) -> Option<Op> {
    for &(format, pattern) in &PATTERNS {
        if has_pattern(half, pattern) {
            return operation_by_letters(format, half, pattern);
        }
    }
    None
}

fn operation_by_letters(format: u32, half: u16, pattern: &[u8; 16]) -> Option<Op> {
    let number = |mark: u8| letter(half, pattern, mark);
    let flag = |mark: u8| letter(half, pattern, mark) == 1;
    let op = number(b'o');
    let x = number(b'x');
    let n = number(b'n');
    let rs = number(b's');
    let rd = number(b'd');
    let rb = number(b'b');
    let l = flag(b'L');
    let b = flag(b'B');
    Some(match format {
        1 => Op::Format1 { op, o5: n, rs, rd },
        2 => Op::Format2 {
            i: flag(b'i'),
            op: flag(b'o'),
            x3: x,
            rs,
            rd,
        },
        3 => Op::Format3 { op, rd, n8: n },
        4 => Op::Format4 { op, rs, rd },
        5 => Op::Format5 {
            op,
            h1: flag(b'H'),
            h2: flag(b'h'),
            rs,
            rd,
        },
        6 => Op::Format6 { rd, n8: n },
        7 => Op::Format7 {
            l,
            b,
            ro: x,
            rb,
            rd,
        },
        8 => Op::Format8 {
            h: flag(b'H'),
            s: flag(b'S'),
            ro: x,
            rb,
            rd,
        },
        9 => Op::Format9 {
            b,
            l,
            o5: n,
            rb,
            rd,
        },
        10 => Op::Format10 { l, o5: n, rb, rd },
        11 => Op::Format11 { l, rd, n8: n },
        12 => Op::Format12 {
            p: flag(b'P'),
            rd,
            n8: n,
        },
        13 => Op::Format13 {
            s: flag(b'S'),
            n7: n,
        },
        14 => Op::Format14 {
            l,
            r: flag(b'R'),
            list8: n,
        },
        15 => Op::Format15 { l, rb, list8: n },
        16 => Op::Format16 {
            cond: number(b'c'),
            n8: n,
        },
        17 => Op::Format17 { n8: n },
        18 => Op::Format18 { n11: n },
        19 => Op::Format19 { second: l, n11: n },
        _ => return None,
    })
}

// 5,120 halfwords have no operation: those with one of the twenty high bytes B1 to B3, B6 to BB, BE, BF, DE and E8 to
// EF.
#[test]
fn every_halfword_agrees_with_the_plain_reading(rt: HostRuntime) {
    let mut undefined = 0u32;
    for n in 0..0x1_0000u32 {
        let half = n as u16;
        let op = decoded(half);
        assert_eq!(rt; op, plain_reading(half), "the halfword {half:#06x}");
        match op {
            Some(op) => assert_eq!(rt; encoded(&op), Ok(half), "the halfword {half:#06x}"),
            None => undefined = undefined.saturating_add(1),
        }
    }
    assert_eq!(rt; undefined, 5_120);
}

/// Each halfword decodes to the operation beside it, and the operation encodes to the halfword.
fn agree(rt: &impl Abort, cases: &[(u16, Op)]) {
    for (half, op) in cases {
        assert_eq!(rt; decoded(*half), Some(*op), "the halfword {half:#06x}");
        assert_eq!(rt; encoded(op), Ok(*half), "the operation {op:?}");
    }
}

// The halfwords are put together by hand from the formats.
#[test]
fn worked_halfwords_agree(rt: HostRuntime) {
    agree(
        &rt,
        &[
            // lsl r1, r2, #3; asr r7, r0, #32
            (
                0x00D1u16,
                Op::Format1 {
                    op: 0,
                    o5: 3,
                    rs: 2,
                    rd: 1,
                },
            ),
            (
                0x1007,
                Op::Format1 {
                    op: 2,
                    o5: 0,
                    rs: 0,
                    rd: 7,
                },
            ),
            // add r0, r1, r2; sub r6, r2, #6
            (
                0x1888,
                Op::Format2 {
                    i: false,
                    op: false,
                    x3: 2,
                    rs: 1,
                    rd: 0,
                },
            ),
            (
                0x1F96,
                Op::Format2 {
                    i: true,
                    op: true,
                    x3: 6,
                    rs: 2,
                    rd: 6,
                },
            ),
            // mov r0, #128; cmp r2, #62
            (
                0x2080,
                Op::Format3 {
                    op: 0,
                    rd: 0,
                    n8: 128,
                },
            ),
            (
                0x2A3E,
                Op::Format3 {
                    op: 1,
                    rd: 2,
                    n8: 62,
                },
            ),
            // mul r0, r7; neg r4, r1
            (
                0x4378,
                Op::Format4 {
                    op: 13,
                    rs: 7,
                    rd: 0,
                },
            ),
            (
                0x424C,
                Op::Format4 {
                    op: 9,
                    rs: 1,
                    rd: 4,
                },
            ),
            // add pc, r5; bx lr
            (
                0x44AF,
                Op::Format5 {
                    op: 0,
                    h1: true,
                    h2: false,
                    rs: 5,
                    rd: 7,
                },
            ),
            (
                0x4770,
                Op::Format5 {
                    op: 3,
                    h1: false,
                    h2: true,
                    rs: 6,
                    rd: 0,
                },
            ),
            // ldr r3, [pc, #844]
            (0x4BD3, Op::Format6 { rd: 3, n8: 211 }),
            // str r3, [r2, r6]; ldrb r2, [r3, r7]
            (
                0x5193,
                Op::Format7 {
                    l: false,
                    b: false,
                    ro: 6,
                    rb: 2,
                    rd: 3,
                },
            ),
            (
                0x5DDA,
                Op::Format7 {
                    l: true,
                    b: true,
                    ro: 7,
                    rb: 3,
                    rd: 2,
                },
            ),
            // strh r4, [r3, r0]; ldrsb r2, [r7, r1]
            (
                0x521C,
                Op::Format8 {
                    h: false,
                    s: false,
                    ro: 0,
                    rb: 3,
                    rd: 4,
                },
            ),
            (
                0x567A,
                Op::Format8 {
                    h: false,
                    s: true,
                    ro: 1,
                    rb: 7,
                    rd: 2,
                },
            ),
            // ldr r2, [r5, #116]; strb r1, [r0, #13]
            (
                0x6F6A,
                Op::Format9 {
                    b: false,
                    l: true,
                    o5: 29,
                    rb: 5,
                    rd: 2,
                },
            ),
            (
                0x7341,
                Op::Format9 {
                    b: true,
                    l: false,
                    o5: 13,
                    rb: 0,
                    rd: 1,
                },
            ),
            // strh r6, [r1, #56]
            (
                0x870E,
                Op::Format10 {
                    l: false,
                    o5: 28,
                    rb: 1,
                    rd: 6,
                },
            ),
            // str r4, [sp, #492]
            (
                0x947B,
                Op::Format11 {
                    l: false,
                    rd: 4,
                    n8: 123,
                },
            ),
            // add r2, pc, #572; add r6, sp, #212
            (
                0xA28F,
                Op::Format12 {
                    p: false,
                    rd: 2,
                    n8: 143,
                },
            ),
            (
                0xAE35,
                Op::Format12 {
                    p: true,
                    rd: 6,
                    n8: 53,
                },
            ),
            // add sp, #268; sub sp, #104
            (0xB043, Op::Format13 { s: false, n7: 67 }),
            (0xB09A, Op::Format13 { s: true, n7: 26 }),
            // push {r0-r4, lr}; pop {r2, r6, pc}
            (
                0xB51F,
                Op::Format14 {
                    l: false,
                    r: true,
                    list8: 0x1F,
                },
            ),
            (
                0xBD44,
                Op::Format14 {
                    l: true,
                    r: true,
                    list8: 0x44,
                },
            ),
            // stmia r0!, {r3-r7}
            (
                0xC0F8,
                Op::Format15 {
                    l: false,
                    rb: 0,
                    list8: 0xF8,
                },
            ),
            // beq to itself; ble; swi 18; b to itself
            (0xD0FE, Op::Format16 { cond: 0, n8: 0xFE }),
            (0xDD02, Op::Format16 { cond: 13, n8: 2 }),
            (0xDF12, Op::Format17 { n8: 18 }),
            (0xE7FE, Op::Format18 { n11: 0x7FE }),
            // the two halves of bl
            (
                0xF000,
                Op::Format19 {
                    second: false,
                    n11: 0,
                },
            ),
            (
                0xF802,
                Op::Format19 {
                    second: true,
                    n11: 2,
                },
            ),
        ],
    );
}

#[test]
fn halfwords_between_the_formats_have_no_operation(rt: HostRuntime) {
    for &half in &[
        0xB100u16, 0xB3FF, 0xB600, 0xB800, 0xBBFF, 0xBE00, 0xBFFF, 0xDE00, 0xDEFF, 0xE800, 0xEFFF,
    ] {
        assert_eq!(rt; decoded(half), None, "the halfword {half:#06x}");
    }
}

/// Each operation is refused for the fault beside it.
fn refused(rt: &impl Abort, cases: &[(Op, EncodeError)]) {
    for (op, error) in cases {
        assert_eq!(rt; encoded(op), Err(*error), "the operation {op:?}");
    }
}

#[test]
fn fields_out_of_their_bits_are_refused(rt: HostRuntime) {
    refused(
        &rt,
        &[
            (
                Op::Format1 {
                    op: 0,
                    o5: 0,
                    rs: 8,
                    rd: 0,
                },
                EncodeError::Register,
            ),
            (
                Op::Format2 {
                    i: false,
                    op: false,
                    x3: 8,
                    rs: 0,
                    rd: 0,
                },
                EncodeError::Register,
            ),
            (
                Op::Format5 {
                    op: 0,
                    h1: true,
                    h2: true,
                    rs: 0,
                    rd: 8,
                },
                EncodeError::Register,
            ),
            (
                Op::Format8 {
                    h: true,
                    s: true,
                    ro: 8,
                    rb: 0,
                    rd: 0,
                },
                EncodeError::Register,
            ),
            (
                Op::Format15 {
                    l: true,
                    rb: 8,
                    list8: 0,
                },
                EncodeError::Register,
            ),
            (
                Op::Format1 {
                    op: 3,
                    o5: 0,
                    rs: 0,
                    rd: 0,
                },
                EncodeError::Immediate,
            ),
            (
                Op::Format1 {
                    op: 2,
                    o5: 32,
                    rs: 0,
                    rd: 0,
                },
                EncodeError::Immediate,
            ),
            (
                Op::Format2 {
                    i: true,
                    op: false,
                    x3: 8,
                    rs: 0,
                    rd: 0,
                },
                EncodeError::Immediate,
            ),
            (
                Op::Format3 {
                    op: 4,
                    rd: 0,
                    n8: 0,
                },
                EncodeError::Immediate,
            ),
            (
                Op::Format3 {
                    op: 0,
                    rd: 0,
                    n8: 256,
                },
                EncodeError::Immediate,
            ),
            (
                Op::Format4 {
                    op: 16,
                    rs: 0,
                    rd: 0,
                },
                EncodeError::Immediate,
            ),
            (
                Op::Format5 {
                    op: 4,
                    h1: false,
                    h2: false,
                    rs: 0,
                    rd: 0,
                },
                EncodeError::Immediate,
            ),
            (
                Op::Format12 {
                    p: true,
                    rd: 0,
                    n8: 256,
                },
                EncodeError::Immediate,
            ),
            (Op::Format13 { s: true, n7: 128 }, EncodeError::Immediate),
            (
                Op::Format14 {
                    l: true,
                    r: true,
                    list8: 256,
                },
                EncodeError::Immediate,
            ),
            (
                Op::Format15 {
                    l: true,
                    rb: 0,
                    list8: 256,
                },
                EncodeError::Immediate,
            ),
            (Op::Format16 { cond: 14, n8: 0 }, EncodeError::Immediate),
            (Op::Format16 { cond: 15, n8: 0 }, EncodeError::Immediate),
            (Op::Format17 { n8: 256 }, EncodeError::Immediate),
            (Op::Format6 { rd: 0, n8: 256 }, EncodeError::Offset),
            (
                Op::Format9 {
                    b: true,
                    l: true,
                    o5: 32,
                    rb: 0,
                    rd: 0,
                },
                EncodeError::Offset,
            ),
            (
                Op::Format10 {
                    l: true,
                    o5: 32,
                    rb: 0,
                    rd: 0,
                },
                EncodeError::Offset,
            ),
            (
                Op::Format11 {
                    l: true,
                    rd: 0,
                    n8: 256,
                },
                EncodeError::Offset,
            ),
            (Op::Format16 { cond: 0, n8: 256 }, EncodeError::Offset),
            (Op::Format18 { n11: 2048 }, EncodeError::Offset),
            (
                Op::Format19 {
                    second: true,
                    n11: 2048,
                },
                EncodeError::Offset,
            ),
            // of two faults the first kind is told
            (
                Op::Format1 {
                    op: 3,
                    o5: 0,
                    rs: 0,
                    rd: 8,
                },
                EncodeError::Register,
            ),
            (
                Op::Format9 {
                    b: true,
                    l: true,
                    o5: 32,
                    rb: 0,
                    rd: 8,
                },
                EncodeError::Register,
            ),
            (Op::Format16 { cond: 14, n8: 256 }, EncodeError::Immediate),
        ],
    );
}
