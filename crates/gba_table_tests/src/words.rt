//! ARM words and their operations by hand, from the diagrams of the ARM Architecture Reference Manual.

use gba_arm_table::{ArmOp as Op, *};
use gba_word::Shift;
use std::process::Abort;

/// What decodes, without what the table's contracts say of it, which the tests don't read.
fn decoded(word: u32) -> Option<Op> {
    decode(word)
}

/// What encodes, likewise.
fn encoded(op: &Op) -> Result<u32, EncodeError> {
    encode(op)
}

/// Each word decodes to the operation beside it, and the operation encodes to the word.
fn agree(rt: &impl Abort, cases: &[(u32, Op)]) {
    for (word, op) in cases {
        assert_eq!(rt; decoded(*word), Some(*op), "the word {word:#010x}");
        assert_eq!(rt; encoded(op), Ok(*word), "the operation {op:?}");
    }
}

// The encodings are put together by hand from the manual's diagrams.
#[test]
fn multiplies_swaps_and_status_words_agree(rt: HostRuntime) {
    let cond = Condition::Always;
    agree(
        &rt,
        &[
            // bx r1
            (0xE12FFF11, Op::Exchange { cond, rm: 1 }),
            // mul r3, r1, r2
            (
                0xE0030291,
                Op::Multiply {
                    cond,
                    accumulate: false,
                    set: false,
                    rd: 3,
                    rn: 0,
                    rs: 2,
                    rm: 1,
                },
            ),
            // mlas r3, r1, r2, r4
            (
                0xE0334291,
                Op::Multiply {
                    cond,
                    accumulate: true,
                    set: true,
                    rd: 3,
                    rn: 4,
                    rs: 2,
                    rm: 1,
                },
            ),
            // umull r0, r1, r2, r3
            (
                0xE0810392,
                Op::MultiplyLong {
                    cond,
                    signed: false,
                    accumulate: false,
                    set: false,
                    hi: 1,
                    lo: 0,
                    rs: 3,
                    rm: 2,
                },
            ),
            // smlals r0, r1, r2, r3
            (
                0xE0F10392,
                Op::MultiplyLong {
                    cond,
                    signed: true,
                    accumulate: true,
                    set: true,
                    hi: 1,
                    lo: 0,
                    rs: 3,
                    rm: 2,
                },
            ),
            // swp r0, r1, [r2]
            (
                0xE1020091,
                Op::Swap {
                    cond,
                    byte: false,
                    rn: 2,
                    rd: 0,
                    rm: 1,
                },
            ),
            // swpb r0, r1, [r2]
            (
                0xE1420091,
                Op::Swap {
                    cond,
                    byte: true,
                    rn: 2,
                    rd: 0,
                    rm: 1,
                },
            ),
            // mrs r0, cpsr
            (
                0xE10F0000,
                Op::ReadStatus {
                    cond,
                    saved: false,
                    rd: 0,
                },
            ),
            // mrs r3, spsr
            (
                0xE14F3000,
                Op::ReadStatus {
                    cond,
                    saved: true,
                    rd: 3,
                },
            ),
            // msr cpsr_f, r2
            (
                0xE128F002,
                Op::WriteStatus {
                    cond,
                    saved: false,
                    fields: 8,
                    source: Source::Plain { rm: 2 },
                },
            ),
            // msr spsr_fc, r1
            (
                0xE169F001,
                Op::WriteStatus {
                    cond,
                    saved: true,
                    fields: 9,
                    source: Source::Plain { rm: 1 },
                },
            ),
            // msr cpsr_c, #0x1F
            (
                0xE321F01F,
                Op::WriteStatus {
                    cond,
                    saved: false,
                    fields: 1,
                    source: Source::Immediate {
                        value: 0x1F,
                        turn: 0,
                    },
                },
            ),
            // msr cpsr_f, #0xF0000000
            (
                0xE328F20F,
                Op::WriteStatus {
                    cond,
                    saved: false,
                    fields: 8,
                    source: Source::Immediate {
                        value: 0x0F,
                        turn: 2,
                    },
                },
            ),
        ],
    );
}

#[test]
fn halfword_transfers_agree(rt: HostRuntime) {
    let cond = Condition::Always;
    agree(
        &rt,
        &[
            // strh r1, [r0, #0xAB]
            (
                0xE1C01ABB,
                Op::Half {
                    cond,
                    kind: HalfKind::StoreHalf,
                    pre: true,
                    up: true,
                    write: false,
                    rn: 0,
                    rd: 1,
                    offset: HalfOffset::Number { value: 0xAB },
                },
            ),
            // ldrh r1, [r0], -r2
            (
                0xE01010B2,
                Op::Half {
                    cond,
                    kind: HalfKind::LoadHalf,
                    pre: false,
                    up: false,
                    write: false,
                    rn: 0,
                    rd: 1,
                    offset: HalfOffset::Plain { rm: 2 },
                },
            ),
            // ldrsb r1, [r0, #1]!
            (
                0xE1F010D1,
                Op::Half {
                    cond,
                    kind: HalfKind::LoadSignedByte,
                    pre: true,
                    up: true,
                    write: true,
                    rn: 0,
                    rd: 1,
                    offset: HalfOffset::Number { value: 1 },
                },
            ),
            // ldrsh r1, [r0, -r2]
            (
                0xE11010F2,
                Op::Half {
                    cond,
                    kind: HalfKind::LoadSignedHalf,
                    pre: true,
                    up: false,
                    write: false,
                    rn: 0,
                    rd: 1,
                    offset: HalfOffset::Plain { rm: 2 },
                },
            ),
        ],
    );
}

#[test]
fn data_processing_agrees(rt: HostRuntime) {
    let cond = Condition::Always;
    agree(
        &rt,
        &[
            // add r0, r1, r2, lsl r3
            (
                0xE0810312,
                Op::Compute {
                    cond,
                    op: ComputeOp::Add,
                    set: false,
                    rn: 1,
                    rd: 0,
                    operand: Operand::ByRegister {
                        rm: 2,
                        kind: Shift::Lsl,
                        rs: 3,
                    },
                },
            ),
            // cmp r1, r2, ror r3
            (
                0xE1510372,
                Op::Compare {
                    cond,
                    op: CompareOp::Cmp,
                    rn: 1,
                    operand: Operand::ByRegister {
                        rm: 2,
                        kind: Shift::Ror,
                        rs: 3,
                    },
                },
            ),
            // movs r0, r1, lsr #32
            (
                0xE1B00021,
                Op::Compute {
                    cond,
                    op: ComputeOp::Mov,
                    set: true,
                    rn: 0,
                    rd: 0,
                    operand: Operand::Fixed {
                        rm: 1,
                        kind: Shift::Lsr,
                        amount: 0,
                    },
                },
            ),
            // tst r1, r2, asr #31
            (
                0xE1110FC2,
                Op::Compare {
                    cond,
                    op: CompareOp::Tst,
                    rn: 1,
                    operand: Operand::Fixed {
                        rm: 2,
                        kind: Shift::Asr,
                        amount: 31,
                    },
                },
            ),
            // mov r0, #5
            (
                0xE3A00005,
                Op::Compute {
                    cond,
                    op: ComputeOp::Mov,
                    set: false,
                    rn: 0,
                    rd: 0,
                    operand: Operand::Immediate { value: 5, turn: 0 },
                },
            ),
            // cmn r1, #0xFF000000
            (
                0xE37104FF,
                Op::Compare {
                    cond,
                    op: CompareOp::Cmn,
                    rn: 1,
                    operand: Operand::Immediate {
                        value: 0xFF,
                        turn: 4,
                    },
                },
            ),
            // andeq r0, r0, r0
            (
                0x00000000,
                Op::Compute {
                    cond: Condition::Equal,
                    op: ComputeOp::And,
                    set: false,
                    rn: 0,
                    rd: 0,
                    operand: Operand::Fixed {
                        rm: 0,
                        kind: Shift::Lsl,
                        amount: 0,
                    },
                },
            ),
        ],
    );
}

#[test]
fn transfers_branches_and_interrupts_agree(rt: HostRuntime) {
    let cond = Condition::Always;
    agree(
        &rt,
        &[
            // ldr r0, [r1, #4]
            (
                0xE5910004,
                Op::Transfer {
                    cond,
                    load: true,
                    byte: false,
                    pre: true,
                    up: true,
                    write: false,
                    rn: 1,
                    rd: 0,
                    offset: TransferOffset::Number { value: 4 },
                },
            ),
            // strb r0, [r1], #-0xFFF
            (
                0xE4410FFF,
                Op::Transfer {
                    cond,
                    load: false,
                    byte: true,
                    pre: false,
                    up: false,
                    write: false,
                    rn: 1,
                    rd: 0,
                    offset: TransferOffset::Number { value: 0xFFF },
                },
            ),
            // ldr r0, [r1, r2, lsl #2]!
            (
                0xE7B10102,
                Op::Transfer {
                    cond,
                    load: true,
                    byte: false,
                    pre: true,
                    up: true,
                    write: true,
                    rn: 1,
                    rd: 0,
                    offset: TransferOffset::Shifted {
                        rm: 2,
                        kind: Shift::Lsl,
                        amount: 2,
                    },
                },
            ),
            // stmdb r13!, {r0, r14}
            (
                0xE92D4001,
                Op::Block {
                    cond,
                    load: false,
                    pre: true,
                    up: false,
                    user: false,
                    write: true,
                    rn: 13,
                    list: 0x4001,
                },
            ),
            // ldmia r13, {r0-r15}^
            (
                0xE8DDFFFF,
                Op::Block {
                    cond,
                    load: true,
                    pre: false,
                    up: true,
                    user: true,
                    write: false,
                    rn: 13,
                    list: 0xFFFF,
                },
            ),
            // b to itself; bl to the next but one; the furthest branches
            (
                0xEAFFFFFE,
                Op::Branch {
                    cond,
                    link: false,
                    offset: -2,
                },
            ),
            (
                0xEB000000,
                Op::Branch {
                    cond,
                    link: true,
                    offset: 0,
                },
            ),
            (
                0xEA7FFFFF,
                Op::Branch {
                    cond,
                    link: false,
                    offset: 0x007F_FFFF,
                },
            ),
            (
                0xEA800000,
                Op::Branch {
                    cond,
                    link: false,
                    offset: -0x0080_0000,
                },
            ),
            // swi 0x123456
            (
                0xEF123456,
                Op::Interrupt {
                    cond,
                    comment: 0x123456,
                },
            ),
            // the all-ones condition is a condition like the others
            (
                0xFAFFFFFE,
                Op::Branch {
                    cond: Condition::Never,
                    link: false,
                    offset: -2,
                },
            ),
            (
                0xFFFFFFFF,
                Op::Interrupt {
                    cond: Condition::Never,
                    comment: 0xFFFFFF,
                },
            ),
        ],
    );
}

#[test]
fn words_between_the_rows_decode_to_none(rt: HostRuntime) {
    let words = [
        // beside MUL and the long multiplies: bit 22 without bit 23, then bits 24 and 23
        0xE0400090u32,
        0xE1800090,
        // beside SWP: bit 21 set, bit 20 set
        0xE1200090,
        0xE1100090,
        // beside LDRSB and LDRSH: bit 20 clear
        0xE00000D0,
        0xE1C000F0,
        // beside BX, MRS and MSR: TST to CMN without S, with a register
        0xE1000010,
        0xE1600010,
        0xE1200030,
        0xE1000020,
        0xE1200080,
        0xE16F0F70,
        // TST and CMP without S, with a turned number
        0xE3000000,
        0xE3400000,
        // beside the transfers: bit 4 with a register offset
        0xE6000010,
        0xE7F000F0,
        // coprocessor words
        0xEC000000,
        0xED900000,
        0xEE000000,
        0xEE100010,
    ];
    for &word in &words {
        assert_eq!(rt; decoded(word), None, "the word {word:#010x}");
    }
}

/// What a word's operation encodes to.
fn encoded_again(word: u32) -> Option<Result<u32, EncodeError>> {
    match decoded(word) {
        Some(op) => Some(encoded(&op)),
        None => None,
    }
}

#[test]
fn bits_that_should_be_one_or_zero_are_encoded_as_the_manual_has_them(rt: HostRuntime) {
    let cases = [
        // bx r1; swp r0, r1, [r2]; mrs r0, cpsr
        (0xE1200011u32, 0xE12FFF11u32),
        (0xE1020F91, 0xE1020091),
        (0xE1000F0F, 0xE10F0000),
        // msr cpsr_f, r2; msr cpsr_f, #0xF0000000
        (0xE1280F02, 0xE128F002),
        (0xE328020F, 0xE328F20F),
        // ldrh r1, [r0], -r2; cmp r1, r2, ror r3
        (0xE0101FB2, 0xE01010B2),
        (0xE151F372, 0xE1510372),
    ];
    for (word, want) in cases {
        assert_eq!(rt;
            encoded_again(word),
            Some(Ok(want)),
            "the word {word:#010x}"
        );
    }
}

/// Each operation is refused for the fault beside it.
fn refused(rt: &impl Abort, cases: &[(Op, EncodeError)]) {
    for (op, error) in cases {
        assert_eq!(rt; encoded(op), Err(*error), "the operation {op:?}");
    }
}

#[test]
fn fields_out_of_their_bits_are_refused(rt: HostRuntime) {
    let cond = Condition::Always;
    let turned = Operand::Immediate { value: 1, turn: 16 };
    let shifted = Operand::Fixed {
        rm: 1,
        kind: Shift::Lsl,
        amount: 32,
    };
    let far = TransferOffset::Number { value: 4096 };
    refused(
        &rt,
        &[
            (Op::Exchange { cond, rm: 16 }, EncodeError::Register),
            (
                Op::MultiplyLong {
                    cond,
                    signed: true,
                    accumulate: false,
                    set: false,
                    hi: 0,
                    lo: 16,
                    rs: 0,
                    rm: 0,
                },
                EncodeError::Register,
            ),
            (
                Op::Compare {
                    cond,
                    op: CompareOp::Cmp,
                    rn: 0,
                    operand: Operand::ByRegister {
                        rm: 0,
                        kind: Shift::Lsl,
                        rs: 16,
                    },
                },
                EncodeError::Register,
            ),
            (
                Op::Compute {
                    cond,
                    op: ComputeOp::Mov,
                    set: false,
                    rn: 0,
                    rd: 0,
                    operand: turned,
                },
                EncodeError::Immediate,
            ),
            (
                Op::Compute {
                    cond,
                    op: ComputeOp::Mov,
                    set: false,
                    rn: 0,
                    rd: 0,
                    operand: shifted,
                },
                EncodeError::Immediate,
            ),
            (
                Op::WriteStatus {
                    cond,
                    saved: false,
                    fields: 16,
                    source: Source::Plain { rm: 0 },
                },
                EncodeError::Immediate,
            ),
            (
                Op::Interrupt {
                    cond,
                    comment: 0x0100_0000,
                },
                EncodeError::Immediate,
            ),
            (
                Op::Transfer {
                    cond,
                    load: true,
                    byte: false,
                    pre: true,
                    up: true,
                    write: false,
                    rn: 0,
                    rd: 0,
                    offset: far,
                },
                EncodeError::Offset,
            ),
            (
                Op::Half {
                    cond,
                    kind: HalfKind::LoadHalf,
                    pre: true,
                    up: true,
                    write: false,
                    rn: 0,
                    rd: 0,
                    offset: HalfOffset::Number { value: 256 },
                },
                EncodeError::Offset,
            ),
            (
                Op::Branch {
                    cond,
                    link: false,
                    offset: 0x0080_0000,
                },
                EncodeError::Offset,
            ),
            (
                Op::Branch {
                    cond,
                    link: false,
                    offset: -0x0080_0001,
                },
                EncodeError::Offset,
            ),
            // of two faults the register's is told
            (
                Op::Compute {
                    cond,
                    op: ComputeOp::Mov,
                    set: false,
                    rn: 16,
                    rd: 0,
                    operand: turned,
                },
                EncodeError::Register,
            ),
            (
                Op::Transfer {
                    cond,
                    load: true,
                    byte: false,
                    pre: true,
                    up: true,
                    write: false,
                    rn: 0,
                    rd: 16,
                    offset: far,
                },
                EncodeError::Register,
            ),
        ],
    );
}

/// The bits of an operation's word that should be one or zero, and what they should be, by the manual's diagrams.
fn should_be(op: &Op) -> (u32, u32) {
    match op {
        Op::Exchange { .. } => (0x000F_FF00, 0x000F_FF00),
        Op::Swap { .. } => (0x0000_0F00, 0),
        Op::Half {
            offset: HalfOffset::Plain { .. },
            ..
        } => (0x0000_0F00, 0),
        Op::ReadStatus { .. } => (0x000F_0FFF, 0x000F_0000),
        Op::WriteStatus {
            source: Source::Plain { .. },
            ..
        } => (0x0000_FF00, 0x0000_F000),
        Op::WriteStatus {
            source: Source::Immediate { .. },
            ..
        } => (0x0000_F000, 0x0000_F000),
        Op::Compare { .. } => (0x0000_F000, 0),
        _ => (0, 0),
    }
}

// The fixed bits of each diagram, and what they are.
static DIAGRAMS: [(u32, u32); 20] = [
    (0x0FFFFFF0, 0x012FFF10),
    (0x0FC000F0, 0x00000090),
    (0x0F8000F0, 0x00800090),
    (0x0FB00FF0, 0x01000090),
    (0x0E400FF0, 0x000000B0),
    (0x0E4000F0, 0x004000B0),
    (0x0E5000F0, 0x005000D0),
    (0x0E500FF0, 0x001000F0),
    (0x0FBF0FFF, 0x010F0000),
    (0x0FB0FFF0, 0x0120F000),
    (0x0FB0F000, 0x0320F000),
    (0x0F90F010, 0x01100000),
    (0x0E000090, 0x00000010),
    (0x0E000010, 0x00000000),
    (0x0E000000, 0x02000000),
    (0x0E000000, 0x04000000),
    (0x0E000010, 0x06000000),
    (0x0E000000, 0x08000000),
    (0x0E000000, 0x0A000000),
    (0x0F000000, 0x0F000000),
];

fn next_random(random: &mut u32) -> u32 {
    let mut word = *random;
    word ^= word << 13;
    word ^= word >> 17;
    word ^= word << 5;
    *random = word;
    word
}

/// 1 where a word has the manual's bits, so that its operation has to encode to it, and 0 where it hasn't.
fn comes_back(rt: &impl Abort, word: u32) -> u32 {
    let Some(op) = decoded(word) else {
        return 0;
    };
    let (mask, wanted) = should_be(&op);
    if word & mask != wanted {
        return 0;
    }
    assert_eq!(rt; encoded(&op), Ok(word), "the word {word:#010x}");
    1
}

/// For each diagram a word of any bits and one with the diagram's: how many of the former come back. The latter are
/// counted by their diagrams.
fn come_back(rt: &impl Abort, random: &mut u32, met: &mut [u32; 20]) -> u32 {
    let mut any = 0u32;
    for (&(fixed, value), count) in DIAGRAMS.iter().zip(met.iter_mut()) {
        any = any.saturating_add(comes_back(rt, next_random(random)));
        let word = next_random(random) & !fixed | value;
        *count = count.saturating_add(comes_back(rt, word));
    }
    any
}

/// How many words with a diagram's bits came back; some of each diagram have to.
fn came_back(rt: &impl Abort, met: &[u32; 20]) -> u32 {
    let mut sum = 0u32;
    for (place, &count) in met.iter().enumerate() {
        assert!(rt; count >= 300, "{count} words of diagram {place} came back");
        sum = sum.saturating_add(count);
    }
    sum
}

// Every other word of the sample is any word; those between have the fixed bits of one diagram after the other, so
// that each class is met often.
#[test]
fn words_with_the_manuals_bits_come_back(rt: HostRuntime) {
    let mut random = 0x2545_F491u32;
    let mut met = [0u32; 20];
    let mut any = 0u32;
    for _ in 0..750u32 {
        any = any.saturating_add(come_back(&rt, &mut random, &mut met));
    }
    let back = any.saturating_add(came_back(&rt, &met));
    assert!(rt; back >= 20_000, "{back} words came back");
}
