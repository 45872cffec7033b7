//! A console by itself: programs of a few words in its BIOS, and what they leave.

use crate::course::Code::{Source, Words};
use crate::course::Look::{
    Active, Byte, Clock, Half, Halted, Length, Pairs, Pending, Register, Sample, SampleBytes,
    Transfers, TransfersKept,
};
use crate::course::Move::{Forget, Run, Shows, Steps};
use crate::course::{Course, PLAIN, console_of_words, console_with_keys, go_through, goes};
use crate::play::Play;
use crate::told::AWAITS_A;
use crate::transfers::STARTS_WORD;
use gba_console::KeyState;
use gba_io::MemoryName;
use std::alloc::Global;
use std::process::Abort;
use std::test::Fail;

static COURSES: [Course; 21] = [
    // BL to 8, where BEQ isn't executed, and then B to 4000h, where no memory is: words 0 there, ANDEQ r0, r0, r0, are
    // not executed and go on.
    Course {
        name: "jumps and no memory",
        bios: Words(&[0xEB00_0000, 0, 0x0A00_0000, 0xEA00_0FFB]),
        moves: &[
            Shows(Register(31), 0xD3),
            Steps(1),
            Shows(Clock, 3),
            Shows(Register(15), 8),
            Shows(Register(26), 4),
            Steps(1),
            Shows(Clock, 4),
            Shows(Register(15), 12),
            Shows(Register(26), 4),
            Steps(1),
            Shows(Clock, 7),
            Shows(Register(15), 0x4000),
            Shows(Register(26), 4),
            Steps(3),
            Shows(Clock, 10),
            Shows(Register(15), 0x400C),
            Shows(Register(26), 4),
        ],
        ..PLAIN
    },
    // MOV r0, #5 and a branch to itself: the steps end at 1, 4, 7 and 10.
    Course {
        name: "a move and a loop",
        bios: Words(&[0xE3A0_0005, 0xEAFF_FFFE]),
        moves: &[
            Steps(1),
            Shows(Clock, 1),
            Steps(1),
            Shows(Clock, 4),
            Steps(1),
            Shows(Clock, 7),
            Steps(1),
            Shows(Clock, 10),
            Shows(Register(0), 5),
            Shows(Register(15), 4),
        ],
        ..PLAIN
    },
    // MOV r1, #03000000h; MOV r2, #5; STR r2, [r1, #4]; ADD r1, r1, #8000h; LDR r0, [r1, #4]: repeated.
    Course {
        name: "the inner RAM is repeated",
        bios: Words(&[
            0xE3A0_1403,
            0xE3A0_2005,
            0xE581_2004,
            0xE281_1902,
            0xE591_0004,
        ]),
        moves: &[Steps(5), Shows(Register(0), 5)],
        ..PLAIN
    },
    // MOV r1, #03000000h; MOV r2, #5; STR r2, [r1]; ADD r1, r1, #FF0000h; LDR r0, [r1]: 03FF0000h is repeated too.
    Course {
        name: "the inner RAM is repeated at 03FF0000h",
        bios: Words(&[
            0xE3A0_1403,
            0xE3A0_2005,
            0xE581_2000,
            0xE281_18FF,
            0xE591_0000,
        ]),
        moves: &[Steps(5), Shows(Register(0), 5)],
        ..PLAIN
    },
    // MOV r1, #0; MVN r2, #0; STR r2, [r1]; LDR r0, [r1]: a write to the BIOS is dropped.
    Course {
        name: "a write to the BIOS",
        bios: Words(&[0xE3A0_1000, 0xE3E0_2000, 0xE581_2000, 0xE591_0000]),
        moves: &[Steps(4), Shows(Register(0), 0xE3A0_1000)],
        ..PLAIN
    },
    // MOV r1, #10000000h; MVN r2, #0; STR r2, [r1]; LDR r0, [r1]: there is no memory.
    Course {
        name: "no memory",
        bios: Words(&[0xE3A0_1201, 0xE3E0_2000, 0xE581_2000, 0xE591_0000]),
        moves: &[Steps(4), Shows(Register(0), 0)],
        ..PLAIN
    },
    // MOV r1, #03000000h; MVN r2, #0; STR r2, [r1]; MOV r1, #10000000h; MOV r0, #7; LDR r0, [r1]: nor a value kept.
    Course {
        name: "no value kept",
        bios: Words(&[
            0xE3A0_1403,
            0xE3E0_2000,
            0xE581_2000,
            0xE3A0_1201,
            0xE3A0_0007,
            0xE591_0000,
        ]),
        moves: &[Steps(6), Shows(Register(0), 0)],
        ..PLAIN
    },
    // MOV r1, #03000000h; MVN r2, #0; STRB r2, [r1, #1]; STRH r2, [r1, #6]; LDR r0, [r1]: one byte.
    Course {
        name: "a byte of a word",
        bios: Words(&[
            0xE3A0_1403,
            0xE3E0_2000,
            0xE5C1_2001,
            0xE1C1_20B6,
            0xE591_0000,
        ]),
        moves: &[Steps(5), Shows(Register(0), 0x0000_FF00)],
        ..PLAIN
    },
    // The same, and LDR r0, [r1, #4]: a halfword in the upper half.
    Course {
        name: "a halfword of a word",
        bios: Words(&[
            0xE3A0_1403,
            0xE3E0_2000,
            0xE5C1_2001,
            0xE1C1_20B6,
            0xE591_0004,
        ]),
        moves: &[Steps(5), Shows(Register(0), 0xFFFF_0000)],
        ..PLAIN
    },
    // A program copies two words into the inner RAM and runs them there: LDR r0, [r3] of the BIOS reads 0 from outside
    // it, and MOV r5, #1 is changed into MOV r5, #2 by the word before it, which is seen at once.
    Course {
        name: "code in the inner RAM",
        bios: Words(&[
            0xE3A0_3000, // 00 MOV r3, #0
            0xE3A0_1403, // 04 MOV r1, #03000000h
            0xE593_0000, // 08 LDR r0, [r3]: the first word, since this one stands in the BIOS
            0xE1A0_6000, // 0C MOV r6, r0
            0xE28F_2010, // 10 ADD r2, r15, #10h: r2 is 28h
            0xE892_0790, // 14 LDMIA r2, {r4, r7, r8, r9, r10}
            0xE881_0790, // 18 STMIA r1, {r4, r7, r8, r9, r10}
            0xE59F_C018, // 1C LDR r12, [r15, #18h]: the word at 3Ch
            0xE3A0_0007, // 20 MOV r0, #7
            0xE1A0_F001, // 24 MOV r15, r1
            0xE593_0000, // 28 LDR r0, [r3]: 0, since it runs outside the BIOS
            0xE581_C008, // 2C STR r12, [r1, #8]: changes the next word
            0xE3A0_5001, // 30 MOV r5, #1
            0xE285_5010, // 34 ADD r5, r5, #10h
            0xEAFF_FFFE, // 38 B to itself
            0xE3A0_5002, // 3C MOV r5, #2
        ]),
        moves: &[
            // 1 + 1 + 3 + 1 + 1 + (1 + 5 + 1) + (1 + 5) + 3 + 1 + 3 cycles.
            Steps(10),
            Shows(Clock, 27),
            Shows(Register(15), 0x0300_0000),
            Shows(Register(6), 0xE3A0_3000),
            // LDR 3, STR 2, MOV 1, ADD 1, B 3.
            Steps(5),
            Shows(Clock, 37),
            Shows(Register(0), 0),
            Shows(Register(5), 0x12),
            Shows(Register(15), 0x0300_0010),
            Shows(Length(MemoryName::Iwram), 0x8000),
            Shows(Byte(MemoryName::Iwram, 8), 0x02),
            Shows(Byte(MemoryName::Iwram, 11), 0xE3),
        ],
        ..PLAIN
    },
    // BX into Thumb state, where MOV and SUB make flags, and BX r15 back to ARM state at the word above it. SUB has no
    // borrow, so C is set.
    Course {
        name: "both states",
        bios: Words(&[
            0xE3A0_0009, // 00 MOV r0, #9
            0xE12F_FF10, // 04 BX r0
            0x3903_2105, // 08 MOV r1, #5; 0A SUB r1, #3
            0x46C0_4778, // 0C BX r15; 0E MOV r8, r8
            0xE281_1001, // 10 ADD r1, r1, #1
            0xEAFF_FFFE, // 14 B to itself
        ]),
        moves: &[
            Steps(1),
            Shows(Clock, 1),
            Shows(Register(1), 0),
            Shows(Register(15), 4),
            Shows(Register(31), 0xD3),
            Steps(1),
            Shows(Clock, 4),
            Shows(Register(1), 0),
            Shows(Register(15), 8),
            Shows(Register(31), 0xF3),
            Steps(1),
            Shows(Clock, 5),
            Shows(Register(1), 5),
            Shows(Register(15), 0xA),
            Shows(Register(31), 0xF3),
            Steps(1),
            Shows(Clock, 6),
            Shows(Register(1), 2),
            Shows(Register(15), 0xC),
            Shows(Register(31), 0x2000_00F3),
            Steps(1),
            Shows(Clock, 9),
            Shows(Register(1), 2),
            Shows(Register(15), 0x10),
            Shows(Register(31), 0x2000_00D3),
            Steps(1),
            Shows(Clock, 10),
            Shows(Register(1), 3),
            Shows(Register(15), 0x14),
            Shows(Register(31), 0x2000_00D3),
            Steps(1),
            Shows(Clock, 13),
            Shows(Register(1), 3),
            Shows(Register(15), 0x14),
            Shows(Register(31), 0x2000_00D3),
        ],
        ..PLAIN
    },
    // Loads and stores through the memory map with the wait control at 0: a word of the cartridge, a halfword past its
    // end, a load that isn't aligned, the VRAM's second half at its repeat, and the SRAM at 8 and 32 bits.
    Course {
        name: "prices of the memory map",
        bios: Words(&[
            0xE3A0_1302, // 00 MOV r1, #08000000h
            0xE591_0000, // 04 LDR r0, [r1]: 1 + (5 + 3) + 1
            0xE281_2C02, // 08 ADD r2, r1, #200h
            0xE1D2_30B0, // 0C LDRH r3, [r2]: past the image, 1 + 5 + 1
            0xE3A0_4402, // 10 MOV r4, #02000000h
            0xE59F_5030, // 14 LDR r5, [r15, #30h]: the word at 4Ch
            0xE584_5000, // 18 STR r5, [r4]: 1 + 6
            0xE284_6003, // 1C ADD r6, r4, #3
            0xE596_7000, // 20 LDR r7, [r6]: 1 + 6 + 1, turned by three bytes
            0xE3A0_8406, // 24 MOV r8, #06000000h
            0xE288_9A18, // 28 ADD r9, r8, #18000h
            0xE589_5000, // 2C STR r5, [r9]: 1 + 2
            0xE288_9801, // 30 ADD r9, r8, #10000h
            0xE599_A000, // 34 LDR r10, [r9]: 1 + 2 + 1
            0xE3A0_B40E, // 38 MOV r11, #0E000000h
            0xE3A0_C05A, // 3C MOV r12, #5Ah
            0xE5CB_C000, // 40 STRB r12, [r11]: 1 + 5
            0xE59B_D000, // 44 LDR r13, [r11]: 1 + 5 + 1
            0xEAFF_FFFE, // 48 B to itself
            0x4433_2211, // 4C
        ]),
        cart: Some(&[]),
        moves: &[
            Steps(2),
            Shows(Clock, 11),
            Steps(2),
            Shows(Clock, 19),
            Steps(5),
            Shows(Clock, 39),
            Steps(5),
            Shows(Clock, 49),
            Steps(4),
            Shows(Clock, 64),
            Shows(Register(0), 0),
            Shows(Register(3), 0x0100),
            Shows(Register(7), 0x3322_1144),
            Shows(Register(10), 0x4433_2211),
            // r13 of the supervisor
            Shows(Register(25), 0x5A5A_5A5A),
            Shows(Byte(MemoryName::Backup, 0), 0x5A),
        ],
        ..PLAIN
    },
    // LDMIA r0, {r0-r15} that stands in ROM view 2 and reads it: 18 of code, 14 and 15 times 18 of data, 1, and 18 and
    // 14 of the jump.
    Course {
        name: "a whole block from view 2",
        // MOV r0, #0C000000h; ADD r0, r0, #C0h; MOV r15, r0.
        bios: Words(&[0xE3A0_040C, 0xE280_00C0, 0xE1A0_F000]),
        cart: Some(&[
            0xE890_FFFF,
            0,
            0,
            0,
            0,
            0,
            0,
            0,
            0,
            0,
            0,
            0,
            0,
            0,
            0,
            0x0800_00C0,
        ]),
        moves: &[
            Steps(3),
            Shows(Clock, 5),
            Shows(Register(15), 0x0C00_00C0),
            Steps(1),
            Shows(Clock, 340),
            Shows(Register(0), 0xE890_FFFF),
            Shows(Register(15), 0x0800_00C0),
        ],
        ..PLAIN
    },
    // A timer is started and read by the next instruction:
    // MOV r1, #04000000h; MOV r2, #80h; ADD r3, r1, #100h; STRH r2, [r3, #2]; LDRH r0, [r3]
    Course {
        name: "a timer",
        bios: Words(&[
            0xE3A0_1301,
            0xE3A0_2080,
            0xE281_3C01,
            0xE1C3_20B2,
            0xE1D3_00B0,
        ]),
        moves: &[
            Steps(1),
            Shows(Clock, 1),
            Steps(1),
            Shows(Clock, 2),
            Steps(1),
            Shows(Clock, 3),
            Steps(1),
            Shows(Clock, 5),
            Steps(1),
            Shows(Clock, 8),
            Shows(Register(0), 2),
        ],
        ..PLAIN
    },
    // A halt without an enabled interrupt lasts for ever, 16 cycles at a time:
    // MOV r1, #04000000h; ADD r1, r1, #300h; STRB r0, [r1, #1]
    Course {
        name: "a halt",
        bios: Words(&[0xE3A0_1301, 0xE281_1C03, 0xE5C1_0001]),
        moves: &[
            Steps(1),
            Shows(Clock, 1),
            Steps(1),
            Shows(Clock, 2),
            Steps(1),
            Shows(Clock, 4),
            Steps(1),
            Shows(Clock, 20),
            Steps(1),
            Shows(Clock, 36),
            Steps(1),
            Shows(Clock, 52),
            Shows(Register(0), 0),
        ],
        ..PLAIN
    },
    // WAITCNT prices from the next instruction on:
    // MOV r1, #04000000h; ADD r1, r1, #204h; MOV r2, #0Ch; MOV r3, #08000000h; LDRH r0, [r3]; STRH r2, [r1];
    // LDRH r0, [r3]
    Course {
        name: "WAITCNT",
        bios: Words(&[
            0xE3A0_1301,
            0xE281_1F81,
            0xE3A0_200C,
            0xE3A0_3302,
            0xE1D3_00B0,
            0xE1C1_20B0,
            0xE1D3_00B0,
        ]),
        moves: &[
            Steps(1),
            Shows(Clock, 1),
            Steps(1),
            Shows(Clock, 2),
            Steps(1),
            Shows(Clock, 3),
            Steps(1),
            Shows(Clock, 4),
            Steps(1),
            Shows(Clock, 11),
            Steps(1),
            Shows(Clock, 13),
            Steps(1),
            Shows(Clock, 24),
            Shows(Register(0), 0),
        ],
        ..PLAIN
    },
    // Changes of the keys are applied in their order, the last one of a step stays, and each once.
    Course {
        name: "keys change in their order",
        bios: Words(&[0xEAFF_FFFE]),
        keys: &[
            KeyState { clock: 0, keys: 1 },
            KeyState { clock: 4, keys: 2 },
            KeyState { clock: 4, keys: 4 },
            KeyState { clock: 90, keys: 8 },
        ],
        moves: &[
            Run(3),
            Shows(Clock, 3),
            Shows(Half(0x130), 0x3FE),
            Run(6),
            Shows(Clock, 6),
            Shows(Half(0x130), 0x3FE),
            Run(9),
            Shows(Clock, 9),
            Shows(Half(0x130), 0x3FB),
            Run(90),
            Shows(Clock, 90),
            Shows(Half(0x130), 0x3FB),
            Run(93),
            Shows(Clock, 93),
            Shows(Half(0x130), 0x3F7),
        ],
        ..PLAIN
    },
    // DMA3 moves 65,536 words, which a count of 0 stands for, from the work RAM to the inner RAM: each is a step, the
    // first of 6 + 1 + 2 cycles and the others of 6 + 1.
    Course {
        name: "a count of 0 moves 65,536 units",
        bios: Words(&[
            0xE3A0_0301, // 00 MOV r0, #04000000h
            0xE280_00D4, // 04 ADD r0, r0, #D4h
            0xE3A0_1402, // 08 MOV r1, #02000000h
            0xE3A0_2403, // 0C MOV r2, #03000000h
            0xE3A0_3321, // 10 MOV r3, #84000000h: enabled, 32 bits, at once, count 0
            0xE580_1000, // 14 STR r1, [r0]
            0xE580_2004, // 18 STR r2, [r0, #4]
            0xE580_3008, // 1C STR r3, [r0, #8]
            0xEAFF_FFFE, // 20 B to itself
        ]),
        moves: &[
            Steps(8),
            Shows(Clock, 11),
            Steps(1),
            Shows(Clock, 20),
            Steps(1),
            Shows(Clock, 27),
            Steps(65_534),
            Shows(Clock, 27 + 65_534 * 7),
            Shows(Active(3), 0),
            Shows(Half(0xDE), 0x0400),
            Shows(Register(15), 0x20),
            Steps(1),
            Shows(Clock, 27 + 65_534 * 7 + 3),
        ],
        ..PLAIN
    },
    // DMA3 writes byte 301h twice, so that its second unit is done in the halt, though an interrupt is pending: the
    // step after it goes on.
    Course {
        name: "a unit wakes nothing",
        bios: Words(&[
            0xE3A0_0301, // 00 MOV r0, #04000000h
            0xE280_1C02, // 04 ADD r1, r0, #200h
            0xE3A0_2008, // 08 MOV r2, #8
            0xE1C1_20B0, // 0C STRH r2, [r1]: IE, timer 0
            0xE280_3C01, // 10 ADD r3, r0, #100h
            0xE3A0_48C0, // 14 MOV r4, #C00000h
            0xE284_4CFF, // 18 ADD r4, r4, #FF00h
            0xE284_40FF, // 1C ADD r4, r4, #FFh
            0xE583_4000, // 20 STR r4, [r3]: timer 0 overflows in each cycle
            0xE3A0_5402, // 24 MOV r5, #02000000h
            0xE580_50D4, // 28 STR r5, [r0, #D4h]
            0xE280_6C03, // 2C ADD r6, r0, #300h
            0xE580_60D8, // 30 STR r6, [r0, #D8h]
            0xE3A0_7102, // 34 MOV r7, #80000000h
            0xE287_7840, // 38 ADD r7, r7, #400000h: the destination stays
            0xE287_7002, // 3C ADD r7, r7, #2: two halfwords
            0xE580_70DC, // 40 STR r7, [r0, #DCh]
            0xE288_8001, // 44 ADD r8, r8, #1
            0xEAFF_FFFE, // 48 B to itself
        ]),
        moves: &[
            Steps(17),
            Shows(Clock, 22),
            // The two units take 3 + 1 + 2 cycles, and 3 + 1.
            Steps(1),
            Shows(Clock, 28),
            Shows(Halted, 1),
            Shows(Pending, 1),
            Steps(1),
            Shows(Clock, 32),
            Shows(Halted, 1),
            Shows(Register(15), 0x44),
            Steps(1),
            Shows(Clock, 33),
            Shows(Halted, 0),
            Shows(Register(8), 1),
        ],
        ..PLAIN
    },
    // A branch to itself for 1,024 cycles: two pairs, at 512 and at 1,024, and the sound is off. They are forgotten and
    // stay counted, and the pair at 1,536 is kept.
    Course {
        name: "pairs go with the clock",
        bios: Words(&[0xEAFF_FFFE]),
        moves: &[
            Run(511),
            Shows(Clock, 513),
            Shows(Pairs, 1),
            Run(1023),
            Shows(Clock, 1023),
            Shows(Pairs, 1),
            Run(1024),
            Shows(Clock, 1026),
            Shows(Pairs, 2),
            Shows(SampleBytes, 8),
            Shows(Sample(0), 0),
            Shows(Sample(1), 0),
            Shows(Sample(2), 0),
            Shows(Sample(3), 0),
            Shows(Sample(4), 0),
            Shows(Sample(5), 0),
            Shows(Sample(6), 0),
            Shows(Sample(7), 0),
            Forget(1_000_000),
            Shows(SampleBytes, 0),
            Run(1024),
            Shows(Clock, 1026),
            Shows(Pairs, 2),
            Run(1536),
            Shows(Clock, 1536),
            Shows(Pairs, 3),
            Shows(SampleBytes, 4),
        ],
        ..PLAIN
    },
    // A transfer that is forgotten stays counted.
    Course {
        name: "transfers are forgotten",
        bios: Source(STARTS_WORD),
        moves: &[
            Run(9_001),
            Shows(TransfersKept, 1),
            Forget(1_000_000),
            Shows(TransfersKept, 0),
            Shows(Transfers, 1),
        ],
        ..PLAIN
    },
];

#[test]
fn programs_show_what_they_leave(rt: HostRuntime) -> Result<(), Fail> {
    go_through(&rt, rt.alloc(), &COURSES)
}

/// A change of the keys at a clock, and the clock at which the step ends that enters the interrupt.
static KEY_CLOCKS: [(&str, u64, u64); 5] = [
    ("a key at 99", 99, 102),
    ("a key at 100", 100, 105),
    ("a key at 102", 102, 105),
    ("a key at 103", 103, 108),
    ("a key at 105", 105, 108),
];

/// Steps by 3 cycles from 15 on, and enters the interrupt by the step that ends at a clock.
fn interrupts<R: Abort>(rt: &R, console: &mut Play, case: &str, clock: u64) {
    let before = clock.saturating_sub(3);
    // r14 of the interrupt's mode is 24, and its SPSR 33.
    let moves = [
        Steps(12),
        Shows(Clock, 15),
        Run(before),
        Shows(Clock, before),
        Shows(Register(15), 0x30),
        Steps(1),
        Shows(Clock, clock),
        Shows(Register(15), 0x18),
        Shows(Register(24), 0x34),
        Shows(Register(31), 0xD2),
        Shows(Register(33), 0x53),
    ];
    goes(rt, console, case, &moves);
}

/// A loop is interrupted by the step that begins at or after the change of the keys.
#[test]
fn a_key_interrupts(rt: HostRuntime) -> Result<(), Fail> {
    for &(case, at, clock) in &KEY_CLOCKS {
        let keys = [KeyState { clock: at, keys: 1 }];
        let mut console = console_with_keys(rt.alloc(), Words(AWAITS_A), &keys)?;
        interrupts(&rt, &mut console, case, clock);
    }
    Ok(())
}

/// The words that set IME and CPSR, and the clock, r15 and r0 after the step behind the halt.
static HALTS: [(&str, u32, u32, u64, u64, u64); 4] = [
    ("IME 0, I 1", 0xE3A0_5000, 0xE321_F0D3, 53, 0x40, 1),
    ("IME 0, I 0", 0xE3A0_5000, 0xE321_F053, 53, 0x40, 1),
    ("IME 1, I 1", 0xE3A0_5001, 0xE321_F0D3, 53, 0x40, 1),
    ("IME 1, I 0", 0xE3A0_5001, 0xE321_F053, 55, 0x18, 0),
];

/// Starts timer 0, which overflows at 47 and requests its interrupt, and halts.
fn halts(alloc: Global, master: u32, status: u32) -> Result<Play, Fail> {
    let words = [
        0xE3A0_3301, // 00 MOV r3, #04000000h
        0xE283_3C01, // 04 ADD r3, r3, #100h
        0xE283_4C01, // 08 ADD r4, r3, #100h
        0xE3A0_2008, // 0C MOV r2, #8
        0xE1C4_20B0, // 10 STRH r2, [r4]: IE
        0xE3A0_2CFF, // 14 MOV r2, #FF00h
        0xE282_20E0, // 18 ADD r2, r2, #E0h
        0xE1C3_20B0, // 1C STRH r2, [r3]: the reload
        master, // 20 MOV r5, #IME
        0xE1C4_50B8, // 24 STRH r5, [r4, #8]
        status, // 28 MSR CPSR_c, #STATUS
        0xE3A0_20C0, // 2C MOV r2, #C0h
        0xE1C3_20B2, // 30 STRH r2, [r3, #2]: the timer's control, at 15
        0xE284_4C01, // 34 ADD r4, r4, #100h
        0xE5C4_2001, // 38 STRB r2, [r4, #1]: the halt
        0xE280_0001, // 3C ADD r0, r0, #1
        0xEAFF_FFFE, // 40 B to itself
    ];
    console_of_words(alloc, &words)
}

/// A halt that timer 0 ends, which overflows at 47: the step that begins at 52 goes on behind it, and enters the
/// interrupt only where IME is 1 and I is 0.
#[test]
fn a_halt_ends(rt: HostRuntime) -> Result<(), Fail> {
    for &(case, master, status, clock, at, zero) in &HALTS {
        let mut console = halts(rt.alloc(), master, status)?;
        let moves = [
            Steps(15),
            Shows(Clock, 20),
            Shows(Halted, 1),
            Steps(2),
            Shows(Clock, 52),
            Steps(1),
            Shows(Clock, clock),
            Shows(Halted, 0),
            Shows(Register(15), at),
            Shows(Register(0), zero),
        ];
        goes(&rt, &mut console, case, &moves);
    }
    Ok(())
}
