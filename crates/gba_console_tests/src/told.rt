//! What a step tells of itself, and its line.

use crate::course::{ROOM, is};
use crate::play::{ALONE, Play, images_of_words};
use gba_console::What::{Arm, Dma, Idle, Irq, Nothing, Off, Thumb};
use gba_console::{KeyState, What};
use std::alloc::Global;
use std::process::Abort;
use std::test::Fail;

/// Branches to itself.
const LOOPS: &[u32] = &[0xEAFF_FFFE];

/// BL to 8, where BEQ isn't executed.
const SKIPS: &[u32] = &[0xEB00_0000, 0, 0x0A00_0000];

/// MOV r1, #04000000h; ADD r1, r1, #300h; STRB r0, [r1, #1]: halts for ever.
const HALTS: &[u32] = &[0xE3A0_1301, 0xE281_1C03, 0xE5C1_0001];

/// Goes into Thumb state and back, and adds 1 to what stands in r1.
const BOTH_STATES: &[u32] = &[
    0xE3A0_0009, // 00 MOV r0, #9
    0xE12F_FF10, // 04 BX r0
    0x3903_2105, // 08 MOV r1, #5; 0A SUB r1, #3
    0x46C0_4778, // 0C BX r15; 0E MOV r8, r8
    0xE281_1001, // 10 ADD r1, r1, #1
    0xEAFF_FFFE, // 14 B to itself
];

/// Has button A interrupt a loop of 3 cycles, whose first step begins at 15: KEYCNT 4001h, IE 1000h, IME 1, I 0.
pub(crate) const AWAITS_A: &[u32] = &[
    0xE3A0_1301, // 00 MOV r1, #04000000h
    0xE281_1E13, // 04 ADD r1, r1, #130h
    0xE3A0_2901, // 08 MOV r2, #4000h
    0xE282_2001, // 0C ADD r2, r2, #1
    0xE1C1_20B2, // 10 STRH r2, [r1, #2]: KEYCNT
    0xE281_30D0, // 14 ADD r3, r1, #D0h
    0xE3A0_2A01, // 18 MOV r2, #1000h
    0xE1C3_20B0, // 1C STRH r2, [r3]: IE
    0xE3A0_2001, // 20 MOV r2, #1
    0xE583_2008, // 24 STR r2, [r3, #8]: IME
    0xE321_F053, // 28 MSR CPSR_c, #53h
    0xE1A0_0000, // 2C MOV r0, r0
    0xEAFF_FFFE, // 30 B to itself
];

/// DMA3 moves 65,536 words from the work RAM to the inner RAM.
const MOVES_WORDS: &[u32] = &[
    0xE3A0_0301, // 00 MOV r0, #04000000h
    0xE280_00D4, // 04 ADD r0, r0, #D4h
    0xE3A0_1402, // 08 MOV r1, #02000000h
    0xE3A0_2403, // 0C MOV r2, #03000000h
    0xE3A0_3321, // 10 MOV r3, #84000000h
    0xE580_1000, // 14 STR r1, [r0]
    0xE580_2004, // 18 STR r2, [r0, #4]
    0xE580_3008, // 1C STR r3, [r0, #8]
    0xEAFF_FFFE, // 20 B to itself
];

/// Of a program of the BIOS, the clock below which its console is off, the clock that it runs to, what its last step
/// did, and the clock at which that step began: steps one by one, many of the same at once, and those in which no
/// instruction is executed. BEQ at 8 isn't, but is told.
static COURSES: [(&str, &[u32], u64, u64, What, u64); 15] = [
    ("loops until 0", LOOPS, 0, 0, Nothing, 0),
    (
        "loops until 1",
        LOOPS,
        0,
        1,
        Arm {
            address: 0,
            word: 0xEAFF_FFFE,
        },
        0,
    ),
    (
        "loops until 999",
        LOOPS,
        0,
        999,
        Arm {
            address: 0,
            word: 0xEAFF_FFFE,
        },
        996,
    ),
    (
        "skips until 4",
        SKIPS,
        0,
        4,
        Arm {
            address: 8,
            word: 0x0A00_0000,
        },
        3,
    ),
    (
        "both states until 4",
        BOTH_STATES,
        0,
        4,
        Arm {
            address: 4,
            word: 0xE12F_FF10,
        },
        1,
    ),
    (
        "both states until 5",
        BOTH_STATES,
        0,
        5,
        Thumb {
            address: 8,
            half: 0x2105,
        },
        4,
    ),
    (
        "both states until 9",
        BOTH_STATES,
        0,
        9,
        Thumb {
            address: 0xC,
            half: 0x4778,
        },
        6,
    ),
    (
        "both states until 10",
        BOTH_STATES,
        0,
        10,
        Arm {
            address: 0x10,
            word: 0xE281_1001,
        },
        9,
    ),
    (
        "halts until 4",
        HALTS,
        0,
        4,
        Arm {
            address: 8,
            word: 0xE5C1_0001,
        },
        2,
    ),
    ("halts until 20", HALTS, 0, 20, Idle, 4),
    ("halts until 2000", HALTS, 0, 2000, Idle, 1988),
    ("awaits A until 19", AWAITS_A, 0, 19, Irq, 18),
    (
        "moves words until 20",
        MOVES_WORDS,
        0,
        20,
        Dma { channel: 3 },
        11,
    ),
    (
        "moves words until 27",
        MOVES_WORDS,
        0,
        27,
        Dma { channel: 3 },
        20,
    ),
    ("loops off below 100 until 100", LOOPS, 100, 100, Off, 96),
];

/// Button A is pressed at 16, and another one at a clock that no course comes to.
static KEYS: [KeyState; 2] = [
    KeyState { clock: 16, keys: 1 },
    KeyState {
        clock: 900_000,
        keys: 2,
    },
];

fn play_of(alloc: Global, words: &[u32], off: u64) -> Result<Play, Fail> {
    let images = images_of_words(alloc, words)?;
    Play::new(alloc, ALONE, off, images, &KEYS, ROOM)
}

/// What its last step did, when that began, where it is off, and its changes of the keys.
fn tells<R: Abort>(rt: &R, console: &Play, case: &str, (off, what, was): (u64, What, u64)) {
    is(rt, case, console.off(), off);
    is(rt, case, console.last(), what);
    is(rt, case, console.was(), was);
    assert_eq!(rt; console.keys(), KEYS.as_slice(), "{case}");
}

#[test]
fn steps_tell_what_they_did(rt: HostRuntime) -> Result<(), Fail> {
    for &(case, words, off, until, what, was) in &COURSES {
        let mut console = play_of(rt.alloc(), words, off)?;
        console.run(&rt, until);
        tells(&rt, &console, case, (off, what, was));
        console.forget(&rt, ROOM.until);
        is(&rt, case, console.last(), Nothing);
    }
    Ok(())
}

/// Of a program, the clock below which its console is off and the clock that it runs to, the line of its last step:
/// none yet, a branch, a Thumb instruction, a halt, an interrupt, a unit of DMA, and a console that is off.
static LINES: [(&[u32], u64, u64, &[u8]); 7] = [
    (
        LOOPS,
        0,
        0,
        b"0 0 nothing 00000000 00000000 00000000 00000000 00000000 00000000 00000000 00000000 00000000 00000000 00000000 00000000 00000000 00000000 00000000 00000000 000000d3\n",
    ),
    (
        LOOPS,
        0,
        1,
        b"0 0 arm 00000000 eafffffe 00000000 00000000 00000000 00000000 00000000 00000000 00000000 00000000 00000000 00000000 00000000 00000000 00000000 00000000 00000000 00000000 000000d3 ; b 0x00000000\n",
    ),
    (
        BOTH_STATES,
        0,
        5,
        b"0 4 thumb 00000008 2105 00000009 00000005 00000000 00000000 00000000 00000000 00000000 00000000 00000000 00000000 00000000 00000000 00000000 00000000 00000000 0000000a 000000f3 ; mov r1, #0x5\n",
    ),
    (
        HALTS,
        0,
        20,
        b"0 4 idle 00000000 04000300 00000000 00000000 00000000 00000000 00000000 00000000 00000000 00000000 00000000 00000000 00000000 00000000 00000000 0000000c 000000d3\n",
    ),
    (
        AWAITS_A,
        0,
        19,
        b"0 18 irq 00000000 04000130 00000001 04000200 00000000 00000000 00000000 00000000 00000000 00000000 00000000 00000000 00000000 00000000 00000034 00000018 000000d2\n",
    ),
    (
        MOVES_WORDS,
        0,
        20,
        b"0 11 dma 3 040000d4 02000000 03000000 84000000 00000000 00000000 00000000 00000000 00000000 00000000 00000000 00000000 00000000 00000000 00000000 00000020 000000d3\n",
    ),
    (
        LOOPS,
        100,
        16,
        b"0 0 off 00000000 00000000 00000000 00000000 00000000 00000000 00000000 00000000 00000000 00000000 00000000 00000000 00000000 00000000 00000000 00000000 000000d3\n",
    ),
];

/// The line of the last step.
fn line_of<R: Abort>(
    rt: &R,
    alloc: Global,
    words: &[u32],
    off: u64,
    until: u64,
) -> Result<Vec<u8>, Fail> {
    let mut console = play_of(alloc, words, off)?;
    console.run(rt, until);
    console.line(alloc)
}

#[test]
fn steps_have_their_lines(rt: HostRuntime) -> Result<(), Fail> {
    for &(words, off, until, line) in &LINES {
        let told = line_of(&rt, rt.alloc(), words, off, until)?;
        assert_eq!(rt; told.as_slice(), line, "until {until}");
    }
    Ok(())
}
