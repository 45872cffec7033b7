//! Frozen files that are accepted, most of which no run comes to: each is frozen again to itself, and its consoles go
//! on to the job's end. The clocks and the counts there are reckoned by hand: a console steps by 3 cycles, 16 where it
//! is halted or off; a pair of samples comes at each multiple of 512.

use crate::cases::Outcome::GoesOn;
use crate::cases::{
    ALONE, ASLEEP, BOTH, Case, KEY_A, LATE, MULTI, MULTI_RUNS, NORMAL8_RUNS, PAIR, UNEVEN,
    WITH_FLASH, WITH_KEY,
};
use crate::playing::play_all;
use std::test::Fail;

/// One console.
static CONSOLES: [Case; 6] = [
    Case {
        name: "a start",
        outcome: GoesOn {
            summary: "console 0 clock 1002 frames 0 samples 1 words 0\n",
            piece: "\nwas 999\n",
        },
        ..ALONE
    },
    Case {
        name: "counts of no run",
        changes: &[("counts ", "counts 7 7 7")],
        outcome: GoesOn {
            summary: "console 0 clock 1002 frames 7 samples 8 words 7\n",
            piece: "\ncounts 7 8 7\n",
        },
        ..ALONE
    },
    // It has nothing more to do.
    Case {
        name: "the latest clock",
        changes: &[("clock ", "clock 1511"), ("was ", "was 999")],
        outcome: GoesOn {
            summary: "console 0 clock 1511 frames 0 samples 0 words 0\n",
            piece: "\nclock 1511\n",
        },
        ..ALONE
    },
    Case {
        name: "a halt",
        changes: &[("halted ", "halted 1")],
        outcome: GoesOn {
            summary: "console 0 clock 1008 frames 0 samples 1 words 0\n",
            piece: "\nhalted 1\n",
        },
        ..ALONE
    },
    // The halfwords there are LSL r0, r0, #0, of a cycle each.
    Case {
        name: "Thumb state",
        changes: &[("r15 ", "r15 00000006"), ("cpsr ", "cpsr 000000f3")],
        outcome: GoesOn {
            summary: "console 0 clock 1000 frames 0 samples 1 words 0\n",
            piece: "\nr15 000007d6\n",
        },
        ..ALONE
    },
    Case {
        name: "bytes of memories",
        changes: &[(
            "was ",
            "mem wram 03ffe0 0000000000000000000000000000000000000000000000000000000000000001\nmem oam 000000 0200000000000000000000000000000000000000000000000000000000000000\nmem backup 007fe0 0000000000000000000000000000000000000000000000000000000000000003\nwas 0",
        )],
        outcome: GoesOn {
            summary: "console 0 clock 1002 frames 0 samples 1 words 0\n",
            piece: "\nmem backup 007fe0 0000000000000000000000000000000000000000000000000000000000000003\nwas 999\n",
        },
        ..ALONE
    },
];

#[test]
fn consoles_go_on(rt: HostRuntime) -> Result<(), Fail> {
    play_all(&rt, rt.alloc(), &CONSOLES)
}

/// Its devices, its keys and its cartridge.
static DEVICES: [Case; 8] = [
    // Each 64 cycles it counts, at first after 56: 15 times, and 50 cycles more.
    Case {
        name: "a timer",
        changes: &[
            ("timer 0 ", "timer 0 5 6 129 8"),
            (
                "mem io 000120",
                "mem io 000100 0600810000000000000000000000000000000000000000000000000000000000\nmem io 000120 00000000000000000000000000000000ff030000008000000000000000000000",
            ),
        ],
        outcome: GoesOn {
            summary: "console 0 clock 1002 frames 0 samples 1 words 0\n",
            piece: "\ntimer 0 20 6 129 50\n",
        },
        ..ALONE
    },
    // The sequencer begins again one cycle later. The bank of the wave that doesn't play stands in the I/O registers.
    Case {
        name: "sound",
        changes: &[
            ("queue A ", "queue A 7f 2 01ff"),
            ("sequencer ", "sequencer 262143"),
            ("tone 1 ", "tone 1 1 7 9 256 15 7 6 2047"),
            ("wave 1 ", "wave 1 000102030405060708090a0b0c0d0e0f"),
            (
                "mem io 000080",
                "mem io 000080 00000000810000000002000000000000000102030405060708090a0b0c0d0e0f",
            ),
        ],
        outcome: GoesOn {
            summary: "console 0 clock 1002 frames 0 samples 1 words 0\n",
            piece: "\nsequencer 1001\n",
        },
        ..ALONE
    },
    // VBlank comes one cycle later and triggers it for its last unit, which takes 4 cycles. Then it is disabled.
    Case {
        name: "no unit of a channel that waits",
        changes: &[
            ("position ", "position 159 1231"),
            (
                "mem io 000000",
                "mem io 000000 0000000002009f00000000000000000000000000000000000000000000000000",
            ),
            (
                "mem io 000120",
                "mem io 0000c0 0000000000000000000000000000000000000000000000000000000000000090\nmem io 000120 00000000000000000000000000000000ff030000008000000000000000000000",
            ),
        ],
        outcome: GoesOn {
            summary: "console 0 clock 1000 frames 0 samples 1 words 0\n",
            piece: "\ndma 3 0 0 2 2 0\n",
        },
        ..ALONE
    },
    Case {
        name: "a key at clock 0",
        changes: &[("applied ", "applied 1"), KEY_A],
        outcome: GoesOn {
            summary: "console 0 clock 1002 frames 0 samples 1 words 0\n",
            piece: "\napplied 1\n",
        },
        ..WITH_KEY
    },
    Case {
        name: "a key at its clock",
        changes: &[
            ("clock ", "clock 8"),
            ("was ", "was 5"),
            ("applied ", "applied 1"),
            KEY_A,
        ],
        outcome: GoesOn {
            summary: "console 0 clock 1001 frames 0 samples 1 words 0\n",
            piece: "\napplied 1\n",
        },
        ..WITH_KEY
    },
    Case {
        name: "a key before its clock",
        changes: &[("clock ", "clock 7"), ("was ", "was 4")],
        outcome: GoesOn {
            summary: "console 0 clock 1000 frames 0 samples 1 words 0\n",
            piece: "\nmem io 000120 00000000000000000000000000000000fe030000008000000000000000000000\n",
        },
        ..WITH_KEY
    },
    Case {
        name: "an armed flash",
        changes: &[("was ", "flash 3 1 1 0\nwas 0")],
        outcome: GoesOn {
            summary: "console 0 clock 1002 frames 0 samples 1 words 0\n",
            piece: "\nflash 3 1 1 0\n",
        },
        ..WITH_FLASH
    },
    Case {
        name: "a flash with two banks",
        job: "gbalink 2\ncycles 1000\nconsole 0\nbios b\nbackup flash128\nend\n",
        changes: &[(
            "was ",
            "mem backup 01ffe0 0000000000000000000000000000000000000000000000000000000000000001\nflash 4 0 0 1\nwas 0",
        )],
        outcome: GoesOn {
            summary: "console 0 clock 1002 frames 0 samples 1 words 0\n",
            piece: "01\nflash 4 0 0 1\n",
        },
        ..WITH_FLASH
    },
];

#[test]
fn devices_go_on(rt: HostRuntime) -> Result<(), Fail> {
    play_all(&rt, rt.alloc(), &DEVICES)
}

/// Places of the picture that aren't those of the clock, and consoles that are off. DISPSTAT and VCOUNT are those of
/// the place.
static PLACES: [Case; 6] = [
    // Line 159 is drawn 154 lines and 1,006 cycles later, at 190,734.
    Case {
        name: "line 5 at clock 0",
        job: "gbalink 2\ncycles 190737\nconsole 0\nbios b\nend\n",
        changes: &[
            ("position ", "position 5 0"),
            (
                "mem io 000000",
                "mem io 000000 0000000000000500000000000000000000000000000000000000000000000000",
            ),
        ],
        drawn: &["0", "1", "2", "3", "4"],
        outcome: GoesOn {
            summary: "console 0 clock 190737 frames 1 samples 372 words 0\n",
            piece: "\nposition 159 1009\n",
        },
        ..ALONE
    },
    Case {
        name: "HBlank",
        changes: &[
            ("position ", "position 0 1006"),
            (
                "mem io 000000",
                "mem io 000000 0000000006000000000000000000000000000000000000000000000000000000",
            ),
        ],
        drawn: &["0"],
        outcome: GoesOn {
            summary: "console 0 clock 1002 frames 0 samples 1 words 0\n",
            piece: "\nposition 1 776\n",
        },
        ..ALONE
    },
    Case {
        name: "VBlank",
        changes: &[
            ("position ", "position 160 0"),
            (
                "mem io 000000",
                "mem io 000000 000000000100a000000000000000000000000000000000000000000000000000",
            ),
        ],
        outcome: GoesOn {
            summary: "console 0 clock 1002 frames 0 samples 1 words 0\n",
            piece: "\nposition 160 1002\n",
        },
        ..ALONE
    },
    Case {
        name: "the last place",
        changes: &[
            ("position ", "position 227 1231"),
            (
                "mem io 000000",
                "mem io 000000 000000000200e300000000000000000000000000000000000000000000000000",
            ),
        ],
        outcome: GoesOn {
            summary: "console 0 clock 1002 frames 0 samples 1 words 0\n",
            piece: "\nposition 0 1001\n",
        },
        ..ALONE
    },
    // Its first step begins at 1,008, and in the 993 cycles from there on come two pairs.
    Case {
        name: "off",
        changes: &[("clock ", "clock 16")],
        outcome: GoesOn {
            summary: "console 0 clock 2001 frames 0 samples 2 words 0\n",
            piece: "\nposition 0 993\n",
        },
        ..ASLEEP
    },
    // Its first step begins at 1,013, since its clock rises by 16 from 5 on.
    Case {
        name: "off with a picture and counts",
        changes: &[
            ("clock ", "clock 5"),
            ("was ", "was 5"),
            ("position ", "position 3 7"),
            (
                "mem io 000000",
                "mem io 000000 0000000000000300000000000000000000000000000000000000000000000000",
            ),
            ("counts ", "counts 1 2 3"),
        ],
        drawn: &["0", "1", "2"],
        outcome: GoesOn {
            summary: "console 0 clock 2000 frames 1 samples 4 words 3\n",
            piece: "\nposition 3 994\n",
        },
        ..ASLEEP
    },
];

#[test]
fn pictures_go_on(rt: HostRuntime) -> Result<(), Fail> {
    play_all(&rt, rt.alloc(), &PLACES)
}

/// Serial units. A transfer that runs ends in the next step at or behind its END.
static UNITS: [Case; 6] = [
    Case {
        name: "END 0 of no transfer",
        changes: &[("serial ", "serial 2 0 0 0 0 0 0"), MULTI],
        outcome: GoesOn {
            summary: "console 0 clock 1002 frames 0 samples 1 words 0\n",
            piece: "\nserial 2 0 0 0 0 0 0\n",
        },
        ..ALONE
    },
    Case {
        name: "END 0 of a transfer",
        changes: &[("serial ", "serial 2 1 1 0 1 4660 0"), MULTI_RUNS],
        outcome: GoesOn {
            summary: "console 0 clock 1002 frames 0 samples 1 words 1\n",
            piece: "\nserial 2 0 0 0 0 0 0\n",
        },
        ..ALONE
    },
    Case {
        name: "an END that has passed",
        changes: &[
            ("clock ", "clock 600"),
            ("was ", "was 597"),
            ("serial ", "serial 2 1 1 500 1 65535 65535"),
            MULTI_RUNS,
        ],
        outcome: GoesOn {
            summary: "console 0 clock 1002 frames 0 samples 0 words 1\n",
            piece: "\nserial 2 0 0 0 0 0 0\n",
        },
        ..ALONE
    },
    Case {
        name: "an END to come",
        changes: &[("serial ", "serial 2 1 0 1003 15 4660 0"), MULTI_RUNS],
        outcome: GoesOn {
            summary: "console 0 clock 1002 frames 0 samples 1 words 0\n",
            piece: "\nserial 2 1 0 1003 15 4660 0\n",
        },
        ..ALONE
    },
    Case {
        name: "the greatest words of Normal8",
        changes: &[("serial ", "serial 0 1 1 900 0 255 255"), NORMAL8_RUNS],
        outcome: GoesOn {
            summary: "console 0 clock 1002 frames 0 samples 1 words 1\n",
            piece: "\nserial 0 0 0 0 0 0 0\n",
        },
        ..ALONE
    },
    // Bit 7 of SIOCNT is 0.
    Case {
        name: "the greatest words of Normal32",
        changes: &[
            ("serial ", "serial 1 1 1 900 0 4294967295 4294967295"),
            (
                "mem io 000120",
                "mem io 000120 00000000000000000110000000000000ff030000000000000000000000000000",
            ),
        ],
        outcome: GoesOn {
            summary: "console 0 clock 1002 frames 0 samples 1 words 1\n",
            piece: "\nserial 1 0 0 0 0 0 0\n",
        },
        ..ALONE
    },
];

#[test]
fn transfers_go_on(rt: HostRuntime) -> Result<(), Fail> {
    play_all(&rt, rt.alloc(), &UNITS)
}

const SUMMARY_OF_BOTH: &str =
    "console 0 clock 1002 frames 0 samples 0 words 0\nconsole 1 clock 1002 frames 0 samples 0 words 0\n";

/// Two consoles, which are as far apart as the delays let them be, or between which signals are on their way.
static PAIRS: [Case; 8] = [
    Case {
        name: "511 cycles and a step of 512 ahead",
        changes: &[("clock ", "clock 1023"), ("was ", "was 511")],
        outcome: GoesOn {
            summary: "console 0 clock 1023 frames 0 samples 0 words 0\nconsole 1 clock 1002 frames 0 samples 1 words 0\n",
            piece: "\nclock 1023\n",
        },
        ..PAIR
    },
    Case {
        name: "1,023 cycles and a step of 512 ahead",
        changes: &[("clock ", "clock 1535"), ("was ", "was 1023")],
        outcome: GoesOn {
            summary: "console 0 clock 2000 frames 0 samples 1 words 0\nconsole 1 clock 2001 frames 0 samples 3 words 0\n",
            piece: "\nclock 2001\n",
        },
        ..UNEVEN
    },
    // In the second second up to 16,780,002 there are six pairs, and from 16,778,741 on three.
    Case {
        name: "in two seconds",
        changes: &[("clock ", "clock 16777206"), ("was ", "was 16777203")],
        second: &[
            ("console ", "console 1"),
            ("clock ", "clock 16778741"),
            ("was ", "was 16778229"),
        ],
        outcome: GoesOn {
            summary: "console 0 clock 16780002 frames 0 samples 6 words 0\nconsole 1 clock 16780001 frames 0 samples 3 words 0\n",
            piece: "\nclock 16780001\n",
        },
        ..LATE
    },
    // It arrives at 612, and tells that player 0 is in Multi.
    Case {
        name: "a signal",
        behind: "signal 0 0000020000000064 0000000000000000\nend\n",
        outcome: GoesOn {
            summary: SUMMARY_OF_BOTH,
            piece: "\nknown 2 3 3 3\n",
        },
        ..BOTH
    },
    // It arrives at 598.
    Case {
        name: "the oldest signal",
        behind: "signal 1 0000010000000056 0000000000000000\nend\n",
        outcome: GoesOn {
            summary: SUMMARY_OF_BOTH,
            piece: "\nknown 3 1 3 3\n",
        },
        ..BOTH
    },
    Case {
        name: "the youngest signal",
        behind: "signal 1 0000000000000257 0000000000000000\nend\n",
        outcome: GoesOn {
            summary: SUMMARY_OF_BOTH,
            piece: "\nsignal 1 0000000000000257 0000000000000000\nend\n",
        },
        ..BOTH
    },
    Case {
        name: "signals of one clock",
        behind: "signal 0 0000020000000064 0000000000000000\nsignal 1 0000000000000064 0000000000000000\nend\n",
        outcome: GoesOn {
            summary: SUMMARY_OF_BOTH,
            piece: "\nknown 3 0 3 3\n",
        },
        ..BOTH
    },
    // What console 1 sends at clock 0 arrives at 1,024, so it is the youngest one there.
    Case {
        name: "a signal with a start and a reply",
        changes: &[("clock ", "clock 1535"), ("was ", "was 1023")],
        behind: "signal 0 00003e00000003ff 0000567800001234\nend\n",
        outcome: GoesOn {
            summary: "console 0 clock 2000 frames 0 samples 1 words 0\nconsole 1 clock 2001 frames 0 samples 3 words 0\n",
            piece: "\nknown 2 3 3 3\n",
        },
        ..UNEVEN
    },
];

#[test]
fn cables_go_on(rt: HostRuntime) -> Result<(), Fail> {
    play_all(&rt, rt.alloc(), &PAIRS)
}
