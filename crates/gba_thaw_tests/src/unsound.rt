//! Frozen files whose lines are all right, but the whole isn't: each breaks one rule, and is refused at its last line.

use crate::cases::{
    ALONE, ASLEEP, BOTH, Case, KEY_A, MULTI, MULTI_RUNS, NORMAL8_RUNS, PAIR, UNEVEN, WITH_FLASH,
    WITH_KEY,
};
use crate::playing::play_all;
use std::test::Fail;

/// Keys, r15, the flash, and the clocks of the last step.
static NUMBERS: [Case; 12] = [
    Case {
        name: "more applied changes of keys than there are",
        changes: &[("applied ", "applied 2")],
        ..WITH_KEY
    },
    Case {
        name: "a change of keys at the clock of the last step that isn't applied",
        changes: &[("clock ", "clock 8"), ("was ", "was 5")],
        ..WITH_KEY
    },
    Case {
        name: "a change of keys that is applied before its clock",
        changes: &[
            ("clock ", "clock 7"),
            ("was ", "was 4"),
            ("applied ", "applied 1"),
            KEY_A,
        ],
        ..WITH_KEY
    },
    Case {
        name: "a pressed key that no change presses",
        changes: &[KEY_A],
        ..WITH_KEY
    },
    Case {
        name: "a change of keys that presses none",
        changes: &[("applied ", "applied 1")],
        ..WITH_KEY
    },
    Case {
        name: "an odd address in ARM state",
        changes: &[("r15 ", "r15 00000001")],
        ..ALONE
    },
    Case {
        name: "an address between two words in ARM state",
        changes: &[("r15 ", "r15 00000002")],
        ..ALONE
    },
    Case {
        name: "an odd address in Thumb state",
        changes: &[("r15 ", "r15 00000001"), ("cpsr ", "cpsr 000000f3")],
        ..ALONE
    },
    Case {
        name: "bank 1 of the smaller flash",
        changes: &[("was ", "flash 0 0 0 1\nwas 0")],
        ..WITH_FLASH
    },
    Case {
        name: "the smaller flash waits for a bank",
        changes: &[("was ", "flash 4 0 0 0\nwas 0")],
        ..WITH_FLASH
    },
    Case {
        name: "a last step from a later clock",
        changes: &[("clock ", "clock 3"), ("was ", "was 4")],
        ..ALONE
    },
    Case {
        name: "a last step of 513 cycles",
        changes: &[("clock ", "clock 513")],
        ..ALONE
    },
];

#[test]
fn numbers_are_refused(rt: HostRuntime) -> Result<(), Fail> {
    play_all(&rt, rt.alloc(), &NUMBERS)
}

/// Drawn lines that aren't those of the place of the picture.
static LINES: [Case; 7] = [
    Case {
        name: "a line too many",
        drawn: &["0"],
        ..ALONE
    },
    Case {
        name: "a line too few",
        changes: &[
            ("position ", "position 5 0"),
            (
                "mem io 000000",
                "mem io 000000 0000000000000500000000000000000000000000000000000000000000000000",
            ),
        ],
        drawn: &["0", "1", "2", "3"],
        ..ALONE
    },
    Case {
        name: "a gap",
        changes: &[
            ("position ", "position 5 0"),
            (
                "mem io 000000",
                "mem io 000000 0000000000000500000000000000000000000000000000000000000000000000",
            ),
        ],
        drawn: &["0", "1", "2", "3", "5"],
        ..ALONE
    },
    Case {
        name: "not the first line",
        changes: &[
            ("position ", "position 1 0"),
            (
                "mem io 000000",
                "mem io 000000 0000000000000100000000000000000000000000000000000000000000000000",
            ),
        ],
        drawn: &["1"],
        ..ALONE
    },
    Case {
        name: "a line before its HBlank",
        changes: &[("position ", "position 0 1005")],
        drawn: &["0"],
        ..ALONE
    },
    Case {
        name: "HBlank without its line",
        changes: &[
            ("position ", "position 0 1006"),
            (
                "mem io 000000",
                "mem io 000000 0000000006000000000000000000000000000000000000000000000000000000",
            ),
        ],
        ..ALONE
    },
    Case {
        name: "a line in VBlank",
        changes: &[
            ("position ", "position 160 0"),
            (
                "mem io 000000",
                "mem io 000000 000000000100a000000000000000000000000000000000000000000000000000",
            ),
        ],
        drawn: &["0"],
        ..ALONE
    },
];

#[test]
fn drawn_lines_are_refused(rt: HostRuntime) -> Result<(), Fail> {
    play_all(&rt, rt.alloc(), &LINES)
}

/// DMA channels, tones, waves and timers.
static DEVICES: [Case; 13] = [
    Case {
        name: "an active channel with no unit left",
        changes: &[
            ("dma 3 ", "dma 3 1 0 0 0 0"),
            (
                "mem io 000120",
                "mem io 0000c0 0000000000000000000000000000000000000000000000000000000000000080\nmem io 000120 00000000000000000000000000000000ff030000008000000000000000000000",
            ),
        ],
        ..ALONE
    },
    Case {
        name: "an active channel that isn't enabled",
        changes: &[("dma 3 ", "dma 3 1 0 0 0 1")],
        ..ALONE
    },
    Case {
        name: "a tone that is on and waits for nothing",
        changes: &[
            ("tone 1 ", "tone 1 1 0 0 1 0 0 0 0"),
            (
                "mem io 000080",
                "mem io 000080 0000000081000000000200000000000000000000000000000000000000000000",
            ),
        ],
        ..ALONE
    },
    Case {
        name: "a tone that is on with no length left",
        changes: &[
            ("tone 1 ", "tone 1 1 0 1 0 0 0 0 0"),
            (
                "mem io 000080",
                "mem io 000080 0000000081000000000200000000000000000000000000000000000000000000",
            ),
        ],
        ..ALONE
    },
    Case {
        name: "a tone that is on and doesn't show",
        changes: &[
            ("tone 1 ", "tone 1 1 0 1 1 0 0 0 0"),
            (
                "mem io 000080",
                "mem io 000080 0000000080000000000200000000000000000000000000000000000000000000",
            ),
        ],
        ..ALONE
    },
    Case {
        name: "a sequencer while the sound is off",
        changes: &[("sequencer ", "sequencer 1")],
        ..ALONE
    },
    Case {
        name: "a tone's number while the sound is off",
        changes: &[("tone 4 ", "tone 4 0 0 0 0 0 0 0 1")],
        ..ALONE
    },
    Case {
        name: "a tone's register while the sound is off",
        changes: &[(
            "mem io 000080",
            "mem io 000060 0100000000000000000000000000000000000000000000000000000000000000\nmem io 000080 0000000000000000000200000000000000000000000000000000000000000000",
        )],
        ..ALONE
    },
    Case {
        name: "a wave that doesn't show",
        changes: &[("wave 1 ", "wave 1 00000000000000000000000000000001")],
        ..ALONE
    },
    Case {
        name: "a bank of the wave in place of the other",
        changes: &[
            ("wave 0 ", "wave 0 00000000000000000000000000000001"),
            (
                "mem io 000080",
                "mem io 000080 0000000000000000000200000000000000000000000000000000000000000001",
            ),
        ],
        ..ALONE
    },
    Case {
        name: "a timer's reload that doesn't show",
        changes: &[("timer 1 ", "timer 1 0 6 0 0")],
        ..ALONE
    },
    Case {
        name: "a timer's control that doesn't show",
        changes: &[("timer 1 ", "timer 1 0 0 195 0")],
        ..ALONE
    },
    Case {
        name: "another timer's reload",
        changes: &[
            ("timer 1 ", "timer 1 0 6 0 0"),
            (
                "mem io 000120",
                "mem io 000100 0600000000000000000000000000000000000000000000000000000000000000\nmem io 000120 00000000000000000000000000000000ff030000008000000000000000000000",
            ),
        ],
        ..ALONE
    },
];

#[test]
fn devices_are_refused(rt: HostRuntime) -> Result<(), Fail> {
    play_all(&rt, rt.alloc(), &DEVICES)
}

/// Bits of the I/O registers that no console has.
static REGISTERS: [Case; 8] = [
    Case {
        name: "a bit of DISPCNT that isn't there",
        changes: &[(
            "mem io 000000",
            "mem io 000000 0800000004000000000000000000000000000000000000000000000000000000",
        )],
        ..ALONE
    },
    Case {
        name: "VBlank in line 0",
        changes: &[(
            "mem io 000000",
            "mem io 000000 0000000005000000000000000000000000000000000000000000000000000000",
        )],
        ..ALONE
    },
    Case {
        name: "HBlank at dot 0",
        changes: &[(
            "mem io 000000",
            "mem io 000000 0000000006000000000000000000000000000000000000000000000000000000",
        )],
        ..ALONE
    },
    Case {
        name: "another line than that of the place",
        changes: &[(
            "mem io 000000",
            "mem io 000000 0000000004000100000000000000000000000000000000000000000000000000",
        )],
        ..ALONE
    },
    Case {
        name: "no match with line 0",
        changes: &[(
            "mem io 000000",
            "mem io 000000 0100000000000000000000000000000000000000000000000000000000000000",
        )],
        ..ALONE
    },
    Case {
        name: "a halfword that isn't there",
        changes: &[(
            "mem io 000120",
            "mem io 000100 0000000000000000000000000000000001000000000000000000000000000000\nmem io 000120 00000000000000000000000000000000ff030000008000000000000000000000",
        )],
        ..ALONE
    },
    Case {
        name: "a bit of KEYINPUT that isn't there",
        changes: &[(
            "mem io 000120",
            "mem io 000120 00000000000000000000000000000000ff070000008000000000000000000000",
        )],
        ..ALONE
    },
    Case {
        name: "a bit of SIOCNT that Other doesn't show",
        changes: &[(
            "mem io 000120",
            "mem io 000120 00000000000000000400000000000000ff030000008000000000000000000000",
        )],
        ..ALONE
    },
];

#[test]
fn registers_are_refused(rt: HostRuntime) -> Result<(), Fail> {
    play_all(&rt, rt.alloc(), &REGISTERS)
}

/// Serial units.
static UNITS: [Case; 17] = [
    Case {
        name: "another mode than RCNT's",
        changes: &[("serial ", "serial 2 0 0 0 0 0 0")],
        ..ALONE
    },
    Case {
        name: "another mode than SIOCNT's",
        changes: &[("serial ", "serial 0 0 0 0 0 0 0"), MULTI],
        ..ALONE
    },
    Case {
        name: "Other in place of SIOCNT's mode",
        changes: &[MULTI],
        ..ALONE
    },
    Case {
        name: "a transfer in Other",
        changes: &[("serial ", "serial 3 1 0 0 0 0 0")],
        ..ALONE
    },
    Case {
        name: "STARTED of no transfer",
        changes: &[("serial ", "serial 3 0 1 0 0 0 0")],
        ..ALONE
    },
    Case {
        name: "END of no transfer",
        changes: &[("serial ", "serial 3 0 0 1 0 0 0")],
        ..ALONE
    },
    Case {
        name: "GOT of no transfer",
        changes: &[("serial ", "serial 3 0 0 0 1 0 0")],
        ..ALONE
    },
    Case {
        name: "SENT of no transfer",
        changes: &[("serial ", "serial 3 0 0 0 0 1 0")],
        ..ALONE
    },
    Case {
        name: "WORD of no transfer",
        changes: &[("serial ", "serial 3 0 0 0 0 0 1")],
        ..ALONE
    },
    Case {
        name: "SENT of nine bits in Normal8",
        changes: &[("serial ", "serial 0 1 1 9 0 256 0"), NORMAL8_RUNS],
        ..ALONE
    },
    Case {
        name: "WORD of nine bits in Normal8",
        changes: &[("serial ", "serial 0 1 1 9 0 0 256"), NORMAL8_RUNS],
        ..ALONE
    },
    Case {
        name: "SENT of seventeen bits in Multi",
        changes: &[("serial ", "serial 2 1 1 9 0 65536 0"), MULTI_RUNS],
        ..ALONE
    },
    Case {
        name: "WORD of seventeen bits in Multi",
        changes: &[("serial ", "serial 2 1 1 9 0 0 65536"), MULTI_RUNS],
        ..ALONE
    },
    Case {
        name: "a transfer of a console that is off",
        changes: &[("serial ", "serial 2 1 1 9 0 0 0"), MULTI_RUNS],
        ..ASLEEP
    },
    Case {
        name: "a mode that the console itself told",
        changes: &[("known ", "known 2 3 3 3")],
        ..ALONE
    },
    Case {
        name: "a mode that nobody told",
        changes: &[("known ", "known 3 2 3 3")],
        ..ALONE
    },
    Case {
        name: "a mode that no last player told",
        changes: &[("known ", "known 3 3 3 0")],
        ..ALONE
    },
];

#[test]
fn serial_units_are_refused(rt: HostRuntime) -> Result<(), Fail> {
    play_all(&rt, rt.alloc(), &UNITS)
}

/// Two consoles, and signals.
static CABLES: [Case; 10] = [
    Case {
        name: "a step from where a signal may be due",
        changes: &[("clock ", "clock 1023"), ("was ", "was 512")],
        ..PAIR
    },
    Case {
        name: "a step from further than the shorter delay",
        second: &[
            ("console ", "console 1"),
            ("clock ", "clock 4"),
            ("was ", "was 1"),
        ],
        ..UNEVEN
    },
    Case {
        name: "a step from further than the longer delay",
        changes: &[("clock ", "clock 1025"), ("was ", "was 1024")],
        ..UNEVEN
    },
    Case {
        name: "signals not by their clocks",
        behind: "signal 0 0000000000000065 0000000000000000\nsignal 0 0000000000000064 0000000000000000\nend\n",
        ..BOTH
    },
    Case {
        name: "signals not by their senders",
        behind: "signal 1 0000000000000064 0000000000000000\nsignal 0 0000000000000064 0000000000000000\nend\n",
        ..BOTH
    },
    Case {
        name: "a signal twice",
        behind: "signal 0 0000000000000064 0000000000000000\nsignal 0 0000000000000064 0000000000000000\nend\n",
        ..BOTH
    },
    Case {
        name: "a signal that has arrived",
        behind: "signal 1 0000000000000055 0000000000000000\nend\n",
        ..BOTH
    },
    Case {
        name: "a signal of a step to come",
        behind: "signal 1 0000000000000258 0000000000000000\nend\n",
        ..BOTH
    },
    Case {
        name: "a signal behind what a peer may send",
        changes: &[("clock ", "clock 1535"), ("was ", "was 1023")],
        behind: "signal 0 0000000000000400 0000000000000000\nend\n",
        ..UNEVEN
    },
    Case {
        name: "a signal to nobody",
        changes: &[("clock ", "clock 3")],
        behind: "signal 0 0000000000000000 0000000000000000\nend\n",
        ..ALONE
    },
];

#[test]
fn cables_are_refused(rt: HostRuntime) -> Result<(), Fail> {
    play_all(&rt, rt.alloc(), &CABLES)
}
