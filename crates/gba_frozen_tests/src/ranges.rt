//! The range of each number: at its end, and past it.

use crate::reading::{Cases, NUMBER, SPELLING, are_right};
use gba_frozen::{Row, Slot};

/// Lines by what they are about, each with why it is refused, if it is.
static NUMBERS: [Cases; 10] = [
    // the job's end is clock 1,000
    (
        "clocks and counts",
        &[
            (Slot::Fixed(Row::Clock), b"clock 1511", None),
            (Slot::Fixed(Row::Clock), b"clock 1512", NUMBER),
            (Slot::Fixed(Row::Was), b"was 1511", None),
            (Slot::Fixed(Row::Was), b"was 1512", NUMBER),
            (Slot::Fixed(Row::Applied), b"applied 1099511627775", None),
            (Slot::Fixed(Row::Applied), b"applied 1099511627776", NUMBER),
            (
                Slot::Fixed(Row::Counts),
                b"counts 1099511627775 1099511627775 1099511627775",
                None,
            ),
            (
                Slot::Fixed(Row::Counts),
                b"counts 1099511627776 0 0",
                NUMBER,
            ),
            (
                Slot::Fixed(Row::Counts),
                b"counts 0 1099511627776 0",
                NUMBER,
            ),
            (
                Slot::Fixed(Row::Counts),
                b"counts 0 0 1099511627776",
                NUMBER,
            ),
            (Slot::Fixed(Row::Halted), b"halted 1", None),
            (Slot::Fixed(Row::Halted), b"halted 2", NUMBER),
        ],
    ),
    // only the stored bits, and of CPSR one of the seven modes
    (
        "status registers",
        &[
            (Slot::Fixed(Row::Register(31)), b"cpsr 000000d3", None),
            (Slot::Fixed(Row::Register(31)), b"cpsr f00000ff", None),
            (Slot::Fixed(Row::Register(31)), b"cpsr 000000c0", NUMBER),
            (Slot::Fixed(Row::Register(31)), b"cpsr 000000d4", NUMBER),
            (Slot::Fixed(Row::Register(31)), b"cpsr 000001d3", NUMBER),
            (Slot::Fixed(Row::Register(31)), b"cpsr 080000d3", NUMBER),
            (Slot::Fixed(Row::Register(32)), b"spsr_fiq 00000000", None),
            (Slot::Fixed(Row::Register(32)), b"spsr_fiq 00000100", NUMBER),
            (Slot::Fixed(Row::Register(36)), b"spsr_und f00000ff", None),
            (Slot::Fixed(Row::Register(36)), b"spsr_und 08000000", NUMBER),
        ],
    ),
    // the bits of a control are those that a write stores; timer 0 has no cascade
    (
        "timers",
        &[
            (
                Slot::Fixed(Row::Timer(0)),
                b"timer 0 65535 65535 195 1023",
                None,
            ),
            (Slot::Fixed(Row::Timer(0)), b"timer 0 65536 0 0 0", NUMBER),
            (Slot::Fixed(Row::Timer(0)), b"timer 0 0 65536 0 0", NUMBER),
            (Slot::Fixed(Row::Timer(0)), b"timer 0 0 0 4 0", NUMBER),
            (Slot::Fixed(Row::Timer(0)), b"timer 0 0 0 0 1024", NUMBER),
            (Slot::Fixed(Row::Timer(1)), b"timer 1 0 0 199 0", None),
            (Slot::Fixed(Row::Timer(1)), b"timer 1 0 0 8 0", NUMBER),
            (Slot::Fixed(Row::Timer(1)), b"timer 1 0 0 65735 0", NUMBER),
        ],
    ),
    // inner addresses are words, and 65,536 units may be left
    (
        "channels",
        &[
            (
                Slot::Fixed(Row::Dma(3)),
                b"dma 3 1 1 4294967295 4294967295 65536",
                None,
            ),
            (Slot::Fixed(Row::Dma(3)), b"dma 3 2 0 0 0 0", NUMBER),
            (Slot::Fixed(Row::Dma(3)), b"dma 3 0 2 0 0 0", NUMBER),
            (
                Slot::Fixed(Row::Dma(3)),
                b"dma 3 0 0 4294967296 0 0",
                NUMBER,
            ),
            (
                Slot::Fixed(Row::Dma(3)),
                b"dma 3 0 0 0 4294967296 0",
                NUMBER,
            ),
            (Slot::Fixed(Row::Dma(3)), b"dma 3 0 0 0 0 65537", NUMBER),
            (Slot::Fixed(Row::Sequencer), b"sequencer 262143", None),
            (Slot::Fixed(Row::Sequencer), b"sequencer 262144", NUMBER),
        ],
    ),
    // the place by the channel, and the other parts
    (
        "tones",
        &[
            (
                Slot::Fixed(Row::Tone(1)),
                b"tone 1 1 7 16777215 256 15 7 7 2047",
                None,
            ),
            (Slot::Fixed(Row::Tone(1)), b"tone 1 2 0 0 0 0 0 0 0", NUMBER),
            (Slot::Fixed(Row::Tone(1)), b"tone 1 0 8 0 0 0 0 0 0", NUMBER),
            (
                Slot::Fixed(Row::Tone(1)),
                b"tone 1 0 0 16777216 0 0 0 0 0",
                NUMBER,
            ),
            (
                Slot::Fixed(Row::Tone(1)),
                b"tone 1 0 0 0 257 0 0 0 0",
                NUMBER,
            ),
            (
                Slot::Fixed(Row::Tone(1)),
                b"tone 1 0 0 0 0 16 0 0 0",
                NUMBER,
            ),
            (Slot::Fixed(Row::Tone(1)), b"tone 1 0 0 0 0 0 8 0 0", NUMBER),
            (Slot::Fixed(Row::Tone(1)), b"tone 1 0 0 0 0 0 0 8 0", NUMBER),
            (
                Slot::Fixed(Row::Tone(1)),
                b"tone 1 0 0 0 0 0 0 0 2048",
                NUMBER,
            ),
        ],
    ),
    // eight places, 64, or 15 bits
    (
        "places of tones",
        &[
            (Slot::Fixed(Row::Tone(2)), b"tone 2 0 7 0 0 0 0 0 0", None),
            (Slot::Fixed(Row::Tone(2)), b"tone 2 0 8 0 0 0 0 0 0", NUMBER),
            (Slot::Fixed(Row::Tone(3)), b"tone 3 0 63 0 0 0 0 0 0", None),
            (
                Slot::Fixed(Row::Tone(3)),
                b"tone 3 0 64 0 0 0 0 0 0",
                NUMBER,
            ),
            (
                Slot::Fixed(Row::Tone(4)),
                b"tone 4 0 32767 0 0 0 0 0 0",
                None,
            ),
            (
                Slot::Fixed(Row::Tone(4)),
                b"tone 4 0 32768 0 0 0 0 0 0",
                NUMBER,
            ),
        ],
    ),
    // the picture's place, the reference points, and the flash
    (
        "picture and flash",
        &[
            (Slot::Fixed(Row::Position), b"position 227 1231", None),
            (Slot::Fixed(Row::Position), b"position 228 0", NUMBER),
            (Slot::Fixed(Row::Position), b"position 0 1232", NUMBER),
            (
                Slot::Fixed(Row::Affine(2)),
                b"affine 2 ffffffff 80000000",
                None,
            ),
            (
                Slot::Fixed(Row::Affine(3)),
                b"affine 2 ffffffff 80000000",
                SPELLING,
            ),
            (Slot::Fixed(Row::Flash), b"flash 4 1 1 1", None),
            (Slot::Fixed(Row::Flash), b"flash 5 0 0 0", NUMBER),
            (Slot::Fixed(Row::Flash), b"flash 0 2 0 0", NUMBER),
            (Slot::Fixed(Row::Flash), b"flash 0 0 2 0", NUMBER),
            (Slot::Fixed(Row::Flash), b"flash 0 0 0 2", NUMBER),
        ],
    ),
    // its numbers, and the known modes
    (
        "serial unit",
        &[
            (
                Slot::Fixed(Row::Serial),
                b"serial 3 1 1 1099511627775 15 4294967295 4294967295",
                None,
            ),
            (Slot::Fixed(Row::Serial), b"serial 4 0 0 0 0 0 0", NUMBER),
            (Slot::Fixed(Row::Serial), b"serial 0 2 0 0 0 0 0", NUMBER),
            (Slot::Fixed(Row::Serial), b"serial 0 0 2 0 0 0 0", NUMBER),
            (
                Slot::Fixed(Row::Serial),
                b"serial 0 0 0 1099511627776 0 0 0",
                NUMBER,
            ),
            (Slot::Fixed(Row::Serial), b"serial 0 0 0 0 16 0 0", NUMBER),
            (
                Slot::Fixed(Row::Serial),
                b"serial 0 0 0 0 0 4294967296 0",
                NUMBER,
            ),
            (
                Slot::Fixed(Row::Serial),
                b"serial 0 0 0 0 0 0 4294967296",
                NUMBER,
            ),
            (Slot::Fixed(Row::Known), b"known 3 3 3 3", None),
            (Slot::Fixed(Row::Known), b"known 4 0 0 0", NUMBER),
            (Slot::Fixed(Row::Known), b"known 0 0 0 4", NUMBER),
        ],
    ),
    // one less than the end of each range
    (
        "numbers below their ends",
        &[
            (Slot::Fixed(Row::Clock), b"clock 1510", None),
            (Slot::Fixed(Row::Was), b"was 1510", None),
            (Slot::Fixed(Row::Applied), b"applied 1099511627774", None),
            (
                Slot::Fixed(Row::Counts),
                b"counts 1099511627774 1099511627774 1099511627774",
                None,
            ),
            (Slot::Fixed(Row::Halted), b"halted 0", None),
            (Slot::Fixed(Row::Register(30)), b"r14_und fffffffe", None),
            (Slot::Fixed(Row::Register(31)), b"cpsr f00000fb", None),
            (Slot::Fixed(Row::Register(36)), b"spsr_und f00000fe", None),
            (
                Slot::Fixed(Row::Timer(0)),
                b"timer 0 65534 65534 194 1022",
                None,
            ),
            (
                Slot::Fixed(Row::Timer(1)),
                b"timer 1 65534 65534 198 1022",
                None,
            ),
            (
                Slot::Fixed(Row::Dma(3)),
                b"dma 3 0 0 4294967294 4294967294 65535",
                None,
            ),
            (Slot::Fixed(Row::Sequencer), b"sequencer 262142", None),
            (
                Slot::Fixed(Row::Tone(1)),
                b"tone 1 0 6 16777214 255 14 6 6 2046",
                None,
            ),
            (Slot::Fixed(Row::Tone(2)), b"tone 2 0 6 0 0 0 0 0 0", None),
            (Slot::Fixed(Row::Tone(3)), b"tone 3 0 62 0 0 0 0 0 0", None),
            (
                Slot::Fixed(Row::Tone(4)),
                b"tone 4 0 32766 0 0 0 0 0 0",
                None,
            ),
            (Slot::Fixed(Row::Position), b"position 226 1230", None),
            (
                Slot::Fixed(Row::Affine(3)),
                b"affine 3 fffffffe fffffffe",
                None,
            ),
            (Slot::Fixed(Row::Flash), b"flash 3 0 0 0", None),
            (
                Slot::Fixed(Row::Serial),
                b"serial 2 0 0 1099511627774 14 4294967294 4294967294",
                None,
            ),
            (Slot::Fixed(Row::Known), b"known 2 2 2 2", None),
        ],
    ),
    // each of the known modes, and parts of the second timer
    (
        "middle numbers",
        &[
            (Slot::Fixed(Row::Known), b"known 0 4 0 0", NUMBER),
            (Slot::Fixed(Row::Known), b"known 0 0 4 0", NUMBER),
            (Slot::Fixed(Row::Timer(1)), b"timer 1 65536 0 0 0", NUMBER),
            (Slot::Fixed(Row::Timer(1)), b"timer 1 0 65536 0 0", NUMBER),
            (Slot::Fixed(Row::Timer(1)), b"timer 1 0 0 0 1024", NUMBER),
        ],
    ),
];

#[test]
fn numbers_have_their_ranges(rt: HostRuntime) {
    for &(what, cases) in &NUMBERS {
        are_right(&rt, what, cases);
    }
}
