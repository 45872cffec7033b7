//! Consoles that are off below a clock.

use crate::course::Look::{Clock, FrameBytes, Frames, Pairs, Register, SampleBytes};
use crate::course::Move::{Run, Shows};
use crate::course::{ROOM, goes, shows};
use crate::play::{ALONE, Play, comes_to, images_of_source};
use gba_console::KeyState;
use gba_io::Room;
use std::alloc::Global;
use std::test::Fail;

/// Branches to itself: 3 cycles a step.
pub(crate) const LOOPS: &[u8] = b"
end:    b end
";

/// Reads the keys in its second instruction.
const READS_KEYS: &[u8] = b"
        mov r0, #0x04000000
        add r0, r0, #0x100
        ldrh r1, [r0, #0x30]
end:    b end
";

/// A console alone with this source and these keys, off below a clock, with room for 2^20 cycles.
fn console_of(alloc: Global, source: &[u8], off: u64, keys: &[KeyState]) -> Result<Play, Fail> {
    let room = Room {
        until: 1 << 20,
        ..ROOM
    };
    let images = images_of_source(alloc, source)?;
    Play::new(alloc, ALONE, off, images, keys, room)
}

/// Where it is off below a clock and steps up to another one, the clock that it comes to: 16 cycles at a time up to the
/// first multiple of 16 at which it is on, and from there 3 at a time.
static CLOCKS: [(u64, u64, u64); 11] = [
    (0, 1, 3),
    (1, 1, 16),
    (1, 17, 19),
    (15, 17, 19),
    (16, 16, 16),
    (16, 17, 19),
    (17, 17, 32),
    (17, 33, 35),
    (1000, 1, 16),
    (1000, 1001, 1008),
    (1000, 1009, 1011),
];

#[test]
fn clocks_rise_by_sixteen(rt: HostRuntime) -> Result<(), Fail> {
    for &(off, until, clock) in &CLOCKS {
        let mut console = console_of(rt.alloc(), LOOPS, off, &[])?;
        comes_to(&rt, &mut console, until, clock);
    }
    Ok(())
}

/// The clock below which it is off, that of its first step, and how many pairs of samples it has 196,896 cycles later:
/// one for each multiple of 512 behind the first step. By then its first frame is whole, and 3 cycles earlier it isn't.
static MAKES: [(&str, u64, u64, u64); 7] = [
    ("off below 0", 0, 0, 384),
    ("off below 1", 1, 16, 384),
    ("off below 15", 15, 16, 384),
    ("off below 16", 16, 16, 384),
    ("off below 17", 17, 32, 384),
    ("off below 490", 490, 496, 385),
    ("off below 512", 512, 512, 384),
];

#[test]
fn makes_begin_with_the_first_step(rt: HostRuntime) -> Result<(), Fail> {
    for &(case, off, first, pairs) in &MAKES {
        assert!(rt; first <= 1 << 20 && pairs <= 1 << 20);
        let mut console = console_of(rt.alloc(), LOOPS, off, &[])?;
        let moves = [
            Run(first + 196_893),
            Shows(Clock, first + 196_893),
            Shows(Frames, 0),
            Shows(FrameBytes, 0),
            Run(first + 196_894),
            Shows(Clock, first + 196_896),
            Shows(Frames, 1),
            Shows(Pairs, pairs),
            Shows(FrameBytes, 76_800),
            Shows(SampleBytes, 4 * pairs),
        ];
        goes(&rt, &mut console, case, &moves);
    }
    Ok(())
}

/// Changes while it is off are applied: the last one at or below its first step is what it reads.
static KEYS: [KeyState; 3] = [
    KeyState {
        clock: 5,
        keys: 0x001,
    },
    KeyState {
        clock: 100,
        keys: 0x00C,
    },
    KeyState {
        clock: 9000,
        keys: 0x3FF,
    },
];

/// The clock below which it is off, and what it reads.
static READS: [(&str, u64, u64); 4] = [
    ("off below 0", 0, 0x3FF),
    ("off below 16", 16, 0x3FE),
    ("off below 101", 101, 0x3F3),
    ("off below 5000", 5000, 0x3F3),
];

#[test]
fn keys_change_while_it_is_off(rt: HostRuntime) -> Result<(), Fail> {
    for &(case, off, read) in &READS {
        assert!(rt; off <= 1 << 20);
        let mut console = console_of(rt.alloc(), READS_KEYS, off, &KEYS)?;
        console.run(&rt, off + 32);
        shows(&rt, &console, case, Register(1), read);
    }
    Ok(())
}
