//! A console into which parts are poured.

use crate::course::Look::{
    Clock, Frames, Half, Pairs, Register, SampleBytes, Transfers, Until, Was,
};
use crate::course::Move::{self, Run, Shows, Steps};
use crate::course::{goes, is, shows};
use crate::play::{ALONE, Play, images_of_source};
use gba_console::{KeyState, What};
use gba_devices::Devices;
use gba_flash::{FlashMachine, FlashState};
use gba_image::Backup;
use gba_io::{Counts, MemoryName, Room};
use std::alloc::Global;
use std::process::Abort;
use std::test::Fail;

const ROOM: Room = Room {
    until: 5_000,
    frames: true,
    samples: true,
    words: true,
};

/// Goes to the inner RAM.
static SOURCE: &[u8] = b"        mov   r1, #0x03000000
        bx    r1
";

/// ADD r0, r0, #1; and MOV r0, #42h. Both before a branch to itself less 4, which is the word before.
const ADDS: [u32; 2] = [0xE280_0001, 0xEAFF_FFFD];

const MOVES: [u32; 2] = [0xE3A0_0042, 0xEAFF_FFFD];

static KEYS: [KeyState; 2] = [
    KeyState { clock: 10, keys: 1 },
    KeyState {
        clock: 2_000,
        keys: 2,
    },
];

const COUNTS: Counts = Counts {
    frames: 7,
    samples: 11,
    words: 13,
};

/// A console with a flash, whose instructions in the inner RAM were executed before.
fn running<R: Abort>(rt: &R, alloc: Global) -> Result<Play, Fail> {
    let mut images = images_of_source(alloc, SOURCE)?;
    images.backup = Backup::Flash64;
    let mut console = Play::new(alloc, ALONE, 0, images, &KEYS, ROOM)?;
    console.put_words(rt, &ADDS);
    for _ in 0..6 {
        console.step(rt);
    }
    shows(rt, &console, "adds", Register(0), 2);
    Ok(console)
}

/// Devices at a clock and at the first dot of a frame.
fn devices_at<R: Abort>(rt: &R, clock: u32) -> Devices {
    let mut devices = Devices::new();
    assert!(rt; devices.clock() < 1_000_000);
    devices.rest(clock);
    devices
}

/// What it shows where it is poured.
const POURED: [Move; 7] = [
    Shows(Was, 996),
    Shows(Clock, 1_000),
    Shows(Until, 11_000),
    Shows(Frames, 7),
    Shows(Pairs, 11),
    Shows(Transfers, 13),
    Shows(SampleBytes, 0),
];

/// It goes on by MOV r0, #42h.
const GOES_ON: [Move; 3] = [
    Steps(1),
    Shows(Register(0), 0x42),
    Shows(Half(0x130), 0x3FF),
];

/// And by the second key change. The clock is 3,000 or at most two steps of 3 cycles more, so that five
/// pairs were made.
const RUNS_ON: [Move; 3] = [Run(3_000), Shows(Half(0x130), 0x3FD), Shows(Pairs, 15)];

/// Moves of a poured console, and what its last step did behind them.
static POURS: [(&str, &[Move], Option<What>); 3] = [
    ("poured", &POURED, Some(What::Nothing)),
    (
        "goes on",
        &GOES_ON,
        Some(What::Arm {
            address: 0x0300_0000,
            word: MOVES[0],
        }),
    ),
    ("runs on", &RUNS_ON, None),
];

/// Makes the moves.
fn goes_on<R: Abort>(rt: &R, console: &mut Play) {
    for &(case, moves, what) in &POURS {
        goes(rt, console, case, moves);
        is(rt, case, what.unwrap_or(console.last()), console.last());
    }
}

/// A poured console has the clocks and the counts, its lists are empty, its last step isn't told, and it goes on with
/// what stands in its memories, whatever was decoded before; the second key change is the next one.
#[test]
fn a_poured_console_goes_on(rt: HostRuntime) -> Result<(), Fail> {
    let mut console = running(&rt, rt.alloc())?;
    console.put_words(&rt, &MOVES);
    let devices = devices_at(&rt, 1_000);
    console.pour(&rt, devices, COUNTS, 1, &[])?;
    goes_on(&rt, &mut console);
    Ok(())
}

/// It is off below 1,010: with a step of 16 cycles it comes on at 1,016, and makes four pairs up to 3,000.
const COMES_ON: [Move; 8] = [
    Shows(Clock, 1_000),
    Shows(Pairs, 11),
    Steps(1),
    Shows(Clock, 1_016),
    Run(3_000),
    Shows(Pairs, 15),
    Shows(SampleBytes, 16),
    Shows(Frames, 7),
];

/// A poured console that is off keeps its counts, and comes on with the first of its steps that ends where
/// it may be on.
#[test]
fn a_poured_console_that_is_off_comes_on(rt: HostRuntime) -> Result<(), Fail> {
    let images = images_of_source(rt.alloc(), SOURCE)?;
    let mut console = Play::new(rt.alloc(), ALONE, 1_010, images, &KEYS, ROOM)?;
    let devices = devices_at(&rt, 1_000);
    console.pour(&rt, devices, COUNTS, 1, &[])?;
    goes(&rt, &mut console, "comes on", &COMES_ON);
    Ok(())
}

/// All bytes of these memories are 0.
fn are_cleared<R: Abort>(rt: &R, console: &Play) {
    for name in [MemoryName::Iwram, MemoryName::Backup] {
        assert!(rt;
            console.memory(name).iter().all(|byte| *byte == 0),
            "{name:?}"
        );
    }
}

/// A byte is programmed next.
const PROGRAMS: FlashMachine = FlashMachine {
    state: FlashState::Program,
    armed: false,
    identify: false,
    bank: 0,
};

/// The memories are cleared, and the flash goes on from a machine.
#[test]
fn memories_of_a_console_are_poured(rt: HostRuntime) -> Result<(), Fail> {
    let mut console = running(&rt, rt.alloc())?;
    console.clear_memories();
    are_cleared(&rt, &console);
    let machine = console.await_byte();
    is(&rt, "awaits a byte", machine, Some(PROGRAMS));
    Ok(())
}
