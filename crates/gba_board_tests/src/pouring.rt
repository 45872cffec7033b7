//! Boards into which parts are poured.

use crate::bench::{Bench, Seat};
use crate::shown::is;
use crate::skipping::{RUNNING, check, set_running};
use gba_bus::Width;
use gba_bus::Width::{Byte, Half, Word};
use gba_devices::Devices;
use gba_io::{BoardParts, Counts, MemoryName, Room};
use gba_mem::MemoryPart;
use std::alloc::Global;
use std::process::Abort;
use std::test::Fail;

/// A board of player 0 of two, which keeps all that it makes.
fn bench_of(alloc: Global) -> Result<Bench, Fail> {
    let seat = Seat {
        player: 0,
        count: 2,
        delay: 1,
    };
    let room = Room {
        until: 1_000_000,
        frames: true,
        samples: true,
        words: true,
    };
    Bench::of(alloc, 0, seat, room)
}

fn store<R: Abort>(rt: &R, devices: &mut Devices, offset: u32, width: Width, value: u32) {
    assert!(rt; offset < 0x400);
    devices.store(offset, width, value);
}

/// Lets the registers of devices run.
fn begin<R: Abort>(rt: &R, devices: &mut Devices) {
    for &(offset, value) in &RUNNING {
        store(rt, devices, offset, Word, value);
    }
}

fn cycle<R: Abort>(rt: &R, devices: &mut Devices) {
    assert!(rt; devices.clock() < 2_000_000);
    devices.cycle();
}

/// Moves devices by 512 cycles.
fn advance<R: Abort>(rt: &R, devices: &mut Devices) {
    assert!(rt; devices.clock() < 2_000_000);
    if devices.owe(512) {
        return;
    }
    for _ in 0..512 {
        cycle(rt, devices);
    }
}

/// Starts a transfer in Multi that no peer answers. It ends 5,220 cycles later.
fn transfer(bench: &mut Bench, word: u32) {
    bench.store(0x0400_0134, Half, 0);
    bench.store(0x0400_012A, Half, word);
    bench.store(0x0400_0128, Half, 0x2083);
}

/// A step of 512 cycles before which the colour behind all layers changes.
fn step<R: Abort>(rt: &R, bench: &mut Bench, number: u32) {
    bench.board.core.begin();
    bench.store(0x0500_0000, Half, 97 * (number % 300));
    bench.end_due(rt);
    bench.advance(rt, 512);
}

/// Both go to clock 122,880, in line 99: a transfer has ended, and another one runs.
fn run<R: Abort>(rt: &R, bench: &mut Bench, devices: &mut Devices) {
    for number in 0..240 {
        if number == 0 || number == 235 {
            transfer(bench, 0x1234 + number);
        }
        devices.begin();
        step(rt, bench, number);
        advance(rt, devices);
    }
}

/// The memories by both their names.
static MEMORIES: [(MemoryName, MemoryPart); 6] = [
    (MemoryName::Wram, MemoryPart::Work),
    (MemoryName::Iwram, MemoryPart::Inner),
    (MemoryName::Palette, MemoryPart::Palette),
    (MemoryName::Vram, MemoryPart::Vram),
    (MemoryName::Oam, MemoryPart::Oam),
    (MemoryName::Backup, MemoryPart::Backup),
];

/// Pours a board's memories into another one.
fn pour_memories<R: Abort>(rt: &R, one: &Bench, other: &mut Bench) {
    for &(name, part) in &MEMORIES {
        other.set_bytes(rt, part, one.board.core.memory(name));
    }
}

/// Pours all of a board, whose devices are these, into another one.
fn pour_all<R: Abort>(
    rt: &R,
    alloc: Global,
    one: &Bench,
    devices: Devices,
    other: &mut Bench,
) -> Result<(), Fail> {
    let lines = one.lines(rt, alloc)?;
    let parts = BoardParts {
        devices,
        serial: one.serial(),
        counts: one.board.counts(),
    };
    other.pour(rt, parts, lines.as_slice());
    pour_memories(rt, one, other);
    Ok(())
}

fn check_halves<R: Abort>(rt: &R, one: &Bench, other: &Bench) {
    for half in 0..0x200 {
        let got = (half, one.board.core.io_half(2 * half));
        is(
            rt,
            "a halfword",
            got,
            (half, other.board.core.io_half(2 * half)),
        );
    }
}

/// Both go on alike.
fn go_on<R: Abort>(rt: &R, one: &mut Bench, other: &mut Bench) {
    check(rt, one, other);
    check_halves(rt, one, other);
    for number in 240..400 {
        step(rt, one, number);
        step(rt, other, number);
        check(rt, one, other);
    }
    check_halves(rt, one, other);
    assert!(rt;
        one.board.made.frames() == other.board.made.frames()
            && one.board.words() == other.board.words()
    );
}

/// How much of frames, samples and transfers was made, and how many bytes of frames and how many transfers are kept.
fn made(bench: &Bench) -> [u64; 5] {
    let counts = bench.board.counts();
    [
        counts.frames,
        counts.samples,
        counts.words,
        bench.board.made.frames().len() as u64,
        bench.board.words().len() as u64,
    ]
}

/// Devices that have come with a board to where a transfer runs.
fn come<R: Abort>(rt: &R, bench: &mut Bench) -> Devices {
    let mut devices = Devices::new();
    set_running(rt, bench);
    begin(rt, &mut devices);
    run(rt, bench, &mut devices);
    devices
}

/// A board of another one's parts, lines and memories makes what that one makes: the rest of a frame whose first lines
/// had other colours, the pairs of samples of sounds that had begun, and the end of a transfer that ran.
#[test]
fn a_poured_board_goes_on(rt: HostRuntime) -> Result<(), Fail> {
    let mut one = bench_of(rt.alloc())?;
    let devices = come(&rt, &mut one);
    let mut other = bench_of(rt.alloc())?;
    pour_all(&rt, rt.alloc(), &one, devices, &mut other)?;
    one.forget(&rt);
    go_on(&rt, &mut one, &mut other);
    is(&rt, "what was made", made(&other), [1, 400, 2, 76_800, 1]);
    Ok(())
}

/// Counts of a board that has made nothing, something, and all that fits.
static COUNTS: [Counts; 3] = [
    Counts {
        frames: 0,
        samples: 0,
        words: 0,
    },
    Counts {
        frames: 7,
        samples: 11,
        words: 13,
    },
    Counts {
        frames: 0xFF_FFFF_FFFF,
        samples: 0xFF_FFFF_FFFF,
        words: 0xFF_FFFF_FFFF,
    },
];

/// Halted devices, with 3 waits for the first access to the ROM and 1 for the next.
fn halted<R: Abort>(rt: &R) -> Devices {
    let mut devices = Devices::new();
    store(rt, &mut devices, 0x204, Half, 0x4317);
    store(rt, &mut devices, 0x301, Byte, 0);
    devices.begin();
    devices
}

/// Nothing asks for more than an instruction, or something does, and an access to the ROM costs this.
fn costs<R: Abort>(rt: &R, bench: &Bench, calm: bool, price: u32) {
    let got = (
        bench.board.core.is_calm(),
        bench.code_price(0x0800_0000, Half),
    );
    is(rt, "calm, and the price", got, (calm, price));
}

/// Counts from these on, with the pair of samples at clock 512.
fn counts_on<R: Abort>(rt: &R, bench: &mut Bench, counts: Counts) {
    is(rt, "counts", bench.board.counts(), counts);
    bench.advance(rt, 512);
    let made = bench.board.counts().samples.checked_sub(counts.samples);
    is(
        rt,
        "one pair",
        (made, bench.board.made.samples().len()),
        (Some(1), 4),
    );
}

/// Pours halted devices and these counts.
fn pour_counts<R: Abort>(rt: &R, bench: &mut Bench, counts: Counts) {
    costs(rt, bench, true, 5);
    let parts = BoardParts {
        devices: halted(rt),
        serial: bench.serial(),
        counts,
    };
    bench.pour(rt, parts, &[]);
    costs(rt, bench, false, 4);
}

/// The counts go on from any numbers. What asks for more than an instruction, and what an access to the ROM costs, are
/// the poured devices': halted, and WAITCNT with 3 waits for the first access and 1 for the next.
#[test]
fn counts_are_poured(rt: HostRuntime) -> Result<(), Fail> {
    for &counts in &COUNTS {
        let mut bench = bench_of(rt.alloc())?;
        bench.advance(&rt, 511);
        pour_counts(&rt, &mut bench, counts);
        counts_on(&rt, &mut bench, counts);
    }
    Ok(())
}

/// Puts three bytes at the front of each memory.
fn put_bytes<R: Abort>(rt: &R, bench: &mut Bench) {
    for &(_, part) in &MEMORIES {
        bench.set_bytes(rt, part, &[0x11, 0x22, 0x33]);
    }
}

/// The third byte of each memory is the last one that was put.
fn are_put<R: Abort>(rt: &R, bench: &Bench) {
    for &(name, _) in &MEMORIES {
        let third = bench.board.core.memory(name).get(2).copied();
        is(rt, "the third byte", (name, third), (name, Some(0x33)));
    }
}

/// Whether all bytes of a memory are 0.
fn is_clear(bytes: &[u8]) -> bool {
    bytes.iter().all(|byte| *byte == 0)
}

/// All bytes of all memories are 0.
fn are_cleared<R: Abort>(rt: &R, bench: &Bench) {
    for &(name, _) in &MEMORIES {
        is(
            rt,
            "clear",
            (name, is_clear(bench.board.core.memory(name))),
            (name, true),
        );
    }
}

/// The memories of a board are replaced and cleared, and its SRAM has no machine.
#[test]
fn memories_are_poured(rt: HostRuntime) -> Result<(), Fail> {
    let mut bench = bench_of(rt.alloc())?;
    put_bytes(&rt, &mut bench);
    are_put(&rt, &bench);
    bench.restore_flash();
    is(&rt, "a machine", bench.board.core.flash_machine(), None);
    bench.board.core.clear_memories();
    are_cleared(&rt, &bench);
    Ok(())
}
