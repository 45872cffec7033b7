//! A board that moves by many cycles at once beside one that moves cycle by cycle.

use crate::bench::{Bench, Seat};
use crate::shown::is;
use gba_bus::Width::Word;
use gba_io::{Counts, Room};
use gba_ppu_reg::Position;
use std::alloc::Global;
use std::process::Abort;
use std::test::Fail;

/// The registers that run, as words: direct sound from timers 0 and 1, four tone channels, four timers of which timer 1
/// counts timer 0's overflows, with their interrupts, and the picture's interrupts with line 3 to match.
pub(crate) static RUNNING: [(u32, u32); 17] = [
    (0x084, 0x0000_0080),
    (0x080, 0x4302_FF77),
    (0x090, 0x7654_3210),
    (0x060, 0xF080_0000),
    (0x064, 0x0000_87FE),
    (0x068, 0x0000_A000),
    (0x06C, 0x0000_87D0),
    (0x070, 0x2000_00E0),
    (0x074, 0x0000_87FF),
    (0x078, 0x0000_F000),
    (0x07C, 0x0000_8008),
    (0x0A0, 0x4433_2211),
    (0x100, 0x00C0_FFA0),
    (0x104, 0x00C4_FFFD),
    (0x108, 0x00C1_FFFB),
    (0x10C, 0x00C2_FFFF),
    (0x004, 0x0000_0338),
];

/// Lengths of moves.
static MOVES: [u32; 8] = [16, 1, 3, 512, 16, 225, 47, 16];

/// A board of one console, with room for a million cycles, whose samples are kept or not.
fn bench_of(alloc: Global, samples: bool) -> Result<Bench, Fail> {
    let seat = Seat {
        player: 0,
        count: 1,
        delay: 1,
    };
    let room = Room {
        until: 1_000_000,
        frames: false,
        samples,
        words: false,
    };
    Bench::of(alloc, 0, seat, room)
}

/// Lets the registers of a board run.
pub(crate) fn set_running<R: Abort>(rt: &R, bench: &mut Bench) {
    for &(offset, value) in &RUNNING {
        is(rt, "a price", bench.store_io(offset, Word, value), 1);
    }
}

/// A board whose registers run.
fn running(rt: &impl Abort, alloc: Global, samples: bool) -> Result<Bench, Fail> {
    let mut bench = bench_of(alloc, samples)?;
    set_running(rt, &mut bench);
    Ok(bench)
}

fn check_timers<R: Abort>(rt: &R, one: &Bench, other: &Bench) {
    for number in 0..4u32 {
        let timers = (one.timer(rt, number), other.timer(rt, number));
        is(rt, "a timer", (number, timers.0), (number, timers.1));
    }
}

fn check_tones<R: Abort>(rt: &R, one: &Bench, other: &Bench) {
    for channel in 0..4u32 {
        let tones = (one.tone(rt, channel), other.tone(rt, channel));
        is(rt, "a tone channel", (channel, tones.0), (channel, tones.1));
    }
}

fn check_queues<R: Abort>(rt: &R, one: &Bench, other: &Bench) {
    for queue in 0..2u32 {
        let queues = (one.queue(rt, queue), other.queue(rt, queue));
        is(rt, "a queue", (queue, queues.0), (queue, queues.1));
    }
}

/// The clock, the place of the picture, the requests, the cycles since the sound was turned on, and what was made.
fn numbers(bench: &Bench) -> (u64, Position, u16, u32, Counts) {
    (
        bench.board.core.clock(),
        bench.board.core.devices().place(),
        bench.board.core.io_half(0x202),
        bench.board.core.devices().sequencer(),
        bench.board.counts(),
    )
}

/// Both boards are the same, as far as their clocks, places, timers, queues, tones, requests and samples tell.
pub(crate) fn check<R: Abort>(rt: &R, one: &Bench, other: &Bench) {
    is(rt, "numbers", numbers(one), numbers(other));
    check_timers(rt, one, other);
    check_tones(rt, one, other);
    check_queues(rt, one, other);
    assert!(rt; one.board.made.samples() == other.board.made.samples());
}

/// So many moves by so many cycles.
fn advance_often<R: Abort>(rt: &R, bench: &mut Bench, times: u32, cycles: u32) {
    for _ in 0..times {
        bench.advance(rt, cycles);
    }
}

/// Moves one board at once and the other cycle by cycle. Steps that the one then owes are as many moves of the other.
fn step_both<R: Abort>(rt: &R, one: &mut Bench, other: &mut Bench, cycles: u32) {
    one.advance(rt, cycles);
    advance_often(rt, other, cycles, 1);
    let steps = one.owe_steps(rt, 16, 9);
    advance_often(rt, other, steps, 16);
    check(rt, one, other);
}

fn skip_and_step<R: Abort>(rt: &R, alloc: Global, samples: bool) -> Result<(), Fail> {
    let mut one = running(rt, alloc, samples)?;
    let mut other = running(rt, alloc, samples)?;
    for _ in 0..12 {
        for cycles in &MOVES {
            step_both(rt, &mut one, &mut other, *cycles);
        }
    }
    is(
        rt,
        "pairs",
        one.board.counts().samples,
        one.board.core.clock() / 512,
    );
    Ok(())
}

/// Eight lines, with all events of the devices but DMA, with samples kept and not.
#[test]
fn boards_skip_as_they_step(rt: HostRuntime) -> Result<(), Fail> {
    for samples in [true, false] {
        skip_and_step(&rt, rt.alloc(), samples)?;
    }
    Ok(())
}

/// Moves by so many cycles, and then owes steps of so many, at most so many: how many it owes, and the clock and the
/// pairs then.
type Owing = (u32, u32, u32, [u64; 3]);

/// With nothing that runs, the steps go to the pair of samples at clock 512, to the limit of the quiet cycles,
/// and to HBlank.
static HEARD: [Owing; 4] = [
    (0, 16, 20, [20, 320, 0]),
    (0, 16, 20, [11, 496, 0]),
    (0, 16, 20, [0, 496, 0]),
    (16, 1, 511, [493, 1005, 1]),
];

/// Where samples aren't kept the steps go on past the pair, and past the 512 cycles of a look, to HBlank: the second
/// twenty are twelve up to the end of the first look at 512 and eight of the next.
static NOT_HEARD: [Owing; 5] = [
    (0, 16, 20, [20, 320, 0]),
    (0, 16, 20, [20, 640, 1]),
    (0, 16, 20, [20, 960, 1]),
    (0, 16, 20, [2, 992, 1]),
    (0, 16, 20, [0, 992, 1]),
];

/// How many steps a board owes behind a move, and its clock and its pairs then.
fn owed<R: Abort>(rt: &R, bench: &mut Bench, moved: u32, cycles: u32, most: u32) -> [u64; 3] {
    bench.advance(rt, moved);
    let steps = bench.owe_steps(rt, cycles, most);
    [
        u64::from(steps),
        bench.board.core.clock(),
        bench.board.counts().samples,
    ]
}

fn owes<R: Abort>(rt: &R, bench: &mut Bench, owing: &[Owing]) {
    for &(moved, cycles, most, wanted) in owing {
        let got = owed(rt, bench, moved, cycles, most);
        is(rt, "steps, clock and pairs", got, wanted);
    }
}

/// A new board, whose samples are kept or not, owes so many steps.
fn new_owes<R: Abort>(rt: &R, alloc: Global, samples: bool, owing: &[Owing]) -> Result<(), Fail> {
    let mut bench = bench_of(alloc, samples)?;
    owes(rt, &mut bench, owing);
    Ok(())
}

#[test]
fn steps_are_owed_up_to_what_happens(rt: HostRuntime) -> Result<(), Fail> {
    new_owes(&rt, rt.alloc(), true, &HEARD)?;
    new_owes(&rt, rt.alloc(), false, &NOT_HEARD)
}
