//! Timers: writes of their registers, cycles, and what then reads.

use gba_timer::{Timer, Timers};
use std::process::Abort;
use std::test::Fail;

/// Something done to the timers, or something that must hold of them.
#[derive(Clone, Copy)]
enum Move {
    /// Write a halfword.
    Write(u32, u16),
    /// Move by so many cycles, after which so many of them had a mark, and the last mark that wasn't 0 was this.
    Cycles(u32, u32, u8),
    /// A halfword reads so.
    Reads(u32, u16),
    /// So many cycles are quiet.
    Quiet(u32),
    /// Of so many cycles, so many are.
    QuietWithin(u32, u32),
    /// So many are for the overflows of one timer.
    QuietOf(u32, u32),
    /// Skip so many cycles.
    Skip(u32),
}

use Move::{Cycles, Quiet, QuietOf, QuietWithin, Reads, Skip, Write};

/// Advances, and answers how many cycles had a mark, and the last mark that wasn't 0. The entry behind them must stay.
fn marks<R: Abort>(rt: &R, timers: &mut Timers, cycles: u32) -> (u32, u8) {
    assert!(rt; cycles <= 512);
    let mut mark = [9u8; 513];
    timers.advance(cycles, &mut mark);
    assert_eq!(rt; mark[cycles as usize], 9);
    let mut count = 0u32;
    let mut last = 0u8;
    for one in &mark[..cycles as usize] {
        if *one != 0 {
            count = count.saturating_add(1);
            last = *one;
        }
    }
    (count, last)
}

fn play<R: Abort>(rt: &R, moves: &[Move]) {
    let mut timers = Timers::new();
    for one in moves {
        match *one {
            Write(offset, value) => timers.write(offset, value),
            Cycles(cycles, count, last) => {
                assert_eq!(rt; marks(rt, &mut timers, cycles), (count, last));
            }
            Reads(offset, value) => assert_eq!(rt; timers.read(offset), value),
            Quiet(cycles) => assert_eq!(rt; timers.quiet(), cycles),
            QuietWithin(most, cycles) => assert_eq!(rt; timers.quiet_within(most), cycles),
            QuietOf(timer, cycles) => {
                assert!(rt; timer < 4);
                assert_eq!(rt; timers.quiet_of(timer), cycles);
            }
            Skip(cycles) => {
                assert!(rt; cycles <= timers.quiet_within(1024));
                timers.skip(cycles);
            }
        }
    }
}

/// Timer 0 at FFFFh with reload FFFFh overflows in each of twenty cycles, and timer 1 counts them by cascade.
static CASCADE: [Move; 8] = [
    Write(0x100, 0xFFFF),
    Write(0x106, 0x0084),
    Write(0x102, 0x0080),
    Reads(0x100, 0xFFFF),
    Cycles(20, 20, 1),
    Reads(0x104, 20),
    Reads(0x100, 0xFFFF),
    Reads(0x106, 0x0084),
];

/// The prescalers 1, 64, 256 and 1,024 over 1,024 cycles.
static PRESCALERS: [Move; 10] = [
    Write(0x102, 0x0080),
    Write(0x106, 0x0081),
    Write(0x10A, 0x0082),
    Write(0x10E, 0x0083),
    Cycles(512, 0, 0),
    Cycles(512, 0, 0),
    Reads(0x100, 1024),
    Reads(0x104, 16),
    Reads(0x108, 4),
    Reads(0x10C, 1),
];

/// After ten cycles of 64 the prescaler becomes 256, and the phase goes on: 246 cycles are left to the next count. Then
/// ten cycles, and the prescaler 1: the next cycle counts.
static CHANGED_PRESCALER: [Move; 11] = [
    Write(0x102, 0x0081),
    Cycles(10, 0, 0),
    Write(0x102, 0x0082),
    Cycles(245, 0, 0),
    Reads(0x100, 0),
    Cycles(1, 0, 0),
    Reads(0x100, 1),
    Cycles(10, 0, 0),
    Write(0x102, 0x0080),
    Cycles(2, 0, 0),
    Reads(0x100, 3),
];

/// Run set while running keeps the counter; a start takes the reload.
static RUN_WHILE_RUNNING: [Move; 10] = [
    Write(0x100, 0x1000),
    Write(0x102, 0x0080),
    Cycles(5, 0, 0),
    Write(0x102, 0x00C0),
    Reads(0x100, 0x1005),
    Write(0x102, 0x0040),
    Cycles(7, 0, 0),
    Reads(0x100, 0x1005),
    Write(0x102, 0x0080),
    Reads(0x100, 0x1000),
];

/// A cascade timer stands still where the timer below is stopped.
static LOWER_STOPS: [Move; 9] = [
    Write(0x104, 0xFFFE),
    Write(0x106, 0x0080),
    Write(0x10A, 0x0084),
    Cycles(2, 1, 2),
    Reads(0x108, 1),
    Write(0x106, 0x0000),
    Cycles(100, 0, 0),
    Reads(0x108, 1),
    Reads(0x104, 0xFFFE),
];

/// A reload that is written while the timer runs is taken at the overflow.
static RELOAD_WHILE_RUNNING: [Move; 8] = [
    Write(0x10C, 0xFFF0),
    Write(0x10E, 0x0080),
    Write(0x10C, 0x8000),
    Reads(0x10C, 0xFFF0),
    Cycles(15, 0, 0),
    Reads(0x10C, 0xFFFF),
    Cycles(1, 1, 8),
    Reads(0x10C, 0x8000),
];

/// Timers 2 and 3 overflow together where timer 3 cascades at FFFFh.
static TWO_OVERFLOWS: [Move; 6] = [
    Write(0x108, 0xFFFF),
    Write(0x10C, 0xFFFF),
    Write(0x10E, 0x0084),
    Write(0x10A, 0x0080),
    Cycles(1, 1, 12),
    Cycles(3, 3, 12),
];

/// A counter at FFFEh with prescaler 64 is quiet for 127 cycles, and overflows in the next.
static SKIPPED: [Move; 8] = [
    Write(0x100, 0xFFFE),
    Write(0x102, 0x0081),
    Quiet(127),
    Skip(100),
    Quiet(27),
    Skip(27),
    Reads(0x100, 0xFFFF),
    Cycles(1, 1, 1),
];

/// A counter at FC00h overflows in the 1,024th cycle, which 1,024 cycles ahead show and 512 don't.
static FAR: [Move; 10] = [
    Write(0x100, 0xFC00),
    Write(0x102, 0x0080),
    Quiet(512),
    QuietWithin(1024, 1023),
    QuietWithin(7, 7),
    Skip(1000),
    Reads(0x100, 0xFFE8),
    Quiet(23),
    Skip(23),
    Cycles(1, 1, 1),
];

/// Timer 0 at FFFFh with prescaler 64 and phase 60, the others stopped. Then the prescaler 256, and the prescaler 1,
/// for which the phase is past its end.
static PHASE_60: [Move; 10] = [
    Write(0x100, 0xFFFF),
    Write(0x102, 0x0081),
    Cycles(60, 0, 0),
    Quiet(3),
    QuietOf(0, 3),
    QuietOf(1, 512),
    Write(0x102, 0x0082),
    Quiet(195),
    Write(0x102, 0x0080),
    Quiet(0),
];

/// The last count of each prescaler: with 1,024 the overflow is past the 512 cycles that are looked at, up to its
/// phase 512.
static LAST_COUNTS: [Move; 14] = [
    Write(0x104, 0xFFFF),
    Write(0x106, 0x0080),
    Quiet(0),
    Write(0x106, 0x0000),
    Quiet(512),
    Write(0x106, 0x0082),
    Quiet(255),
    Write(0x106, 0x0083),
    Quiet(512),
    Cycles(511, 0, 0),
    Quiet(512),
    Skip(1),
    Quiet(511),
    QuietOf(1, 511),
];

/// Timer 1 counts the overflows of timer 0, which come every second cycle, and timer 2 those of timer 1. A stopped
/// timer ends the row.
static QUIET_CASCADES: [Move; 17] = [
    Write(0x100, 0xFFFE),
    Write(0x104, 0xFFFE),
    Write(0x108, 0xFFFF),
    Write(0x106, 0x0084),
    Write(0x10A, 0x0084),
    Quiet(512),
    QuietOf(2, 512),
    Write(0x102, 0x0080),
    Quiet(1),
    QuietOf(0, 1),
    QuietOf(1, 3),
    QuietOf(2, 3),
    QuietOf(3, 512),
    Cycles(3, 1, 1),
    Quiet(0),
    Write(0x106, 0x0004),
    QuietOf(2, 512),
];

/// Bits that aren't stored; timer 0 is no cascade timer; other offsets; idle timers are quiet.
static REGISTERS: [Move; 10] = [
    Write(0x102, 0xFF7F),
    Reads(0x102, 0x0043),
    Write(0x106, 0xFF7F),
    Reads(0x106, 0x0047),
    Write(0x110, 0xFFFF),
    Reads(0x110, 0),
    Write(0x101, 0xFFFF),
    Reads(0x100, 0),
    Quiet(512),
    Cycles(512, 0, 0),
];

#[test]
fn timers_count_as_worked_out(rt: HostRuntime) -> Result<(), Fail> {
    let cases: [&[Move]; 13] = [
        &CASCADE,
        &PRESCALERS,
        &CHANGED_PRESCALER,
        &RUN_WHILE_RUNNING,
        &LOWER_STOPS,
        &RELOAD_WHILE_RUNNING,
        &TWO_OVERFLOWS,
        &SKIPPED,
        &FAR,
        &PHASE_60,
        &LAST_COUNTS,
        &QUIET_CASCADES,
        &REGISTERS,
    ];
    for moves in cases {
        play(&rt, moves);
    }
    Ok(())
}

/// What a byte write keeps, a timer as a whole, one cycle by itself, and which overflows ask for an interrupt.
#[test]
fn timers_tell_their_numbers(rt: HostRuntime) -> Result<(), Fail> {
    let mut timers = Timers::new();
    timers.write(0x104, 0xFFFF);
    timers.write(0x106, 0x00C0);
    assert_eq!(rt; timers.kept(0x104), 0xFFFF);
    assert_eq!(rt; timers.kept(0x106), 0x00C0);
    assert_eq!(rt; timers.kept(0x200), 0);
    assert_eq!(rt; timers.requests(2), 2);
    assert_eq!(rt; timers.requests(13), 0);
    assert_eq!(rt; timers.cycle(), 2);
    let one = Timer {
        counter: 0xFFFF,
        reload: 0xFFFF,
        control: 0x00C0,
        phase: 0,
    };
    assert_eq!(rt; timers.timer(1), one);
    assert_eq!(rt; timers.timer(3).control, 0);
    Ok(())
}

/// A timer's counter, reload, control and phase.
type Numbers = (u16, u16, u16, u16);

fn timer((counter, reload, control, phase): Numbers) -> Timer {
    Timer {
        counter,
        reload,
        control,
        phase,
    }
}

/// What timers are made of, and what they are after a cycle: one at its last count, a cascade timer above it, one at
/// the last cycle of 64, and one whose phase is past its 256 cycles, as after a change of its prescaler.
static MADE: [(Numbers, Numbers); 4] = [
    ((0xFFFF, 0x1234, 0x0080, 0), (0x1234, 0x1234, 0x0080, 0)),
    ((5, 9, 0x0084, 40), (6, 9, 0x0084, 40)),
    ((0x0010, 0, 0x00C1, 63), (0x0011, 0, 0x00C1, 0)),
    ((7, 0xFFFE, 0x0082, 1023), (8, 0xFFFE, 0x0082, 0)),
];

#[test]
fn timers_are_made_of_their_numbers(rt: HostRuntime) -> Result<(), Fail> {
    let mut timers = Timers::of(
        timer(MADE[0].0),
        timer(MADE[1].0),
        timer(MADE[2].0),
        timer(MADE[3].0),
    );
    for number in 0..4u32 {
        assert_eq!(rt; timers.timer(number), timer(MADE[number as usize].0));
    }
    assert_eq!(rt; timers.read(0x104), 5);
    assert_eq!(rt; timers.kept(0x10C), 0xFFFE);
    assert_eq!(rt; timers.cycle(), 1);
    for number in 0..4u32 {
        assert_eq!(rt; timers.timer(number), timer(MADE[number as usize].1));
    }
    Ok(())
}
