//! DMA: writes of the channels' registers, events, units and their ends, and what then stands.

use DmaEvent::{HBlank, QueueA, QueueB, VBlank};
use gba_bus::Width;
use gba_bus::Width::{Half, Word};
use gba_dma::{Channel, Channels, DmaEvent, Unit};
use std::process::Abort;
use std::test::Fail;

/// Something done to the channels, or something that must hold of them.
#[derive(Clone, Copy)]
enum Move {
    /// Write a halfword.
    Write(u32, u16),
    /// Write source, destination, count and control of a channel.
    Start(u32, u32, u32, u16, u16),
    /// An event comes.
    Event(DmaEvent),
    /// The next unit is this: channel, source, destination, width, whether it is the first.
    Next(u32, u32, u32, Width, bool),
    /// A unit of the lowest channel ends, and requests this channel's interrupt.
    Done(Option<u32>),
    /// A unit of this channel ends.
    DoneOf(u32, Option<u32>),
    /// No channel is active.
    Idle,
    /// So many units of a channel are left.
    Left(u32, u32),
    /// A halfword reads so.
    Reads(u32, u16),
    /// This is stored in a halfword.
    Keeps(u32, u16),
}

use Move::{Done, DoneOf, Event, Idle, Keeps, Left, Next, Reads, Start, Write};

fn channel_of<R: Abort>(rt: &R, channels: &Channels, number: u32) -> Channel {
    assert!(rt; number < 4);
    channels.channel(number)
}

fn end_of<R: Abort>(rt: &R, channels: &mut Channels, number: u32) -> Option<u32> {
    assert!(rt; number < 4);
    channels.unit_done_of(number)
}

/// Writes all registers of a channel.
fn start<R: Abort>(
    rt: &R,
    channels: &mut Channels,
    number: u32,
    source: u32,
    target: u32,
    count: u16,
    control: u16,
) {
    assert!(rt; number < 4);
    let base = 0x0B0 + 12 * number;
    channels.write(base, (source % 0x1_0000) as u16);
    channels.write(base + 2, (source / 0x1_0000) as u16);
    channels.write(base + 4, (target % 0x1_0000) as u16);
    channels.write(base + 6, (target / 0x1_0000) as u16);
    channels.write(base + 8, count);
    channels.write(base + 10, control);
}

fn play<R: Abort>(rt: &R, moves: &[Move]) {
    let mut channels = Channels::new();
    for one in moves {
        match *one {
            Write(offset, value) => channels.write(offset, value),
            Start(number, source, target, count, control) => {
                start(rt, &mut channels, number, source, target, count, control);
            }
            Event(event) => channels.trigger(event),
            Next(channel, source, target, width, first) => {
                let unit = Unit {
                    channel,
                    source,
                    target,
                    width,
                    first,
                };
                assert_eq!(rt; channels.next_unit(), Some(unit));
            }
            Done(interrupt) => assert_eq!(rt; channels.unit_done(), interrupt),
            DoneOf(number, interrupt) => assert_eq!(rt;
                end_of(rt, &mut channels, number),
                interrupt
            ),
            Idle => assert_eq!(rt; channels.next_unit(), None),
            Left(number, left) => assert_eq!(rt; channel_of(rt, &channels, number).left, left),
            Reads(offset, value) => assert_eq!(rt; channels.read(offset), value),
            Keeps(offset, value) => assert_eq!(rt; channels.kept(offset), value),
        }
    }
}

/// Two halfwords upwards. The addresses are aligned at each unit, and their low bits are kept.
static HALVES_UP: [Move; 7] = [
    Start(3, 0x0200_0001, 0x0300_0003, 2, 0x8000),
    Next(3, 0x0200_0000, 0x0300_0002, Half, true),
    Done(None),
    Next(3, 0x0200_0002, 0x0300_0004, Half, false),
    Done(None),
    Idle,
    Reads(0x0DE, 0x0000),
];

/// Two words, the source downwards, the destination fixed, with the interrupt.
static WORDS_DOWN: [Move; 7] = [
    Start(0, 0x0200_0010, 0x0300_0000, 2, 0xC4C0),
    Next(0, 0x0200_0010, 0x0300_0000, Word, true),
    Done(None),
    Next(0, 0x0200_000C, 0x0300_0000, Word, false),
    Done(Some(0)),
    Idle,
    Reads(0x0BA, 0x44C0),
];

/// The source fixed, and the destination down past 0, where addresses wrap.
static DOWN_PAST_0: [Move; 4] = [
    Start(1, 0x0800_0000, 0x0000_0000, 2, 0x8120),
    Next(1, 0x0800_0000, 0x0000_0000, Half, true),
    Done(None),
    Next(1, 0x0800_0000, 0xFFFF_FFFE, Half, false),
];

/// Source step 3 goes up as 0 does; destination step 3 goes up while the run lasts.
static STEP_3: [Move; 4] = [
    Start(2, 0x0200_0000, 0x0300_0000, 2, 0x85E0),
    Next(2, 0x0200_0000, 0x0300_0000, Word, true),
    Done(None),
    Next(2, 0x0200_0004, 0x0300_0004, Word, false),
];

/// At VBlank again and again: the count and the destination are loaded again, and the source goes on.
static RELOADED: [Move; 15] = [
    Start(2, 0x0200_0000, 0x0300_0000, 2, 0x9260),
    Idle,
    Event(HBlank),
    Idle,
    Event(VBlank),
    Next(2, 0x0200_0000, 0x0300_0000, Half, true),
    Done(None),
    Next(2, 0x0200_0002, 0x0300_0002, Half, false),
    Done(None),
    Idle,
    Left(2, 2),
    Reads(0x0D2, 0x9260),
    Event(VBlank),
    Next(2, 0x0200_0004, 0x0300_0000, Half, true),
    Done(None),
];

/// Repeating at VBlank without the reload: the destination goes on.
static NOT_RELOADED: [Move; 6] = [
    Start(0, 0x0200_0000, 0x0300_0000, 1, 0x9200),
    Event(VBlank),
    Done(None),
    Idle,
    Event(VBlank),
    Next(0, 0x0200_0002, 0x0300_0002, Half, true),
];

/// At timing 0 nothing repeats, and at HBlank only what repeats.
static ENDED: [Move; 12] = [
    Start(1, 0x0200_0000, 0x0300_0000, 1, 0x8200),
    Done(None),
    Idle,
    Reads(0x0C6, 0x0200),
    Start(3, 0x0200_0000, 0x0300_0000, 1, 0xE000),
    Idle,
    Event(HBlank),
    Done(Some(3)),
    Idle,
    Reads(0x0DE, 0x6000),
    Event(HBlank),
    Idle,
];

/// A trigger of an active channel is ignored.
static TRIGGERED_TWICE: [Move; 7] = [
    Start(1, 0x0200_0000, 0x0300_0000, 3, 0xA200),
    Event(HBlank),
    Done(None),
    Event(HBlank),
    Next(1, 0x0200_0002, 0x0300_0002, Half, false),
    Left(1, 2),
    Done(None),
];

/// For a queue the run has four words and a fixed destination, whatever count, width and steps say.
static FOR_A_QUEUE: [Move; 17] = [
    Start(1, 0x0200_0000, 0x0400_00A0, 100, 0xF200),
    Idle,
    Left(1, 100),
    Event(QueueB),
    Idle,
    Event(QueueA),
    Left(1, 4),
    Next(1, 0x0200_0000, 0x0400_00A0, Word, true),
    Done(None),
    Next(1, 0x0200_0004, 0x0400_00A0, Word, false),
    Done(None),
    Done(None),
    Next(1, 0x0200_000C, 0x0400_00A0, Word, false),
    Done(Some(1)),
    Idle,
    Left(1, 100),
    Reads(0x0C6, 0xF200),
];

/// Channel 2 for queue B.
static FOR_QUEUE_B: [Move; 6] = [
    Start(2, 0x0200_0000, 0x0400_00A4, 1, 0xB000),
    Event(QueueA),
    Idle,
    Event(QueueB),
    Next(2, 0x0200_0000, 0x0400_00A4, Word, true),
    Left(2, 4),
];

/// Channels 0 and 3 have no such timing, nor has channel 1 at another address.
static NO_QUEUE: [Move; 9] = [
    Start(0, 0x0200_0000, 0x0400_00A0, 1, 0xB000),
    Start(3, 0x0200_0000, 0x0400_00A0, 1, 0xB000),
    Start(1, 0x0200_0000, 0x0400_00A2, 1, 0xB000),
    Event(QueueA),
    Event(QueueB),
    Event(VBlank),
    Event(HBlank),
    Idle,
    Left(3, 1),
];

/// Another timing without a start triggers nothing, and counts from then on.
static OTHER_TIMING: [Move; 8] = [
    Start(3, 0x0200_0000, 0x0300_0000, 1, 0x9000),
    Write(0x0DE, 0x8000),
    Idle,
    Event(VBlank),
    Idle,
    Write(0x0DE, 0xA000),
    Event(HBlank),
    Next(3, 0x0200_0000, 0x0300_0000, Half, true),
];

/// A unit writes 0 to its own control: the run has ended, without the interrupt, and the unit isn't counted.
static STOPS_ITSELF: [Move; 7] = [
    Start(3, 0x0200_0000, 0x0400_00DE, 4, 0xC040),
    Next(3, 0x0200_0000, 0x0400_00DE, Half, true),
    Write(0x0DE, 0x0000),
    DoneOf(3, None),
    Idle,
    Left(3, 4),
    Reads(0x0DE, 0x0000),
];

/// Units of channel 0 that start channel 3: it comes after channel 0 has ended.
static STARTS_A_HIGHER: [Move; 9] = [
    Start(0, 0x0200_0000, 0x0400_00DE, 2, 0xC040),
    Next(0, 0x0200_0000, 0x0400_00DE, Half, true),
    Write(0x0DE, 0x8000),
    DoneOf(0, None),
    Next(0, 0x0200_0002, 0x0400_00DE, Half, false),
    DoneOf(3, None),
    DoneOf(0, Some(0)),
    Next(3, 0x0000_0002, 0x0000_0002, Half, false),
    Left(3, 0xFFFF),
];

/// A unit of channel 3 that starts channel 0: it is counted for channel 3, and channel 0 goes first.
static STARTS_A_LOWER: [Move; 8] = [
    Start(3, 0x0200_0000, 0x0400_00BA, 2, 0x8040),
    Next(3, 0x0200_0000, 0x0400_00BA, Half, true),
    Write(0x0BA, 0x8000),
    DoneOf(3, None),
    Next(0, 0x0000_0000, 0x0000_0000, Half, true),
    Left(0, 0x4000),
    Left(3, 1),
    DoneOf(1, None),
];

/// The bits that are stored and those that read; other offsets.
static REGISTERS: [Move; 24] = [
    Start(0, 0xFFFF_FFFF, 0xFFFF_FFFF, 0xFFFF, 0x7FFF),
    Start(2, 0xFFFF_FFFF, 0xFFFF_FFFF, 0xFFFF, 0x7FFF),
    Start(3, 0xFFFF_FFFF, 0xFFFF_FFFF, 0xFFFF, 0x7FFF),
    Keeps(0x0B0, 0xFFFF),
    Keeps(0x0B2, 0x07FF),
    Keeps(0x0B6, 0x07FF),
    Keeps(0x0B8, 0x3FFF),
    Keeps(0x0BA, 0x77E0),
    Keeps(0x0CA, 0x0FFF),
    Keeps(0x0CC, 0xFFFF),
    Keeps(0x0CE, 0x07FF),
    Keeps(0x0D0, 0x3FFF),
    Keeps(0x0D6, 0x0FFF),
    Keeps(0x0DA, 0x0FFF),
    Keeps(0x0DC, 0xFFFF),
    Reads(0x0B0, 0),
    Reads(0x0B8, 0),
    Reads(0x0D2, 0x77E0),
    Reads(0x0DE, 0x7FE0),
    Write(0x0AE, 0xFFFF),
    Write(0x0BD, 0xFFFF),
    Write(0x0E0, 0xFFFF),
    Keeps(0x0BC, 0),
    Idle,
];

#[test]
fn channels_transfer_as_worked_out(rt: HostRuntime) -> Result<(), Fail> {
    let cases: [&[Move]; 16] = [
        &HALVES_UP,
        &WORDS_DOWN,
        &DOWN_PAST_0,
        &STEP_3,
        &RELOADED,
        &NOT_RELOADED,
        &ENDED,
        &TRIGGERED_TWICE,
        &FOR_A_QUEUE,
        &FOR_QUEUE_B,
        &NO_QUEUE,
        &OTHER_TIMING,
        &STOPS_ITSELF,
        &STARTS_A_HIGHER,
        &STARTS_A_LOWER,
        &REGISTERS,
    ];
    for moves in cases {
        play(&rt, moves);
    }
    Ok(())
}

/// So many units until the run has ended.
fn length_of_run<R: Abort>(rt: &R, number: u32, count: u16) -> u32 {
    let mut channels = Channels::new();
    start(
        rt,
        &mut channels,
        number,
        0x0200_0000,
        0x0300_0000,
        count,
        0xC400,
    );
    for units in 0..0x2_0000 {
        if channels.next_unit().is_none() {
            return units;
        }
        let interrupt = channels.unit_done();
        assert_eq!(rt; interrupt.is_some(), channels.next_unit().is_none());
    }
    0x2_0000
}

/// A count of 0 is the greatest and 1.
#[test]
fn a_count_of_0_is_the_longest_run(rt: HostRuntime) -> Result<(), Fail> {
    assert_eq!(rt; length_of_run(&rt, 3, 0), 65_536);
    assert_eq!(rt; length_of_run(&rt, 0, 0), 16_384);
    assert_eq!(rt; length_of_run(&rt, 2, 0x4000), 16_384);
    assert_eq!(rt; length_of_run(&rt, 1, 0x3FFF), 16_383);
    assert_eq!(rt; length_of_run(&rt, 3, 1), 1);
    Ok(())
}

/// A channel at rest that was never written.
const IDLE: Channel = Channel {
    source: 0,
    target: 0,
    count: 0,
    control: 0,
    active: false,
    first: false,
    inner_source: 0,
    inner_target: 0,
    left: 0,
};

/// One that feeds queue A, in the middle of four words, whose inner source isn't aligned.
const FEEDS: Channel = Channel {
    source: 0x0800_1234,
    target: 0x0400_00A0,
    count: 0x3FFF,
    control: 0xB600,
    active: true,
    first: false,
    inner_source: 0x0200_0002,
    inner_target: 0x0400_00A0,
    left: 2,
};

/// One that is disabled, with a first unit to come and a count that is left.
const STOPPED: Channel = Channel {
    first: true,
    left: 0x1_0000,
    ..IDLE
};

/// One that waits for VBlank.
const WAITS: Channel = Channel {
    control: 0x9000,
    inner_source: 0xFFFF_FFFE,
    inner_target: 0x0300_0000,
    left: 1,
    ..IDLE
};

#[test]
fn channels_are_made_of_their_numbers(rt: HostRuntime) -> Result<(), Fail> {
    let mut channels = Channels::of(IDLE, FEEDS, STOPPED, WAITS);
    for (number, made) in [(0, IDLE), (1, FEEDS), (2, STOPPED), (3, WAITS)] {
        assert_eq!(rt; channel_of(&rt, &channels, number), made);
    }
    // Channel 1's source, count and control as they are stored, and its control as it reads.
    for (offset, kept) in [
        (0x0BC, 0x1234),
        (0x0BE, 0x0800),
        (0x0C4, 0x3FFF),
        (0x0C6, 0xB600),
    ] {
        assert_eq!(rt; channels.kept(offset), kept);
    }
    assert_eq!(rt; channels.read(0x0C6), 0xB600);
    let unit = Unit {
        channel: 1,
        source: 0x0200_0000,
        target: 0x0400_00A0,
        width: Word,
        first: false,
    };
    assert_eq!(rt; channels.next_unit(), Some(unit));
    channels.trigger(VBlank);
    assert!(rt; channel_of(&rt, &channels, 3).active);
    assert!(rt; !channel_of(&rt, &channels, 2).active);
    Ok(())
}

/// One that waits for HBlank with no unit left, as no program leaves it: its run is one unit long.
const EMPTY: Channel = Channel {
    control: 0xA000,
    ..IDLE
};

#[test]
fn a_run_without_units_is_one_unit_long(rt: HostRuntime) -> Result<(), Fail> {
    let mut channels = Channels::of(EMPTY, IDLE, IDLE, IDLE);
    assert!(rt; !channels.is_moving());
    channels.trigger(HBlank);
    assert!(rt; channels.is_moving());
    assert_eq!(rt; channel_of(&rt, &channels, 0).left, 0);
    assert_eq!(rt; channels.unit_done(), None);
    assert!(rt; !channels.is_moving());
    assert_eq!(rt; channel_of(&rt, &channels, 0).control, 0x2000);
    Ok(())
}
