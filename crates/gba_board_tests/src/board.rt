//! The board by itself: registers, prices, timers, keys, the halt, DMA, direct sound and the picture's place, by
//! moves and what they must show.

use crate::bench::{Bench, Seat};
use crate::shown::{NOTHING, Shown, flag, is, number, two};
use Move::{
    Advance, Begins, Calm, Clock, Code, Forget, Frames, Halts, Kept, Keys, Left, Lines, Load,
    Master, Memory, Pair, Pairs, Pending, Place, Price, Put, Queue, Read, Reference, Sequencer,
    Store, Timer, Tone, Unit, Wakes, Wave,
};
use gba_bus::Width::{Byte, Half, Word};
use gba_bus::{Bus, Width};
use gba_io::{MemoryName, Room};
use std::alloc::Global;
use std::process::Abort;
use std::test::Fail;

/// Room for a million cycles, where frames and samples are kept.
const ROOM: Room = Room {
    until: 1_000_000,
    frames: true,
    samples: true,
    words: true,
};

/// Something done to a board, or something that must hold of it.
#[derive(Clone, Copy)]
enum Move {
    /// Write at an offset of the I/O registers.
    Store(u32, Width, u32),
    /// A read at an offset of the I/O registers gives this.
    Load(u32, Width, u32),
    /// This is stored in a halfword.
    Kept(u32, u16),
    /// Move the devices by so many cycles.
    Advance(u32),
    /// Make these the pressed keys.
    Keys(u16),
    /// Begin a step.
    Begins,
    /// End the halt.
    Wakes,
    /// The console is halted.
    Halts(bool),
    /// An enabled interrupt is requested.
    Pending(bool),
    /// IME.
    Master(bool),
    /// Nothing asks for more than an instruction.
    Calm(bool),
    /// A halfword of the ROM costs this.
    Price(u32),
    /// The clock.
    Clock(u64),
    /// A timer's counter and phase.
    Timer(u32, u16, u16),
    /// A DMA unit takes so many cycles, or none is to be done.
    Unit(Option<u32>),
    /// A DMA channel has so many units left.
    Left(u32, u32),
    /// A sound queue holds so many bytes, and this is its current one.
    Queue(u32, usize, u8),
    /// A tone channel, by its number less 1, is at this place.
    Tone(u32, u32),
    /// The cycles since the sound was turned on.
    Sequencer(u32),
    /// The first byte of a bank of the wave.
    Wave(u32, u8),
    /// So many pairs of samples are made, and this is the last.
    Pair(usize, i16, i16),
    /// Move the devices by so many lines.
    Lines(u32),
    /// The picture is at this line and dot.
    Place(u32, u32),
    /// The inner reference point of a background.
    Reference(u32, u32, u32),
    /// Write at an address.
    Put(u32, Width, u32),
    /// A read at an address gives this, and costs 1.
    Read(u32, Width, u32),
    /// A read of an instruction at an address gives this.
    Code(u32, Width, u32),
    /// A memory has so many bytes, and this is the first.
    Memory(MemoryName, usize, Option<u8>),
    /// So many frames were made, and so many are kept.
    Frames(u64, u64),
    /// So many pairs of samples were made, and so many are kept.
    Pairs(u64, u64),
    /// Empty the lists.
    Forget,
}

/// A board of one console, whose BIOS begins with a word that isn't 0.
fn bench_of(alloc: Global) -> Result<Bench, Fail> {
    let seat = Seat {
        player: 0,
        count: 1,
        delay: 512,
    };
    Bench::of(alloc, 0x1234_5678, seat, ROOM)
}

fn advance_lines<R: Abort>(rt: &R, bench: &mut Bench, lines: u32) {
    for _ in 0..lines {
        bench.advance(rt, 512);
        bench.advance(rt, 512);
        bench.advance(rt, 208);
    }
}

/// A DMA unit takes so many cycles, or there is none.
fn unit_is<R: Abort>(rt: &R, bench: &mut Bench, cycles: Option<u32>) -> Shown {
    is(rt, "a unit", bench.board.core.dma_unit(), cycles);
    NOTHING
}

/// The last pair of samples.
fn last_pair(samples: &[u8]) -> Option<(i16, i16)> {
    let [.., a, b, c, d] = samples else {
        return None;
    };
    Some((i16::from_le_bytes([*a, *b]), i16::from_le_bytes([*c, *d])))
}

/// So many pairs of samples are made and kept, and this is the last.
fn pair_is<R: Abort>(rt: &R, bench: &Bench, count: usize, pair: (i16, i16)) -> Shown {
    let samples = bench.board.made.samples();
    is(
        rt,
        "the last pair",
        (count, last_pair(samples)),
        (count, Some(pair)),
    );
    let count = count as u64;
    Shown {
        got: [bench.board.counts().samples, samples.len() as u64 / 4, 0],
        wanted: [count, count, 0],
    }
}

fn queue_is<R: Abort>(rt: &R, bench: &Bench, queue: u32, held: usize, current: u8) -> Shown {
    let got = bench.queue(rt, queue).len();
    Shown {
        got: [got as u64, u64::from(bench.queue_current(rt, queue)), 0],
        wanted: [held as u64, u64::from(current), 0],
    }
}

fn timer_is<R: Abort>(rt: &R, bench: &Bench, number: u32, counter: u16, phase: u16) -> Shown {
    let timer = bench.timer(rt, number);
    two(
        (u32::from(timer.counter), u32::from(timer.phase)),
        (u32::from(counter), u32::from(phase)),
    )
}

fn place_is(bench: &Bench, line: u32, dot: u32) -> Shown {
    let place = bench.board.core.devices().place();
    two((place.line, place.dot), (line, dot))
}

fn reference_is<R: Abort>(rt: &R, bench: &Bench, background: u32, x: u32, y: u32) -> Shown {
    let point = bench.reference(rt, background);
    two((point.x, point.y), (x, y))
}

/// So many bytes, and the first, if there is one.
fn memory_is<R: Abort>(rt: &R, bytes: &[u8], length: usize, first: Option<u8>) -> Shown {
    let got = (bytes.len(), bytes.first().copied());
    is(rt, "a memory", got, (length, first));
    NOTHING
}

/// So many were made, and so many are kept, of which each has so many bytes.
fn list_is(made: (u64, u64), bytes: &[u8], size: u64, kept: u64) -> Shown {
    Shown {
        got: [made.0, bytes.len() as u64, 0],
        wanted: [made.1, kept.saturating_mul(size), 0],
    }
}

/// Looks at the memories and the lists.
fn look_at_lists<R: Abort>(rt: &R, bench: &Bench, one: Move) -> Shown {
    let counts = bench.board.counts();
    match one {
        Memory(name, length, first) => memory_is(rt, bench.board.core.memory(name), length, first),
        Frames(made, kept) => list_is(
            (counts.frames, made),
            bench.board.made.frames(),
            76_800,
            kept,
        ),
        Pairs(made, kept) => list_is((counts.samples, made), bench.board.made.samples(), 4, kept),
        _ => panic!(rt; "a move that nobody makes"),
    }
}

/// Looks at what must hold of the timers, the sound and the picture.
fn look_at_devices<R: Abort>(rt: &R, bench: &Bench, one: Move) -> Shown {
    match one {
        Timer(number, counter, phase) => timer_is(rt, bench, number, counter, phase),
        Queue(queue, held, current) => queue_is(rt, bench, queue, held, current),
        Tone(channel, place) => two((bench.tone(rt, channel).place, 0), (place, 0)),
        Sequencer(cycles) => two((bench.board.core.devices().sequencer(), 0), (cycles, 0)),
        Wave(bank, byte) => number(u64::from(bench.wave_bank(rt, bank)[0]), u64::from(byte)),
        Pair(count, left, right) => pair_is(rt, bench, count, (left, right)),
        Place(line, dot) => place_is(bench, line, dot),
        Reference(background, x, y) => reference_is(rt, bench, background, x, y),
        other => look_at_lists(rt, bench, other),
    }
}

/// Looks at what must hold.
fn look<R: Abort>(rt: &R, bench: &Bench, one: Move) -> Shown {
    match one {
        Kept(offset, half) => number(u64::from(bench.board.core.io_half(offset)), u64::from(half)),
        Halts(halted) => flag(bench.board.core.devices().set().halted(), halted),
        Pending(pending) => flag(bench.board.core.devices().set().pending(), pending),
        Master(master) => flag(bench.board.core.devices().set().master(), master),
        Calm(calm) => flag(bench.board.core.is_calm(), calm),
        Price(cycles) => two((bench.code_price(0x0800_0000, Half), 0), (cycles, 0)),
        Clock(clock) => number(bench.board.core.clock(), clock),
        Left(channel, units) => two((bench.units_left(rt, channel), 0), (units, 0)),
        other => look_at_devices(rt, bench, other),
    }
}

/// Makes a move that shows nothing.
fn make<R: Abort>(rt: &R, bench: &mut Bench, one: Move) {
    match one {
        Advance(cycles) => bench.advance(rt, cycles),
        Lines(lines) => advance_lines(rt, bench, lines),
        Keys(pressed) => bench.board.core.set_keys(pressed),
        Begins => bench.board.core.begin(),
        Wakes => bench.board.core.wake(),
        Forget => bench.forget(rt),
        _ => {}
    }
}

fn play<R: Abort>(rt: &R, bench: &mut Bench, one: Move) -> Shown {
    match one {
        Store(offset, width, value) => { two((bench.store_io(offset, width, value), 0), (1, 0)) }
        Load(offset, width, value) => two(bench.load_io(offset, width), (value, 1)),
        Unit(cycles) => unit_is(rt, bench, cycles),
        Put(address, width, value) => {
            let _ = bench.store(address, width, value);
            NOTHING
        }
        Read(address, width, value) => two(bench.load(address, width), (value, 1)),
        Code(address, width, value) => two((bench.board.core.code(address, width), 0), (value, 0)),
        Advance(_) | Lines(_) | Keys(_) | Begins | Wakes | Forget => {
            make(rt, bench, one);
            NOTHING
        }
        other => look(rt, bench, other),
    }
}

/// Makes moves, and looks at what they show.
fn play_all<R: Abort>(rt: &R, bench: &mut Bench, list: usize, moves: &[Move]) {
    for (place, one) in moves.iter().enumerate() {
        let shown = play(rt, bench, *one);
        let Shown { got, wanted } = shown;
        is(
            rt,
            "list, move, numbers",
            (list, place, got),
            (list, place, wanted),
        );
    }
}

static MOVES: [&[Move]; 37] = [
    // A word over IE and IF: the one stores, ones in the other clear. Timer 0 requests bit 3.
    &[
        Store(0x100, Half, 0xFFFF),
        Store(0x102, Half, 0x00C0),
        Advance(1),
        Load(0x202, Half, 0x0008),
        Load(0x200, Word, 0x0008_0000),
        Pending(false),
        Store(0x200, Half, 0xFFFF),
        Pending(true),
        Calm(true),
        Store(0x200, Word, 0x0008_0008),
        Load(0x200, Word, 0x0000_0008),
        Pending(false),
    ],
    // Bytes of IF: a byte leaves the requests of the other, and 0 clears nothing. The keypad requests bit 12.
    &[
        Store(0x132, Half, 0x4001),
        Keys(0x001),
        Store(0x100, Half, 0xFFFF),
        Store(0x102, Half, 0x00C0),
        Advance(1),
        Kept(0x202, 0x1008),
        Store(0x203, Byte, 0x10),
        Kept(0x202, 0x0008),
        Store(0x202, Half, 0x0000),
        Store(0x203, Byte, 0xFF),
        Kept(0x202, 0x0008),
        Store(0x202, Byte, 0x08),
        Kept(0x202, 0x0000),
    ],
    // A word over IME, its bytes, and the halfword behind it, which isn't listed.
    &[
        Store(0x208, Word, 0xFFFF_FFFF),
        Load(0x208, Word, 0x0000_0001),
        Master(true),
        Store(0x209, Byte, 0x00),
        Master(true),
        Store(0x208, Byte, 0xFE),
        Master(false),
        Store(0x209, Byte, 0x01),
        Load(0x208, Half, 0x0000),
    ],
    // POSTFLG at 300h, and the halt where a write covers 301h.
    &[
        Store(0x300, Byte, 0xFF),
        Load(0x300, Byte, 0x01),
        Halts(false),
        Calm(true),
        Store(0x301, Byte, 0x00),
        Halts(true),
        Calm(false),
        Load(0x300, Half, 0x0001),
        Wakes,
        Halts(false),
        Store(0x300, Half, 0x0000),
        Halts(true),
        Load(0x300, Byte, 0x00),
    ],
    // What isn't listed reads 0 and drops writes.
    &[
        Store(0x206, Half, 0xFFFF),
        Load(0x204, Word, 0x0000_0000),
        Store(0x136, Half, 0xFFFF),
        Load(0x136, Half, 0x0000),
        Store(0x3FC, Word, 0xFFFF_FFFF),
        Load(0x3FC, Word, 0x0000_0000),
        Kept(0x206, 0),
    ],
    // RCNT has its bits 14 and 15, and is 8000h at reset.
    &[
        Load(0x134, Word, 0x0000_8000),
        Store(0x134, Half, 0xFFFF),
        Load(0x134, Half, 0xC000),
        Kept(0x134, 0xC000),
        Store(0x135, Byte, 0x40),
        Load(0x134, Half, 0x4000),
        Store(0x134, Word, 0xFFFF_0000),
        Load(0x134, Word, 0x0000_0000),
    ],
    // WAITCNT prices from the next step on: 8 waits of a first access, and 4 before.
    &[
        Price(5),
        Store(0x204, Half, 0xFFFF),
        Load(0x204, Half, 0x5FFF),
        Price(5),
        Calm(false),
        Begins,
        Price(9),
        Calm(true),
        Store(0x205, Byte, 0x00),
        Load(0x204, Half, 0x00FF),
    ],
    // A byte of a reload keeps the other one, and not of the counter; reads give the counter at each width.
    &[
        Store(0x10C, Half, 0x1234),
        Store(0x10E, Half, 0x0080),
        Advance(3),
        Load(0x10C, Half, 0x1237),
        Load(0x10D, Byte, 0x12),
        Load(0x10C, Word, 0x0080_1237),
        Store(0x10D, Byte, 0xAB),
        Kept(0x10C, 0xAB34),
        Timer(3, 0x1237, 0),
        Advance(512),
        Clock(515),
        Timer(3, 0x1437, 0),
        Store(0x10E, Half, 0x0083),
        Advance(500),
        Timer(3, 0x1437, 500),
        Advance(512),
        Advance(12),
        Timer(3, 0x1438, 0),
    ],
    // Timer 1 cascades on timer 0, whose overflows fall within long stretches.
    &[
        Store(0x104, Word, 0x00C4_FFFE),
        Store(0x100, Word, 0x0080_FF00),
        Advance(255),
        Timer(0, 0xFFFF, 0),
        Advance(1),
        Timer(0, 0xFF00, 0),
        Timer(1, 0xFFFF, 0),
        Kept(0x202, 0x0000),
        Advance(512),
        Timer(1, 0xFFFF, 0),
        Kept(0x202, 0x0010),
    ],
    // The keys: a pressed one reads 0, writes to KEYINPUT are dropped, KEYCNT requests where its condition comes true.
    &[
        Load(0x130, Half, 0x03FF),
        Keys(0xFC05),
        Load(0x130, Half, 0x03FA),
        Store(0x130, Half, 0x0000),
        Load(0x130, Word, 0x0000_03FA),
        Store(0x132, Half, 0xFC05),
        Load(0x132, Half, 0xC005),
        Kept(0x202, 0x1000),
        Store(0x202, Half, 0x1000),
        Keys(0x005),
        Kept(0x202, 0x0000),
        Keys(0x001),
        Keys(0x00D),
        Kept(0x202, 0x1000),
    ],
    // An interrupt asks for its entry only where IME lets it in.
    &[
        Store(0x132, Half, 0x4200),
        Store(0x200, Half, 0x1000),
        Keys(0x200),
        Pending(true),
        Calm(true),
        Store(0x208, Half, 1),
        Calm(false),
    ],
    // The scale of samples: 7Fh at full volume to both sides, then 80h at half volume. The pair comes in the cycle that
    // makes the clock a multiple of 512.
    &[
        Store(0x084, Half, 0x0080),
        Store(0x082, Half, 0x0304),
        Store(0x0A0, Word, 0x0000_807F),
        Store(0x100, Word, 0x0080_FFFF),
        Queue(0, 4, 0x00),
        Advance(1),
        Queue(0, 3, 0x7F),
        Store(0x102, Half, 0x0000),
        Advance(511),
        Pair(1, 8128, 8128),
        Store(0x082, Half, 0x0300),
        Store(0x102, Half, 0x0080),
        Advance(1),
        Store(0x102, Half, 0x0000),
        Queue(0, 2, 0x80),
        Advance(510),
        Pair(1, 8128, 8128),
        Advance(1),
        Pair(2, -4096, -4096),
    ],
    // A goes left at full volume by timer 0, and B right at half volume by timer 1. The pair has the bytes that were
    // taken in its cycle.
    &[
        Store(0x084, Half, 0x0080),
        Store(0x082, Half, 0x5204),
        Store(0x0A0, Word, 0x0000_0010),
        Store(0x0A4, Word, 0x0000_0021),
        Store(0x104, Word, 0x0080_FE00),
        Store(0x100, Word, 0x0080_FE00),
        Advance(511),
        Queue(0, 4, 0x00),
        Queue(1, 4, 0x00),
        Advance(1),
        Queue(0, 3, 0x10),
        Queue(1, 3, 0x21),
        Pair(1, 1024, 1056),
    ],
    // While the sound is off the queues take bytes, and the samples are 0.
    &[
        Store(0x082, Half, 0x0304),
        Store(0x0A0, Word, 0x0302_0140),
        Store(0x100, Word, 0x0080_FFFF),
        Advance(1),
        Queue(0, 3, 0x40),
        Advance(511),
        Queue(0, 0, 0x03),
        Pair(1, 0, 0),
    ],
    // Channel 1 at volume 15 to both sides gives 15 times 8 times 4 times 8 for four periods of 32,768 cycles, which
    // the pair of clock 131,072 is past. Its place is told before the cycles are paid.
    &[
        Store(0x084, Half, 0x0080),
        Store(0x080, Word, 0x0002_1177),
        Store(0x062, Half, 0xF080),
        Store(0x064, Half, 0x8000),
        Load(0x084, Half, 0x0081),
        Advance(512),
        Pair(1, 3840, 3840),
        Lines(105),
        Advance(512),
        Pair(254, 3840, 3840),
        Advance(512),
        Advance(175),
        Tone(0, 3),
        Pair(255, 3840, 3840),
        Advance(1),
        Tone(0, 4),
        Sequencer(131_072),
        Pair(256, 0, 0),
    ],
    // A pair is the sum of the queues and the tone channels: 7Fh and 80h at full volume, and 3,840.
    &[
        Store(0x084, Half, 0x0080),
        Store(0x080, Word, 0x0306_1177),
        Store(0x062, Half, 0xF080),
        Store(0x064, Half, 0x8000),
        Store(0x0A0, Word, 0x0000_807F),
        Store(0x100, Word, 0x0080_FFFF),
        Advance(1),
        Store(0x102, Half, 0x0000),
        Advance(511),
        Pair(1, 11_968, 11_968),
        Store(0x102, Half, 0x0080),
        Advance(1),
        Store(0x102, Half, 0x0000),
        Advance(511),
        Pair(2, -4352, -4352),
    ],
    // Noise of 15 bits moves every 32 cycles: fourteen times, and once more.
    &[
        Store(0x084, Half, 0x0080),
        Store(0x07C, Half, 0x8000),
        Tone(3, 0x4000),
        Advance(448),
        Tone(3, 0x0001),
        Advance(31),
        Tone(3, 0x0001),
        Advance(1),
        Tone(3, 0x6000),
    ],
    // A byte write keeps the stored other byte, also of bits that don't read, and starts a channel by bit 15. Words are
    // their halfwords. SOUNDCNT_X keeps its bit by a write of its other byte.
    &[
        Store(0x085, Byte, 0x00),
        Load(0x084, Half, 0x0000),
        Store(0x084, Byte, 0xFF),
        Store(0x062, Half, 0x00BF),
        Store(0x063, Byte, 0xF0),
        Load(0x062, Half, 0xF080),
        Kept(0x062, 0xF0BF),
        Store(0x064, Half, 0x07D0),
        Store(0x065, Byte, 0xC3),
        Load(0x064, Word, 0x0000_4000),
        Kept(0x064, 0x43D0),
        Load(0x084, Byte, 0x81),
        Store(0x085, Byte, 0xFF),
        Load(0x084, Word, 0x0000_0081),
        Store(0x070, Word, 0x20FF_00FF),
        Load(0x070, Word, 0x2000_00E0),
        Kept(0x072, 0x20FF),
        Store(0x06C, Word, 0xFFFF_8000),
        Load(0x06C, Word, 0x0000_0000),
        Load(0x084, Half, 0x0083),
        Store(0x082, Half, 0xFFFF),
        Load(0x080, Word, 0x770F_0000),
        Kept(0x082, 0x770F),
    ],
    // A length that is timed runs out by the clock alone: SOUNDCNT_X shows it where it is read and where it
    // is looked at.
    &[
        Store(0x084, Half, 0x0080),
        Store(0x062, Half, 0xF0BF),
        Store(0x064, Half, 0xC000),
        Lines(53),
        Advance(239),
        Kept(0x084, 0x0081),
        Load(0x084, Half, 0x0081),
        Sequencer(65_535),
        Advance(1),
        Kept(0x084, 0x0080),
        Load(0x084, Half, 0x0080),
        Sequencer(65_536),
    ],
    // A sweep by a half makes 1,000 to 1,500, which is stored.
    &[
        Store(0x084, Half, 0x0080),
        Store(0x060, Half, 0x0011),
        Store(0x064, Half, 0x83E8),
        Lines(106),
        Advance(479),
        Kept(0x064, 0x03E8),
        Advance(1),
        Kept(0x064, 0x05DC),
    ],
    // The registers of the wave are those of the bank that isn't the first, and are written while the sound is off,
    // too. That makes the others 0 but SOUNDCNT_H.
    &[
        Store(0x090, Word, 0x7654_3210),
        Wave(1, 0x10),
        Wave(0, 0x00),
        Store(0x080, Word, 0x0002_1177),
        Load(0x080, Word, 0x0002_0000),
        Store(0x084, Half, 0x0080),
        Store(0x080, Word, 0x0001_1177),
        Load(0x080, Word, 0x0001_1177),
        Store(0x070, Half, 0x00C0),
        Store(0x091, Byte, 0xAB),
        Load(0x090, Word, 0x0000_AB00),
        Store(0x09E, Half, 0x1234),
        Load(0x09C, Word, 0x1234_0000),
        Advance(100),
        Sequencer(100),
        Store(0x084, Half, 0x0000),
        Load(0x080, Word, 0x0001_0000),
        Kept(0x070, 0x0000),
        Load(0x090, Word, 0x7654_3210),
        Advance(100),
        Sequencer(0),
    ],
    // A word fits where 28 bytes are held and not where 29 are; narrower writes are dropped, and nothing reads.
    &[
        Store(0x0A0, Word, 0x0403_0201),
        Store(0x0A0, Word, 0x0403_0201),
        Store(0x0A0, Word, 0x0403_0201),
        Store(0x0A0, Word, 0x0403_0201),
        Store(0x0A0, Word, 0x0403_0201),
        Store(0x0A0, Word, 0x0403_0201),
        Store(0x0A0, Word, 0x0403_0201),
        Queue(0, 28, 0),
        Store(0x0A0, Half, 0x1111),
        Store(0x0A2, Half, 0x1111),
        Store(0x0A0, Byte, 0x11),
        Queue(0, 28, 0),
        Store(0x0A0, Word, 0x0403_0201),
        Queue(0, 32, 0),
        Store(0x0A0, Word, 0x0807_0605),
        Queue(0, 32, 0),
        Load(0x0A0, Word, 0),
        Store(0x100, Word, 0x0080_FFFF),
        Advance(3),
        Queue(0, 29, 3),
        Store(0x0A0, Word, 0x0807_0605),
        Queue(0, 29, 3),
        Advance(1),
        Store(0x0A0, Word, 0x0807_0605),
        Queue(0, 32, 4),
        Queue(1, 0, 0),
    ],
    // An empty queue keeps its current byte, and the bits 11 and 15 of SOUNDCNT_H empty A and B.
    &[
        Store(0x0A0, Word, 0x0403_0201),
        Store(0x0A4, Word, 0x0807_0605),
        Store(0x100, Word, 0x0080_FFFF),
        Advance(9),
        Queue(0, 0, 4),
        Queue(1, 0, 8),
        Store(0x0A0, Word, 0x0403_0201),
        Store(0x0A4, Word, 0x0807_0605),
        Store(0x082, Half, 0x8000),
        Queue(0, 4, 4),
        Queue(1, 0, 0),
        Store(0x083, Byte, 0x08),
        Queue(0, 0, 0),
        Load(0x082, Half, 0x0000),
    ],
    // A queue asks DMA1 for four words, whatever the count says, in the cycle of the overflow.
    &[
        Store(0x0BC, Word, 0x0200_0000),
        Store(0x0C0, Word, 0x0400_00A0),
        Store(0x0C4, Word, 0xB200_0001),
        Unit(None),
        Store(0x100, Word, 0x0080_FFF6),
        Advance(9),
        Unit(None),
        Calm(true),
        Advance(1),
        Calm(false),
        Left(1, 4),
        Unit(Some(9)),
        Unit(Some(7)),
        Unit(Some(7)),
        Unit(Some(7)),
        Unit(None),
        Calm(true),
        Queue(0, 16, 0),
        Kept(0x0C6, 0xB200),
        Advance(10),
        Queue(0, 15, 0),
        Unit(Some(9)),
    ],
    // Words from the work RAM to the inner RAM: 6 + 1 + 2 cycles, and 6 + 1.
    &[
        Store(0x0D4, Word, 0x0200_0000),
        Store(0x0D8, Word, 0x0300_0000),
        Store(0x0DC, Word, 0xC400_0003),
        Unit(Some(9)),
        Kept(0x202, 0x0000),
        Unit(Some(7)),
        Unit(Some(7)),
        Kept(0x202, 0x0800),
        Kept(0x0DE, 0x4400),
        Unit(None),
    ],
    // A channel whose own write stops it: one unit, and no interrupt.
    &[
        Store(0x0D4, Word, 0x0200_0000),
        Store(0x0D8, Word, 0x0400_00DE),
        Store(0x0DC, Word, 0xC040_0004),
        Unit(Some(6)),
        Unit(None),
        Kept(0x202, 0x0000),
        Kept(0x0DE, 0x0000),
    ],
    // DMA0 starts DMA3 with its first unit, and ends its run before DMA3's first. A word at 06000000h stands
    // there first.
    &[
        Store(0x0200_0000, Half, 0x8000),
        Store(0x0D4, Word, 0x0200_0000),
        Store(0x0D8, Word, 0x0300_0000),
        Store(0x0DC, Half, 0x0002),
        Store(0x0B0, Word, 0x0600_0000),
        Store(0x0B4, Word, 0x0400_00DE),
        Store(0x0B8, Word, 0xC140_0002),
        Unit(Some(4)),
        Left(0, 1),
        Left(3, 2),
        Unit(Some(2)),
        Kept(0x202, 0x0100),
        Unit(Some(6)),
        Unit(Some(4)),
        Unit(None),
    ],
    // HBlank begins at dot 1,006 with its interrupt, and ends with the line. Line 0 is the matched one.
    &[
        Store(0x004, Half, 0x0010),
        Advance(512),
        Advance(493),
        Place(0, 1005),
        Load(0x004, Half, 0x0014),
        Kept(0x202, 0x0000),
        Advance(1),
        Place(0, 1006),
        Load(0x004, Half, 0x0016),
        Kept(0x202, 0x0002),
        Advance(225),
        Place(0, 1231),
        Load(0x004, Half, 0x0016),
        Load(0x006, Half, 0x0000),
        Advance(1),
        Place(1, 0),
        Load(0x004, Half, 0x0010),
        Load(0x006, Half, 0x0001),
        Kept(0x004, 0x0010),
        Kept(0x006, 0x0001),
    ],
    // The matched line requests where it begins, and not where it becomes the matched one.
    &[
        Store(0x004, Half, 0x0520),
        Lines(4),
        Advance(512),
        Advance(512),
        Advance(207),
        Place(4, 1231),
        Kept(0x202, 0x0000),
        Advance(1),
        Kept(0x202, 0x0004),
        Load(0x004, Half, 0x0524),
        Store(0x202, Half, 0x0004),
        Store(0x004, Half, 0x0620),
        Load(0x004, Half, 0x0620),
        Store(0x004, Half, 0x0520),
        Load(0x004, Half, 0x0524),
        Kept(0x202, 0x0000),
    ],
    // VBlank from line 160 to 226, with its interrupt.
    &[
        Store(0x004, Half, 0x0008),
        Lines(159),
        Advance(512),
        Advance(512),
        Advance(207),
        Kept(0x202, 0x0000),
        Load(0x004, Half, 0x000A),
        Advance(1),
        Place(160, 0),
        Kept(0x202, 0x0001),
        Load(0x004, Half, 0x0009),
        Lines(66),
        Load(0x004, Half, 0x0009),
        Lines(1),
        Place(227, 0),
        Load(0x004, Half, 0x0008),
        Lines(1),
        Place(0, 0),
        Load(0x004, Half, 0x000C),
        Clock(280_896),
    ],
    // HBlank DMA in the lines 0 to 159 alone.
    &[
        Store(0x0D4, Word, 0x0200_0000),
        Store(0x0D8, Word, 0x0300_0000),
        Store(0x0DC, Word, 0xA200_0001),
        Advance(512),
        Advance(493),
        Unit(None),
        Advance(1),
        Unit(Some(6)),
        Unit(None),
        Lines(1),
        Unit(Some(6)),
        Unit(None),
        Lines(158),
        Place(159, 1006),
        Unit(Some(6)),
        Unit(None),
        Lines(1),
        Unit(None),
        Lines(67),
        Place(227, 1006),
        Unit(None),
        Lines(1),
        Unit(Some(6)),
    ],
    // VBlank DMA where line 160 begins.
    &[
        Store(0x0D4, Word, 0x0200_0000),
        Store(0x0D8, Word, 0x0300_0000),
        Store(0x0DC, Word, 0x9000_0001),
        Lines(159),
        Advance(512),
        Advance(512),
        Advance(207),
        Unit(None),
        Advance(1),
        Unit(Some(6)),
        Unit(None),
    ],
    // The inner points grow by PB and PD where a line that is seen comes to HBlank, a write of either half makes a
    // point the whole new one, and VBlank makes them the written ones.
    &[
        Store(0x022, Half, 0x0100),
        Store(0x026, Half, 0xFF80),
        Store(0x028, Word, 0x0000_1000),
        Reference(2, 0x1000, 0),
        Advance(512),
        Advance(493),
        Reference(2, 0x1000, 0),
        Advance(1),
        Reference(2, 0x1100, 0xFFFF_FF80),
        Reference(3, 0, 0),
        Store(0x02A, Half, 0x0FFF),
        Reference(2, 0xFFFF_1000, 0xFFFF_FF80),
        Lines(159),
        Reference(2, 0xFFFF_1000 + 0x9F00, 0xFFFF_B000),
        Advance(226),
        Place(160, 0),
        Reference(2, 0xFFFF_1000, 0),
        Lines(67),
        Reference(2, 0xFFFF_1000, 0),
    ],
    // A byte in the VRAM from 10000h up is dropped in mode 0, where sprites have it, and written twice in mode 3.
    &[
        Store(0x0201_0000, Byte, 0x5A),
        Load(0x0201_0000, Half, 0x0000),
        Store(0x000, Half, 0x0003),
        Store(0x0201_0000, Byte, 0x5A),
        Load(0x0201_0000, Half, 0x5A5A),
    ],
    // A unit that copies the BIOS's first word to the inner RAM reads 0 in the BIOS, which begins with another word.
    &[
        Put(0x0300_0000, Word, 0xFFFF_FFFF),
        Read(0, Word, 0x1234_5678),
        Store(0x0D4, Word, 0x0000_0000),
        Store(0x0D8, Word, 0x0300_0000),
        Store(0x0DC, Word, 0x8400_0001),
        Unit(Some(4)),
        Read(0x0300_0000, Word, 0),
    ],
    // Memories have their sizes, and what stands in none of them reads 0.
    &[
        Put(0x0300_0002, Byte, 0x5A),
        Put(0x0200_0000, Word, 0x1234_5678),
        Memory(MemoryName::Io, 0, None),
        Memory(MemoryName::Wram, 0x4_0000, Some(0x78)),
        Memory(MemoryName::Iwram, 0x8000, Some(0)),
        Memory(MemoryName::Palette, 0x400, Some(0)),
        Memory(MemoryName::Vram, 0x1_8000, Some(0)),
        Memory(MemoryName::Oam, 0x400, Some(0)),
        Memory(MemoryName::Backup, 0x8000, Some(0xFF)),
        Read(0x0300_0000, Word, 0x005A_0000),
        Read(0x0400_0400, Word, 0),
        Code(0x0400_0130, Half, 0x03FF),
    ],
    // Lists are forgotten, and what was made stays counted.
    &[
        Lines(160),
        Frames(1, 1),
        Pairs(385, 385),
        Forget,
        Frames(1, 0),
        Pairs(385, 0),
        Lines(228),
        Frames(2, 1),
        Pairs(933, 548),
        Forget,
        Frames(2, 0),
        Pairs(933, 0),
        Lines(227),
        Frames(2, 0),
        Pairs(1479, 546),
        Forget,
        Frames(2, 0),
        Pairs(1479, 0),
        Lines(1),
        Frames(3, 1),
        Pairs(1482, 3),
        Forget,
        Frames(3, 0),
        Pairs(1482, 0),
    ],
];

/// Makes the moves of a list on a board of their own.
fn play_list<R: Abort>(rt: &R, alloc: Global, list: usize, moves: &[Move]) -> Result<(), Fail> {
    let mut bench = bench_of(alloc)?;
    play_all(rt, &mut bench, list, moves);
    Ok(())
}

#[test]
fn registers_keep_their_table(rt: HostRuntime) -> Result<(), Fail> {
    for (list, moves) in MOVES.iter().enumerate() {
        play_list(&rt, rt.alloc(), list, moves)?;
    }
    Ok(())
}
