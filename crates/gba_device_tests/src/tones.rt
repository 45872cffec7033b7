//! The four channels by their registers: given values, masks, starts, ticks, patterns, and the master enable.

use gba_psg::{Tone, Tones};
use std::process::Abort;

/// Something done to the tones, or something that must hold of them.
#[derive(Clone, Copy)]
enum Move {
    /// Write a halfword.
    Write(u32, u16),
    /// A halfword reads so.
    Reads(u32, u16),
    /// What is stored at a halfword.
    Keeps(u32, u16),
    /// So many cycles go by.
    Pass(u32),
    /// What both sides give, left then right.
    Gives(i32, i32),
    /// What they will give after so many cycles, 512 at most.
    Later(u32, i32, i32),
    /// A channel's place, by the channel's number less 1.
    Place(u32, u32),
    /// Its volume.
    Volume(u32, u32),
    /// Its length that is left.
    Left(u32, u32),
    /// The channels that are on, in bits 0 to 3.
    On(u16),
    /// The frequency from which channel 1's sweep goes on, and the period's frequency as it is stored.
    Frequency(u32, u16),
    /// The sequencer.
    Sequencer(u32),
}

use Move::{
    Frequency, Gives, Keeps, Later, Left, On, Pass, Place, Reads, Sequencer, Volume, Write,
};

fn pass(tones: &mut Tones, cycles: u32) {
    for _ in 0..cycles / 512 {
        tones.advance(512);
    }
    tones.advance(cycles % 512);
}

fn tone<R: Abort>(rt: &R, tones: &Tones, channel: u32) -> Tone {
    assert!(rt; channel < 4);
    tones.tone(channel)
}

fn amount_after<R: Abort>(rt: &R, tones: &Tones, cycles: u32) -> (i32, i32) {
    assert!(rt; cycles <= 512);
    tones.amount_after(cycles)
}

fn play<R: Abort>(rt: &R, moves: &[Move]) {
    let mut tones = Tones::new();
    for one in moves {
        match *one {
            Write(offset, value) => tones.write(offset, value),
            Reads(offset, value) => assert_eq!(rt; tones.read(offset), value, "at {offset}"),
            Keeps(offset, value) => assert_eq!(rt; tones.kept(offset), value, "at {offset}"),
            Pass(cycles) => pass(&mut tones, cycles),
            Gives(left, right) => assert_eq!(rt; tones.amount(), (left, right)),
            Later(cycles, left, right) => {
                assert_eq!(rt; amount_after(rt, &tones, cycles), (left, right));
            }
            Place(channel, place) => assert_eq!(rt; tone(rt, &tones, channel).place, place),
            Volume(channel, volume) => assert_eq!(rt; tone(rt, &tones, channel).volume, volume),
            Left(channel, left) => assert_eq!(rt; tone(rt, &tones, channel).left, left),
            On(channels) => assert_eq!(rt; tones.on(), channels),
            Frequency(shadow, control) => {
                assert_eq!(rt; tone(rt, &tones, 0).shadow, shadow);
                assert_eq!(rt; tones.kept(0x064), control);
            }
            Sequencer(cycles) => assert_eq!(rt; tones.sequencer(), cycles),
        }
    }
}

/// Volume 15 times 8 times 4 times 8 while the place is below 4, which it is for four periods of 32,768 cycles.
static LOUD: [Move; 11] = [
    Write(0x084, 0x0080),
    Write(0x080, 0x1177),
    Write(0x082, 0x0002),
    Write(0x062, 0xF080),
    Write(0x064, 0x8000),
    Gives(3840, 3840),
    Pass(131_071),
    Gives(3840, 3840),
    Later(1, 0, 0),
    Pass(1),
    Gives(0, 0),
];

/// Noise of 15 bits moves every 32 cycles at ratio 0 and shift 0.
static NOISE: [Move; 7] = [
    Write(0x084, 0x0080),
    Write(0x07C, 0x8000),
    Place(3, 0x4000),
    Pass(448),
    Place(3, 0x0001),
    Pass(32),
    Place(3, 0x6000),
];

/// What reads and what is stored of FFFFh, or of 7FFFh where bit 15 starts.
static MASKS: [Move; 50] = [
    Write(0x084, 0xFFFF),
    Reads(0x084, 0x0080),
    Write(0x060, 0xFFFF),
    Reads(0x060, 0x007F),
    Keeps(0x060, 0x007F),
    Write(0x062, 0xFFFF),
    Reads(0x062, 0xFFC0),
    Keeps(0x062, 0xFFFF),
    Write(0x064, 0x7FFF),
    Reads(0x064, 0x4000),
    Keeps(0x064, 0x47FF),
    Write(0x068, 0xFFFF),
    Reads(0x068, 0xFFC0),
    Keeps(0x068, 0xFFFF),
    Write(0x06C, 0x7FFF),
    Reads(0x06C, 0x4000),
    Keeps(0x06C, 0x47FF),
    Write(0x070, 0xFFFF),
    Reads(0x070, 0x00E0),
    Keeps(0x070, 0x00E0),
    Write(0x072, 0xFFFF),
    Reads(0x072, 0xE000),
    Keeps(0x072, 0xE0FF),
    Write(0x074, 0x7FFF),
    Reads(0x074, 0x4000),
    Keeps(0x074, 0x47FF),
    Write(0x078, 0xFFFF),
    Reads(0x078, 0xFF00),
    Keeps(0x078, 0xFF3F),
    Write(0x07C, 0x7FFF),
    Reads(0x07C, 0x40FF),
    Keeps(0x07C, 0x40FF),
    Write(0x080, 0xFFFF),
    Reads(0x080, 0xFF77),
    Keeps(0x080, 0xFF77),
    Write(0x082, 0xFFFF),
    Reads(0x082, 0x0000),
    Keeps(0x082, 0x0003),
    Write(0x090, 0xFFFF),
    Reads(0x090, 0xFFFF),
    Reads(0x092, 0x0000),
    Write(0x09E, 0x1234),
    Reads(0x09E, 0x1234),
    Write(0x066, 0xFFFF),
    Reads(0x066, 0x0000),
    Write(0x0A0, 0xFFFF),
    Reads(0x0A0, 0x0000),
    Reads(0x091, 0x0000),
    On(0),
    Gives(0, 0),
];

/// A start takes length, volume and frequency: 64 less 5, 9, and 16 times 48 cycles for a move.
static START: [Move; 12] = [
    Write(0x084, 0x0080),
    Write(0x068, 0x9B45),
    Write(0x06C, 0x87D0),
    On(2),
    Left(1, 59),
    Volume(1, 9),
    Pass(767),
    Place(1, 0),
    Pass(1),
    Place(1, 1),
    Pass(5376),
    Place(1, 0),
];

/// With one tick of length left, the channels that are timed are off at the next, and channel 2, which isn't, stays on.
static LENGTHS: [Move; 18] = [
    Write(0x084, 0x0080),
    Write(0x062, 0xF03F),
    Write(0x064, 0xC000),
    Write(0x068, 0xF03F),
    Write(0x06C, 0x8000),
    Write(0x070, 0x0080),
    Write(0x072, 0x20FE),
    Write(0x074, 0xC000),
    Write(0x078, 0xF03F),
    Write(0x07C, 0xC000),
    On(15),
    Reads(0x084, 0x008F),
    Pass(65_535),
    On(15),
    Pass(1),
    On(6),
    Pass(65_536),
    On(2),
];

/// Envelopes tick every 262,144 cycles: down from 15 at each tick, up from 14 to 15 and no further, and down from 1 at
/// every second tick.
static ENVELOPES: [Move; 18] = [
    Write(0x084, 0x0080),
    Write(0x062, 0xF100),
    Write(0x064, 0x8000),
    Write(0x068, 0xE900),
    Write(0x06C, 0x8000),
    Write(0x078, 0x1200),
    Write(0x07C, 0x8000),
    Pass(262_143),
    Volume(0, 15),
    Pass(1),
    Volume(0, 14),
    Volume(1, 15),
    Volume(3, 1),
    Pass(262_144),
    Volume(0, 13),
    Volume(1, 15),
    Volume(3, 0),
    On(11),
];

/// A sweep up by a half at every tick of 131,072 cycles: 1,000, then 1,500, and then 2,250, which is too high.
static SWEEP_UP: [Move; 11] = [
    Write(0x084, 0x0080),
    Write(0x060, 0x0011),
    Write(0x064, 0xC3E8),
    Frequency(1000, 0x43E8),
    Pass(131_071),
    Frequency(1000, 0x43E8),
    Pass(1),
    Frequency(1500, 0x45DC),
    Pass(131_072),
    Frequency(1500, 0x45DC),
    On(0),
];

/// A sweep down by a half at every second tick: 1,000, 500, 250.
static SWEEP_DOWN: [Move; 9] = [
    Write(0x084, 0x0080),
    Write(0x060, 0x0029),
    Write(0x064, 0x83E8),
    Pass(131_072),
    Frequency(1000, 0x03E8),
    Pass(131_072),
    Frequency(500, 0x01F4),
    Pass(262_144),
    Frequency(250, 0x00FA),
];

/// With shift 0 no frequency is taken, but a double above 2,047 is too high.
static SWEEP_ALONE: [Move; 9] = [
    Write(0x084, 0x0080),
    Write(0x060, 0x0010),
    Write(0x064, 0x83FF),
    Pass(131_072),
    Frequency(1023, 0x03FF),
    On(1),
    Write(0x064, 0x8400),
    Pass(131_072),
    On(0),
];

/// Two banks of digits, which count up in bank 0 and down in bank 1. Of the bank that isn't first the registers are.
static BANKS: [Move; 50] = [
    Write(0x090, 0xDCFE),
    Write(0x092, 0x98BA),
    Write(0x094, 0x5476),
    Write(0x096, 0x1032),
    Write(0x084, 0x0080),
    Write(0x080, 0x4477),
    Write(0x070, 0x00C0),
    Write(0x090, 0x2301),
    Write(0x092, 0x6745),
    Write(0x094, 0xAB89),
    Write(0x096, 0xEFCD),
    Write(0x098, 0x2301),
    Write(0x09A, 0x6745),
    Write(0x09C, 0xAB89),
    Write(0x09E, 0xEFCD),
    Write(0x072, 0x2000),
    Write(0x074, 0x87FF),
    Gives(960, 960),
    Pass(8),
    Gives(896, 896),
    Write(0x070, 0x0080),
    Reads(0x090, 0xDCFE),
    Gives(64, 64),
    Write(0x074, 0x87FF),
    Gives(0, 0),
    Pass(120),
    Gives(960, 960),
    Write(0x072, 0x8000),
    Gives(704, 704),
    Write(0x072, 0x4000),
    Gives(960, 960),
    Pass(8),
    Gives(0, 0),
    Pass(120),
    Place(2, 31),
    Pass(8),
    Place(2, 0),
    Write(0x070, 0x00A0),
    Write(0x074, 0x87FF),
    Volume(2, 2),
    Pass(248),
    Gives(448, 448),
    Pass(8),
    Place(2, 32),
    Gives(448, 448),
    Pass(8),
    Gives(448, 448),
    Pass(248),
    Place(2, 0),
    Gives(0, 0),
];

/// A wave that isn't played starts no channel.
static UNPLAYED: [Move; 4] = [
    Write(0x084, 0x0080),
    Write(0x074, 0x8000),
    On(0),
    Left(2, 256),
];

/// Volume 15 to one side alone, whose volume is 3, by each ratio; and all four channels at the most.
static SIDES: [Move; 26] = [
    Write(0x084, 0x0080),
    Write(0x090, 0x00F0),
    Write(0x080, 0x1030),
    Write(0x062, 0xF0C0),
    Write(0x064, 0x87FF),
    Gives(480, 0),
    Write(0x082, 0x0001),
    Gives(960, 0),
    Write(0x082, 0x0003),
    Gives(0, 0),
    Write(0x082, 0x0002),
    Gives(1920, 0),
    Pass(80),
    Gives(1920, 0),
    Pass(16),
    Gives(0, 0),
    Pass(32),
    Write(0x068, 0xF000),
    Write(0x06C, 0x8000),
    Write(0x070, 0x00C0),
    Write(0x072, 0x2000),
    Write(0x074, 0x8000),
    Write(0x078, 0xF000),
    Write(0x07C, 0x8000),
    Write(0x080, 0xFF77),
    Gives(15_360, 15_360),
];

/// Without the master enable everything is 0, stays 0 and takes no write, but for bytes of the wave.
static MASTER: [Move; 24] = [
    Write(0x084, 0x0080),
    Write(0x080, 0xFF77),
    Write(0x082, 0x0002),
    Write(0x060, 0x0011),
    Write(0x062, 0xF0C0),
    Write(0x064, 0x8000),
    Write(0x07C, 0x8000),
    Write(0x090, 0x1234),
    Pass(100),
    Sequencer(100),
    On(9),
    Write(0x084, 0x0000),
    On(0),
    Sequencer(0),
    Left(0, 0),
    Place(3, 0),
    Keeps(0x060, 0x0000),
    Keeps(0x062, 0x0000),
    Keeps(0x082, 0x0002),
    Reads(0x090, 0x1234),
    Write(0x064, 0x8000),
    Pass(100),
    Sequencer(0),
    Gives(0, 0),
];

#[test]
fn follows_the_registers(rt: HostRuntime) {
    for moves in [
        LOUD.as_slice(),
        NOISE.as_slice(),
        MASKS.as_slice(),
        START.as_slice(),
        LENGTHS.as_slice(),
        ENVELOPES.as_slice(),
        SWEEP_UP.as_slice(),
        SWEEP_DOWN.as_slice(),
        SWEEP_ALONE.as_slice(),
        BANKS.as_slice(),
        UNPLAYED.as_slice(),
        SIDES.as_slice(),
        MASTER.as_slice(),
    ] {
        play(&rt, moves);
    }
}

/// After how many moves of 32 cycles the noise's register is for the first time what it was at the start.
fn noise_period<R: Abort>(rt: &R, control: u16) -> u32 {
    let mut tones = Tones::new();
    tones.write(0x084, 0x0080);
    tones.write(0x07C, control);
    let first = tone(rt, &tones, 3).place;
    for moves in 1..0x1_0000 {
        tones.advance(32);
        if tone(rt, &tones, 3).place == first {
            return moves;
        }
    }
    0
}

#[test]
fn noise_has_its_periods(rt: HostRuntime) {
    assert_eq!(rt; noise_period(&rt, 0x8000), 32_767);
    assert_eq!(rt; noise_period(&rt, 0x8008), 127);
}

/// Numbers in the order of the state file: the sequencer, and then eight of each channel.
static NUMBERS: [u32; 33] = [
    100, 1, 3, 5, 64, 15, 1, 2, 1000, 0, 0, 0, 0, 0, 0, 0, 0, 1, 41, 8, 256, 1, 0, 0, 2047, 0, 0,
    0, 0, 0, 0, 0, 0,
];

static BANK: [u8; 16] = [0, 1, 2, 3, 4, 5, 6, 7, 8, 9, 10, 11, 12, 13, 14, 0xF5];

static HALVES: [u16; 13] = [
    0x0027, 0xF1C0, 0x03E8, 0, 0, 0x00E0, 0x2000, 0x07FF, 0, 0, 0x5577, 2, 0x0080,
];

#[test]
fn is_made_of_its_numbers(rt: HostRuntime) {
    let tones = Tones::of(&NUMBERS, &BANK, &[0; 16], &HALVES);
    assert_eq!(rt; tones.sequencer(), 100);
    assert_eq!(rt; tones.on(), 5);
    assert_eq!(rt; tone(&rt, &tones, 0).shadow, 1000);
    assert_eq!(rt; tones.bank(0)[15], 0xF5);
    assert_eq!(rt; tones.bank(1)[15], 0);
    assert_eq!(rt; tones.kept(0x062), 0xF1C0);
    // Channel 1 gives 15, and channel 3 the low half of byte 4: 19 times 8 times 4 times 8.
    assert_eq!(rt; tones.amount(), (4864, 4864));
}
