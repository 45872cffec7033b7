//! Direct sound: words pushed, overflows of timers, samples and registers.

use gba_sound::{Asked, Queue, Queues};
use std::process::Abort;
use std::test::Fail;

const A: u32 = 0;

const B: u32 = 1;

/// Something done to the queues, or something that must hold of them.
#[derive(Clone, Copy)]
enum Move {
    /// Write a halfword.
    Write(u32, u16),
    /// A halfword reads so.
    Reads(u32, u16),
    /// Push a word to a queue, which takes it or not.
    Push(u32, u32, bool),
    /// A timer overflows, and then A and B ask for DMA or not.
    Overflow(u32, bool, bool),
    /// The current byte of a queue, and how many bytes it holds.
    Holds(u32, u8, usize),
    /// The sample, left then right.
    Sample(i16, i16),
}

use Move::{Holds, Overflow, Push, Reads, Sample, Write};

fn push<R: Abort>(rt: &R, queues: &mut Queues, queue: u32, word: u32) -> bool {
    assert!(rt; queue < 2);
    queues.push_word(queue, word)
}

fn check_queue<R: Abort>(rt: &R, queues: &Queues, queue: u32, current: u8, length: usize) {
    assert!(rt; queue < 2);
    assert_eq!(rt; queues.current(queue), current);
    assert_eq!(rt; queues.held(queue).len(), length);
}

fn play<R: Abort>(rt: &R, moves: &[Move]) {
    let mut queues = Queues::new();
    for one in moves {
        match *one {
            Write(offset, value) => queues.write(offset, value),
            Reads(offset, value) => assert_eq!(rt; queues.read(offset), value),
            Push(queue, word, taken) => assert_eq!(rt; push(rt, &mut queues, queue, word), taken),
            Overflow(timer, a, b) => assert_eq!(rt; queues.overflow(timer), Asked { a, b }),
            Holds(queue, current, length) => check_queue(rt, &queues, queue, current, length),
            Sample(left, right) => assert_eq!(rt; queues.sample(), (left, right)),
        }
    }
}

/// Eight words fill a queue. A ninth is dropped, one at 29 bytes too, and one at 28 is taken.
static FULL: [Move; 18] = [
    Push(A, 1, true),
    Push(A, 2, true),
    Push(A, 3, true),
    Push(A, 4, true),
    Push(A, 5, true),
    Push(A, 6, true),
    Push(A, 7, true),
    Push(A, 8, true),
    Push(A, 9, false),
    Holds(A, 0, 32),
    Push(B, 1, true),
    Overflow(0, false, true),
    Overflow(0, false, true),
    Overflow(0, false, true),
    Push(A, 9, false),
    Overflow(0, false, true),
    Push(A, 9, true),
    Holds(A, 0, 32),
];

/// The low byte of a word leaves first. An empty queue keeps its current byte, and asks.
static ORDER: [Move; 10] = [
    Write(0x082, 0x4000),
    Push(A, 0x4433_2211, true),
    Overflow(0, true, false),
    Holds(A, 0x11, 3),
    Overflow(0, true, false),
    Holds(A, 0x22, 2),
    Overflow(0, true, false),
    Overflow(0, true, false),
    Overflow(0, true, false),
    Holds(A, 0x44, 0),
];

/// A queue asks where 16 bytes or fewer are left. Each takes bytes at its own timer alone; the sound is off.
static ASKING: [Move; 15] = [
    Write(0x082, 0x4000),
    Push(B, 0x0101_0101, true),
    Push(B, 0x0202_0202, true),
    Push(B, 0x0303_0303, true),
    Push(B, 0x0404_0404, true),
    Push(B, 0x0505_0505, true),
    Overflow(1, false, false),
    Overflow(1, false, false),
    Overflow(0, true, false),
    Overflow(1, false, false),
    Overflow(1, false, true),
    Holds(B, 1, 16),
    Overflow(2, false, false),
    Overflow(3, false, false),
    Sample(0, 0),
];

/// Both queues at timer 1.
static BOTH: [Move; 6] = [
    Write(0x082, 0x4400),
    Push(A, 0x7F, true),
    Push(B, 0x80, true),
    Overflow(1, true, true),
    Holds(A, 0x7F, 3),
    Holds(B, 0x80, 3),
];

/// 7Fh at full volume is 127 times 64, and 80h at half volume is 128 times 32 below 0.
static VOLUMES: [Move; 9] = [
    Write(0x084, 0x0080),
    Write(0x082, 0x0304),
    Push(A, 0x0000_807F, true),
    Overflow(0, true, true),
    Sample(8128, 8128),
    Write(0x082, 0x0300),
    Sample(4064, 4064),
    Overflow(0, true, true),
    Sample(-4096, -4096),
];

/// A goes left and B goes right, then the other way round; both to one side are added.
static SIDES: [Move; 14] = [
    Write(0x084, 0x0080),
    Push(A, 0x01, true),
    Push(B, 0xFF, true),
    Overflow(0, true, true),
    Write(0x082, 0x1204),
    Sample(64, -32),
    Write(0x082, 0x2108),
    Sample(-64, 32),
    Write(0x082, 0x3304),
    Sample(32, 32),
    Write(0x082, 0x0000),
    Sample(0, 0),
    Write(0x082, 0x330C),
    Sample(0, 0),
];

/// The greatest and the least sample, and none while the sound is off.
static EXTREMES: [Move; 10] = [
    Write(0x082, 0x330C),
    Write(0x084, 0x0080),
    Push(A, 0x0000_7F80, true),
    Push(B, 0x0000_7F80, true),
    Overflow(0, true, true),
    Sample(-16_384, -16_384),
    Overflow(0, true, true),
    Sample(16_256, 16_256),
    Write(0x084, 0xFF7F),
    Sample(0, 0),
];

/// A reset bit empties its queue and makes the current byte 0; it isn't stored.
static RESETS: [Move; 10] = [
    Push(A, 0x0101_0101, true),
    Push(B, 0x0202_0202, true),
    Overflow(0, true, true),
    Write(0x082, 0x8B00),
    Holds(A, 0, 0),
    Holds(B, 0, 0),
    Reads(0x082, 0x0300),
    Push(B, 0x0303_0303, true),
    Write(0x082, 0x0800),
    Holds(B, 0, 4),
];

/// The bits that are stored; SOUNDBIAS at reset; other offsets.
static REGISTERS: [Move; 12] = [
    Reads(0x088, 0x0200),
    Write(0x082, 0xFFFF),
    Reads(0x082, 0x770F),
    Write(0x084, 0xFFFF),
    Reads(0x084, 0x0080),
    Write(0x088, 0xFFFF),
    Reads(0x088, 0xC3FE),
    Write(0x0A0, 0xFFFF),
    Reads(0x0A0, 0),
    Holds(A, 0, 0),
    Write(0x080, 0xFFFF),
    Reads(0x080, 0),
];

#[test]
fn queues_sound_as_worked_out(rt: HostRuntime) -> Result<(), Fail> {
    let cases: [&[Move]; 9] = [
        &FULL, &ORDER, &ASKING, &BOTH, &VOLUMES, &SIDES, &EXTREMES, &RESETS, &REGISTERS,
    ];
    for moves in cases {
        play(&rt, moves);
    }
    Ok(())
}

/// The bytes of a queue, oldest first.
#[test]
fn queues_tell_their_bytes(rt: HostRuntime) -> Result<(), Fail> {
    let mut queues = Queues::new();
    assert!(rt; queues.push_word(A, 0x4433_2211));
    assert!(rt; queues.push_word(A, 0x8877_6655));
    assert_eq!(rt; queues.overflow(0), Asked { a: true, b: true });
    let held = [0x22u8, 0x33, 0x44, 0x55, 0x66, 0x77, 0x88];
    assert_eq!(rt; queues.held(A), held.as_slice());
    assert_eq!(rt; queues.held(B).len(), 0);
    Ok(())
}

/// What a queue is made of: its bytes, oldest first, and its current byte.
static HELD: [(&[u8], u8); 4] = [
    (&[], 0),
    (&[1, 2, 3, 0xFF], 0x80),
    (&[], 5),
    (&[7; 32], 0xFE),
];

#[test]
fn queues_are_made_of_their_numbers(rt: HostRuntime) -> Result<(), Fail> {
    for (bytes, current) in HELD {
        let other = Queue::of(&[9], 1);
        let queues = Queues::of(other, Queue::of(bytes, current), 0x770F, true, 0xC3FE);
        assert_eq!(rt; queues.held(B), bytes);
        assert_eq!(rt; queues.current(B), current);
        assert_eq!(rt; queues.held(A), [9].as_slice());
        assert_eq!(rt; queues.current(A), 1);
    }
    let mut queues = Queues::of(
        Queue::of(HELD[1].0, HELD[1].1),
        Queue::of(HELD[2].0, HELD[2].1),
        0x770F,
        true,
        0xC3FE,
    );
    for (offset, value) in [(0x082, 0x770F), (0x084, 0x0080), (0x088, 0xC3FE)] {
        assert_eq!(rt; queues.read(offset), value);
    }
    // At full volume on both sides: -128 and 5, each times 64.
    assert_eq!(rt; queues.sample(), (-7872, -7872));
    assert_eq!(rt; queues.overflow(1), Asked { a: true, b: true });
    assert_eq!(rt; queues.held(A), [2, 3, 0xFF].as_slice());
    Ok(())
}
