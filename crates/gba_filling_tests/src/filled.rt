//! Files are read, and their consoles are asked for.

ghost use Rattle.std.specs.Prelude.{◌≤◌, ◌<◌, ◌^◌};

use crate::files::{ONE, TWO, file_of_one, file_of_signals, file_of_two};
use arrayvec::ArrayVec;
use gba_filling::{FilledParts, Filling, Loose};
use gba_frozen::Setup;
use gba_frozen_read::read_frozen;
use gba_numbers::{BoardField, Field, MemoryName, is_field};
use link_node::{LinkMode, Signal};
use link_order::Sent;
use std::alloc::Global;
use std::process::Abort;
use std::test::Fail;

/// What a file of a job comes to; it has to be one.
fn read<R: Abort>(rt: &R, alloc: Global, setup: &Setup, file: &[u8]) -> Result<Filling, Fail>
    requires some { 1 ≤ setup.now.consoles }
    requires consoles { setup.now.consoles ≤ 4 }
    requires until { setup.now.until < 2 ^ 63 }
{
    let mut filling = Filling::new(alloc, setup)?;
    assert!(rt; read_frozen(setup, file, &mut filling).is_ok());
    Ok(filling)
}

/// A console of a job.
fn console<'a, R: Abort>(rt: &R, filling: &'a Filling, player: usize) -> &'a Loose {
    filling.consoles().get(player).expect(rt, "a console")
}

/// A number, if it is there.
fn number(console: &Loose, field: Field) -> Option<u64> {
    if !is_field(field) {
        return None;
    }
    if !console.numbers().has(field) {
        return None;
    }
    Some(console.value(field))
}

/// The numbers of the first console but for its general registers.
static NUMBERS: [(Field, u64); 118] = [
    (Field::Clock, 600),
    (Field::Board(BoardField::Halted), 1),
    (Field::Register(31), 0x8000_001f),
    (Field::Register(32), 0x1000_0010),
    (Field::Register(33), 0x2000_0011),
    (Field::Register(34), 0x3000_0012),
    (Field::Register(35), 0x4000_0013),
    (Field::Register(36), 0x5000_0017),
    (Field::Board(BoardField::TimerCounter(0)), 1),
    (Field::Board(BoardField::TimerReload(0)), 2),
    (Field::Board(BoardField::TimerControl(0)), 195),
    (Field::Board(BoardField::TimerPhase(0)), 4),
    (Field::Board(BoardField::TimerCounter(1)), 5),
    (Field::Board(BoardField::TimerReload(1)), 6),
    (Field::Board(BoardField::TimerControl(1)), 199),
    (Field::Board(BoardField::TimerPhase(1)), 8),
    (Field::Board(BoardField::TimerCounter(2)), 9),
    (Field::Board(BoardField::TimerReload(2)), 10),
    (Field::Board(BoardField::TimerControl(2)), 198),
    (Field::Board(BoardField::TimerPhase(2)), 12),
    (Field::Board(BoardField::TimerCounter(3)), 65_535),
    (Field::Board(BoardField::TimerReload(3)), 14),
    (Field::Board(BoardField::TimerControl(3)), 134),
    (Field::Board(BoardField::TimerPhase(3)), 1023),
    (Field::Board(BoardField::DmaActive(0)), 1),
    (Field::Board(BoardField::DmaFirst(0)), 0),
    (Field::Board(BoardField::DmaSource(0)), 33_554_432),
    (Field::Board(BoardField::DmaTarget(0)), 50_331_648),
    (Field::Board(BoardField::DmaLeft(0)), 5),
    (Field::Board(BoardField::DmaActive(1)), 0),
    (Field::Board(BoardField::DmaFirst(1)), 1),
    (Field::Board(BoardField::DmaSource(1)), 1),
    (Field::Board(BoardField::DmaTarget(1)), 2),
    (Field::Board(BoardField::DmaLeft(1)), 3),
    (Field::Board(BoardField::DmaActive(2)), 1),
    (Field::Board(BoardField::DmaFirst(2)), 1),
    (Field::Board(BoardField::DmaSource(2)), 4),
    (Field::Board(BoardField::DmaTarget(2)), 5),
    (Field::Board(BoardField::DmaLeft(2)), 65_536),
    (Field::Board(BoardField::DmaActive(3)), 0),
    (Field::Board(BoardField::DmaFirst(3)), 0),
    (Field::Board(BoardField::DmaSource(3)), 4_294_967_295),
    (Field::Board(BoardField::DmaTarget(3)), 6),
    (Field::Board(BoardField::DmaLeft(3)), 7),
    (Field::Board(BoardField::QueueCurrent(0)), 0x11),
    (Field::Board(BoardField::QueueLength(0)), 3),
    (Field::Board(BoardField::QueueCurrent(1)), 0x7f),
    (Field::Board(BoardField::QueueLength(1)), 2),
    (Field::QueueByte { queue: 0, place: 0 }, 0x0a),
    (Field::QueueByte { queue: 0, place: 1 }, 0x0b),
    (Field::QueueByte { queue: 0, place: 2 }, 0x0c),
    (Field::QueueByte { queue: 1, place: 0 }, 0x01),
    (Field::QueueByte { queue: 1, place: 1 }, 0xff),
    (Field::Board(BoardField::Sequencer), 262_143),
    (Field::Board(BoardField::Tone { tone: 1, part: 0 }), 1),
    (Field::Board(BoardField::Tone { tone: 1, part: 1 }), 7),
    (Field::Board(BoardField::Tone { tone: 1, part: 2 }), 9),
    (Field::Board(BoardField::Tone { tone: 1, part: 3 }), 256),
    (Field::Board(BoardField::Tone { tone: 1, part: 4 }), 15),
    (Field::Board(BoardField::Tone { tone: 1, part: 5 }), 7),
    (Field::Board(BoardField::Tone { tone: 1, part: 6 }), 6),
    (Field::Board(BoardField::Tone { tone: 1, part: 7 }), 2047),
    (Field::Board(BoardField::Tone { tone: 2, part: 0 }), 0),
    (Field::Board(BoardField::Tone { tone: 2, part: 1 }), 1),
    (Field::Board(BoardField::Tone { tone: 2, part: 2 }), 2),
    (Field::Board(BoardField::Tone { tone: 2, part: 3 }), 3),
    (Field::Board(BoardField::Tone { tone: 2, part: 4 }), 4),
    (Field::Board(BoardField::Tone { tone: 2, part: 5 }), 5),
    (Field::Board(BoardField::Tone { tone: 2, part: 6 }), 0),
    (Field::Board(BoardField::Tone { tone: 2, part: 7 }), 0),
    (Field::Board(BoardField::Tone { tone: 3, part: 0 }), 1),
    (Field::Board(BoardField::Tone { tone: 3, part: 1 }), 63),
    (
        Field::Board(BoardField::Tone { tone: 3, part: 2 }),
        16_777_215,
    ),
    (Field::Board(BoardField::Tone { tone: 3, part: 3 }), 5),
    (Field::Board(BoardField::Tone { tone: 3, part: 4 }), 3),
    (Field::Board(BoardField::Tone { tone: 3, part: 5 }), 0),
    (Field::Board(BoardField::Tone { tone: 3, part: 6 }), 0),
    (Field::Board(BoardField::Tone { tone: 3, part: 7 }), 0),
    (Field::Board(BoardField::Tone { tone: 4, part: 0 }), 1),
    (Field::Board(BoardField::Tone { tone: 4, part: 1 }), 32_767),
    (Field::Board(BoardField::Tone { tone: 4, part: 2 }), 11),
    (Field::Board(BoardField::Tone { tone: 4, part: 3 }), 12),
    (Field::Board(BoardField::Tone { tone: 4, part: 4 }), 13),
    (Field::Board(BoardField::Tone { tone: 4, part: 5 }), 1),
    (Field::Board(BoardField::Tone { tone: 4, part: 6 }), 0),
    (Field::Board(BoardField::Tone { tone: 4, part: 7 }), 0),
    (Field::Board(BoardField::WaveByte { bank: 0, place: 0 }), 0),
    (Field::Board(BoardField::WaveByte { bank: 0, place: 1 }), 1),
    (
        Field::Board(BoardField::WaveByte { bank: 0, place: 15 }),
        15,
    ),
    (
        Field::Board(BoardField::WaveByte { bank: 1, place: 0 }),
        0xf0,
    ),
    (
        Field::Board(BoardField::WaveByte { bank: 1, place: 14 }),
        0xfe,
    ),
    (
        Field::Board(BoardField::WaveByte { bank: 1, place: 15 }),
        0xff,
    ),
    (Field::Board(BoardField::Line), 2),
    (Field::Board(BoardField::Dot), 600),
    (Field::Board(BoardField::ReferenceX(2)), 1),
    (Field::Board(BoardField::ReferenceY(2)), 0x8000_0002),
    (Field::Board(BoardField::ReferenceX(3)), 0x7fff_ff03),
    (Field::Board(BoardField::ReferenceY(3)), 0xffff_ff04),
    (Field::Board(BoardField::SerialMode), 2),
    (Field::Board(BoardField::SerialRunning), 1),
    (Field::Board(BoardField::SerialStarted), 1),
    (Field::Board(BoardField::SerialEnd), 1234),
    (Field::Board(BoardField::SerialGot), 5),
    (Field::Board(BoardField::SerialSent), 6),
    (Field::Board(BoardField::SerialWord), 7),
    (Field::Board(BoardField::Known(0)), 3),
    (Field::Board(BoardField::Known(1)), 2),
    (Field::Board(BoardField::Known(2)), 1),
    (Field::Board(BoardField::Known(3)), 0),
    (Field::FlashState, 0),
    (Field::FlashArmed, 0),
    (Field::FlashIdentify, 0),
    (Field::FlashBank, 0),
    (Field::Was, 88),
    (Field::Applied, 4),
    (Field::Frames, 10),
    (Field::Samples, 20),
    (Field::Words, 30),
];

/// A number that no line says.
fn is_none(console: &Loose, field: Field) -> bool {
    number(console, field).is_none()
}

#[test]
fn numbers_are_kept(rt: HostRuntime) -> Result<(), Fail> {
    let file = file_of_one(rt.alloc(), &[])?;
    let filling = read(&rt, rt.alloc(), &ONE, file.as_slice())?;
    let console = console(&rt, &filling, 0);
    for &(field, wanted) in &NUMBERS {
        assert_eq!(rt; number(console, field), Some(wanted), "{field:?}");
    }
    for register in 0..31u32 {
        assert_eq!(rt;
            number(console, Field::Register(register)),
            Some(0x0A00_0100 + u64::from(register))
        );
    }
    assert!(rt; is_none(console, Field::QueueByte { queue: 0, place: 3 }));
    assert!(rt; is_none(console, Field::QueueByte { queue: 1, place: 2 }));
    Ok(())
}

/// The bytes that aren't 0: the memory, the place in it, and the byte.
static BYTES: [(MemoryName, usize, u8); 11] = [
    (MemoryName::Io, 0, 1),
    (MemoryName::Io, 1, 2),
    (MemoryName::Io, 0x3FF, 3),
    (MemoryName::Wram, 0x20, 4),
    (MemoryName::Wram, 0x3_FFFF, 5),
    (MemoryName::Iwram, 0x7FE0, 6),
    (MemoryName::Palette, 0x20, 7),
    (MemoryName::Palette, 0x21, 8),
    (MemoryName::Vram, 0x1_7FE0, 9),
    (MemoryName::Oam, 0x3E0, 10),
    (MemoryName::Backup, 0x7FE0, 11),
];

/// How many bytes each memory has, and how many of them aren't 0.
static LENGTHS: [(MemoryName, usize, usize); 7] = [
    (MemoryName::Io, 0x400, 3),
    (MemoryName::Wram, 0x4_0000, 2),
    (MemoryName::Iwram, 0x8000, 1),
    (MemoryName::Palette, 0x400, 2),
    (MemoryName::Vram, 0x1_8000, 1),
    (MemoryName::Oam, 0x400, 1),
    (MemoryName::Backup, 0x8000, 1),
];

/// How many bytes of a memory aren't 0.
fn written(console: &Loose, name: MemoryName) -> usize {
    console
        .memories()
        .bytes(name)
        .iter()
        .filter(|byte| **byte != 0)
        .count()
}

#[test]
fn memories_are_kept(rt: HostRuntime) -> Result<(), Fail> {
    let file = file_of_one(rt.alloc(), &[])?;
    let filling = read(&rt, rt.alloc(), &ONE, file.as_slice())?;
    let console = console(&rt, &filling, 0);
    for &(name, offset, byte) in &BYTES {
        assert_eq!(rt; console.memories().bytes(name).get(offset), Some(&byte));
    }
    for &(name, length, count) in &LENGTHS {
        assert_eq!(rt; console.memories().bytes(name).len(), length);
        assert_eq!(rt; written(console, name), count);
    }
    Ok(())
}

/// Drawn lines of these numbers: how many are kept, and whether there is a gap.
struct Gap {
    numbers: &'static [&'static [u8]],
    kept: usize,
    has_gap: bool,
}

static GAPS: [Gap; 6] = [
    Gap {
        numbers: &[],
        kept: 0,
        has_gap: false,
    },
    Gap {
        numbers: &[b"0"],
        kept: 1,
        has_gap: false,
    },
    Gap {
        numbers: &[b"0", b"1", b"2"],
        kept: 3,
        has_gap: false,
    },
    Gap {
        numbers: &[b"1"],
        kept: 0,
        has_gap: true,
    },
    Gap {
        numbers: &[b"0", b"2"],
        kept: 1,
        has_gap: true,
    },
    Gap {
        numbers: &[b"0", b"1", b"158"],
        kept: 2,
        has_gap: true,
    },
];

#[test]
fn drawn_lines_are_kept(rt: HostRuntime) -> Result<(), Fail> {
    for gap in &GAPS {
        let file = file_of_one(rt.alloc(), gap.numbers)?;
        let filling = read(&rt, rt.alloc(), &ONE, file.as_slice())?;
        let drawn = console(&rt, &filling, 0).drawn();
        assert_eq!(rt; drawn.has_gap(), gap.has_gap);
        assert_eq!(rt; drawn.lines().len(), gap.kept);
        for line in drawn.lines() {
            assert_eq!(rt;
                (line[0], line[1], line[478], line[479]),
                (0x34, 0x12, 0x34, 0x12)
            );
        }
    }
    Ok(())
}

/// The first byte of each drawn line.
fn first_bytes(console: &Loose) -> ArrayVec<u8, 4> {
    let mut first = ArrayVec::new();
    for line in console.drawn().lines() {
        let _ = first.try_push(line[0]);
    }
    first
}

#[test]
fn two_consoles_are_kept_apart(rt: HostRuntime) -> Result<(), Fail> {
    let file = file_of_two(rt.alloc())?;
    let filling = read(&rt, rt.alloc(), &TWO, file.as_slice())?;
    assert_eq!(rt; filling.consoles().len(), 2);
    let (first, second) = (console(&rt, &filling, 0), console(&rt, &filling, 1));
    for &(field, one, other) in &[
        (Field::Clock, 600, 601),
        (Field::Board(BoardField::Halted), 1, 0),
        (Field::FlashState, 0, 4),
        (Field::FlashArmed, 0, 1),
        (Field::FlashIdentify, 0, 0),
        (Field::FlashBank, 0, 1),
        (Field::Was, 88, 89),
        (Field::Applied, 4, 5),
        (Field::Words, 30, 31),
    ] {
        assert_eq!(rt;
            (number(first, field), number(second, field)),
            (Some(one), Some(other))
        );
    }
    assert_eq!(rt; written(first, MemoryName::Backup), 1);
    assert_eq!(rt; written(second, MemoryName::Backup), 2);
    assert_eq!(rt; second.memories().bytes(MemoryName::Backup).len(), 0x2_0000);
    assert_eq!(rt; first_bytes(first).as_slice(), [2, 4].as_slice());
    assert_eq!(rt; first_bytes(second).as_slice(), [6].as_slice());
    let sent = filling.signals().sent();
    assert_eq!(rt; sent, [signal(1, 0x58), signal(0, 5)].as_slice());
    assert!(rt; !filling.signals().has_more());
    Ok(())
}

/// A signal that tells the mode Normal8 alone.
fn signal(sender: u32, clock: u64) -> Sent {
    Sent {
        sender,
        signal: Signal {
            clock,
            mode: LinkMode::Normal8,
            start: None,
            reply: None,
        },
    }
}

#[test]
fn at_most_16384_signals_are_kept(rt: HostRuntime) -> Result<(), Fail> {
    for &(count, kept, more) in &[(16_384, 16_384, false), (16_385, 16_384, true)] {
        let file = file_of_signals(rt.alloc(), count)?;
        let filling = read(&rt, rt.alloc(), &ONE, file.as_slice())?;
        assert_eq!(rt; filling.signals().sent().len(), kept);
        assert_eq!(rt; filling.signals().has_more(), more);
    }
    Ok(())
}

/// Before the first line the numbers are those at first, and every byte is 0.
#[test]
fn nothing_is_said_at_first(rt: HostRuntime) -> Result<(), Fail> {
    let FilledParts { consoles, signals } = Filling::new(rt.alloc(), &TWO)?.part();
    assert_eq!(rt; consoles.len(), 2);
    assert!(rt; signals.sent().is_empty());
    for console in &consoles {
        assert_eq!(rt; number(console, Field::Register(31)), Some(0xD3));
        assert_eq!(rt; number(console, Field::Clock), Some(0));
        assert_eq!(rt; written(console, MemoryName::Backup), 0);
        assert!(rt; console.drawn().lines().is_empty());
    }
    Ok(())
}
