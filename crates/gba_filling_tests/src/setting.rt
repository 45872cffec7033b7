//! The numbers, the memories and the drawn lines of a console that is being filled are set one by one.

use gba_filling::Loose;
use gba_image::Backup;
use gba_numbers::{BoardField, Field, MemoryName, is_field};
use std::process::Abort;
use std::test::Fail;

/// A number of each kind, the greatest value of its range, and the least one that is greater and isn't in it.
static ENDS: [(Field, u64, u64); 57] = [
    (Field::Clock, 549_755_814_399, 549_755_814_400),
    (Field::Board(BoardField::Halted), 1, 2),
    (Field::Register(0), 4_294_967_295, 4_294_967_296),
    (Field::Register(30), 4_294_967_295, 4_294_967_296),
    (Field::Register(31), 0xF000_00FF, 0xF000_0100),
    (Field::Register(32), 0xF000_00FF, 0xF000_0100),
    (Field::Register(36), 0xF000_00FF, 0xF000_0100),
    (Field::Board(BoardField::TimerCounter(0)), 65_535, 65_536),
    (Field::Board(BoardField::TimerReload(1)), 65_535, 65_536),
    (Field::Board(BoardField::TimerControl(0)), 0xC3, 0xC4),
    (Field::Board(BoardField::TimerControl(3)), 0xC7, 0xC8),
    (Field::Board(BoardField::TimerPhase(2)), 1023, 1024),
    (Field::Board(BoardField::DmaActive(0)), 1, 2),
    (Field::Board(BoardField::DmaFirst(1)), 1, 2),
    (
        Field::Board(BoardField::DmaSource(2)),
        4_294_967_295,
        4_294_967_296,
    ),
    (
        Field::Board(BoardField::DmaTarget(3)),
        4_294_967_295,
        4_294_967_296,
    ),
    (Field::Board(BoardField::DmaLeft(0)), 65_536, 65_537),
    (Field::Board(BoardField::QueueCurrent(0)), 255, 256),
    (Field::Board(BoardField::QueueLength(0)), 32, 33),
    (Field::Board(BoardField::QueueLength(1)), 32, 33),
    (
        Field::QueueByte {
            queue: 0,
            place: 31,
        },
        255,
        256,
    ),
    (Field::Board(BoardField::Sequencer), 262_143, 262_144),
    (Field::Board(BoardField::Tone { tone: 1, part: 0 }), 1, 2),
    (Field::Board(BoardField::Tone { tone: 1, part: 1 }), 7, 8),
    (Field::Board(BoardField::Tone { tone: 2, part: 1 }), 7, 8),
    (Field::Board(BoardField::Tone { tone: 3, part: 1 }), 63, 64),
    (
        Field::Board(BoardField::Tone { tone: 4, part: 1 }),
        32_767,
        32_768,
    ),
    (
        Field::Board(BoardField::Tone { tone: 1, part: 2 }),
        16_777_215,
        16_777_216,
    ),
    (
        Field::Board(BoardField::Tone { tone: 2, part: 3 }),
        256,
        257,
    ),
    (Field::Board(BoardField::Tone { tone: 3, part: 4 }), 15, 16),
    (Field::Board(BoardField::Tone { tone: 4, part: 5 }), 7, 8),
    (Field::Board(BoardField::Tone { tone: 1, part: 6 }), 7, 8),
    (
        Field::Board(BoardField::Tone { tone: 1, part: 7 }),
        2047,
        2048,
    ),
    (
        Field::Board(BoardField::WaveByte { bank: 0, place: 0 }),
        255,
        256,
    ),
    (
        Field::Board(BoardField::WaveByte { bank: 1, place: 15 }),
        255,
        256,
    ),
    (Field::Board(BoardField::Line), 227, 228),
    (Field::Board(BoardField::Dot), 1231, 1232),
    (
        Field::Board(BoardField::ReferenceX(2)),
        4_294_967_295,
        4_294_967_296,
    ),
    (
        Field::Board(BoardField::ReferenceY(3)),
        4_294_967_295,
        4_294_967_296,
    ),
    (Field::Board(BoardField::SerialMode), 3, 4),
    (Field::Board(BoardField::SerialRunning), 1, 2),
    (Field::Board(BoardField::SerialStarted), 1, 2),
    (
        Field::Board(BoardField::SerialEnd),
        1_099_511_627_775,
        1_099_511_627_776,
    ),
    (Field::Board(BoardField::SerialGot), 15, 16),
    (
        Field::Board(BoardField::SerialSent),
        4_294_967_295,
        4_294_967_296,
    ),
    (
        Field::Board(BoardField::SerialWord),
        4_294_967_295,
        4_294_967_296,
    ),
    (Field::Board(BoardField::Known(0)), 3, 4),
    (Field::Board(BoardField::Known(3)), 3, 4),
    (Field::FlashState, 4, 5),
    (Field::FlashArmed, 1, 2),
    (Field::FlashIdentify, 1, 2),
    (Field::FlashBank, 1, 2),
    (Field::Was, 549_755_814_399, 549_755_814_400),
    (Field::Applied, 1_099_511_627_775, 1_099_511_627_776),
    (Field::Frames, 1_099_511_627_775, 1_099_511_627_776),
    (Field::Samples, 1_099_511_627_775, 1_099_511_627_776),
    (Field::Words, 1_099_511_627_775, 1_099_511_627_776),
];

/// Whatever keeps the saves.
#[test]
fn values_fit_up_to_their_ends(rt: HostRuntime) -> Result<(), Fail> {
    for &backup in &[Backup::Sram, Backup::Flash64, Backup::Flash128] {
        let loose = Loose::new(rt.alloc(), backup)?;
        for &(field, last, past) in &ENDS {
            assert!(rt; is_field(field));
            assert!(rt; loose.fits(field, last), "{field:?}");
            assert!(rt; !loose.fits(field, past), "{field:?}");
        }
    }
    Ok(())
}

fn set<R: Abort>(rt: &R, loose: &mut Loose, field: Field, value: u64) {
    assert!(rt; is_field(field));
    assert!(rt; loose.numbers().has(field), "{field:?}");
    assert!(rt; loose.fits(field, value), "{field:?}");
    loose.set(field, value);
}

fn value<R: Abort>(rt: &R, loose: &Loose, field: Field) -> u64 {
    assert!(rt; is_field(field));
    assert!(rt; loose.numbers().has(field), "{field:?}");
    loose.value(field)
}

/// Each stays while the others are set.
#[test]
fn numbers_are_set(rt: HostRuntime) -> Result<(), Fail> {
    let mut loose = Loose::new(rt.alloc(), Backup::Sram)?;
    for &(field, last, _) in &ENDS {
        set(&rt, &mut loose, field, last);
    }
    for &(field, last, _) in &ENDS {
        assert_eq!(rt; value(&rt, &loose, field), last, "{field:?}");
    }
    assert_eq!(rt; value(&rt, &loose, Field::Register(1)), 0);
    Ok(())
}

/// The byte that a queue keeps, one that is new, and one that isn't there.
#[test]
fn queues_get_other_lengths(rt: HostRuntime) -> Result<(), Fail> {
    let mut loose = Loose::new(rt.alloc(), Backup::Sram)?;
    let length = Field::Board(BoardField::QueueLength(1));
    set(&rt, &mut loose, length, 2);
    for &(place, byte) in &[(0, 0xA5), (1, 0x5A)] {
        set(&rt, &mut loose, Field::QueueByte { queue: 1, place }, byte);
    }
    set(&rt, &mut loose, length, 1);
    set(&rt, &mut loose, length, 2);
    for &(place, byte) in &[(0, 0xA5), (1, 0)] {
        assert_eq!(rt;
            value(&rt, &loose, Field::QueueByte { queue: 1, place }),
            byte
        );
    }
    let behind = Field::QueueByte { queue: 1, place: 2 };
    assert!(rt; is_field(behind));
    assert!(rt; !loose.numbers().has(behind));
    Ok(())
}

/// How many bytes each memory has.
static LENGTHS: [(MemoryName, u32); 7] = [
    (MemoryName::Io, 0x400),
    (MemoryName::Wram, 0x4_0000),
    (MemoryName::Iwram, 0x8000),
    (MemoryName::Palette, 0x400),
    (MemoryName::Vram, 0x1_8000),
    (MemoryName::Oam, 0x400),
    (MemoryName::Backup, 0x1_0000),
];

/// Puts bytes into a memory up to its end.
fn set_last<R: Abort>(rt: &R, loose: &mut Loose, (name, length): (MemoryName, u32), bytes: &[u8]) {
    assert_eq!(rt; loose.memories().bytes(name).len(), length as usize);
    assert!(rt; bytes.len() <= length as usize);
    loose.set_memory(length - bytes.len() as u32, name, bytes);
}

/// The other bytes of each stay 0.
#[test]
fn memories_are_set(rt: HostRuntime) -> Result<(), Fail> {
    let mut loose = Loose::new(rt.alloc(), Backup::Flash64)?;
    for (place, &memory) in LENGTHS.iter().enumerate() {
        set_last(&rt, &mut loose, memory, &[0xFF, place as u8 + 1, 0xFE]);
    }
    for (place, &(name, length)) in LENGTHS.iter().enumerate() {
        let bytes = loose.memories().bytes(name);
        assert!(rt; bytes.ends_with(&[0xFF, place as u8 + 1, 0xFE]), "{name:?}");
        let zeros = bytes.iter().filter(|byte| **byte == 0).count();
        assert_eq!(rt; zeros, length as usize - 3, "{name:?}");
    }
    Ok(())
}

/// As many lines as there may be, two, and none.
#[test]
fn drawn_lines_are_set(rt: HostRuntime) -> Result<(), Fail> {
    let mut loose = Loose::new(rt.alloc(), Backup::Sram)?;
    loose.set_drawn(&[0x7FFF; 38_160]);
    assert_eq!(rt; loose.drawn().lines().len(), 159);
    let mut colours = [0x1234; 480];
    colours[239] = 0x8001;
    colours[240] = 0x5678;
    loose.set_drawn(&colours);
    assert!(rt; !loose.drawn().has_gap());
    let lines = loose.drawn().lines();
    assert_eq!(rt; lines.len(), 2);
    assert_eq!(rt; (lines[0][0], lines[0][1]), (0x34, 0x12));
    assert_eq!(rt; (lines[0][478], lines[0][479]), (0x01, 0x80));
    assert_eq!(rt; (lines[1][0], lines[1][1]), (0x78, 0x56));
    assert_eq!(rt; (lines[1][478], lines[1][479]), (0x34, 0x12));
    loose.set_drawn(&[]);
    assert!(rt; loose.drawn().lines().is_empty());
    Ok(())
}
