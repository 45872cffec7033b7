//! A board into which numbers are poured has them.

use crate::made::{io_of, numbers_of};
use gba_image::{Backup, Bios, ConsoleImages};
use gba_io::{Board, Core, Room};
use gba_loose::number_of;
use gba_loose_devices::{are_sound_devices, board};
use gba_numbers::{BoardField, Field, is_field};
use gba_serial::Seat;
use std::alloc::Global;
use std::process::Abort;
use std::test::Fail;

/// A number of each device, no two alike where their ranges let them be.
static NUMBERS: [(BoardField, u64); 27] = [
    (BoardField::Halted, 1),
    (BoardField::TimerCounter(2), 0x2345),
    (BoardField::TimerReload(2), 0x3456),
    (BoardField::TimerControl(2), 0x0044),
    (BoardField::TimerPhase(0), 63),
    (BoardField::DmaActive(0), 0),
    (BoardField::DmaFirst(1), 1),
    (BoardField::DmaSource(3), 0x0800_0100),
    (BoardField::DmaTarget(3), 0x0D00_0000),
    (BoardField::DmaLeft(3), 0x1_0000),
    (BoardField::QueueCurrent(1), 0x91),
    (BoardField::QueueLength(1), 32),
    (BoardField::Sequencer, 0x3_FFFF),
    (BoardField::Tone { tone: 3, part: 0 }, 1),
    (BoardField::Tone { tone: 3, part: 2 }, 77),
    (BoardField::Tone { tone: 3, part: 3 }, 256),
    (BoardField::WaveByte { bank: 1, place: 9 }, 0x5A),
    (BoardField::Line, 227),
    (BoardField::Dot, 1231),
    (BoardField::ReferenceX(3), 0xFFFF_0000),
    (BoardField::ReferenceY(2), 0x0001_0000),
    (BoardField::SerialRunning, 1),
    (BoardField::SerialEnd, 0xFF_FFFF_FFFF),
    (BoardField::SerialGot, 10),
    (BoardField::SerialSent, 0xFFFF_FFFF),
    (BoardField::SerialMode, 1),
    (BoardField::Known(0), 1),
];

/// Its registers: the sound is on, and the mode is Normal of 32 bits (GBATEK, GBA Sound Controller and GBA
/// Communication Ports).
static HALVES: [(u32, u16); 2] = [(0x084, 0x0084), (0x128, 0x1000)];

/// A board of player 1 of two, at reset.
fn board_at_reset(alloc: Global) -> Result<Board, Fail> {
    let mut bytes = Vec::new(alloc);
    for _ in 0..16_384 {
        bytes.push(0)?;
    }
    let images = ConsoleImages {
        bios: Bios::check(bytes).ok().ok_or("no BIOS")?,
        cart: None,
        save: None,
        backup: Backup::Sram,
    };
    let room = Room {
        until: 1_000_000,
        frames: false,
        samples: false,
        words: false,
    };
    Ok(Board::new(alloc, 1, 2, 2, images, room)?)
}

#[tactic(auto, unfolding(gba_numbers::specs::Fields::is_field))]
fn number<R: Abort>(rt: &R, core: &Core, field: BoardField) -> u64 {
    assert!(rt; is_field(Field::Board(field)));
    number_of(core, field)
}

#[test]
fn numbers_come_back(rt: HostRuntime) -> Result<(), Fail> {
    let mut fields = [(Field::Clock, 4096); 28];
    for (place, &(field, value)) in NUMBERS.iter().enumerate() {
        fields[place + 1] = (Field::Board(field), value);
    }
    let numbers = numbers_of(&rt, &fields);
    let io = io_of(&rt, &HALVES);
    let seat = Seat {
        player: 1,
        count: 2,
        round: 2,
    };
    assert!(rt; are_sound_devices(&numbers, &io));
    let parts = board(seat, &numbers, &io);
    let mut made = board_at_reset(rt.alloc())?;
    assert!(rt; parts.devices.clock() == 4096 && parts.counts.frames == 0);
    assert!(rt; parts.counts.samples == 0 && parts.counts.words == 0);
    made.pour(parts, &[], 100_000);
    for &(field, value) in &NUMBERS {
        assert_eq!(rt; number(&rt, &made.core, field), value);
    }
    assert_eq!(rt; number(&rt, &made.core, BoardField::Known(1)), 0);
    assert_eq!(rt; number(&rt, &made.core, BoardField::SerialStarted), 0);
    Ok(())
}

// A law answers nothing: that it holds is its contract.
#[test]
fn the_laws_are_stated() {
    gba_loose::laws::made_again();
    gba_loose::laws::bytes_again();
    gba_loose::laws::run_again();
    gba_loose::laws::tones_again();
}
