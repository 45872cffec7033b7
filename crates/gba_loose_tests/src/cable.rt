//! The serial unit.

use crate::made::{io_of, numbers_of};
use gba_loose_devices::serial;
use gba_numbers::{BoardField, Field};
use gba_serial::{Seat, Serial};
use link_node::LinkMode;
use std::process::Abort;
use std::test::Fail;

/// A transfer in Multi that player 0 started, beside a player 1 that told Multi.
static NUMBERS: [(Field, u64); 10] = [
    (Field::Board(BoardField::SerialMode), 2),
    (Field::Board(BoardField::SerialRunning), 1),
    (Field::Board(BoardField::SerialStarted), 1),
    (Field::Board(BoardField::SerialEnd), 9000),
    (Field::Board(BoardField::SerialGot), 5),
    (Field::Board(BoardField::SerialSent), 0x1234),
    (Field::Board(BoardField::SerialWord), 0x8765_4321),
    (Field::Board(BoardField::Known(0)), 3),
    (Field::Board(BoardField::Known(1)), 2),
    (Field::Board(BoardField::Known(3)), 1),
];

/// SIOMULTI0 to 3, SIOMLT_SEND and RCNT; SIOCNT has the error, and of player 1 the bits 2 and 4 (GBATEK, GBA
/// Communication Ports).
static HALVES: [(u32, u16); 6] = [
    (0x120, 0x1111),
    (0x122, 0x2222),
    (0x124, 0x3333),
    (0x126, 0x4444),
    (0x12A, 0x1234),
    (0x134, 0x0000),
];

static CONTROLS: [(u32, u16); 2] = [(0, 0x20C3), (1, 0x20D7)];

/// The mode that a player last told.
fn known<R: Abort>(rt: &R, unit: &Serial, player: u32) -> LinkMode {
    assert!(rt; player < 4);
    unit.known(player)
}

#[test]
fn is_made_of_numbers(rt: HostRuntime) -> Result<(), Fail> {
    let numbers = numbers_of(&rt, &NUMBERS);
    for &(player, control) in &CONTROLS {
        let mut io = io_of(&rt, &HALVES);
        io[0x128] = (control % 0x100) as u8;
        io[0x129] = (control / 0x100) as u8;
        assert!(rt; player < 2);
        let seat = Seat {
            player,
            count: 2,
            round: 2,
        };
        let unit = serial(seat, &numbers, &io);
        assert_eq!(rt; unit.listed(0x128), control);
        for &(offset, half) in &HALVES {
            assert_eq!(rt; unit.listed(offset), half);
        }
        assert_eq!(rt; unit.mode(), LinkMode::Multi);
        assert!(rt; unit.running() && unit.started() && !unit.has_news());
        assert_eq!(rt; unit.end(), 9000);
        assert_eq!(rt; unit.got(), 5);
        assert_eq!(rt; unit.sent(), 0x1234);
        assert_eq!(rt; unit.word(), 0x8765_4321);
        assert_eq!(rt; known(&rt, &unit, 0), LinkMode::Other);
        assert_eq!(rt; known(&rt, &unit, 1), LinkMode::Multi);
        assert_eq!(rt; known(&rt, &unit, 2), LinkMode::Normal8);
        assert_eq!(rt; known(&rt, &unit, 3), LinkMode::Normal32);
    }
    Ok(())
}

#[test]
fn nothing_runs_where_the_number_says_so(rt: HostRuntime) -> Result<(), Fail> {
    let numbers = numbers_of(&rt, &[(Field::Board(BoardField::SerialEnd), 5)]);
    let seat = Seat {
        player: 0,
        count: 1,
        round: 2,
    };
    let unit = serial(seat, &numbers, &[0; 1024]);
    assert!(rt; !unit.running());
    assert_eq!(rt; unit.end(), 0);
    Ok(())
}
