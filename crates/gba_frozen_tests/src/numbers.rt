//! The numbers of a console: their places, and what setting one does.

use gba_numbers::{BoardField, Field, NUMBERS, Numbers, fits, is_field, place};
use std::process::Abort;

/// The first and the last number of each part of a frozen file, in its order, with their places.
static PLACES: [(Field, usize); 28] = [
    (Field::Clock, 0),
    (Field::Board(BoardField::Halted), 1),
    (Field::Register(0), 2),
    (Field::Register(36), 38),
    (Field::Board(BoardField::TimerCounter(0)), 39),
    (Field::Board(BoardField::TimerPhase(3)), 54),
    (Field::Board(BoardField::DmaActive(0)), 55),
    (Field::Board(BoardField::DmaLeft(3)), 74),
    (Field::Board(BoardField::QueueCurrent(0)), 75),
    (Field::Board(BoardField::QueueLength(1)), 78),
    (Field::Board(BoardField::Sequencer), 79),
    (Field::Board(BoardField::Tone { tone: 1, part: 0 }), 80),
    (Field::Board(BoardField::Tone { tone: 4, part: 7 }), 111),
    (Field::Board(BoardField::Line), 112),
    (Field::Board(BoardField::ReferenceX(2)), 114),
    (Field::Board(BoardField::ReferenceY(3)), 117),
    (Field::Board(BoardField::SerialMode), 118),
    (Field::Board(BoardField::SerialWord), 124),
    (Field::Board(BoardField::Known(0)), 125),
    (Field::Board(BoardField::Known(3)), 128),
    (Field::FlashState, 129),
    (Field::FlashBank, 132),
    (Field::Was, 133),
    (Field::Applied, 134),
    (Field::Frames, 135),
    (Field::Words, 137),
    (Field::QueueByte { queue: 0, place: 0 }, 138),
    (
        Field::Board(BoardField::WaveByte { bank: 1, place: 15 }),
        233,
    ),
];

/// What are no numbers.
static NONE: [Field; 9] = [
    Field::Register(37),
    Field::Board(BoardField::TimerReload(4)),
    Field::Board(BoardField::DmaSource(4)),
    Field::Board(BoardField::QueueCurrent(2)),
    Field::Board(BoardField::Tone { tone: 0, part: 0 }),
    Field::Board(BoardField::Tone { tone: 4, part: 8 }),
    Field::Board(BoardField::ReferenceX(1)),
    Field::Board(BoardField::Known(4)),
    Field::QueueByte {
        queue: 0,
        place: 32,
    },
];

/// Where a number stands, if it is one.
fn place_of(field: Field) -> Option<usize> {
    if is_field(field) {
        Some(place(field))
    } else {
        None
    }
}

#[test]
fn numbers_stand_in_the_order_of_the_file(rt: HostRuntime) {
    for &(field, wanted) in &PLACES {
        assert_eq!(rt; place_of(field), Some(wanted), "{field:?}");
    }
    assert_eq!(rt; NUMBERS, 138);
}

#[test]
fn other_numbers_are_none(rt: HostRuntime) {
    for &field in &NONE {
        assert_eq!(rt; place_of(field), None, "{field:?}");
    }
}

fn set<R: Abort>(rt: &R, numbers: &mut Numbers, field: Field, value: u64) {
    assert!(rt; is_field(field));
    assert!(rt; numbers.has(field));
    assert!(rt; fits(field, value));
    numbers.set(field, value);
}

/// A number, if it is there.
fn value<R: Abort>(rt: &R, numbers: &Numbers, field: Field) -> Option<u64> {
    assert!(rt; is_field(field));
    if numbers.has(field) {
        Some(numbers.value(field))
    } else {
        None
    }
}

const LENGTH: Field = Field::Board(BoardField::QueueLength(1));

const FIRST: Field = Field::QueueByte { queue: 1, place: 0 };

const SECOND: Field = Field::QueueByte { queue: 1, place: 1 };

const THIRD: Field = Field::QueueByte { queue: 1, place: 2 };

const WAVE: Field = Field::Board(BoardField::WaveByte { bank: 1, place: 15 });

/// Numbers that are set one after another, and numbers that are then there with their values, or aren't there.
type Case = (&'static [(Field, u64)], &'static [(Field, Option<u64>)]);

static CASES: [Case; 4] = [
    (
        &[],
        &[
            (Field::Register(31), Some(0xD3)),
            (Field::Clock, Some(0)),
            (FIRST, None),
            (SECOND, None),
            (THIRD, None),
        ],
    ),
    (
        &[(Field::Clock, 600), (WAVE, 0xA5)],
        &[
            (Field::Clock, Some(600)),
            (WAVE, Some(0xA5)),
            (Field::Was, Some(0)),
        ],
    ),
    // a queue keeps its bytes below its length
    (
        &[
            (LENGTH, 3),
            (FIRST, 7),
            (SECOND, 8),
            (THIRD, 9),
            (LENGTH, 1),
        ],
        &[(SECOND, None)],
    ),
    (
        &[
            (LENGTH, 3),
            (FIRST, 7),
            (SECOND, 8),
            (THIRD, 9),
            (LENGTH, 1),
            (LENGTH, 2),
        ],
        &[(FIRST, Some(7)), (SECOND, Some(0)), (THIRD, None)],
    ),
];

/// Numbers in which these are set.
fn numbers_of<R: Abort>(rt: &R, sets: &[(Field, u64)]) -> Numbers {
    let mut numbers = Numbers::new();
    for &(field, value) in sets {
        set(rt, &mut numbers, field, value);
    }
    numbers
}

/// Each number has its value.
fn have<R: Abort>(rt: &R, case: usize, numbers: &Numbers, wanted: &[(Field, Option<u64>)]) {
    for &(field, wanted) in wanted {
        assert_eq!(rt; value(rt, numbers, field), wanted, "case {case}, {field:?}");
    }
}

#[test]
fn numbers_are_set(rt: HostRuntime) {
    for (case, &(sets, wanted)) in CASES.iter().enumerate() {
        have(&rt, case, &numbers_of(&rt, sets), wanted);
    }
}
