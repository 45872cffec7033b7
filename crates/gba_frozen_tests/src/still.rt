//! A console as it is at first, printed.

use crate::files::line;
use gba_frozen::Row;
use gba_frozen_text::{Freezing, add_memory_lines, add_numbers, add_rows};
use gba_numbers::{Field, MemoryName, place};
use std::test::Fail;

static NOTHING: [u8; 0] = [];

static WAVE: [u8; 16] = [0; 16];

/// Every number is 0, but CPSR as it is at reset.
struct Still;

impl Freezing for Still {
    ghost use Rattle.gba_numbers.specs.Numbers.{numbers_at_first};

    ghost numbers = { λ _. numbers_at_first };

    fn value(&self, field: Field) -> u64 {
        if place(field) == 33 { 0xD3 } else { 0 }
    }

    #[tactic(auto, unfolding(gba_numbers::specs::Numbers::numbers_at_first))]
    fn queue(&self, queue: u32) -> &[u8] {
        if queue == 0 {
            NOTHING.as_slice()
        } else {
            NOTHING.as_slice()
        }
    }

    #[tactic(auto, unfolding(gba_numbers::specs::Numbers::numbers_at_first))]
    fn wave(&self, bank: u32) -> &[u8; 16] {
        if bank == 0 { &WAVE } else { &WAVE }
    }
}

/// The lines of player 2's console that aren't those of the file of one console, by their places there.
static STILL: [(usize, &[u8]); 8] = [
    (3, b"console 2\n"),
    (4, b"clock 0\n"),
    (52, b"queue B 00 0 -\n"),
    (59, b"wave 1 00000000000000000000000000000000\n"),
    (60, b"position 0 0\n"),
    (62, b"affine 3 00000000 00000000\n"),
    (63, b"serial 0 0 0 0 0 0 0\n"),
    (64, b"known 0 0 0 0\n"),
];

/// A line of player 2's console, by its place in the file of one console.
fn still_line(place: usize) -> &'static [u8] {
    for &(at, still) in &STILL {
        if at == place {
            return still;
        }
    }
    line(place)
}

#[test]
fn numbers_are_printed_before_the_memories(rt: HostRuntime) -> Result<(), Fail> {
    let mut wanted = Vec::new(rt.alloc());
    for place in 2..65 {
        wanted.extend_from_slice(still_line(place))?;
    }
    let mut into = Vec::with_capacity(rt.alloc(), 12_000)?;
    add_numbers(&mut into, &Still, 2);
    assert_eq!(rt; into.as_slice(), wanted.as_slice());
    Ok(())
}

#[test]
#[tactic(auto, unfolding(gba_frozen::specs::Rows::is_row))]
fn rows_follow_one_another(rt: HostRuntime) -> Result<(), Fail> {
    let mut into = Vec::with_capacity(rt.alloc(), 1000)?;
    let rows = [Row::Was, Row::Applied, Row::Counts];
    add_rows(&mut into, &Still, rows.as_slice());
    let wanted = b"was 0\napplied 0\ncounts 0 0 0\n";
    assert_eq!(rt; into.as_slice(), wanted.as_slice());
    Ok(())
}

/// Lines of 32 bytes 0 are left out, and bytes behind the last whole line have none.
#[test]
fn lines_of_zeros_are_left_out(rt: HostRuntime) -> Result<(), Fail> {
    let mut bytes = [0; 140];
    bytes[32] = 1;
    bytes[127] = 0xFE;
    bytes[130] = 5;
    let mut into = Vec::with_capacity(rt.alloc(), 1000)?;
    add_memory_lines(&mut into, MemoryName::Oam, bytes.as_slice());
    let wanted =
        b"mem oam 000020 0100000000000000000000000000000000000000000000000000000000000000\nmem oam 000060 00000000000000000000000000000000000000000000000000000000000000fe\n";
    assert_eq!(rt; into.as_slice(), wanted.as_slice());
    Ok(())
}
