//! The lines of a console before its memories.

ghost use Rattle.std.specs.Prelude.{◌≡◌, ◌+◌, ◌<◌, ◌≤◌, ◌==◌, ◌++◌, vec_len, vec_capacity, if◌then◌else◌};
ghost use Rattle.gba_frozen_print.specs.Printed.{ended};
ghost use Rattle.gba_frozen_text.specs.Text.{numbers_say, queue_of, said_line, says_text};

use crate::freezing::Freezing;
use crate::rows::add_rows;
use gba_frozen::Row;
use gba_frozen_print::{add_queue, add_row, add_wave};
use gba_numbers::{BoardField, Field};

/// The rows before the sound queues.
static PROCESSOR_ROWS: [Row; 47] = [
    Row::Clock,
    Row::Halted,
    Row::Register(0),
    Row::Register(1),
    Row::Register(2),
    Row::Register(3),
    Row::Register(4),
    Row::Register(5),
    Row::Register(6),
    Row::Register(7),
    Row::Register(8),
    Row::Register(9),
    Row::Register(10),
    Row::Register(11),
    Row::Register(12),
    Row::Register(13),
    Row::Register(14),
    Row::Register(15),
    Row::Register(16),
    Row::Register(17),
    Row::Register(18),
    Row::Register(19),
    Row::Register(20),
    Row::Register(21),
    Row::Register(22),
    Row::Register(23),
    Row::Register(24),
    Row::Register(25),
    Row::Register(26),
    Row::Register(27),
    Row::Register(28),
    Row::Register(29),
    Row::Register(30),
    Row::Register(31),
    Row::Register(32),
    Row::Register(33),
    Row::Register(34),
    Row::Register(35),
    Row::Register(36),
    Row::Timer(0),
    Row::Timer(1),
    Row::Timer(2),
    Row::Timer(3),
    Row::Dma(0),
    Row::Dma(1),
    Row::Dma(2),
    Row::Dma(3),
];

/// Those between the queues and the wave.
static TONE_ROWS: [Row; 5] = [
    Row::Sequencer,
    Row::Tone(1),
    Row::Tone(2),
    Row::Tone(3),
    Row::Tone(4),
];

/// Those between the wave and the memories.
static BOARD_ROWS: [Row; 5] = [
    Row::Position,
    Row::Affine(2),
    Row::Affine(3),
    Row::Serial,
    Row::Known,
];

/// Adds the line of a sound queue.
#[tactic(auto, unfolding(crate::specs::Text::said_line, crate::specs::Text::is_printable, gba_numbers::specs::Fields::is_field, gba_numbers::specs::Fields::is_board_field, gba_numbers::specs::Fields::place_of, gba_numbers::specs::Fields::board_place))]
fn add_queue_of<S: Freezing>(into: &mut Vec<u8>, source: &S, queue: u32)
    requires two { queue < 2 }
    requires room { vec_len into.old + 98 ≤ vec_capacity into.old }
    ensures items { into.new.items ≡ into.old.items ++ ended (said_line (queue_of (S.numbers source.now) queue
        (if queue == 0 then (S.numbers source.now).queue_a else (S.numbers source.now).queue_b))) }
    ensures len { vec_len into.new ≤ vec_len into.old + 98 }
    ensures room { vec_capacity into.old ≤ vec_capacity into.new }
{
    let current = source.value(Field::Board(BoardField::QueueCurrent(queue))) as u8;
    add_queue(into, queue, current, source.queue(queue));
}

/// Adds the lines of a player's console before its memories: 11,681 bytes are enough.
#[tactic(auto, unfolding(gba_frozen::specs::Rows::is_row, gba_frozen::specs::Rows::count_of))]
pub fn add_numbers<S: Freezing>(into: &mut Vec<u8>, source: &S, player: u32)
    requires player { player < 4 }
    requires room { vec_len into.old + 11681 ≤ vec_capacity into.old }
    ensures items { into.new.items ≡ into.old.items ++ says_text (numbers_say player (S.numbers source.now)) }
    ensures len { vec_len into.new ≤ vec_len into.old + 11681 }
    ensures room { vec_capacity into.old ≤ vec_capacity into.new }
{
    add_row(into, Row::Heading, &[]);
    add_row(into, Row::Console(player), &[]);
    add_rows(into, source, &PROCESSOR_ROWS);
    add_queue_of(into, source, 0);
    add_queue_of(into, source, 1);
    add_rows(into, source, &TONE_ROWS);
    add_wave(into, 0, source.wave(0));
    add_wave(into, 1, source.wave(1));
    add_rows(into, source, &BOARD_ROWS);
}
