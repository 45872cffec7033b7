//! The numbers that lines say of a console.

ghost use Rattle.std.specs.Prelude.{◌≡◌, ℕ, ◌<◌, ◌≤◌, true, length};
ghost use Rattle.gba_frozen.specs.Reading.{queue_byte, wave_byte, with_bytes, with_queue_line, with_values};
ghost use Rattle.gba_frozen.specs.Rows.{all_fit, count_of, is_row};
ghost use Rattle.gba_numbers.specs.Fields.{place_of};
ghost use Rattle.gba_numbers.specs.Numbers.{is_there};
ghost use Rattle.gba_filling.specs.Loose.{with_numbers};

use crate::loose::Loose;
use gba_frozen::{Row, count, field};
use gba_numbers::{BoardField, Field};

/// Sets the numbers of a row.
pub fn set_row(console: &mut Loose, row: Row, values: &[u64])
    requires row { is_row row ≡ true }
    requires count { length values.now ≡ count_of row }
    requires fit { (until : ℕ) × (all_fit until row 0 values.now ≡ true) }
    ensures { console.new ≡ with_numbers (with_values row 0 values.now console.old.numbers) console.old }
{
    for part in 0..count(row) {
        console.set(field(row, part), values[part as usize]);
    }
}

/// Sets the bytes of a sound queue, which holds at least as many.
#[tactic(auto, unfolding(gba_numbers::specs::Fields::is_field, gba_numbers::specs::Fields::is_board_field, gba_numbers::specs::Ranges::field_fits, gba_numbers::specs::Ranges::board_fits, gba_numbers::specs::Fields::place_of, gba_numbers::specs::Fields::board_place, gba_numbers::specs::Numbers::is_there))]
fn set_queue_bytes(console: &mut Loose, queue: u32, bytes: &[u8])
    requires queue { queue < 2 }
    requires few { length bytes.now ≤ 32 }
    requires there { (place : ℕ) → place < length bytes.now
        → is_there (place_of (queue_byte queue place)) console.old.numbers ≡ true }
    ensures { console.new ≡ with_numbers (with_bytes (queue_byte queue) 0 bytes.now console.old.numbers) console.old }
{
    for (place, byte) in bytes.iter().enumerate() {
        let field = Field::QueueByte {
            queue,
            place: place as u32,
        };
        console.set(field, u64::from(*byte));
    }
}

/// Sets the current byte of a sound queue, and the bytes that it holds.
#[tactic(auto, unfolding(gba_numbers::specs::Fields::is_field, gba_numbers::specs::Fields::is_board_field, gba_numbers::specs::Ranges::field_fits, gba_numbers::specs::Ranges::board_fits, gba_numbers::specs::Fields::place_of, gba_numbers::specs::Fields::board_place, gba_numbers::specs::Numbers::is_there))]
pub fn set_queue(console: &mut Loose, queue: u32, current: u8, bytes: &[u8])
    requires queue { queue < 2 }
    requires few { length bytes.now ≤ 32 }
    ensures { console.new ≡ with_numbers (with_queue_line queue current bytes.now console.old.numbers) console.old }
{
    let current_byte = Field::Board(BoardField::QueueCurrent(queue));
    let count = Field::Board(BoardField::QueueLength(queue));
    console.set(current_byte, u64::from(current));
    console.set(count, bytes.len() as u64);
    set_queue_bytes(console, queue, bytes);
}

/// Sets the bytes of a bank of channel 3's wave.
#[tactic(auto, unfolding(gba_numbers::specs::Fields::is_field, gba_numbers::specs::Fields::is_board_field, gba_numbers::specs::Ranges::field_fits, gba_numbers::specs::Ranges::board_fits, gba_numbers::specs::Fields::place_of, gba_numbers::specs::Fields::board_place, gba_numbers::specs::Numbers::is_there))]
pub fn set_wave(console: &mut Loose, bank: u32, bytes: &[u8])
    requires bank { bank < 2 }
    requires count { length bytes.now ≡ 16 }
    ensures { console.new ≡ with_numbers (with_bytes (wave_byte bank) 0 bytes.now console.old.numbers) console.old }
{
    for (place, byte) in bytes.iter().enumerate() {
        let field = Field::Board(BoardField::WaveByte {
            bank,
            place: place as u32,
        });
        console.set(field, u64::from(*byte));
    }
}
