//! Painted rows of tiles.

ghost use Rattle.std.specs.Prelude.{◌≡◌, ℕ, ◌+◌, ◌*◌, ◌%◌, ◌<◌, ◌≤◌, List, length, slice_index};
ghost use Rattle.gba_ppu_dot.specs.Paints.{ArePaints, paint_of};
ghost use Rattle.gba_ppu_text.specs.Paint.{number_paint};
ghost use Rattle.gba_ppu_text.specs.Text.{mirrored as mirrored_place, nibble_number, tile_dot};
ghost use Rattle.gba_terms.specs.Bits.{field};

use crate::tile::{TILES_END, mirrored, palette_of, seen_row};
use gba_ppu_dot::{BackgroundControl, BackgroundPaints};
use gba_word::{bit, bits};

/// A row of eight dots in nibbles, the left one in the lowest.
fn nibbles_at(vram: &[u8], start: usize) -> u32
    requires vram { length vram.now ≡ 98304 }
    requires aligned { start % 4 ≡ 0 }
    ensures { (column : ℕ) → column < 8 → field result (4 * column) 4 ≡ nibble_number vram.now start column }
{
    if start >= TILES_END {
        return 0;
    }
    u32::from(vram[start])
        + 0x100 * u32::from(vram[start + 1])
        + 0x1_0000 * u32::from(vram[start + 2])
        + 0x100_0000 * u32::from(vram[start + 3])
}

/// Paints a row of eight dots in nibbles, from a place on, by the paints of a palette.
fn paint_nibbles(colours: &[u16], row: u32, mirror: bool, at: usize, paints: &mut [u16])
    requires colours { length colours.now ≡ 16 }
    requires paints { at + 8 ≤ length paints.old }
    ensures before { (k : ℕ) → k < at → slice_index paints.new k ≡ slice_index paints.old k }
    ensures drawn { (column : ℕ) → column < 8 → slice_index paints.new (at + column)
        ≡ slice_index colours.now (field row (4 * mirrored_place mirror column) 4) }
{
    for column in 0..8u32 {
        let number = bits(row, 4 * mirrored(mirror, column), 4);
        paints[at + column as usize] = colours[number as usize];
    }
}

/// Paints a row of eight dots in bytes, from a place on.
fn paint_bytes(colours: &BackgroundPaints, numbers: [u8; 8], at: usize, paints: &mut [u16])
    requires paints { at + 8 ≤ length paints.old }
    ensures before { (k : ℕ) → k < at → slice_index paints.new k ≡ slice_index paints.old k }
    ensures drawn { (palette : List ℕ) → ArePaints palette colours.now → (column : ℕ) → column < 8
        → slice_index paints.new (at + column) ≡ number_paint palette 0 (slice_index numbers column) }
{
    for column in 0..8 {
        paints[at + column] = colours.by_byte[usize::from(numbers[column])];
    }
}

/// Paints a row of the tile of an entry, eight places from one on.
#[tactic(auto, unfolding(crate::specs::Text::number_at))]
pub(crate) fn paint_row(
    colours: &BackgroundPaints,
    vram: &[u8],
    control: BackgroundControl,
    entry: u16,
    row: u32,
    at: usize,
    paints: &mut [u16],
)
    requires vram { length vram.now ≡ 98304 }
    requires row { row < 8 }
    requires paints { at + 8 ≤ length paints.old }
    ensures before { (k : ℕ) → k < at → slice_index paints.new k ≡ slice_index paints.old k }
    ensures drawn { (palette : List ℕ) → ArePaints palette colours.now → (column : ℕ) → column < 8
        → slice_index paints.new (at + column) ≡ paint_of palette (tile_dot vram.now control.value entry column row) }
{
    if control.has_eight_bits() {
        paint_bytes(colours, seen_row(vram, control, entry, row), at, paints);
        return;
    }
    let tile = bits(u32::from(entry), 0, 10);
    let row = mirrored(bit(u32::from(entry), 11), row);
    let numbers = nibbles_at(vram, (control.tiles_start() + 32 * tile + 4 * row) as usize);
    let mirror = bit(u32::from(entry), 10);
    let start = usize::from(palette_of(control, entry));
    let colours = &colours.by_nibble[start..start + 16];
    paint_nibbles(colours, numbers, mirror, at, paints);
}
