//! The tiles of a text background.

ghost use Rattle.std.specs.Prelude.{◌≡◌, ℕ, ◌+◌, ◌-◌, ◌*◌, ◌%◌, ◌<◌, ◌≤◌, length, slice_index, slice_index_or};
ghost use Rattle.gba_ppu_dot.specs.declared.dot.Dot.{Dot};
ghost use Rattle.gba_ppu_text.specs.Text.{byte_number, mirrored as mirrored_place, nibble_number, number_at, palette_of as palette_start, unflipped_number, tile_dot};
ghost use Rattle.gba_terms.specs.Bits.{bit as bit_of, field};

use gba_ppu_dot::{BackgroundControl, Dot};
use gba_word::{bit, bits};

/// Where in video memory the tiles of backgrounds end.
pub(crate) const TILES_END: usize = 0x1_0000;

/// A row of eight dots in bytes.
#[tactic(auto, unfolding(crate::specs::Text::byte_number))]
fn row_of_bytes(vram: &[u8], start: usize) -> [u8; 8]
    requires vram { length vram.now ≡ 98304 }
    requires aligned { start % 8 ≡ 0 }
    ensures { (column : ℕ) → column < 8 → slice_index result column ≡ byte_number vram.now start column }
{
    if start >= TILES_END {
        return [0; 8];
    }
    [
        vram[start],
        vram[start + 1],
        vram[start + 2],
        vram[start + 3],
        vram[start + 4],
        vram[start + 5],
        vram[start + 6],
        vram[start + 7],
    ]
}

/// A row of eight dots in nibbles.
#[tactic(auto, unfolding(crate::specs::Text::nibble_number))]
fn row_of_nibbles(vram: &[u8], start: usize) -> [u8; 8]
    requires vram { length vram.now ≡ 98304 }
    requires aligned { start % 4 ≡ 0 }
    ensures { (column : ℕ) → column < 8 → slice_index result column ≡ nibble_number vram.now start column }
{
    if start >= TILES_END {
        return [0; 8];
    }
    [
        vram[start] % 16,
        vram[start] / 16,
        vram[start + 1] % 16,
        vram[start + 1] / 16,
        vram[start + 2] % 16,
        vram[start + 2] / 16,
        vram[start + 3] % 16,
        vram[start + 3] / 16,
    ]
}

pub(crate) fn mirrored(mirror: bool, place: u32) -> u32
    requires { place < 8 }
    ensures value { result ≡ mirrored_place mirror place }
    ensures most { result < 8 }
{
    if mirror { 7 - place } else { place }
}

pub(crate) fn palette_of(control: BackgroundControl, entry: u16) -> u16
    ensures value { result ≡ palette_start control.value entry }
    ensures most { result ≤ 240 }
    ensures aligned { result % 16 ≡ 0 }
{
    let palette = 16 * bits(u32::from(entry), 12, 4) as u16;
    if control.has_eight_bits() { 0 } else { palette }
}

/// A row of the tile of an entry, as it is stored from left to right.
fn unflipped_row(vram: &[u8], control: BackgroundControl, entry: u16, row: u32) -> [u8; 8]
    requires vram { length vram.now ≡ 98304 }
    requires row { row < 8 }
    ensures { (column : ℕ) → column < 8 → slice_index result column
        ≡ unflipped_number vram.now control.value (field entry 0 10) column (mirrored_place (bit_of entry 11) row) }
{
    let tile = bits(u32::from(entry), 0, 10);
    let row = mirrored(bit(u32::from(entry), 11), row);
    if control.has_eight_bits() {
        row_of_bytes(vram, (control.tiles_start() + 64 * tile + 8 * row) as usize)
    } else {
        row_of_nibbles(vram, (control.tiles_start() + 32 * tile + 4 * row) as usize)
    }
}

/// A row of the tile of an entry, as it is seen from left to right.
#[tactic(auto, unfolding(crate::specs::Text::number_at))]
pub(crate) fn seen_row(vram: &[u8], control: BackgroundControl, entry: u16, row: u32) -> [u8; 8]
    requires vram { length vram.now ≡ 98304 }
    requires row { row < 8 }
    ensures { (column : ℕ) → column < 8 → slice_index result column
        ≡ number_at vram.now control.value entry column row }
{
    let [a, b, c, d, e, f, g, h] = unflipped_row(vram, control, entry, row);
    if bit(u32::from(entry), 10) {
        [h, g, f, e, d, c, b, a]
    } else {
        [a, b, c, d, e, f, g, h]
    }
}

/// Draws a row of the tile of an entry, eight dots from a place on.
pub(crate) fn draw_row(
    vram: &[u8],
    control: BackgroundControl,
    entry: u16,
    row: u32,
    at: usize,
    dots: &mut [Dot],
)
    requires vram { length vram.now ≡ 98304 }
    requires row { row < 8 }
    requires dots { at + 8 ≤ length dots.old }
    ensures before { (k : ℕ) (d : Dot) → k < at → slice_index_or dots.new k d ≡ slice_index_or dots.old k d }
    ensures drawn { (column : ℕ) (d : Dot) → column < 8
        → slice_index_or dots.new (at + column) d ≡ tile_dot vram.now control.value entry column row }
{
    let priority = control.priority();
    let palette = palette_of(control, entry);
    let numbers = seen_row(vram, control, entry, row);
    for column in 0..8 {
        dots[at + column] = Dot::indexed(priority, palette, numbers[column]);
    }
}
