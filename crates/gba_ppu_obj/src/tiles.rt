//! The tiles of sprites.

ghost use Rattle.std.specs.Prelude.{◌≡◌, ◌<◌, length};
ghost use Rattle.gba_ppu_obj.specs.Fits.{SpriteFits};
ghost use Rattle.gba_ppu_obj.specs.Tiles.{byte_number, dot_number as number_of, nibble_number, picture_number as number_at, tile_number as number_of_tile};

use crate::sprite::Sprite;
use gba_word::bits;

#[tactic(auto, unfolding(crate::specs::Tiles::tile_number))]
fn tile_number(s: &Sprite, across: u32, down: u32) -> u32
    requires sprite { SpriteFits s.now }
    requires across { across < 64 }
    requires down { down < 64 }
    ensures value { result ≡ number_of_tile s.now across down }
    ensures most { result < 1024 }
{
    (s.first_tile + down / 8 * s.row_units + across / 8 * s.tile_units) % 1024
}

#[tactic(auto, unfolding(crate::specs::Tiles::byte_number))]
fn number_in_bytes(vram: &[u8], tile: u32, column: u32, row: u32) -> u8
    requires vram { length vram.now ≡ 98304 }
    requires tile { tile < 1024 }
    requires column { column < 8 }
    requires row { row < 8 }
    ensures { result ≡ byte_number vram.now tile column row }
{
    vram[(0x1_0000 + (32 * tile + 8 * row + column) % 0x8000) as usize]
}

#[tactic(auto, unfolding(crate::specs::Tiles::nibble_number))]
fn number_in_nibbles(vram: &[u8], tile: u32, column: u32, row: u32) -> u8
    requires vram { length vram.now ≡ 98304 }
    requires tile { tile < 1024 }
    requires column { column < 8 }
    requires row { row < 8 }
    ensures { result ≡ nibble_number vram.now tile column row }
{
    let pair = vram[(0x1_0000 + (32 * tile + 4 * row + column / 2) % 0x8000) as usize];
    bits(u32::from(pair), 4 * (column % 2), 4) as u8
}

fn dot_number(vram: &[u8], s: &Sprite, tile: u32, column: u32, row: u32) -> u8
    requires vram { length vram.now ≡ 98304 }
    requires tile { tile < 1024 }
    requires column { column < 8 }
    requires row { row < 8 }
    ensures { result ≡ number_of vram.now s.now tile column row }
{
    if s.eight_bits {
        number_in_bytes(vram, tile, column, row)
    } else {
        number_in_nibbles(vram, tile, column, row)
    }
}

/// The number at a place of the picture.
#[tactic(auto, unfolding(crate::specs::Tiles::picture_number))]
pub fn picture_number(vram: &[u8], s: &Sprite, across: u32, down: u32) -> u8
    requires sprite { SpriteFits s.now }
    requires vram { length vram.now ≡ 98304 }
    requires across { across < 64 }
    requires down { down < 64 }
    ensures { result ≡ number_at vram.now s.now across down }
{
    let tile = tile_number(s, across, down);
    if s.with_bitmap && tile < 512 {
        return 0;
    }
    dot_number(vram, s, tile, across % 8, down % 8)
}
