//! A line of a text background.

ghost use Rattle.std.specs.Prelude.{◌≡◌, ℕ, ◌+◌, ◌*◌, ◌/◌, ◌<◌, length, slice_index_or};
ghost use Rattle.gba_ppu_dot.specs.Dots.{IsLine};
ghost use Rattle.gba_ppu_dot.specs.declared.dot.Dot.{Dot};
ghost use Rattle.gba_ppu_text.specs.Text.{is_wide as is_wide_map, map_dot, on_map as place_on_map, text_pixel};

use crate::map::MapRow;
use crate::tile::draw_row;
use gba_ppu_dot::Dot;
use gba_ppu_reg::PictureRegisters;

/// Draws the 31 whole tiles of a row of the map that a line touches.
fn draw_tiles(vram: &[u8], row: &MapRow, dots: &mut [Dot])
    requires vram { length vram.now ≡ 98304 }
    requires dots { length dots.old ≡ 248 }
    ensures { (k : ℕ) (d : Dot) → k < 248 → slice_index_or dots.new k d
        ≡ map_dot vram.now row.now.control.value
        (place_on_map (is_wide_map row.now.control.value) (8 * (row.now.across / 8) + k)) row.now.down }
{
    for tile in 0..31u32 {
        let entry = row.entry(vram, tile);
        draw_row(
            vram,
            row.control,
            entry,
            row.down % 8,
            (8 * tile) as usize,
            dots,
        );
    }
}

/// The dots of a text background, from 0 to 3, in a line from 0 to 159: 240 of them, from left to right. Video memory
/// has 98,304 bytes. Whether the background is shown, and whether the mode has it, isn't asked.
#[tactic(auto, unfolding(crate::specs::Text::text_pixel))]
pub fn text_line(r: &PictureRegisters, vram: &[u8], bg: u32, line: u32, dots: &mut [Dot])
    requires background { bg < 4 }
    requires line { line < 160 }
    requires vram { length vram.now ≡ 98304 }
    requires dots { length dots.old ≡ 240 }
    ensures { IsLine (text_pixel r.now vram.now bg line) dots.new }
{
    let row = MapRow::of(r, bg, line);
    let mut tiles = [Dot::CLEAR; 248];
    draw_tiles(vram, &row, &mut tiles);
    let first = (row.across % 8) as usize;
    dots.copy_from_slice(&tiles[first..first + 240]);
}
