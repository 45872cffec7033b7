//! A painted line of a text background.

ghost use Rattle.std.specs.Prelude.{◌≡◌, ℕ, ◌+◌, ◌*◌, ◌/◌, ◌<◌, List, length, slice_index};
ghost use Rattle.gba_ppu_dot.specs.Paints.{ArePaints, IsPaintLine, paint_of};
ghost use Rattle.gba_ppu_text.specs.Text.{is_wide as is_wide_map, map_dot, on_map as place_on_map, text_pixel};

use crate::map::MapRow;
use crate::paint::paint_row;
use gba_ppu_dot::BackgroundPaints;
use gba_ppu_reg::PictureRegisters;

/// Paints the 31 whole tiles of a row of the map that a line touches.
fn paint_tiles(colours: &BackgroundPaints, vram: &[u8], row: &MapRow, paints: &mut [u16])
    requires vram { length vram.now ≡ 98304 }
    requires paints { length paints.old ≡ 248 }
    ensures { (palette : List ℕ) → ArePaints palette colours.now → (k : ℕ) → k < 248 → slice_index paints.new k
        ≡ paint_of palette (map_dot vram.now row.now.control.value
        (place_on_map (is_wide_map row.now.control.value) (8 * (row.now.across / 8) + k)) row.now.down) }
{
    for tile in 0..31u32 {
        let entry = row.entry(vram, tile);
        paint_row(
            colours,
            vram,
            row.control,
            entry,
            row.down % 8,
            (8 * tile) as usize,
            paints,
        );
    }
}

/// The paints of a text background in a line, by those of the palette: what `text_line` gives, as paints.
#[tactic(auto, unfolding(crate::specs::Text::text_pixel))]
pub fn text_paints(
    r: &PictureRegisters,
    colours: &BackgroundPaints,
    vram: &[u8],
    bg: u32,
    line: u32,
    paints: &mut [u16],
)
    requires background { bg < 4 }
    requires line { line < 160 }
    requires vram { length vram.now ≡ 98304 }
    requires paints { length paints.old ≡ 240 }
    ensures { (palette : List ℕ) → ArePaints palette colours.now
        → IsPaintLine palette (text_pixel r.now vram.now bg line) paints.new }
{
    let row = MapRow::of(r, bg, line);
    let mut tiles = [0; 248];
    paint_tiles(colours, vram, &row, &mut tiles);
    let first = (row.across % 8) as usize;
    paints.copy_from_slice(&tiles[first..first + 240]);
}
