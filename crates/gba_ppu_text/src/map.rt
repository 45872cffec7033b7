//! The map of a text background.

ghost use Rattle.std.specs.Prelude.{◌≡◌, ◌<◌, length};
ghost use Rattle.gba_ppu_text.specs.Text.{block_of as block_number, is_high as is_high_map, is_wide as is_wide_map, on_map as place_on_map, text_entry};

use gba_ppu_dot::{BackgroundControl, half_at};
use gba_ppu_reg::PictureRegisters;
use gba_word::bit;

/// Whether the map is 512 dots wide, and not 256.
fn is_wide(control: BackgroundControl) -> bool
    ensures { result ≡ is_wide_map control.value }
{
    bit(u32::from(control.value), 14)
}

/// Whether the map is 512 dots high, and not 256.
fn is_high(control: BackgroundControl) -> bool
    ensures { result ≡ is_high_map control.value }
{
    bit(u32::from(control.value), 15)
}

/// A place in a direction in which the map has 512 dots, or 256.
fn on_map(twice: bool, place: u32) -> u32
    ensures value { result ≡ place_on_map twice place }
    ensures most { result < 512 }
{
    if twice { place % 512 } else { place % 256 }
}

fn block_of(control: BackgroundControl, x: u32, y: u32) -> u32
    ensures value { result ≡ block_number control.value x y }
    ensures most { result < 4 }
{
    let right = if x >= 256 { 1 } else { 0 };
    let rows = if is_wide(control) { 2 } else { 1 };
    if y >= 256 { right + rows } else { right }
}

/// The entry for a place on the map.
#[tactic(auto, unfolding(crate::specs::Text::text_entry))]
fn entry_at(vram: &[u8], control: BackgroundControl, x: u32, y: u32) -> u16
    requires { length vram.now ≡ 98304 }
    ensures { result ≡ text_entry vram.now control.value x y }
{
    let block = control.map_start() + 0x800 * block_of(control, x, y);
    let offset = block + 64 * (y % 256 / 8) + 2 * (x % 256 / 8);
    half_at(vram, offset as usize)
}

/// A row of the map, from the place on that a line begins at.
#[derive(Clone, Copy)]
pub(crate) struct MapRow {
    pub control: BackgroundControl,
    /// How far the line's first dot is to the right, which may be past the map's edge.
    pub across: u32,
    /// The row's number on the map.
    pub down: u32,
    ghost across_fits: { across < 0x10000 },
}

impl MapRow {
    ghost use Rattle.std.specs.Prelude.{◌+◌, ◌*◌, ◌/◌};
    ghost use Rattle.gba_ppu_dot.specs.Control.{control_of};
    ghost use Rattle.gba_ppu_text.specs.Text.{is_high, is_wide, on_map, scroll_across, scroll_down, text_entry};

    /// That of a background from 0 to 3 in a line from 0 to 159.
    pub fn of(r: &PictureRegisters, background: u32, line: u32) -> MapRow
        requires background { background < 4 }
        requires line { line < 160 }
        ensures control { result.control.value ≡ control_of background r.now }
        ensures across { result.across ≡ scroll_across background r.now }
        ensures down { result.down ≡ on_map (is_high (control_of background r.now))
            (line + scroll_down background r.now) }
    {
        let control = BackgroundControl::of(r, background);
        let down = u32::from(r.kept(0x012 + 4 * background));
        MapRow {
            control,
            across: u32::from(r.kept(0x010 + 4 * background)),
            down: on_map(is_high(control), line + down),
        }
    }

    /// The entry of one of the 31 tiles that the line touches, from the one with its first dot on.
    pub fn entry(&self, vram: &[u8], tile: u32) -> u16
        requires vram { length vram.now ≡ 98304 }
        requires tile { tile < 31 }
        ensures { result ≡ text_entry vram.now self.now.control.value
            (on_map (is_wide self.now.control.value) (8 * (self.now.across / 8) + 8 * tile)) self.now.down }
    {
        let x = on_map(is_wide(self.control), 8 * (self.across / 8) + 8 * tile);
        entry_at(vram, self.control, x, self.down)
    }
}
