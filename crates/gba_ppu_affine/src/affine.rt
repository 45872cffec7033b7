//! A line of an affine background.

ghost use Rattle.std.specs.Prelude.{◌≡◌, ◌+◌, ◌*◌, ◌/◌, ◌%◌, ◌<◌, ◌≤◌, length};
ghost use Rattle.gba_ppu_dot.specs.Control.{size_of};
ghost use Rattle.gba_ppu_dot.specs.Dots.{IsLine};
ghost use Rattle.gba_ppu_affine.specs.Affine.{affine_dot as dot_of, affine_pixel, map_dot as dot_on_map, map_side as side_of, tile_at as tile_on_map, tile_dot as dot_of_tile};

use crate::walk::{Surface, Walk};
use gba_ppu_dot::{BackgroundControl, Dot};
use gba_ppu_reg::PictureRegisters;

fn map_side(size: u32) -> u32
    ensures { result ≡ side_of size }
{
    match size {
        0 => 128,
        1 => 256,
        2 => 512,
        _ => 1024,
    }
}

/// A place on a map of a size that begins anew past its edges.
fn wrapped(size: u32, place: u32) -> u32
    ensures value { result ≡ place % side_of size }
    ensures within { result < side_of size }
{
    match size {
        0 => place % 128,
        1 => place % 256,
        2 => place % 512,
        _ => place % 1024,
    }
}

/// The entry's place in the map, in bytes.
fn entry_place(size: u32, u: u32, v: u32) -> u32
    requires u { u < side_of size }
    requires v { v < side_of size }
    ensures value { result ≡ v / 8 * (side_of size / 8) + u / 8 }
    ensures most { result < 0x4000 }
{
    match size {
        0 => v / 8 * 16 + u / 8,
        1 => v / 8 * 32 + u / 8,
        2 => v / 8 * 64 + u / 8,
        _ => v / 8 * 128 + u / 8,
    }
}

#[tactic(auto, unfolding(crate::specs::Affine::tile_at))]
fn tile_at(vram: &[u8], control: BackgroundControl, u: u32, v: u32) -> u8
    requires vram { length vram.now ≡ 98304 }
    requires u { u < side_of (size_of control.value) }
    requires v { v < side_of (size_of control.value) }
    ensures { result ≡ tile_on_map vram.now control.value u v }
{
    vram[(control.map_start() + entry_place(control.size(), u, v)) as usize]
}

/// A dot of a tile. No tile of 8 bits for each dot that a byte can name reaches past 10000h.
#[tactic(auto, unfolding(crate::specs::Affine::tile_dot))]
fn tile_dot(vram: &[u8], control: BackgroundControl, tile: u8, column: u32, row: u32) -> Dot
    requires vram { length vram.now ≡ 98304 }
    requires column { column < 8 }
    requires row { row < 8 }
    ensures { result ≡ dot_of_tile vram.now control.value tile column row }
{
    let place = control.tiles_start() + 64 * u32::from(tile) + 8 * row + column;
    Dot::indexed(control.priority(), 0, vram[place as usize])
}

fn map_dot(vram: &[u8], control: BackgroundControl, u: u32, v: u32) -> Dot
    requires vram { length vram.now ≡ 98304 }
    requires u { u < side_of (size_of control.value) }
    requires v { v < side_of (size_of control.value) }
    ensures { result ≡ dot_on_map vram.now control.value u v }
{
    tile_dot(vram, control, tile_at(vram, control, u, v), u % 8, v % 8)
}

#[tactic(auto, unfolding(crate::specs::Affine::affine_dot))]
fn affine_dot(vram: &[u8], control: BackgroundControl, u: u32, v: u32) -> Dot
    requires { length vram.now ≡ 98304 }
    ensures { result ≡ dot_of vram.now control.value u v }
{
    let size = control.size();
    if control.wraps() {
        return map_dot(vram, control, wrapped(size, u), wrapped(size, v));
    }
    let side = map_side(size);
    if u < side && v < side {
        map_dot(vram, control, u, v)
    } else {
        Dot::CLEAR
    }
}

impl Surface for BackgroundControl {
    ghost use Rattle.gba_ppu_affine.specs.Affine.{affine_dot};

    ghost dot_of = { λ control vram u v. affine_dot vram control.value u v };

    #[inline(always)]
    fn dot_at(&self, vram: &[u8], u: u32, v: u32) -> Dot {
        affine_dot(vram, *self, u, v)
    }
}

/// The dots of affine background 2 or 3 in a line from 0 to 159: 240 of them, from left to right. Video memory has
/// 98,304 bytes. The line is that of the inner reference point, so its number counts for nothing. Whether the
/// background is shown, and whether the mode has it, isn't asked.
#[tactic(auto, unfolding(crate::specs::Affine::affine_pixel))]
pub fn affine_line(r: &PictureRegisters, vram: &[u8], bg: u32, _line: u32, dots: &mut [Dot])
    requires least { 2 ≤ bg }
    requires most { bg ≤ 3 }
    requires line { _line < 160 }
    requires vram { length vram.now ≡ 98304 }
    requires dots { length dots.old ≡ 240 }
    ensures { IsLine (affine_pixel r.now vram.now bg) dots.new }
{
    Walk::of(r, bg).draw(&BackgroundControl::of(r, bg), vram, dots);
}
