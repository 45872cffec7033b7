//! The layers, one by one.

ghost use Rattle.std.specs.Prelude.{◌≡◌, ◌<◌, ◌≤◌, length};
ghost use Rattle.gba_ppu_affine.specs.Affine.{affine_pixel};
ghost use Rattle.gba_ppu_affine.specs.Bitmap.{bitmap_pixel};
ghost use Rattle.gba_ppu_dot.specs.Dots.{IsLine};
ghost use Rattle.gba_ppu_dot.specs.Paints.{ArePaints, IsPaintLine};
ghost use Rattle.gba_ppu_reg.specs.Registers.{picture_mode};
ghost use Rattle.gba_ppu_mix.specs.Layers.{background_dot, dot_of_kind, is_layer_on as is_on, kind_of as kind_in, sprites_dot};
ghost use Rattle.gba_ppu_mix.specs.Painting.{has_layers as has_any};

use gba_ppu_affine::{affine_line, bitmap_line};
use gba_ppu_dot::{BackgroundPaints, Dot, clear_line, clear_paints, paint_line};
use gba_ppu_obj::sprite_line;
use gba_ppu_reg::PictureRegisters;
use gba_ppu_text::text_paints;
use gba_word::bit;

/// What a background is in a mode.
#[derive(Clone, Copy, Debug, PartialEq, Eq)]
pub enum BackgroundKind {
    Text,
    Affine,
    Bitmap,
    Absent,
}

fn kind_of(mode: u32, background: u32) -> BackgroundKind
    requires { background < 4 }
    ensures { result ≡ kind_in mode background }
{
    match (mode, background) {
        (0, _) | (1, 0 | 1) => BackgroundKind::Text,
        (1, 2) | (2, 2 | 3) => BackgroundKind::Affine,
        (3 | 4 | 5, 2) => BackgroundKind::Bitmap,
        _ => BackgroundKind::Absent,
    }
}

fn is_layer_on(r: &PictureRegisters, layer: u32) -> bool
    requires { layer < 5 }
    ensures { result ≡ is_on r.now layer }
{
    bit(u32::from(r.kept(0x000)), 8 + layer)
}

/// Whether any layer is on.
pub fn has_layers(r: &PictureRegisters) -> bool
    ensures { result ≡ has_any r.now }
{
    is_layer_on(r, 0)
        || is_layer_on(r, 1)
        || is_layer_on(r, 2)
        || is_layer_on(r, 3)
        || is_layer_on(r, 4)
}

/// A line to be drawn on.
#[inline(never)]
pub fn empty_line() -> [Dot; 240] {
    [Dot::CLEAR; 240]
}

/// The paints of an affine background, which is drawn in dots.
#[inline(never)]
fn affine_paints(
    r: &PictureRegisters,
    palette: &[u8],
    vram: &[u8],
    background: u32,
    line: u32,
    paints: &mut [u16],
)
    requires least { 2 ≤ background }
    requires most { background ≤ 3 }
    requires line { line < 160 }
    requires palette { length palette.now ≡ 1024 }
    requires vram { length vram.now ≡ 98304 }
    requires paints { length paints.old ≡ 240 }
    ensures { IsPaintLine palette.now (affine_pixel r.now vram.now background) paints.new }
{
    let mut dots = empty_line();
    affine_line(r, vram, background, line, &mut dots);
    paint_line(palette, &dots, paints);
}

/// The paints of a bitmap, which is drawn in dots.
#[inline(never)]
fn bitmap_paints(r: &PictureRegisters, palette: &[u8], vram: &[u8], line: u32, paints: &mut [u16])
    requires line { line < 160 }
    requires palette { length palette.now ≡ 1024 }
    requires vram { length vram.now ≡ 98304 }
    requires paints { length paints.old ≡ 240 }
    ensures { IsPaintLine palette.now (bitmap_pixel r.now vram.now) paints.new }
{
    let mut dots = empty_line();
    bitmap_line(r, vram, 2, line, &mut dots);
    paint_line(palette, &dots, paints);
}

fn paint_kind(
    kind: BackgroundKind,
    r: &PictureRegisters,
    palette: &[u8],
    colours: &BackgroundPaints,
    vram: &[u8],
    background: u32,
    line: u32,
    paints: &mut [u16],
)
    requires colours { ArePaints palette.now colours.now }
    requires kind { kind ≡ kind_in (picture_mode r.now) background }
    requires background { background < 4 }
    requires line { line < 160 }
    requires palette { length palette.now ≡ 1024 }
    requires vram { length vram.now ≡ 98304 }
    requires paints { length paints.old ≡ 240 }
    ensures { IsPaintLine palette.now (dot_of_kind kind r.now vram.now background line) paints.new }
{
    match kind {
        BackgroundKind::Text => text_paints(r, colours, vram, background, line, paints),
        BackgroundKind::Affine => affine_paints(r, palette, vram, background, line, paints),
        BackgroundKind::Bitmap => bitmap_paints(r, palette, vram, line, paints),
        BackgroundKind::Absent => clear_paints(paints),
    }
}

/// The paints of a background from 0 to 3. It is drawn where the background is on alone.
#[tactic(auto, unfolding(crate::specs::Layers::background_dot))]
pub fn background_paints(
    r: &PictureRegisters,
    palette: &[u8],
    colours: &BackgroundPaints,
    vram: &[u8],
    background: u32,
    line: u32,
    paints: &mut [u16],
)
    requires colours { ArePaints palette.now colours.now }
    requires background { background < 4 }
    requires line { line < 160 }
    requires palette { length palette.now ≡ 1024 }
    requires vram { length vram.now ≡ 98304 }
    requires paints { length paints.old ≡ 240 }
    ensures { IsPaintLine palette.now (background_dot r.now vram.now background line) paints.new }
{
    if is_layer_on(r, background) {
        let kind = kind_of(r.mode(), background);
        paint_kind(kind, r, palette, colours, vram, background, line, paints);
    } else {
        clear_paints(paints);
    }
}

/// The line of the sprites. They are drawn where they are on alone.
#[tactic(auto, unfolding(crate::specs::Layers::sprites_dot))]
pub fn sprites_line(r: &PictureRegisters, vram: &[u8], oam: &[u8], line: u32, dots: &mut [Dot])
    requires line { line < 160 }
    requires vram { length vram.now ≡ 98304 }
    requires oam { length oam.now ≡ 1024 }
    requires dots { length dots.old ≡ 240 }
    ensures { IsLine (sprites_dot r.now vram.now oam.now line) dots.new }
{
    if is_layer_on(r, 4) {
        sprite_line(r, vram, oam, line, dots);
    } else {
        clear_line(dots);
    }
}
