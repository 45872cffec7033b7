//! Drawing a sprite.

ghost use Rattle.std.specs.Prelude.{◌≡◌, ℕ, ◌+◌, ◌-◌, ◌/◌, ◌<◌, ◌≤◌, length, slice_index_or};
ghost use Rattle.gba_ppu_dot.specs.declared.dot.Dot.{Dot};
ghost use Rattle.gba_ppu_obj.specs.Attributes.{attributes_of, box_height, box_width, is_row_shown as is_row_of_box};
ghost use Rattle.gba_ppu_obj.specs.Fits.{SpriteFits};
ghost use Rattle.gba_ppu_obj.specs.Order.{over as dot_over};
ghost use Rattle.gba_ppu_obj.specs.Places.{box_row as row_of, mirrored as mirrored_place, turned_place as place_turned};
ghost use Rattle.gba_ppu_obj.specs.Tiles.{numbered_dot, sprite_of};
ghost use Rattle.gba_ppu_obj.specs.Sprites.{attributes_dot, box_number as number_of_box, straight_number as number_straight, turned_number as number_turned};

use crate::attributes::Attributes;
use crate::matrix::Matrix;
use crate::order::put_number;
use crate::span::{Span, span_of};
use crate::sprite::{Mapping, Sprite};
use crate::tiles::picture_number;
use gba_ppu_dot::Dot;

fn mirrored(mirror: bool, side: u32, place: u32) -> u32
    requires { place < side }
    ensures value { result ≡ mirrored_place mirror side place }
    ensures within { result < side }
{
    if mirror { side - 1 - place } else { place }
}

#[tactic(auto, unfolding(crate::specs::Sprites::straight_number))]
fn straight_number(vram: &[u8], s: &Sprite, a: Attributes, q: u32, p: u32) -> u8
    requires sprite { SpriteFits s.now }
    requires vram { length vram.now ≡ 98304 }
    requires q { q < s.now.height }
    requires p { p < s.now.width }
    ensures { result ≡ number_straight vram.now s.now a q p }
{
    let across = mirrored(a.is_mirrored(), s.width, p);
    let down = mirrored(a.is_upside_down(), s.height, q);
    picture_number(vram, s, across, down)
}

/// The place in the picture in 256ths of a dot: those tell a place past the picture's edge by one comparison.
#[tactic(auto, unfolding(crate::specs::Places::turned_place))]
fn turned_place(
    across: u32,
    down: u32,
    box_wide: u32,
    box_high: u32,
    side: u32,
    p: u32,
    q: u32,
) -> u32
    requires side { side ≤ 64 }
    ensures { result / 0x100 ≡ place_turned across down box_wide box_high side p q }
{
    let from_left = across.wrapping_mul(p.wrapping_sub(box_wide / 2));
    let from_top = down.wrapping_mul(q.wrapping_sub(box_high / 2));
    from_left
        .wrapping_add(from_top)
        .wrapping_add(0x100 * (side / 2))
}

#[tactic(auto, unfolding(crate::specs::Sprites::turned_number))]
fn turned_number(
    vram: &[u8],
    s: &Sprite,
    t: &Matrix,
    box_wide: u32,
    box_high: u32,
    q: u32,
    p: u32,
) -> u8
    requires sprite { SpriteFits s.now }
    requires vram { length vram.now ≡ 98304 }
    ensures { result ≡ number_turned vram.now s.now t.now box_wide box_high q p }
{
    let across = turned_place(t.pa, t.pb, box_wide, box_high, s.width, p, q);
    let down = turned_place(t.pc, t.pd, box_wide, box_high, s.height, p, q);
    if across < 0x100 * s.width && down < 0x100 * s.height {
        picture_number(vram, s, across / 0x100, down / 0x100)
    } else {
        0
    }
}

/// Draws the row `q` of the box of a sprite that isn't affine.
fn draw_straight(vram: &[u8], s: &Sprite, a: Attributes, q: u32, span: Span, dots: &mut [Dot])
    requires sprite { SpriteFits s.now }
    requires vram { length vram.now ≡ 98304 }
    requires q { q < s.now.height }
    requires order { span.start ≤ span.end }
    requires within { span.first + (span.end - span.start) ≤ s.now.width }
    requires dots { span.end ≤ length dots.old }
    ensures before { (x : ℕ) (d : Dot) → x < span.start → slice_index_or dots.new x d ≡ slice_index_or dots.old x d }
    ensures drawn { (x : ℕ) (d : Dot) → span.start ≤ x → x < span.end
        → slice_index_or dots.new x d ≡ dot_over (slice_index_or dots.old x d)
        (numbered_dot s.now (number_straight vram.now s.now a q (span.first + (x - span.start)))) }
    ensures after { (x : ℕ) (d : Dot) → span.end ≤ x → slice_index_or dots.new x d ≡ slice_index_or dots.old x d }
{
    for x in span.start..span.end {
        let p = span.first + (x - span.start) as u32;
        put_number(dots, x, s, straight_number(vram, s, a, q, p));
    }
}

/// Draws the row `q` of the box of an affine sprite.
fn draw_turned(
    vram: &[u8],
    s: &Sprite,
    t: &Matrix,
    a: Attributes,
    q: u32,
    span: Span,
    dots: &mut [Dot],
)
    requires sprite { SpriteFits s.now }
    requires vram { length vram.now ≡ 98304 }
    requires order { span.start ≤ span.end }
    requires within { span.first + (span.end - span.start) ≤ 128 }
    requires dots { span.end ≤ length dots.old }
    ensures before { (x : ℕ) (d : Dot) → x < span.start → slice_index_or dots.new x d ≡ slice_index_or dots.old x d }
    ensures drawn { (x : ℕ) (d : Dot) → span.start ≤ x → x < span.end
        → slice_index_or dots.new x d ≡ dot_over (slice_index_or dots.old x d)
        (numbered_dot s.now
        (number_turned vram.now s.now t.now (box_width a) (box_height a) q (span.first + (x - span.start)))) }
    ensures after { (x : ℕ) (d : Dot) → span.end ≤ x → slice_index_or dots.new x d ≡ slice_index_or dots.old x d }
{
    let box_wide = a.box_width();
    let box_high = a.box_height();
    for x in span.start..span.end {
        let p = span.first + (x - span.start) as u32;
        put_number(
            dots,
            x,
            s,
            turned_number(vram, s, t, box_wide, box_high, q, p),
        );
    }
}

/// Draws the row `q` of the box of a sprite.
#[tactic(auto, unfolding(crate::specs::Sprites::box_number))]
fn draw_box(
    m: Mapping,
    vram: &[u8],
    oam: &[u8],
    a: Attributes,
    q: u32,
    span: Span,
    dots: &mut [Dot],
)
    requires vram { length vram.now ≡ 98304 }
    requires oam { length oam.now ≡ 1024 }
    requires q { q < box_height a }
    requires order { span.start ≤ span.end }
    requires within { span.first + (span.end - span.start) ≤ box_width a }
    requires dots { span.end ≤ length dots.old }
    ensures before { (x : ℕ) (d : Dot) → x < span.start → slice_index_or dots.new x d ≡ slice_index_or dots.old x d }
    ensures drawn { (x : ℕ) (d : Dot) → span.start ≤ x → x < span.end
        → slice_index_or dots.new x d ≡ dot_over (slice_index_or dots.old x d)
        (numbered_dot (sprite_of m a) (number_of_box m vram.now oam.now a q (span.first + (x - span.start)))) }
    ensures after { (x : ℕ) (d : Dot) → span.end ≤ x → slice_index_or dots.new x d ≡ slice_index_or dots.old x d }
{
    let s = Sprite::of(m, a);
    if a.is_affine() {
        draw_turned(vram, &s, &Matrix::of(oam, a.group()), a, q, span, dots)
    } else {
        draw_straight(vram, &s, a, q, span, dots)
    }
}

fn box_row(top: u32, line: u32) -> u32
    requires top { top < 256 }
    requires line { line < 160 }
    ensures { result ≡ row_of top line }
{
    (line + (256 - top)) % 256
}

/// Whether the row `q` of the box of a sprite is shown. No box is higher than 128, and none that isn't doubled than 64.
#[tactic(auto, using(crate::proofs::Painting::too_low, crate::proofs::Painting::too_low_undoubled))]
fn is_row_shown(a: Attributes, q: u32) -> bool
    ensures { result ≡ is_row_of_box a q }
{
    if q >= 128 {
        return false;
    }
    if q >= 64 && !a.is_double() {
        return false;
    }
    a.is_shown() && q < a.box_height()
}

/// Draws a sprite over those before it.
fn draw_attributes(m: Mapping, vram: &[u8], oam: &[u8], a: Attributes, line: u32, dots: &mut [Dot])
    requires vram { length vram.now ≡ 98304 }
    requires oam { length oam.now ≡ 1024 }
    requires line { line < 160 }
    requires dots { length dots.old ≡ 240 }
    ensures { (x : ℕ) (d : Dot) → x < 240 → slice_index_or dots.new x d
        ≡ dot_over (slice_index_or dots.old x d) (attributes_dot m vram.now oam.now a line x) }
{
    let q = box_row(a.top(), line);
    if is_row_shown(a, q) {
        let span = span_of(a.left(), a.box_width());
        draw_box(m, vram, oam, a, q, span, dots);
    }
}

/// Draws a sprite from 0 to 127 over those before it.
pub fn draw_sprite(m: Mapping, vram: &[u8], oam: &[u8], number: u32, line: u32, dots: &mut [Dot])
    requires vram { length vram.now ≡ 98304 }
    requires oam { length oam.now ≡ 1024 }
    requires number { number < 128 }
    requires line { line < 160 }
    requires dots { length dots.old ≡ 240 }
    ensures { (x : ℕ) (d : Dot) → x < 240 → slice_index_or dots.new x d
        ≡ dot_over (slice_index_or dots.old x d)
        (attributes_dot m vram.now oam.now (attributes_of oam.now number) line x) }
{
    draw_attributes(m, vram, oam, Attributes::of(oam, number), line, dots);
}
