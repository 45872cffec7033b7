//! A line of the picture.

ghost use Rattle.std.specs.Prelude.{◌≡◌, ℕ, ◌+◌, ◌<◌, ◌≤◌, false, length, slice_index};
ghost use Rattle.gba_ppu_mix.specs.Mixing.{IsPixelLine, is_blank as is_blank_by, mixed_pixel};
ghost use Rattle.gba_ppu_mix.specs.Painting.{backdrop_colour, painted_stack_colour, painted_stack_of, place_at, run_shows};
ghost use Rattle.gba_ppu_mix.specs.Windows.{shows_at};

use crate::blending::Blending;
use crate::eights::{LineConstants, coloured, stack_eight};
use crate::layers::has_layers;
use crate::paints::PaintedLines;
use crate::stacks::Ranks;
use crate::windows::{Run, Windows};
use gba_ppu_blend::{eight_from, put_eight};
use gba_ppu_dot::entry_colour;
use gba_ppu_reg::PictureRegisters;
use gba_word::bit;

fn is_blank(r: &PictureRegisters) -> bool
    ensures { result ≡ is_blank_by r.now }
{
    bit(u32::from(r.kept(0x000)), 7)
}

/// Mixes eight places.
#[inline(always)]
fn mix_eight(b: &Blending, c: &LineConstants, lines: &PaintedLines, at: usize, colours: &mut [u16])
    requires eva { b.now.eva ≤ 16 }
    requires evb { b.now.evb ≤ 16 }
    requires evy { b.now.evy ≤ 16 }
    requires place { at + 8 ≤ 240 }
    requires colours { length colours.old ≡ 240 }
    ensures before { (x : ℕ) → x < at → slice_index colours.new x ≡ slice_index colours.old x }
    ensures here { (i : ℕ) → i < 8 → slice_index colours.new (at + i)
        ≡ painted_stack_colour b.now (slice_index lines.now.shows (at + i))
        (painted_stack_of c.now (place_at lines.now (at + i))) }
{
    let shows = eight_from(&lines.shows, at);
    let stack = stack_eight(c, lines, shows, at);
    put_eight(coloured(b, shows, stack), at, colours);
}

/// Mixes the layers' lines.
fn mix(b: &Blending, c: &LineConstants, lines: &PaintedLines, colours: &mut [u16])
    requires eva { b.now.eva ≤ 16 }
    requires evb { b.now.evb ≤ 16 }
    requires evy { b.now.evy ≤ 16 }
    requires colours { length colours.old ≡ 240 }
    ensures { (x : ℕ) → x < 240 → slice_index colours.new x
        ≡ painted_stack_colour b.now (slice_index lines.now.shows x) (painted_stack_of c.now (place_at lines.now x)) }
{
    for k in 0..30 {
        mix_eight(b, c, lines, 8 * k, colours);
    }
}

/// Colours a part of a line on which no layer is.
fn fill_run(palette: &[u8], run: &Run, b: &Blending, start: u32, colours: &mut [u16])
    requires palette { length palette.now ≡ 1024 }
    requires evy { b.now.evy ≤ 16 }
    requires start { start ≤ run.now.end }
    requires end { run.now.end ≤ 240 }
    requires colours { length colours.old ≡ 240 }
    ensures before { (x : ℕ) → x < start → slice_index colours.new x ≡ slice_index colours.old x }
    ensures filled { (x : ℕ) → start ≤ x → x < run.now.end
        → slice_index colours.new x ≡ backdrop_colour palette.now b.now (run_shows run.now false) }
{
    let colour = b.backdrop_colour(palette, run.shows(false));
    colours[start as usize..run.end as usize].fill(colour);
}

/// Colours a line on which no layer is.
fn fill(palette: &[u8], w: &Windows, b: &Blending, colours: &mut [u16])
    requires palette { length palette.now ≡ 1024 }
    requires evy { b.now.evy ≤ 16 }
    requires colours { length colours.old ≡ 240 }
    ensures { (x : ℕ) → x < 240 → slice_index colours.new x
        ≡ backdrop_colour palette.now b.now (shows_at w.now x false) }
{
    let mut start = 0;
    while start < 240 {
        let run = w.run_from(start);
        fill_run(palette, &run, b, start, colours);
        start = run.end;
    }
}

fn whiten(colours: &mut [u16])
    requires { length colours.old ≡ 240 }
    ensures { IsPixelLine (λ _. 0x7fff) colours.new }
{
    for colour in colours.iter_mut() {
        *colour = 0x7FFF;
    }
}

/// The colours of a line from 0 to 159: 240 of them, from left to right, 15 bits each, red lowest. The palette has
/// 1,024 bytes, video memory 98,304, OAM 1,024. Layers that aren't on are not drawn, and no memory is taken.
#[tactic(auto, unfolding(crate::specs::Mixing::mixed_pixel))]
pub fn mix_line(
    r: &PictureRegisters,
    palette: &[u8],
    vram: &[u8],
    oam: &[u8],
    line: u32,
    colours: &mut [u16],
)
    requires line { line < 160 }
    requires palette { length palette.now ≡ 1024 }
    requires vram { length vram.now ≡ 98304 }
    requires oam { length oam.now ≡ 1024 }
    requires colours { length colours.old ≡ 240 }
    ensures { IsPixelLine (mixed_pixel r.now palette.now vram.now oam.now line) colours.new }
{
    if is_blank(r) {
        whiten(colours);
        return;
    }
    let windows = Windows::of(r, line);
    let blending = Blending::of(r);
    if !has_layers(r) {
        fill(palette, &windows, &blending, colours);
        return;
    }
    let mut lines = PaintedLines::empty();
    lines.put_backgrounds(r, palette, vram, line);
    lines.put_sprites(r, palette, vram, oam, line, &windows, &blending);
    let backdrop = entry_colour(palette, 0);
    let constants = LineConstants::of(&blending, Ranks::of(r), backdrop);
    mix(&blending, &constants, &lines, colours);
}
