//! Paints: what a layer has at a place, as one halfword.

ghost use Rattle.std.specs.Prelude.{◌≡◌, ◌≢◌, ℕ, ◌+◌, ◌*◌, ◌%◌, ◌<◌, ◌≤◌, length, slice_index, slice_index_or};
ghost use Rattle.gba_ppu_dot.specs.Dots.{clear_dot};
ghost use Rattle.gba_ppu_dot.specs.Paints.{colour_of as colour_of_dot, paint_of as paint_of_dot, palette_colour};

use crate::{Dot, half_at};

/// The paints of the entries of the backgrounds' palettes: 16 palettes of 16 entries, or one of 256. Entry 0 of each is
/// `CLEAR_PAINT`.
#[derive(Clone, Copy)]
pub struct BackgroundPaints {
    pub by_nibble: [u16; 256],
    pub by_byte: [u16; 256],
}

/// The paint of a place where a layer has nothing. A colour is less.
pub const CLEAR_PAINT: u16 = 0x8000;

/// The colour of an entry of the palette.
pub fn entry_colour(palette: &[u8], entry: u16) -> u16
    requires { length palette.now ≡ 1024 }
    ensures { result ≡ palette_colour palette.now entry }
{
    half_at(palette, 2 * usize::from(entry % 512)) % 0x8000
}

/// The colour of a dot.
#[tactic(auto, unfolding(crate::specs::Paints::colour_of))]
pub fn colour_of(palette: &[u8], dot: Dot) -> u16
    requires { length palette.now ≡ 1024 }
    ensures { result ≡ colour_of_dot palette.now dot }
{
    if dot.direct {
        dot.entry
    } else {
        entry_colour(palette, dot.entry)
    }
}

/// The paint of a dot.
pub fn paint_of(palette: &[u8], dot: Dot) -> u16
    requires { length palette.now ≡ 1024 }
    ensures { result ≡ paint_of_dot palette.now dot }
{
    if dot.opaque {
        colour_of(palette, dot)
    } else {
        CLEAR_PAINT
    }
}

/// The paints of eight dots, from a place on.
fn paint_eight(palette: &[u8], dots: &[Dot], at: usize, paints: &mut [u16])
    requires palette { length palette.now ≡ 1024 }
    requires dots { at + 8 ≤ length dots.now }
    requires paints { at + 8 ≤ length paints.old }
    ensures before { (k : ℕ) → k < at → slice_index paints.new k ≡ slice_index paints.old k }
    ensures here { (i : ℕ) → i < 8
        → slice_index paints.new (at + i) ≡ paint_of_dot palette.now (slice_index_or dots.now (at + i) clear_dot) }
{
    for i in 0..8 {
        paints[at + i] = paint_of(palette, dots[at + i]);
    }
}

/// The paints of a line of 240 dots.
pub fn paint_line(palette: &[u8], dots: &[Dot], paints: &mut [u16])
    requires palette { length palette.now ≡ 1024 }
    requires dots { length dots.now ≡ 240 }
    requires paints { length paints.old ≡ 240 }
    ensures { (x : ℕ) → x < 240
        → slice_index paints.new x ≡ paint_of_dot palette.now (slice_index_or dots.now x clear_dot) }
{
    for part in 0..30 {
        paint_eight(palette, dots, 8 * part, paints);
    }
}

/// Makes a painted line of 240 places one that has nothing anywhere.
pub fn clear_paints(paints: &mut [u16])
    requires { length paints.old ≡ 240 }
    ensures { (x : ℕ) → x < 240 → slice_index paints.new x ≡ 0x8000 }
{
    for x in 0..240 {
        paints[x] = CLEAR_PAINT;
    }
}

/// The colours of the first 256 entries.
fn put_colours(palette: &[u8], paints: &mut [u16])
    requires palette { length palette.now ≡ 1024 }
    requires paints { length paints.old ≡ 256 }
    ensures { (entry : ℕ) → entry < 256 → slice_index paints.new entry ≡ palette_colour palette.now entry }
{
    for entry in 0..256usize {
        paints[entry] = entry_colour(palette, entry as u16);
    }
}

/// Clears entry 0 of each palette of 16 entries.
fn clear_firsts(paints: &mut [u16])
    requires { length paints.old ≡ 256 }
    ensures firsts { (number : ℕ) → number < 16 → slice_index paints.new (16 * number) ≡ 0x8000 }
    ensures others { (entry : ℕ) → entry % 16 ≢ 0 → slice_index paints.new entry ≡ slice_index paints.old entry }
{
    for number in 0..16usize {
        paints[16 * number] = CLEAR_PAINT;
    }
}

impl BackgroundPaints {
    ghost use Rattle.std.specs.Prelude.{◌≡◌, length};
    ghost use Rattle.gba_ppu_dot.specs.Paints.{ArePaints};

    /// Those of a palette.
    pub fn of(palette: &[u8]) -> BackgroundPaints
        requires { length palette.now ≡ 1024 }
        ensures { ArePaints palette.now result }
    {
        let mut by_byte = [0; 256];
        put_colours(palette, &mut by_byte);
        let mut by_nibble = by_byte;
        clear_firsts(&mut by_nibble);
        by_byte[0] = CLEAR_PAINT;
        BackgroundPaints { by_nibble, by_byte }
    }
}
