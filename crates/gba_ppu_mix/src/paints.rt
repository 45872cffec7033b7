//! The painted lines of all layers.

ghost use Rattle.std.specs.Prelude.{◌≡◌, ℕ, ◌<◌, ◌≤◌, length, slice_index, slice_index_or};
ghost use Rattle.gba_ppu_dot.specs.Dots.{clear_dot};
ghost use Rattle.gba_ppu_dot.specs.Paints.{ArePaints, IsPaintLine, paint_of as paint_of_dot};
ghost use Rattle.gba_ppu_mix.specs.Blending.{is_semi as is_semi_kind};
ghost use Rattle.gba_ppu_mix.specs.Layers.{background_dot, sprites_dot};
ghost use Rattle.gba_ppu_mix.specs.Painting.{marks_of, run_shows};
ghost use Rattle.gba_ppu_mix.specs.Stacks.{sprite_rank as rank_of_sprite};
ghost use Rattle.gba_ppu_mix.specs.Windows.{shows_at};
ghost use Rattle.gba_ppu_mix.specs.declared.stacks.Layer.TheVariants.{Sprites};

use crate::blending::Blending;
use crate::layers::{background_paints, empty_line, sprites_line};
use crate::stacks::{Layer, sprite_rank};
use crate::windows::{Run, Windows};
use gba_ppu_dot::{BackgroundPaints, Dot, DotKind, paint_line};
use gba_ppu_reg::PictureRegisters;

/// What the layers have in a line, from left to right: their paints, the ranks and marks of the sprites' dots, and what
/// shows there.
#[derive(Clone, Copy)]
pub struct PaintedLines {
    pub background0: [u16; 240],
    pub background1: [u16; 240],
    pub background2: [u16; 240],
    pub background3: [u16; 240],
    pub sprites: [u16; 240],
    pub sprite_ranks: [u16; 240],
    pub sprite_marks: [u16; 240],
    pub shows: [u16; 240],
}

fn is_semi(dot: Dot) -> bool
    ensures { result ≡ is_semi_kind dot.kind }
{
    matches!(dot.kind, DotKind::Semi)
}

/// The ranks of the sprites' dots.
fn put_ranks(dots: &[Dot; 240], ranks: &mut [u16])
    requires { length ranks.old ≡ 240 }
    ensures { (x : ℕ) → x < 240 → slice_index ranks.new x
        ≡ rank_of_sprite (slice_index_or dots.now x clear_dot).priority }
{
    for x in 0..240 {
        ranks[x] = sprite_rank(dots[x].priority);
    }
}

/// The marks of the sprites' dots.
fn put_marks(b: &Blending, dots: &[Dot; 240], marks: &mut [u16])
    requires { length marks.old ≡ 240 }
    ensures { (x : ℕ) → x < 240 → slice_index marks.new x
        ≡ marks_of b.now Sprites (is_semi_kind (slice_index_or dots.now x clear_dot).kind) }
{
    for x in 0..240 {
        marks[x] = b.marks_of(Layer::Sprites, is_semi(dots[x]));
    }
}

/// What shows in a part of the line.
fn put_run(run: &Run, dots: &[Dot; 240], start: u32, shows: &mut [u16])
    requires start { start ≤ run.now.end }
    requires end { run.now.end ≤ 240 }
    requires shows { length shows.old ≡ 240 }
    ensures before { (x : ℕ) → x < start → slice_index shows.new x ≡ slice_index shows.old x }
    ensures here { (x : ℕ) → start ≤ x → x < run.now.end
        → slice_index shows.new x ≡ run_shows run.now (slice_index_or dots.now x clear_dot).window }
{
    for x in start..run.end {
        let place = x as usize;
        shows[place] = run.shows(dots[place].window);
    }
}

/// What shows in the line.
fn put_shows(w: &Windows, dots: &[Dot; 240], shows: &mut [u16])
    requires { length shows.old ≡ 240 }
    ensures { (x : ℕ) → x < 240 → slice_index shows.new x
        ≡ shows_at w.now x (slice_index_or dots.now x clear_dot).window }
{
    let mut start = 0;
    while start < 240 {
        let run = w.run_from(start);
        put_run(&run, dots, start, shows);
        start = run.end;
    }
}

/// A line to be painted on. It is called for each line: eight in one piece cost several times as much to clear.
#[inline(never)]
fn empty_paints() -> [u16; 240] {
    [0; 240]
}

impl PaintedLines {
    /// Lines to be painted on.
    #[inline(always)]
    pub fn empty() -> PaintedLines {
        PaintedLines {
            background0: empty_paints(),
            background1: empty_paints(),
            background2: empty_paints(),
            background3: empty_paints(),
            sprites: empty_paints(),
            sprite_ranks: empty_paints(),
            sprite_marks: empty_paints(),
            shows: empty_paints(),
        }
    }

    /// Paints the backgrounds.
    pub fn put_backgrounds(&mut self, r: &PictureRegisters, palette: &[u8], vram: &[u8], line: u32)
        requires line { line < 160 }
        requires palette { length palette.now ≡ 1024 }
        requires vram { length vram.now ≡ 98304 }
        ensures background0 { IsPaintLine palette.now (background_dot r.now vram.now 0 line) self.new.background0 }
        ensures background1 { IsPaintLine palette.now (background_dot r.now vram.now 1 line) self.new.background1 }
        ensures background2 { IsPaintLine palette.now (background_dot r.now vram.now 2 line) self.new.background2 }
        ensures background3 { IsPaintLine palette.now (background_dot r.now vram.now 3 line) self.new.background3 }
    {
        let colours = BackgroundPaints::of(palette);
        background_paints(r, palette, &colours, vram, 0, line, &mut self.background0);
        background_paints(r, palette, &colours, vram, 1, line, &mut self.background1);
        background_paints(r, palette, &colours, vram, 2, line, &mut self.background2);
        background_paints(r, palette, &colours, vram, 3, line, &mut self.background3);
    }

    /// Paints the sprites, and fills in what shows.
    pub fn put_sprites(
        &mut self,
        r: &PictureRegisters,
        palette: &[u8],
        vram: &[u8],
        oam: &[u8],
        line: u32,
        w: &Windows,
        b: &Blending,
    )
        requires line { line < 160 }
        requires palette { length palette.now ≡ 1024 }
        requires vram { length vram.now ≡ 98304 }
        requires oam { length oam.now ≡ 1024 }
        ensures background0 { self.new.background0 ≡ self.old.background0 }
        ensures background1 { self.new.background1 ≡ self.old.background1 }
        ensures background2 { self.new.background2 ≡ self.old.background2 }
        ensures background3 { self.new.background3 ≡ self.old.background3 }
        ensures sprites { (x : ℕ) → x < 240 → slice_index self.new.sprites x
            ≡ paint_of_dot palette.now (sprites_dot r.now vram.now oam.now line x) }
        ensures sprite_ranks { (x : ℕ) → x < 240 → slice_index self.new.sprite_ranks x
            ≡ rank_of_sprite (sprites_dot r.now vram.now oam.now line x).priority }
        ensures sprite_marks { (x : ℕ) → x < 240 → slice_index self.new.sprite_marks x
            ≡ marks_of b.now Sprites (is_semi_kind (sprites_dot r.now vram.now oam.now line x).kind) }
        ensures shows { (x : ℕ) → x < 240 → slice_index self.new.shows x
            ≡ shows_at w.now x (sprites_dot r.now vram.now oam.now line x).window }
    {
        let mut dots = empty_line();
        sprites_line(r, vram, oam, line, &mut dots);
        paint_line(palette, &dots, &mut self.sprites);
        put_ranks(&dots, &mut self.sprite_ranks);
        put_marks(b, &dots, &mut self.sprite_marks);
        put_shows(w, &dots, &mut self.shows);
    }
}
