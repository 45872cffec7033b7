//! Windows.

ghost use Rattle.std.specs.Prelude.{◌≡◌, ℕ, Bool, ◌<◌, ◌≤◌, false};
ghost use Rattle.gba_ppu_mix.specs.Painting.{run_shows};
ghost use Rattle.gba_ppu_mix.specs.Windows.{is_inside as has_place, is_on_side as side_has, shows_at, side_of as side_from, window_of as window_on, windows_of};

use gba_ppu_reg::PictureRegisters;
use gba_word::{bit, bits};

/// A side of a window: from `start` up to `end`, which isn't in it.
#[derive(Clone, Copy, Debug, PartialEq, Eq)]
pub struct Side {
    pub start: u32,
    pub end: u32,
}

/// Window 0 or 1 on a line.
#[derive(Clone, Copy, Debug, PartialEq, Eq)]
pub struct Window {
    /// Whether it is on and has the line.
    pub on_line: bool,
    pub columns: Side,
    /// What shows in it: backgrounds 0 to 3, sprites and effects, from the lowest of six bits up.
    pub shows: u16,
}

/// All windows on a line.
#[derive(Clone, Copy, Debug, PartialEq, Eq)]
pub struct Windows {
    /// Whether any of them is on. Where none is, everything shows.
    pub are_used: bool,
    pub first: Window,
    pub second: Window,
    /// Whether the sprite window is on.
    pub has_sprites: bool,
    pub sprites_show: u16,
    pub outside_shows: u16,
}

/// A part of the line that no side of window 0 or 1 cuts.
#[derive(Clone, Copy, Debug, PartialEq, Eq)]
pub struct Run {
    pub end: u32,
    /// Whether the sprite window counts here.
    pub has_sprites: bool,
    pub sprites_show: u16,
    /// What shows where no dot of the sprite window is, or where that one doesn't count.
    pub shows: u16,
}

fn side_of(half: u16, edge: u32) -> Side
    ensures { result ≡ side_from half edge }
{
    let start = bits(u32::from(half), 8, 8);
    let end = bits(u32::from(half), 0, 8);
    if end > edge || end < start {
        Side { start, end: edge }
    } else {
        Side { start, end }
    }
}

fn is_on_side(side: Side, place: u32) -> bool
    ensures { result ≡ side_has side place }
{
    side.start <= place && place < side.end
}

/// The first end or start of a side behind a place, up to an end.
fn next_edge(x: u32, side: Side, end: u32) -> u32
    requires { x < end }
    ensures first { x < result }
    ensures last { result ≤ end }
    ensures same { (k : ℕ) → x ≤ k → k < result → side_has side k ≡ side_has side x }
{
    let end = if x < side.start {
        end.min(side.start)
    } else {
        end
    };
    if x < side.end { end.min(side.end) } else { end }
}

fn window_of(r: &PictureRegisters, number: u32, line: u32) -> Window
    requires { number < 2 }
    ensures { result ≡ window_on r.now number line }
{
    let rows = side_of(r.kept(0x044 + 2 * number), 160);
    Window {
        on_line: bit(u32::from(r.kept(0x000)), 13 + number) && is_on_side(rows, line),
        columns: side_of(r.kept(0x040 + 2 * number), 240),
        shows: bits(u32::from(r.kept(0x048)), 8 * number, 6) as u16,
    }
}

fn is_inside(w: &Window, x: u32) -> bool
    ensures { result ≡ has_place w.now x }
{
    w.on_line && is_on_side(w.columns, x)
}

impl Windows {
    /// Those of a line.
    pub fn of(r: &PictureRegisters, line: u32) -> Windows
        ensures { result ≡ windows_of r.now line }
    {
        let control = u32::from(r.kept(0x000));
        let outside = u32::from(r.kept(0x04A));
        Windows {
            are_used: bits(control, 13, 3) > 0,
            first: window_of(r, 0, line),
            second: window_of(r, 1, line),
            has_sprites: bit(control, 15),
            sprites_show: bits(outside, 8, 6) as u16,
            outside_shows: bits(outside, 0, 6) as u16,
        }
    }

    /// What shows at a place and up to the next side of a window.
    #[tactic(auto, unfolding(crate::specs::Windows::shows_at))]
    fn shows_from(&self, x: u32, end: u32) -> Run
        ensures end { result.end ≡ end }
        ensures shows { (b : Bool) → run_shows result b ≡ shows_at self.now x b }
    {
        if !self.are_used {
            return Run::without_sprites(end, 63);
        }
        if is_inside(&self.first, x) {
            Run::without_sprites(end, self.first.shows)
        } else if is_inside(&self.second, x) {
            Run::without_sprites(end, self.second.shows)
        } else {
            Run {
                end,
                has_sprites: self.has_sprites,
                sprites_show: self.sprites_show,
                shows: self.outside_shows,
            }
        }
    }

    /// The part of the line from a place on that no side of a window cuts, and what shows in it.
    pub fn run_from(&self, x: u32) -> Run
        requires { x < 240 }
        ensures first { x < result.end }
        ensures last { result.end ≤ 240 }
        ensures shows { (k : ℕ) (b : Bool) → x ≤ k → k < result.end → run_shows result b ≡ shows_at self.now k b }
    {
        let end = next_edge(x, self.first.columns, 240);
        let end = next_edge(x, self.second.columns, end);
        self.shows_from(x, end)
    }
}

impl Run {
    /// One in which the sprite window doesn't count.
    fn without_sprites(end: u32, shows: u16) -> Run
        ensures { result ≡ record { end = end; has_sprites = false; sprites_show = 0; shows = shows } }
    {
        Run {
            end,
            has_sprites: false,
            sprites_show: 0,
            shows,
        }
    }

    /// What shows at a place, by whether a dot of the sprite window is there: six bits.
    pub fn shows(&self, in_sprites: bool) -> u16
        ensures { result ≡ run_shows self.now in_sprites }
    {
        if self.has_sprites && in_sprites {
            self.sprites_show
        } else {
            self.shows
        }
    }
}
