//! The way of a line through a picture.

use gba_ppu_dot::Dot;
use gba_ppu_reg::PictureRegisters;
use gba_word::sign_extend;

/// A picture that the lines of the screen go through: what it has at any place.
pub(crate) trait Surface {
    ghost use Rattle.std.specs.Prelude.{◌≡◌, ℕ, List, length};
    ghost use Rattle.gba_ppu_dot.specs.declared.dot.Dot.{Dot};

    ghost dot_of: { Self → List ℕ → ℕ → ℕ → Dot };

    fn dot_at(&self, vram: &[u8], u: u32, v: u32) -> Dot
        requires { length vram.now ≡ 98304 }
        ensures { result ≡ dot_of self.now vram.now u v };
}

/// The place of a dot, and how far it is to that of the next one: words with 8 bits behind the point.
#[derive(Clone, Copy, Debug, PartialEq, Eq)]
pub(crate) struct Walk {
    pub across: u32,
    pub down: u32,
    pub step_across: u32,
    pub step_down: u32,
}

impl Walk {
    ghost use Rattle.std.specs.Prelude.{◌≡◌, ◌≤◌, length};
    ghost use Rattle.gba_ppu_dot.specs.Dots.{IsLine};
    ghost use Rattle.gba_ppu_reg.specs.Registers.{reference_of};
    ghost use Rattle.gba_ppu_affine.specs.Places.{place_of, step_across, step_down};

    /// The way of background 2 or 3, at its first dot.
    pub fn of(r: &PictureRegisters, background: u32) -> Walk
        requires least { 2 ≤ background }
        requires most { background ≤ 3 }
        ensures across { result.across ≡ (reference_of background r.now).x }
        ensures down { result.down ≡ (reference_of background r.now).y }
        ensures step_across { result.step_across ≡ step_across background r.now }
        ensures step_down { result.step_down ≡ step_down background r.now }
    {
        let start = r.reference(background);
        let parameters = 0x010 * background;
        Walk {
            across: start.x,
            down: start.y,
            step_across: sign_extend(u32::from(r.kept(parameters)), 16),
            step_down: sign_extend(u32::from(r.kept(parameters + 0x004)), 16),
        }
    }

    /// Draws what a picture has along the way.
    pub fn draw<S: Surface>(self, surface: &S, vram: &[u8], dots: &mut [Dot])
        requires vram { length vram.now ≡ 98304 }
        requires dots { length dots.old ≡ 240 }
        ensures { IsLine (λ x. S.dot_of surface.now vram.now (place_of self.across self.step_across x)
            (place_of self.down self.step_down x)) dots.new }
    {
        let mut across = self.across;
        let mut down = self.down;
        for dot in dots.iter_mut() {
            *dot = surface.dot_at(vram, across / 0x100, down / 0x100);
            across = across.wrapping_add(self.step_across);
            down = down.wrapping_add(self.step_down);
        }
    }
}
