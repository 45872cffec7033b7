//! A line without dots.

ghost use Rattle.std.specs.Prelude.{◌≡◌, length};
ghost use Rattle.gba_ppu_dot.specs.Dots.{clear_dot, IsLine};

use crate::Dot;

/// Makes a line of 240 dots one that has nothing anywhere.
pub fn clear_line(dots: &mut [Dot])
    requires { length dots.old ≡ 240 }
    ensures { IsLine (λ _. clear_dot) dots.new }
{
    for dot in dots.iter_mut() {
        *dot = Dot::CLEAR;
    }
}
