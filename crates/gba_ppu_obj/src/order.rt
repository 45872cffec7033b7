//! The order of sprites.

ghost use Rattle.std.specs.Prelude.{◌≡◌, ℕ, ◌<◌, length, slice_index_or};
ghost use Rattle.gba_ppu_dot.specs.declared.dot.Dot.{Dot};
ghost use Rattle.gba_ppu_obj.specs.Fits.{SpriteFits};
ghost use Rattle.gba_ppu_obj.specs.Order.{over};
ghost use Rattle.gba_ppu_obj.specs.Tiles.{numbered_dot};

use crate::sprite::Sprite;
use gba_ppu_dot::Dot;

/// Puts a dot of a sprite, by its number, over those of the sprites before it.
#[tactic(auto, using(crate::proofs::Painting::or_false, crate::proofs::Painting::or_true), unfolding(crate::specs::Order::over, crate::specs::Tiles::numbered_dot))]
pub fn put_number(dots: &mut [Dot], x: usize, s: &Sprite, number: u8)
    requires sprite { SpriteFits s.now }
    requires place { x < length dots.old }
    ensures before { (k : ℕ) (d : Dot) → k < x → slice_index_or dots.new k d ≡ slice_index_or dots.old k d }
    ensures here { (d : Dot) → slice_index_or dots.new x d
        ≡ over (slice_index_or dots.old x d) (numbered_dot s.now number) }
    ensures after { (k : ℕ) (d : Dot) → x < k → slice_index_or dots.new k d ≡ slice_index_or dots.old k d }
{
    if number == 0 {
        return;
    }
    if s.in_window {
        dots[x].window = true;
        return;
    }
    let best = dots[x];
    if !best.opaque || s.priority < best.priority {
        dots[x].opaque = true;
        dots[x].entry = s.palette_start + u16::from(number);
        dots[x].direct = false;
        dots[x].priority = s.priority;
        dots[x].kind = s.kind;
    }
}
