//! A line of sprites.

ghost use Rattle.std.specs.Prelude.{◌≡◌, ◌<◌, length};
ghost use Rattle.gba_ppu_dot.specs.Dots.{IsLine};
ghost use Rattle.gba_ppu_obj.specs.Sprites.{sprites_pixel};

use crate::draw::draw_sprite;
use crate::sprite::Mapping;
use gba_ppu_dot::{Dot, clear_line};
use gba_ppu_reg::PictureRegisters;

/// The dots of the sprites in a line from 0 to 159: 240 of them, from left to right. Video memory has 98,304 bytes, OAM
/// 1,024. Whether sprites are shown isn't asked. A dot of the sprite window has `window` set, whether or not a sprite
/// that is seen has an opaque dot there too.
#[tactic(auto, unfolding(crate::specs::Sprites::sprites_pixel))]
pub fn sprite_line(r: &PictureRegisters, vram: &[u8], oam: &[u8], line: u32, dots: &mut [Dot])
    requires line { line < 160 }
    requires vram { length vram.now ≡ 98304 }
    requires oam { length oam.now ≡ 1024 }
    requires dots { length dots.old ≡ 240 }
    ensures { IsLine (sprites_pixel r.now vram.now oam.now line) dots.new }
{
    let m = Mapping::of(r);
    clear_line(dots);
    for number in 0..128 {
        draw_sprite(m, vram, oam, number, line, dots);
    }
}
