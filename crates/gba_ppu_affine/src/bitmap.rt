//! A line of a bitmap.

ghost use Rattle.std.specs.Prelude.{◌≡◌, ◌<◌, ◌≤◌, length};
ghost use Rattle.gba_ppu_dot.specs.Dots.{IsLine};
ghost use Rattle.gba_ppu_affine.specs.Bitmap.{bitmap_dot as dot_of, bitmap_pixel, page_start as page_of};

use crate::walk::{Surface, Walk};
use gba_ppu_dot::{BackgroundControl, Dot, half_at};
use gba_ppu_reg::PictureRegisters;
use gba_word::bit;

/// Which bitmap is shown, where it begins in bytes, and how its dots are put over others.
#[derive(Clone, Copy)]
struct Bitmap {
    mode: u32,
    page: u32,
    priority: u8,
    ghost page_fits: { page ≤ 0xA000 },
}

fn page_start(r: &PictureRegisters) -> u32
    ensures value { result ≡ page_of r.now }
    ensures most { result ≤ 0xA000 }
{
    if bit(u32::from(r.kept(0x000)), 4) {
        0xA000
    } else {
        0
    }
}

#[tactic(auto, unfolding(crate::specs::Bitmap::bitmap_dot))]
fn bitmap_dot(vram: &[u8], bitmap: Bitmap, u: u32, v: u32) -> Dot
    requires { length vram.now ≡ 98304 }
    ensures { result ≡ dot_of bitmap.mode bitmap.page vram.now bitmap.priority u v }
{
    match bitmap.mode {
        3 if u < 240 && v < 160 => {
            let place = 2 * (240 * v + u);
            Dot::coloured(bitmap.priority, half_at(vram, place as usize))
        }
        4 if u < 240 && v < 160 => {
            let place = bitmap.page + 240 * v + u;
            Dot::indexed(bitmap.priority, 0, vram[place as usize])
        }
        5 if u < 160 && v < 128 => {
            let place = bitmap.page + 2 * (160 * v + u);
            Dot::coloured(bitmap.priority, half_at(vram, place as usize))
        }
        _ => Dot::CLEAR,
    }
}

impl Surface for Bitmap {
    ghost use Rattle.gba_ppu_affine.specs.Bitmap.{bitmap_dot};

    ghost dot_of = { λ bitmap vram u v. bitmap_dot bitmap.mode bitmap.page vram bitmap.priority u v };

    #[inline(always)]
    fn dot_at(&self, vram: &[u8], u: u32, v: u32) -> Dot {
        bitmap_dot(vram, *self, u, v)
    }
}

/// The dots of the bitmap of modes 3 to 5, which is background 2, in a line from 0 to 159: 240 of them, from left to
/// right. Video memory has 98,304 bytes. The line is that of the inner reference point, so its number counts for
/// nothing. In a mode without a bitmap no dot is opaque. Whether the background is shown isn't asked.
#[tactic(auto, unfolding(crate::specs::Bitmap::bitmap_pixel))]
pub fn bitmap_line(r: &PictureRegisters, vram: &[u8], bg: u32, _line: u32, dots: &mut [Dot])
    requires background { bg ≡ 2 }
    requires line { _line < 160 }
    requires vram { length vram.now ≡ 98304 }
    requires dots { length dots.old ≡ 240 }
    ensures { IsLine (bitmap_pixel r.now vram.now) dots.new }
{
    let bitmap = Bitmap {
        mode: r.mode(),
        page: page_start(r),
        priority: BackgroundControl::of(r, bg).priority(),
    };
    Walk::of(r, bg).draw(&bitmap, vram, dots);
}
