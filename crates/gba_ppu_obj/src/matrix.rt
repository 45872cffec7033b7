//! The parameters of affine sprites.

use gba_ppu_dot::half_at;
use gba_word::sign_extend;

/// PA to PD of a group: words with 8 bits behind the point.
#[derive(Clone, Copy, Debug, PartialEq, Eq)]
pub struct Matrix {
    pub pa: u32,
    pub pb: u32,
    pub pc: u32,
    pub pd: u32,
}

impl Matrix {
    ghost use Rattle.std.specs.Prelude.{◌≡◌, ◌<◌, ◌≤◌, length};
    ghost use Rattle.gba_ppu_obj.specs.Places.{parameter_of};
    ghost use Rattle.gba_ppu_obj.specs.Sprites.{matrix_of};

    fn parameter(oam: &[u8], group: u32, number: u32) -> u32
        requires oam { length oam.now ≡ 1024 }
        requires group { group < 32 }
        requires number { number < 4 }
        ensures { result ≡ parameter_of oam.now group number }
    {
        let place = 32 * group + 8 * number + 6;
        sign_extend(u32::from(half_at(oam, place as usize)), 16)
    }

    /// That of a group from 0 to 31.
    pub fn of(oam: &[u8], group: u32) -> Matrix
        requires oam { length oam.now ≡ 1024 }
        requires group { group < 32 }
        ensures { result ≡ matrix_of oam.now group }
    {
        Matrix {
            pa: Matrix::parameter(oam, group, 0),
            pb: Matrix::parameter(oam, group, 1),
            pc: Matrix::parameter(oam, group, 2),
            pd: Matrix::parameter(oam, group, 3),
        }
    }
}
