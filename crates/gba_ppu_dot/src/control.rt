//! A background's control.

use gba_ppu_reg::PictureRegisters;
use gba_word::{bit, bits};

/// BGxCNT of a background (GBATEK, LCD I/O BG Control).
#[derive(Clone, Copy, Debug, PartialEq, Eq)]
pub struct BackgroundControl {
    pub value: u16,
}

impl BackgroundControl {
    ghost use Rattle.std.specs.Prelude.{◌≡◌, ◌<◌, ◌≤◌};
    ghost use Rattle.gba_ppu_dot.specs.Control.{control_of, has_eight_bits, map_start, priority_of, size_of as size_field, tiles_start, wraps};

    /// That of a background from 0 to 3.
    pub fn of(r: &PictureRegisters, background: u32) -> BackgroundControl
        requires { background < 4 }
        ensures { result.value ≡ control_of background r.now }
    {
        BackgroundControl {
            value: r.kept(0x008 + 2 * background),
        }
    }

    /// The priority, from 0, the front, to 3.
    pub fn priority(self) -> u8
        ensures value { result ≡ priority_of self.value }
        ensures most { result ≤ 3 }
    {
        bits(u32::from(self.value), 0, 2) as u8
    }

    /// Where in video memory the tiles begin, in bytes.
    pub fn tiles_start(self) -> u32
        ensures value { result ≡ tiles_start self.value }
        ensures most { result ≤ 0xC000 }
    {
        0x4000 * bits(u32::from(self.value), 2, 2)
    }

    /// Where in video memory the map begins, in bytes.
    pub fn map_start(self) -> u32
        ensures value { result ≡ map_start self.value }
        ensures most { result ≤ 0xF800 }
    {
        0x800 * bits(u32::from(self.value), 8, 5)
    }

    /// Whether a dot of a text background has 8 bits, and not 4.
    pub fn has_eight_bits(self) -> bool
        ensures { result ≡ has_eight_bits self.value }
    {
        bit(u32::from(self.value), 7)
    }

    /// Whether an affine background goes on past its edges.
    pub fn wraps(self) -> bool
        ensures { result ≡ wraps self.value }
    {
        bit(u32::from(self.value), 13)
    }

    /// The size of the map, from 0 to 3.
    pub fn size(self) -> u32
        ensures value { result ≡ size_field self.value }
        ensures most { result ≤ 3 }
    {
        bits(u32::from(self.value), 14, 2)
    }
}
