//! A sprite's picture.

ghost use Rattle.std.specs.Prelude.{◌≡◌, ◌<◌, ◌≤◌};

use crate::attributes::{Attributes, SpriteMode};
use gba_ppu_dot::DotKind;
use gba_ppu_reg::PictureRegisters;
use gba_word::bit;

/// How the tiles lie in video memory.
#[derive(Clone, Copy, Debug, PartialEq, Eq)]
pub struct Mapping {
    /// Whether the tiles of a sprite lie one after another, and not in rows of 32.
    pub one_dimension: bool,
    /// Whether the lower half of the tiles' memory is a bitmap's.
    pub with_bitmap: bool,
}

impl Mapping {
    ghost use Rattle.gba_ppu_obj.specs.Tiles.{mapping_of};

    /// That of the registers.
    pub fn of(r: &PictureRegisters) -> Mapping
        ensures { result ≡ mapping_of r.now }
    {
        Mapping {
            one_dimension: bit(u32::from(r.kept(0x000)), 6),
            with_bitmap: matches!(r.mode(), 3 | 4 | 5),
        }
    }
}

/// A sprite's picture.
#[derive(Clone, Copy, Debug, PartialEq, Eq)]
pub struct Sprite {
    pub width: u32,
    pub height: u32,
    /// The number of its first tile, and how far it is from a tile to the one below it and to the next one, in units of
    /// 32 bytes.
    pub first_tile: u32,
    pub row_units: u32,
    pub tile_units: u32,
    pub eight_bits: bool,
    pub with_bitmap: bool,
    /// The first entry of its palette.
    pub palette_start: u16,
    pub priority: u8,
    pub kind: DotKind,
    /// Whether its dots are the sprite window, and aren't seen.
    pub in_window: bool,
}

impl Sprite {
    ghost use Rattle.gba_ppu_obj.specs.Fits.{SpriteFits};
    ghost use Rattle.gba_ppu_obj.specs.Tiles.{first_in_rows as first_even, kind_of as kind_by, palette_start as palette_from, sprite_of, tile_units as units_of};

    fn tile_units(a: Attributes) -> u32
        ensures value { result ≡ units_of a }
        ensures most { result ≤ 2 }
    {
        if a.has_eight_bits() { 2 } else { 1 }
    }

    fn first_in_rows(a: Attributes) -> u32
        ensures value { result ≡ first_even a }
        ensures most { result < 1024 }
    {
        let tile = a.tile();
        if a.has_eight_bits() {
            2 * (tile / 2)
        } else {
            tile
        }
    }

    fn palette_start(a: Attributes) -> u16
        ensures value { result ≡ palette_from a }
        ensures most { result ≤ 496 }
    {
        if a.has_eight_bits() {
            256
        } else {
            256 + 16 * a.palette()
        }
    }

    fn kind_of(mode: SpriteMode) -> DotKind
        ensures { result ≡ kind_by mode }
    {
        match mode {
            SpriteMode::SemiTransparent => DotKind::Semi,
            _ => DotKind::Plain,
        }
    }

    /// That of attributes.
    pub fn of(m: Mapping, a: Attributes) -> Sprite
        ensures value { result ≡ sprite_of m a }
        ensures fits { SpriteFits result }
    {
        let units = Sprite::tile_units(a);
        Sprite {
            width: a.width(),
            height: a.height(),
            first_tile: if m.one_dimension {
                a.tile()
            } else {
                Sprite::first_in_rows(a)
            },
            row_units: if m.one_dimension {
                a.width() / 8 * units
            } else {
                32
            },
            tile_units: units,
            eight_bits: a.has_eight_bits(),
            with_bitmap: m.with_bitmap,
            palette_start: Sprite::palette_start(a),
            priority: a.priority(),
            kind: Sprite::kind_of(a.mode()),
            in_window: matches!(a.mode(), SpriteMode::Window),
        }
    }
}
