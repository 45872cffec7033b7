//! The attributes of a sprite.

use crate::sides::{long_side, short_side, square_side};
use gba_ppu_dot::half_at;
use gba_word::{bit, bits};

/// What a sprite is for (GBATEK, LCD OBJ OAM Attributes, OBJ Mode).
#[derive(Clone, Copy, Debug, PartialEq, Eq)]
pub enum SpriteMode {
    Normal,
    SemiTransparent,
    /// Its dots are the sprite window, and aren't seen.
    Window,
    Prohibited,
}

/// The three halfwords of a sprite's attributes (GBATEK, LCD OBJ OAM Attributes).
#[derive(Clone, Copy, Debug, PartialEq, Eq)]
pub struct Attributes {
    pub first: u16,
    pub second: u16,
    pub third: u16,
}

impl Attributes {
    ghost use Rattle.std.specs.Prelude.{◌≡◌, ◌<◌, ◌≤◌, length};
    ghost use Rattle.gba_ppu_obj.specs.Attributes.{
      attributes_of,
      box_height,
      box_width,
      group_of,
      has_eight_bits,
      height_of,
      is_affine,
      is_double,
      is_hidden,
      is_mirrored,
      is_prohibited,
      is_shown,
      is_upside_down,
      left_of,
      mode_of,
      palette_of,
      priority_of,
      shape_of,
      size_of as size_field,
      tile_of,
      top_of,
      width_of,
    };

    /// Those of a sprite from 0 to 127.
    pub fn of(oam: &[u8], number: u32) -> Attributes
        requires oam { length oam.now ≡ 1024 }
        requires number { number < 128 }
        ensures { result ≡ attributes_of oam.now number }
    {
        let place = 8 * number as usize;
        Attributes {
            first: half_at(oam, place),
            second: half_at(oam, place + 2),
            third: half_at(oam, place + 4),
        }
    }

    /// The line of the box's upper edge, from 0 to 255.
    pub fn top(self) -> u32
        ensures value { result ≡ top_of self }
        ensures most { result < 256 }
    {
        bits(u32::from(self.first), 0, 8)
    }

    /// The column of the box's left edge, from 0 to 511.
    pub fn left(self) -> u32
        ensures value { result ≡ left_of self }
        ensures most { result < 512 }
    {
        bits(u32::from(self.second), 0, 9)
    }

    pub fn is_affine(self) -> bool
        ensures { result ≡ is_affine self }
    {
        bit(u32::from(self.first), 8)
    }

    /// Whether its box is twice as wide and twice as high as its picture.
    pub fn is_double(self) -> bool
        ensures { result ≡ is_double self }
    {
        self.is_affine() && bit(u32::from(self.first), 9)
    }

    fn is_hidden(self) -> bool
        ensures { result ≡ is_hidden self }
    {
        !self.is_affine() && bit(u32::from(self.first), 9)
    }

    pub fn mode(self) -> SpriteMode
        ensures { result ≡ mode_of self }
    {
        match bits(u32::from(self.first), 10, 2) {
            0 => SpriteMode::Normal,
            1 => SpriteMode::SemiTransparent,
            2 => SpriteMode::Window,
            _ => SpriteMode::Prohibited,
        }
    }

    fn is_prohibited(self) -> bool
        ensures { result ≡ is_prohibited (mode_of self) }
    {
        matches!(self.mode(), SpriteMode::Prohibited)
    }

    /// Whether its dots have 8 bits, and not 4.
    pub fn has_eight_bits(self) -> bool
        ensures { result ≡ has_eight_bits self }
    {
        bit(u32::from(self.first), 13)
    }

    fn shape(self) -> u32
        ensures value { result ≡ shape_of self }
        ensures most { result ≤ 3 }
    {
        bits(u32::from(self.first), 14, 2)
    }

    fn size(self) -> u32
        ensures value { result ≡ size_field self }
        ensures most { result ≤ 3 }
    {
        bits(u32::from(self.second), 14, 2)
    }

    /// The group of parameters of an affine sprite, from 0 to 31.
    pub fn group(self) -> u32
        ensures value { result ≡ group_of self }
        ensures most { result < 32 }
    {
        bits(u32::from(self.second), 9, 5)
    }

    pub fn is_mirrored(self) -> bool
        ensures { result ≡ is_mirrored self }
    {
        bit(u32::from(self.second), 12)
    }

    pub fn is_upside_down(self) -> bool
        ensures { result ≡ is_upside_down self }
    {
        bit(u32::from(self.second), 13)
    }

    pub fn tile(self) -> u32
        ensures value { result ≡ tile_of self }
        ensures most { result < 1024 }
    {
        bits(u32::from(self.third), 0, 10)
    }

    pub fn priority(self) -> u8
        ensures { result ≡ priority_of self }
    {
        bits(u32::from(self.third), 10, 2) as u8
    }

    pub fn palette(self) -> u16
        ensures value { result ≡ palette_of self }
        ensures most { result < 16 }
    {
        bits(u32::from(self.third), 12, 4) as u16
    }

    /// The width of its picture, in dots.
    pub fn width(self) -> u32
        ensures value { result ≡ width_of self }
        ensures least { 8 ≤ result }
        ensures most { result ≤ 64 }
    {
        match self.shape() {
            0 => square_side(self.size()),
            1 => long_side(self.size()),
            _ => short_side(self.size()),
        }
    }

    /// The height of its picture, in dots.
    pub fn height(self) -> u32
        ensures value { result ≡ height_of self }
        ensures least { 8 ≤ result }
        ensures most { result ≤ 64 }
    {
        match self.shape() {
            0 => square_side(self.size()),
            1 => short_side(self.size()),
            _ => long_side(self.size()),
        }
    }

    pub fn box_width(self) -> u32
        ensures value { result ≡ box_width self }
        ensures most { result ≤ 128 }
    {
        if self.is_double() {
            2 * self.width()
        } else {
            self.width()
        }
    }

    pub fn box_height(self) -> u32
        ensures value { result ≡ box_height self }
        ensures most { result ≤ 128 }
    {
        if self.is_double() {
            2 * self.height()
        } else {
            self.height()
        }
    }

    /// Whether it is shown on any line.
    #[tactic(auto, unfolding(crate::specs::Attributes::is_shown))]
    pub fn is_shown(self) -> bool
        ensures { result ≡ is_shown self }
    {
        !self.is_hidden() && self.shape() != 3 && !self.is_prohibited()
    }
}
