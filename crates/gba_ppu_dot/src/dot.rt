//! Dots.

/// How a dot is blended: `Semi` is a dot of a semi-transparent sprite (GBATEK, LCD OBJ OAM Attributes), every other dot
/// is `Plain`.
#[derive(Clone, Copy, Debug, PartialEq, Eq)]
pub enum DotKind {
    Plain,
    Semi,
}

/// What one layer has at one place of a line, before the layers are put over one another.
#[derive(Clone, Copy, Debug, PartialEq, Eq)]
pub struct Dot {
    /// Whether the layer hides here what is behind it.
    pub opaque: bool,
    /// The entry of the palette, from 0 to 511, or where `direct` is set the colour itself, 15 bits.
    pub entry: u16,
    pub direct: bool,
    /// From 0, the front, to 3.
    pub priority: u8,
    pub kind: DotKind,
    /// Whether the place is in the sprite window.
    pub window: bool,
}

impl Dot {
    ghost use Rattle.std.specs.Prelude.{◌≡◌, ◌+◌, ◌^◌, ◌<◌};
    ghost use Rattle.gba_ppu_dot.specs.Dots.{coloured_dot, indexed_dot};

    /// No dot: what a layer has where it has nothing.
    pub const CLEAR: Dot = Dot {
        opaque: false,
        entry: 0,
        direct: false,
        priority: 0,
        kind: DotKind::Plain,
        window: false,
    };

    /// A background's dot by its number in the palette that begins at an entry. Number 0 isn't opaque.
    pub fn indexed(priority: u8, palette: u16, number: u8) -> Dot
        requires { palette + number < 2 ^ 16 }
        ensures { result ≡ indexed_dot priority palette number }
    {
        Dot {
            opaque: number != 0,
            entry: palette + u16::from(number),
            direct: false,
            priority,
            kind: DotKind::Plain,
            window: false,
        }
    }

    /// A background's dot that has its colour with it, in the low 15 bits of a halfword. It is always opaque.
    pub fn coloured(priority: u8, half: u16) -> Dot
        ensures { result ≡ coloured_dot priority half }
    {
        Dot {
            opaque: true,
            entry: half % 0x8000,
            direct: true,
            priority,
            kind: DotKind::Plain,
            window: false,
        }
    }
}
