//! How wide an access is.

/// The width of an access: 8, 16 or 32 bits.
#[derive(Clone, Copy, Debug, PartialEq, Eq)]
pub enum Width {
    Byte,
    Half,
    Word,
}

impl Width {
    ghost use Rattle.std.specs.Prelude.{◌≡◌, ◌≤◌};
    ghost use Rattle.gba_bus.specs.Widths.{aligned, size};

    /// How many bytes an access of this width has: 1, 2 or 4.
    pub fn size(self) -> u32
        ensures value { result ≡ size self }
        ensures most { result ≤ 4 }
    {
        match self {
            Width::Byte => 1,
            Width::Half => 2,
            Width::Word => 4,
        }
    }

    /// Where an access of this width stands: the address with its low bits taken as 0
    /// (ARM Architecture Reference Manual, A2.7).
    pub fn align(self, address: u32) -> u32
        ensures { result ≡ aligned self address }
    {
        match self {
            Width::Byte => address,
            Width::Half => address - address % 2,
            Width::Word => address - address % 4,
        }
    }
}
