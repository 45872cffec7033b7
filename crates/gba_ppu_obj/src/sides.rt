//! The sides of a sprite's picture, in dots, by its size from 0 to 3.

ghost use Rattle.std.specs.Prelude.{◌≡◌, ◌≤◌};
ghost use Rattle.gba_ppu_obj.specs.Attributes.{long_side as long_of, short_side as short_of, square_side as square_of};

/// The side of a square picture, by its size.
pub fn square_side(size: u32) -> u32
    ensures value { result ≡ square_of size }
    ensures least { 8 ≤ result }
    ensures most { result ≤ 64 }
{
    match size {
        0 => 8,
        1 => 16,
        2 => 32,
        _ => 64,
    }
}

/// The long side of a picture that isn't square.
pub fn long_side(size: u32) -> u32
    ensures value { result ≡ long_of size }
    ensures least { 8 ≤ result }
    ensures most { result ≤ 64 }
{
    match size {
        0 => 16,
        1 | 2 => 32,
        _ => 64,
    }
}

/// Its short side.
pub fn short_side(size: u32) -> u32
    ensures value { result ≡ short_of size }
    ensures least { 8 ≤ result }
    ensures most { result ≤ 64 }
{
    match size {
        0 | 1 => 8,
        2 => 16,
        _ => 32,
    }
}
