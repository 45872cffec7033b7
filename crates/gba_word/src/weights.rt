//! What a bit adds to a number: its weight where it is set.

ghost use Rattle.std.specs.Prelude.{◌≡◌, ◌≤◌};
ghost use Rattle.gba_word.specs.Weights.{weight};

/// What a bit of this weight adds to a byte.
pub fn weight_byte(place: u8, set: bool) -> u8
    ensures value { result ≡ weight place set }
    ensures most { result ≤ place }
{
    if set { place } else { 0 }
}

/// What a bit of this weight adds to a halfword.
pub fn weight_half(place: u16, set: bool) -> u16
    ensures value { result ≡ weight place set }
    ensures most { result ≤ place }
{
    if set { place } else { 0 }
}

/// What a bit of this weight adds to a word.
pub fn weight_word(place: u32, set: bool) -> u32
    ensures value { result ≡ weight place set }
    ensures most { result ≤ place }
{
    if set { place } else { 0 }
}
