//! Choices in eight places.

ghost use Rattle.std.specs.Prelude.{◌≡◌, ℕ, ◌<◌, ◌≤◌, nat_lt, slice_index, if◌then◌else◌};
ghost use Rattle.gba_terms.specs.Bits.{bit};
ghost use Rattle.gba_ppu_blend.specs.Lanes.{HasLanes};

use std::simd::prelude::*;

/// The one or the other number, by whether one number is less than another.
#[inline(always)]
pub fn if_less(a: u16x8, b: u16x8, chosen: u16x8, other: u16x8) -> u16x8
    ensures { HasLanes result (λ i. if nat_lt (slice_index a i) (slice_index b i) then slice_index chosen i
        else slice_index other i) }
{
    a.simd_lt(b).select(chosen, other)
}

/// The one or the other number, by a bit of a number.
#[inline(always)]
pub fn if_bit(a: u16x8, place: u16, chosen: u16x8, other: u16x8) -> u16x8
    requires { place < 16 }
    ensures { HasLanes result (λ i. if bit (slice_index a i) place then slice_index chosen i else slice_index other i) }
{
    let bits = (a >> u16x8::splat(place)) & u16x8::splat(1);
    bits.simd_eq(u16x8::splat(1)).select(chosen, other)
}
