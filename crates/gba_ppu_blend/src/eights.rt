//! Eight places of a line.

ghost use Rattle.std.specs.Prelude.{◌≡◌, ℕ, ◌+◌, ◌<◌, ◌≤◌, length, slice_index};
ghost use Rattle.gba_ppu_blend.specs.Lanes.{HasLanes};

use std::simd::prelude::*;

/// The eight halfwords from a place on.
#[inline(always)]
pub fn eight_from(line: &[u16], at: usize) -> u16x8
    requires { at + 8 ≤ length line.now }
    ensures { HasLanes result (λ i. slice_index line.now (at + i)) }
{
    u16x8::from_slice(&line[at..])
}

/// Stores eight halfwords from a place on, and leaves the places before and after them.
#[inline(always)]
pub fn put_eight(lanes: u16x8, at: usize, out: &mut [u16])
    requires { at + 8 ≤ length out.old }
    ensures before { (x : ℕ) → x < at → slice_index out.new x ≡ slice_index out.old x }
    ensures here { (i : ℕ) → i < 8 → slice_index out.new (at + i) ≡ slice_index lanes i }
    ensures after { (x : ℕ) → at + 8 ≤ x → slice_index out.new x ≡ slice_index out.old x }
{
    let colours = lanes.to_array();
    for k in 0..8 {
        out[at + k] = colours[k];
    }
}
