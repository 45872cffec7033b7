//! Eight colours at a time.

ghost use Rattle.std.specs.Prelude.{◌≡◌, ℕ, ◌*◌, ◌^◌, ◌<◌, ◌≤◌, slice_index};
ghost use Rattle.gba_terms.specs.Bits.{field};
ghost use Rattle.gba_ppu_blend.specs.Colours.{both, brighter, brighter_part, darker, darker_part, part_of_both};
ghost use Rattle.gba_ppu_blend.specs.Lanes.{HasLanes};

use std::simd::prelude::*;

/// The part of each colour from a bit up.
#[inline(always)]
fn parts(colours: u16x8, low: u16) -> u16x8
    requires { low ≤ 10 }
    ensures { HasLanes result (λ i. field (slice_index colours i) low 5) }
{
    (colours >> u16x8::splat(low)) & u16x8::splat(31)
}

/// A part of each colour and of the one behind it, blended, where the part stands in a colour.
#[inline(always)]
fn parts_of_both(top: u16x8, below: u16x8, eva: u16, evb: u16, low: u16) -> u16x8
    requires low { low ≤ 10 }
    requires eva { eva ≤ 16 }
    requires evb { evb ≤ 16 }
    ensures { HasLanes result
        (λ i. part_of_both eva evb (field (slice_index top i) low 5) (field (slice_index below i) low 5) * 2 ^ low) }
{
    let sums = parts(top, low) * u16x8::splat(eva) + parts(below, low) * u16x8::splat(evb);
    (sums >> u16x8::splat(4)).simd_min(u16x8::splat(31)) << u16x8::splat(low)
}

#[inline(always)]
fn brighter_parts(colours: u16x8, evy: u16, low: u16) -> u16x8
    requires low { low ≤ 10 }
    requires evy { evy ≤ 16 }
    ensures { HasLanes result (λ i. brighter_part evy (field (slice_index colours i) low 5) * 2 ^ low) }
{
    let part = parts(colours, low);
    let more = ((u16x8::splat(31) - part) * u16x8::splat(evy)) >> u16x8::splat(4);
    (part + more) << u16x8::splat(low)
}

#[inline(always)]
fn darker_parts(colours: u16x8, evy: u16, low: u16) -> u16x8
    requires low { low ≤ 10 }
    requires evy { evy ≤ 16 }
    ensures { HasLanes result (λ i. darker_part evy (field (slice_index colours i) low 5) * 2 ^ low) }
{
    let part = parts(colours, low);
    let less = (part * u16x8::splat(evy)) >> u16x8::splat(4);
    (part - less) << u16x8::splat(low)
}

/// Colours and those behind them, blended by coefficients from 0 to 16.
#[inline(always)]
pub fn both_lanes(top: u16x8, below: u16x8, eva: u16, evb: u16) -> u16x8
    requires eva { eva ≤ 16 }
    requires evb { evb ≤ 16 }
    ensures { HasLanes result (λ i. both eva evb (slice_index top i) (slice_index below i)) }
{
    parts_of_both(top, below, eva, evb, 0)
        + parts_of_both(top, below, eva, evb, 5)
        + parts_of_both(top, below, eva, evb, 10)
}

/// Brighter colours, by a coefficient from 0 to 16.
#[inline(always)]
pub fn brighter_lanes(colours: u16x8, evy: u16) -> u16x8
    requires { evy ≤ 16 }
    ensures { HasLanes result (λ i. brighter evy (slice_index colours i)) }
{
    brighter_parts(colours, evy, 0)
        + brighter_parts(colours, evy, 5)
        + brighter_parts(colours, evy, 10)
}

/// Darker colours, by a coefficient from 0 to 16.
#[inline(always)]
pub fn darker_lanes(colours: u16x8, evy: u16) -> u16x8
    requires { evy ≤ 16 }
    ensures { HasLanes result (λ i. darker evy (slice_index colours i)) }
{
    darker_parts(colours, evy, 0) + darker_parts(colours, evy, 5) + darker_parts(colours, evy, 10)
}
