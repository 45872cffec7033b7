//! Lines of colours, blended.

ghost use Rattle.std.specs.Prelude.{◌≡◌, ℕ, ◌+◌, ◌*◌, ◌<◌, ◌≤◌, length, slice_index};
ghost use Rattle.gba_ppu_blend.specs.Colours.{both as both_of, brighter as brighter_of, darker as darker_of};

use crate::effects::{Alpha, Brighter, Darker, LaneEffect};
use crate::eights::{eight_from, put_eight};

#[inline(always)]
fn blend_eight<E: LaneEffect>(effect: &E, top: &[u16], below: &[u16], at: usize, out: &mut [u16])
    requires top { at + 8 ≤ length top.now }
    requires below { at + 8 ≤ length below.now }
    requires out { at + 8 ≤ length out.old }
    ensures before { (x : ℕ) → x < at → slice_index out.new x ≡ slice_index out.old x }
    ensures here { (i : ℕ) → i < 8
        → slice_index out.new (at + i)
        ≡ E.colour effect.now (slice_index top.now (at + i)) (slice_index below.now (at + i)) }
    ensures after { (x : ℕ) → at + 8 ≤ x → slice_index out.new x ≡ slice_index out.old x }
{
    let lanes = effect.eight(eight_from(top, at), eight_from(below, at));
    put_eight(lanes, at, out);
}

/// The first so many times eight places.
fn blend_eights<E: LaneEffect>(
    effect: &E,
    top: &[u16],
    below: &[u16],
    count: usize,
    out: &mut [u16],
)
    requires top { 8 * count ≤ length top.now }
    requires below { 8 * count ≤ length below.now }
    requires out { 8 * count ≤ length out.old }
    ensures { (x : ℕ) → x < 8 * count
        → slice_index out.new x ≡ E.colour effect.now (slice_index top.now x) (slice_index below.now x) }
{
    for k in 0..count {
        blend_eight(effect, top, below, 8 * k, out);
    }
}

/// The places from one on.
fn blend_rest<E: LaneEffect>(effect: &E, top: &[u16], below: &[u16], from: usize, out: &mut [u16])
    requires top { length top.now ≡ length out.old }
    requires below { length below.now ≡ length out.old }
    requires from { from ≤ length out.old }
    ensures before { (x : ℕ) → x < from → slice_index out.new x ≡ slice_index out.old x }
    ensures rest { (x : ℕ) → from ≤ x → x < length out.old
        → slice_index out.new x ≡ E.colour effect.now (slice_index top.now x) (slice_index below.now x) }
{
    for x in from..out.len() {
        out[x] = effect.one(top[x], below[x]);
    }
}

fn blend_line<E: LaneEffect>(effect: &E, top: &[u16], below: &[u16], out: &mut [u16])
    requires top { length top.now ≡ length out.old }
    requires below { length below.now ≡ length out.old }
    ensures { (x : ℕ) → x < length out.old
        → slice_index out.new x ≡ E.colour effect.now (slice_index top.now x) (slice_index below.now x) }
{
    let count = out.len() / 8;
    blend_eights(effect, top, below, count, out);
    blend_rest(effect, top, below, 8 * count, out);
}

/// Blends the colours of a line with those behind them, by coefficients in sixteenths (GBATEK, LCD I/O Color Special
/// Effects). Bit 15 of a colour isn't read, and is 0 in `out`.
pub fn blend_alpha(a: &[u16], b: &[u16], eva: u8, evb: u8, out: &mut [u16])
    requires a { length a.now ≡ length out.old }
    requires b { length b.now ≡ length out.old }
    requires eva { eva ≤ 16 }
    requires evb { evb ≤ 16 }
    ensures { (x : ℕ) → x < length out.old
        → slice_index out.new x ≡ both_of eva evb (slice_index a.now x) (slice_index b.now x) }
{
    let alpha = Alpha {
        eva: u16::from(eva),
        evb: u16::from(evb),
    };
    blend_line(&alpha, a, b, out);
}

/// Makes the colours of a line brighter, by a coefficient in sixteenths. Bit 15 of a colour isn't read, and
/// is 0 in `out`.
pub fn brighten(a: &[u16], evy: u8, out: &mut [u16])
    requires a { length a.now ≡ length out.old }
    requires evy { evy ≤ 16 }
    ensures { (x : ℕ) → x < length out.old → slice_index out.new x ≡ brighter_of evy (slice_index a.now x) }
{
    let brighter = Brighter {
        evy: u16::from(evy),
    };
    blend_line(&brighter, a, a, out);
}

/// Makes the colours of a line darker, by a coefficient in sixteenths. Bit 15 of a colour isn't read, and
/// is 0 in `out`.
pub fn darken(a: &[u16], evy: u8, out: &mut [u16])
    requires a { length a.now ≡ length out.old }
    requires evy { evy ≤ 16 }
    ensures { (x : ℕ) → x < length out.old → slice_index out.new x ≡ darker_of evy (slice_index a.now x) }
{
    let darker = Darker {
        evy: u16::from(evy),
    };
    blend_line(&darker, a, a, out);
}
