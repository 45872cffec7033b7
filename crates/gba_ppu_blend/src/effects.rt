//! What may be done to the colours of a line.

ghost use Rattle.std.specs.Prelude.{◌≤◌};

use crate::colours::{both, brighter, darker};
use crate::lanes::{both_lanes, brighter_lanes, darker_lanes};
use std::simd::prelude::*;

/// What makes one colour of a colour and the one behind it, which it need not read.
pub(crate) trait LaneEffect {
    ghost use Rattle.std.specs.Prelude.{◌≡◌, ℕ, slice_index};
    ghost use Rattle.gba_ppu_blend.specs.Lanes.{HasLanes};

    ghost colour: { Self → ℕ → ℕ → ℕ };

    fn one(&self, top: u16, below: u16) -> u16
        ensures { result ≡ colour self.now top below };

    fn eight(&self, top: u16x8, below: u16x8) -> u16x8
        ensures { HasLanes result (λ i. colour self.now (slice_index top i) (slice_index below i)) };
}

/// Alpha blending, by coefficients from 0 to 16.
#[derive(Clone, Copy)]
pub(crate) struct Alpha {
    pub eva: u16,
    pub evb: u16,
    ghost eva_fits: { eva ≤ 16 },
    ghost evb_fits: { evb ≤ 16 },
}

/// Brightening, by a coefficient from 0 to 16.
#[derive(Clone, Copy)]
pub(crate) struct Brighter {
    pub evy: u16,
    ghost fits: { evy ≤ 16 },
}

/// Darkening, by a coefficient from 0 to 16.
#[derive(Clone, Copy)]
pub(crate) struct Darker {
    pub evy: u16,
    ghost fits: { evy ≤ 16 },
}

impl LaneEffect for Alpha {
    ghost use Rattle.gba_ppu_blend.specs.Colours.{both};

    ghost colour = { λ e top below. both e.eva e.evb top below };

    fn one(&self, top: u16, below: u16) -> u16 {
        both(u32::from(self.eva), u32::from(self.evb), top, below)
    }

    #[inline(always)]
    fn eight(&self, top: u16x8, below: u16x8) -> u16x8 {
        both_lanes(top, below, self.eva, self.evb)
    }
}

impl LaneEffect for Brighter {
    ghost use Rattle.gba_ppu_blend.specs.Colours.{brighter};

    ghost colour = { λ e top _. brighter e.evy top };

    fn one(&self, top: u16, _below: u16) -> u16 {
        brighter(u32::from(self.evy), top)
    }

    #[inline(always)]
    fn eight(&self, top: u16x8, _below: u16x8) -> u16x8 {
        brighter_lanes(top, self.evy)
    }
}

impl LaneEffect for Darker {
    ghost use Rattle.gba_ppu_blend.specs.Colours.{darker};

    ghost colour = { λ e top _. darker e.evy top };

    fn one(&self, top: u16, _below: u16) -> u16 {
        darker(u32::from(self.evy), top)
    }

    #[inline(always)]
    fn eight(&self, top: u16x8, _below: u16x8) -> u16x8 {
        darker_lanes(top, self.evy)
    }
}
