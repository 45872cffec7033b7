//! Blending.

ghost use Rattle.std.specs.Prelude.{◌≡◌, ◌≤◌, ◌<◌, if◌then◌else◌, length};
ghost use Rattle.gba_ppu_mix.specs.Blending.{alone as alone_by, blending_of, coefficient as coefficient_of, effect_of as effect_by, is_alpha, is_changed as is_changed_by, is_target as is_target_of};
ghost use Rattle.gba_ppu_mix.specs.Painting.{backdrop_colour as colour_of_backdrop, marks_of as marks_by};

use crate::stacks::{Layer, layer_bit};
use gba_ppu_blend::{brighter, darker};
use gba_ppu_dot::{Dot, colour_of};
use gba_ppu_reg::PictureRegisters;
use gba_word::{bit, bits};

/// The backdrop's dot, which has the palette's entry 0.
const BACKDROP: Dot = Dot {
    opaque: true,
    ..Dot::CLEAR
};

/// What is done to a first target (GBATEK, LCD I/O Color Special Effects).
#[derive(Clone, Copy, Debug, PartialEq, Eq)]
pub enum Effect {
    Unchanged,
    Alpha,
    Brighter,
    Darker,
}

/// BLDCNT, BLDALPHA and BLDY. The coefficients are from 0 to 16.
#[derive(Clone, Copy, Debug, PartialEq, Eq)]
pub struct Blending {
    /// Backgrounds 0 to 3, sprites and the backdrop, from the lowest of six bits up.
    pub first_targets: u32,
    pub second_targets: u32,
    pub effect: Effect,
    pub eva: u32,
    pub evb: u32,
    pub evy: u32,
}

fn effect_of(number: u32) -> Effect
    ensures { result ≡ effect_by number }
{
    match number {
        0 => Effect::Unchanged,
        1 => Effect::Alpha,
        2 => Effect::Brighter,
        _ => Effect::Darker,
    }
}

fn coefficient(half: u16, low: u32) -> u32
    requires { low ≤ 11 }
    ensures { result ≡ coefficient_of half low }
{
    bits(u32::from(half), low, 5).min(16)
}

#[tactic(auto, unfolding(crate::specs::Blending::alone))]
fn alone(effect: Effect, evy: u32, colour: u16) -> u16
    requires { evy ≤ 16 }
    ensures { result ≡ alone_by effect evy colour }
{
    match effect {
        Effect::Unchanged | Effect::Alpha => colour,
        Effect::Brighter => brighter(evy, colour),
        Effect::Darker => darker(evy, colour),
    }
}

fn is_target(targets: u32, layer: Layer) -> bool
    ensures { result ≡ is_target_of targets layer }
{
    bit(targets, layer_bit(layer))
}

impl Effect {
    pub fn is_alpha(self) -> bool
        ensures { result ≡ is_alpha self }
    {
        matches!(self, Effect::Alpha)
    }
}

impl Blending {
    /// That of the registers.
    pub fn of(r: &PictureRegisters) -> Blending
        ensures value { result ≡ blending_of r.now }
        ensures second_targets { result.second_targets < 64 }
        ensures eva { result.eva ≤ 16 }
        ensures evb { result.evb ≤ 16 }
        ensures evy { result.evy ≤ 16 }
    {
        let control = u32::from(r.kept(0x050));
        let alpha = r.kept(0x052);
        Blending {
            first_targets: bits(control, 0, 6),
            second_targets: bits(control, 8, 6),
            effect: effect_of(bits(control, 6, 2)),
            eva: coefficient(alpha, 0),
            evb: coefficient(alpha, 8),
            evy: coefficient(r.kept(0x054), 0),
        }
    }

    fn is_changed(&self, effects: bool, layer: Layer) -> bool
        ensures { result ≡ is_changed_by self.now effects layer }
    {
        effects && is_target(self.first_targets, layer)
    }

    fn changed(&self, effects: bool, layer: Layer, colour: u16) -> u16
        requires { self.now.evy ≤ 16 }
        ensures { result ≡ if is_changed_by self.now effects layer then alone_by self.now.effect self.now.evy colour
            else colour }
    {
        if self.is_changed(effects, layer) {
            alone(self.effect, self.evy, colour)
        } else {
            colour
        }
    }

    /// The colour where no layer has a dot, by what shows.
    pub fn backdrop_colour(&self, palette: &[u8], shows: u16) -> u16
        requires palette { length palette.now ≡ 1024 }
        requires evy { self.now.evy ≤ 16 }
        ensures { result ≡ colour_of_backdrop palette.now self.now shows }
    {
        self.changed(
            bit(u32::from(shows), 5),
            Layer::Backdrop,
            colour_of(palette, BACKDROP),
        )
    }

    /// What a layer is a target of, and whether it is a semi-transparent sprite, as bits 0, 1 and 2.
    pub fn marks_of(&self, layer: Layer, semi: bool) -> u16
        ensures { result ≡ marks_by self.now layer semi }
    {
        u16::from(is_target(self.first_targets, layer))
            + 2 * u16::from(is_target(self.second_targets, layer))
            + 4 * u16::from(semi)
    }
}
