//! Colours of 15 bits: three parts of 5 bits, red lowest.

ghost use Rattle.std.specs.Prelude.{◌≡◌, ◌≤◌};
ghost use Rattle.gba_ppu_blend.specs.Colours.{blue as blue_of, both as both_of, brighter as brighter_of, brighter_part as brighter_part_of, colour_from as from_parts, darker as darker_of, darker_part as darker_part_of, green as green_of, part_of_both as part_of_two, red as red_of};

use gba_word::bits;

fn red(colour: u16) -> u32
    ensures value { result ≡ red_of colour }
    ensures most { result ≤ 31 }
{
    bits(u32::from(colour), 0, 5)
}

fn green(colour: u16) -> u32
    ensures value { result ≡ green_of colour }
    ensures most { result ≤ 31 }
{
    bits(u32::from(colour), 5, 5)
}

fn blue(colour: u16) -> u32
    ensures value { result ≡ blue_of colour }
    ensures most { result ≤ 31 }
{
    bits(u32::from(colour), 10, 5)
}

fn colour_from(red: u32, green: u32, blue: u32) -> u16
    requires red { red ≤ 31 }
    requires green { green ≤ 31 }
    requires blue { blue ≤ 31 }
    ensures { result ≡ from_parts red green blue }
{
    (red + 32 * green + 1024 * blue) as u16
}

fn part_of_both(eva: u32, evb: u32, top: u32, below: u32) -> u32
    requires eva { eva ≤ 16 }
    requires evb { evb ≤ 16 }
    requires top { top ≤ 31 }
    requires below { below ≤ 31 }
    ensures value { result ≡ part_of_two eva evb top below }
    ensures most { result ≤ 31 }
{
    ((top * eva + below * evb) / 16).min(31)
}

fn brighter_part(evy: u32, part: u32) -> u32
    requires evy { evy ≤ 16 }
    requires part { part ≤ 31 }
    ensures value { result ≡ brighter_part_of evy part }
    ensures most { result ≤ 31 }
{
    part + (31 - part) * evy / 16
}

fn darker_part(evy: u32, part: u32) -> u32
    requires evy { evy ≤ 16 }
    requires part { part ≤ 31 }
    ensures value { result ≡ darker_part_of evy part }
    ensures most { result ≤ 31 }
{
    part - part * evy / 16
}

/// A colour and the one behind it, blended by coefficients from 0 to 16.
#[tactic(auto, unfolding(crate::specs::Colours::both))]
pub fn both(eva: u32, evb: u32, top: u16, below: u16) -> u16
    requires eva { eva ≤ 16 }
    requires evb { evb ≤ 16 }
    ensures { result ≡ both_of eva evb top below }
{
    colour_from(
        part_of_both(eva, evb, red(top), red(below)),
        part_of_both(eva, evb, green(top), green(below)),
        part_of_both(eva, evb, blue(top), blue(below)),
    )
}

/// A brighter colour, by a coefficient from 0 to 16.
#[tactic(auto, unfolding(crate::specs::Colours::brighter))]
pub fn brighter(evy: u32, colour: u16) -> u16
    requires { evy ≤ 16 }
    ensures { result ≡ brighter_of evy colour }
{
    colour_from(
        brighter_part(evy, red(colour)),
        brighter_part(evy, green(colour)),
        brighter_part(evy, blue(colour)),
    )
}

/// A darker colour, by a coefficient from 0 to 16.
#[tactic(auto, unfolding(crate::specs::Colours::darker))]
pub fn darker(evy: u32, colour: u16) -> u16
    requires { evy ≤ 16 }
    ensures { result ≡ darker_of evy colour }
{
    colour_from(
        darker_part(evy, red(colour)),
        darker_part(evy, green(colour)),
        darker_part(evy, blue(colour)),
    )
}
