//! Blending.

use crate::memory::Object;
use crate::scene::{Case, try_case};
use std::test::Fail;

/// DISPCNT; BLDCNT, BLDALPHA and BLDY; entries of the palette; the colour at 20 in line 10.
type Pixel = (u16, [u16; 3], &'static [(usize, u16)], u16);

/// Background 0 is entry 17, background 1 entry 33, background 2 entry 49. Alpha blending, with sums that are too much
/// and coefficients above 16; targets that aren't; the second layer is the next one and no later one; brighter and
/// darker, with coefficients above 16 and quotients that are rounded down; the backdrop as both targets.
static PIXELS: [Pixel; 22] = [
    (
        0x0300,
        [0x0241, 0x1F1F, 0],
        &[(17, 0x7FFF), (33, 0x7FFF)],
        0x7FFF,
    ),
    (
        0x0300,
        [0x0241, 0x0808, 0],
        &[(17, 0x001F), (33, 0x7C00)],
        0x3C0F,
    ),
    (0x0300, [0x0241, 0x0011, 0], &[(17, 0x4210)], 0x4210),
    (0x0300, [0x0241, 0x1F00, 0], &[(33, 0x4210)], 0x4210),
    (0x0300, [0x0041, 0x0808, 0], &[(17, 0x001F)], 0x001F),
    (0x0300, [0x0240, 0x0808, 0], &[(17, 0x001F)], 0x001F),
    (0x0300, [0x0201, 0x0808, 0], &[(17, 0x001F)], 0x001F),
    (0x0700, [0x0441, 0x0808, 0], &[(17, 0x001F)], 0x001F),
    (
        0x0500,
        [0x0441, 0x0808, 0],
        &[(17, 0x001F), (49, 0x7C00)],
        0x3C0F,
    ),
    (0x0100, [0x0081, 0, 0x10], &[(17, 0x3DEF)], 0x7FFF),
    (0x0100, [0x0081, 0, 0x11], &[(17, 0x3DEF)], 0x7FFF),
    (0x0100, [0x0081, 0, 0x1F], &[(17, 0x0000)], 0x7FFF),
    (0x0100, [0x0081, 0, 0x08], &[(17, 0x3DEF)], 0x5EF7),
    (0x0100, [0x0081, 0, 0x01], &[(17, 0x0000)], 0x0421),
    (0x0100, [0x00C1, 0, 0x10], &[(17, 0x3DEF)], 0x0000),
    (0x0100, [0x00C1, 0, 0x1F], &[(17, 0x7FFF)], 0x0000),
    (0x0100, [0x00C1, 0, 0x08], &[(17, 0x3DEF)], 0x2108),
    (0x0100, [0x00C1, 0, 0x01], &[(17, 0x7FFF)], 0x7BDE),
    (0x0100, [0x0082, 0, 0x10], &[(17, 0x3DEF)], 0x3DEF),
    (0x0000, [0x00A0, 0, 0x08], &[(0, 0x3DEF)], 0x5EF7),
    (0x0000, [0x00E0, 0, 0x08], &[(0, 0x3DEF)], 0x2108),
    (
        0x0100,
        [0x2041, 0x0808, 0],
        &[(0, 0x7C00), (17, 0x001F)],
        0x3C0F,
    ),
];

#[test]
fn effects_are_on_their_targets(rt: HostRuntime) -> Result<(), Fail> {
    for (control, blending, entries, colour) in &PIXELS {
        let registers = [
            (0x000, *control),
            (0x050, blending[0]),
            (0x052, blending[1]),
            (0x054, blending[2]),
        ];
        let colours = [(20, *colour)];
        let case = Case {
            line: 10,
            registers: &registers,
            objects: &[],
            entries: *entries,
            colours: &colours,
        };
        try_case(&rt, rt.alloc(), &case)?;
    }
    Ok(())
}

/// What window 0 shows, which is the whole screen; the sprite; BLDCNT and BLDY; the colour at 20 in line 10.
type Over = (u16, Object, [u16; 2], u16);

const PLAIN: Object = (3, 0x000A, 0x0014, 0x0000);

const SEMI: Object = (3, 0x040A, 0x0014, 0x0000);

const SEMI_BEHIND: Object = (3, 0x040A, 0x0014, 0x0400);

/// The sprite is 001Fh and background 0 7C00h, EVA and EVB are 8. A semi-transparent sprite is blended without being a
/// first target, without an effect and in a window that forbids effects; over what is no second target the effect is
/// the ordinary one; it comes before brighter; behind the background it is a second target like others. A plain sprite
/// follows the targets and the window.
static OVERS: [Over; 15] = [
    (0x0011, SEMI, [0x0100, 0], 0x3C0F),
    (0x0031, SEMI, [0x0100, 0], 0x3C0F),
    (0x0011, SEMI, [0x0190, 0x10], 0x3C0F),
    (0x0031, SEMI, [0x0190, 0x10], 0x3C0F),
    (0x0031, SEMI, [0x0150, 0], 0x3C0F),
    (0x0031, SEMI, [0x0000, 0], 0x001F),
    (0x0031, SEMI, [0x0050, 0], 0x001F),
    (0x0031, SEMI, [0x0090, 0x10], 0x7FFF),
    (0x0011, SEMI, [0x0090, 0x10], 0x001F),
    (0x0031, SEMI_BEHIND, [0x1000, 0], 0x7C00),
    (0x0031, SEMI_BEHIND, [0x1041, 0], 0x3C0F),
    (0x0031, PLAIN, [0x0150, 0], 0x3C0F),
    (0x0031, PLAIN, [0x0140, 0], 0x001F),
    (0x0011, PLAIN, [0x0150, 0], 0x001F),
    (0x0021, PLAIN, [0x0150, 0], 0x7C00),
];

#[test]
fn semi_transparent_sprites_are_blended_in_every_window(rt: HostRuntime) -> Result<(), Fail> {
    for (shows, object, blending, colour) in &OVERS {
        let registers = [
            (0x000, 0x3100),
            (0x040, 0x00F0),
            (0x044, 0x00A0),
            (0x048, *shows),
            (0x050, blending[0]),
            (0x052, 0x0808),
            (0x054, blending[1]),
        ];
        let objects = [*object];
        let colours = [(20, *colour)];
        let case = Case {
            line: 10,
            registers: &registers,
            objects: &objects,
            entries: &[(17, 0x7C00), (257, 0x001F)],
            colours: &colours,
        };
        try_case(&rt, rt.alloc(), &case)?;
    }
    Ok(())
}

/// Where a window hides background 1, the next layer is background 2.
#[test]
fn a_layer_that_does_not_show_is_not_the_next(rt: HostRuntime) -> Result<(), Fail> {
    for (shows, colour) in [(0x0027, 0x001F), (0x0025, 0x3C0F)] {
        let registers = [
            (0x000, 0x2700),
            (0x040, 0x00F0),
            (0x044, 0x00A0),
            (0x048, shows),
            (0x050, 0x0441),
            (0x052, 0x0808),
        ];
        let colours = [(20, colour)];
        let case = Case {
            line: 10,
            registers: &registers,
            objects: &[],
            entries: &[],
            colours: &colours,
        };
        try_case(&rt, rt.alloc(), &case)?;
    }
    Ok(())
}
