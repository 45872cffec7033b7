//! Bitmaps.

use crate::layers::Want::{Clear, Colour, Entry};
use crate::layers::{Case, Layer, Want, try_line};
use std::test::Fail;

/// Registers, bytes of video memory, and places with their dots.
type Line = (
    &'static [(u32, u16)],
    &'static [(usize, u8)],
    &'static [(usize, Want)],
);

/// Colours lose bit 15 and are opaque whatever they are, entries are not opaque where they are 0. Bit 13 of the control
/// wraps nothing here, and bit 4 of DISPCNT chooses the page in modes 4 and 5 alone.
static LINES: [Line; 16] = [
    (
        &[(0x000, 0x0003), (0x020, 0x0100)],
        &[(0, 0xFF), (1, 0xFF), (478, 0x34), (479, 0x12)],
        &[(0, Colour(0x7FFF)), (1, Colour(0)), (239, Colour(0x1234))],
    ),
    (
        &[(0x000, 0x0013), (0x020, 0x0100)],
        &[(0, 0x01), (0xA000, 0x02)],
        &[(0, Colour(0x0001))],
    ),
    (
        &[
            (0x000, 0x0003),
            (0x00C, 0x2000),
            (0x020, 0x0100),
            (0x028, 0x0100),
        ],
        &[(2, 0x05)],
        &[(0, Colour(0x0005)), (238, Colour(0)), (239, Clear)],
    ),
    (
        &[
            (0x000, 0x0003),
            (0x00C, 0x2000),
            (0x020, 0x0100),
            (0x028, 0xFF00),
            (0x02A, 0x0FFF),
        ],
        &[(0, 0x05)],
        &[(0, Clear), (1, Colour(0x0005))],
    ),
    (
        &[(0x000, 0x0003), (0x024, 0x0100)],
        &[(480, 0x03), (76320, 0x04)],
        &[(1, Colour(0x0003)), (159, Colour(0x0004)), (160, Clear)],
    ),
    (
        &[(0x000, 0x0004), (0x020, 0x0100)],
        &[(0, 0x05), (239, 0xFF), (240, 0x06)],
        &[(0, Entry(0x05)), (1, Clear), (239, Entry(0xFF))],
    ),
    (
        &[(0x000, 0x0014), (0x020, 0x0100)],
        &[(0, 0x05), (0xA001, 0x06)],
        &[(0, Clear), (1, Entry(0x06))],
    ),
    (
        &[(0x000, 0x0014), (0x020, 0x0100), (0x02C, 0x9F00)],
        &[(0x1_35FF, 0x07)],
        &[(238, Clear), (239, Entry(0x07))],
    ),
    (
        &[(0x000, 0x0004), (0x020, 0x0100), (0x02C, 0xA000)],
        &[(38400, 0x07)],
        &[(0, Clear), (239, Clear)],
    ),
    (
        &[(0x000, 0x0005), (0x020, 0x0100)],
        &[(318, 0x21), (319, 0xC3), (320, 0x01)],
        &[(0, Colour(0)), (159, Colour(0x4321)), (160, Clear)],
    ),
    (
        &[(0x000, 0x0005), (0x024, 0x0100)],
        &[(320, 0x01), (40640, 0x02)],
        &[(1, Colour(1)), (127, Colour(2)), (128, Clear)],
    ),
    (
        &[(0x000, 0x0015), (0x020, 0x0100)],
        &[(0, 0x01), (0xA000, 0x02), (0xA001, 0x80)],
        &[(0, Colour(0x0002))],
    ),
    (
        &[(0x000, 0x0015), (0x020, 0x0100), (0x02C, 0x7F00)],
        &[(0x1_3FFE, 0xFF), (0x1_3FFF, 0x7F)],
        &[(158, Colour(0)), (159, Colour(0x7FFF))],
    ),
    (
        &[(0x000, 0x0000), (0x020, 0x0100)],
        &[(0, 0x05)],
        &[(0, Clear), (239, Clear)],
    ),
    (
        &[(0x000, 0x0002), (0x020, 0x0100)],
        &[(0, 0x05)],
        &[(0, Clear)],
    ),
    (
        &[(0x000, 0x0006), (0x020, 0x0100)],
        &[(0, 0x05)],
        &[(0, Clear)],
    ),
];

#[test]
fn bitmaps_have_the_dots_of_their_modes(rt: HostRuntime) -> Result<(), Fail> {
    for (registers, bytes, dots) in &LINES {
        let case = Case {
            layer: Layer::Bitmap,
            line: 0,
            grown: 0,
            registers: *registers,
            bytes: *bytes,
            priority: 0,
            dots: *dots,
        };
        try_line(&rt, rt.alloc(), &case)?;
    }
    Ok(())
}
