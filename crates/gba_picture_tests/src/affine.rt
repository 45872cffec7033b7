//! Affine backgrounds.

use crate::layers::Want::{Clear, Entry};
use crate::layers::{Case, Layer, Want, try_line};
use std::test::Fail;

/// Registers beside the control, the control, and places with their dots.
type Line = (&'static [(u32, u16)], &'static [(usize, Want)]);

/// The map begins at 0000h and the tiles at 4000h. The map's first entry is tile 1, whose first dot is 9; the last
/// entry of the first row, by the size, is tile 2, whose last dot of its first row is 8; the first of the second row,
/// with 128 dots, is tile 3, whose first dot is 6.
static TILES: [(usize, u8); 9] = [
    (0x4040, 9),
    (0x4087, 8),
    (0x40C0, 6),
    (0x0000, 1),
    (0x000F, 2),
    (0x0010, 3),
    (0x001F, 2),
    (0x003F, 2),
    (0x007F, 2),
];

/// Each size at its right edge, with the step 1, without and with wrapping; steps of -1; steps of -1/2,
/// which round down.
static LINES: [Line; 14] = [
    (
        &[(0x00C, 0x0004), (0x020, 0x0100)],
        &[(0, Entry(9)), (1, Clear), (127, Entry(8)), (128, Clear)],
    ),
    (
        &[(0x00C, 0x2004), (0x020, 0x0100)],
        &[(127, Entry(8)), (128, Entry(9))],
    ),
    (
        &[(0x00C, 0x4004), (0x020, 0x0100), (0x028, 0x6400)],
        &[(155, Entry(8)), (156, Clear)],
    ),
    (
        &[(0x00C, 0x6004), (0x020, 0x0100), (0x028, 0x6400)],
        &[(155, Entry(8)), (156, Entry(9))],
    ),
    (
        &[
            (0x00C, 0x8004),
            (0x020, 0x0100),
            (0x028, 0x9000),
            (0x02A, 0x0001),
        ],
        &[(111, Entry(8)), (112, Clear)],
    ),
    (
        &[
            (0x00C, 0xA004),
            (0x020, 0x0100),
            (0x028, 0x9000),
            (0x02A, 0x0001),
        ],
        &[(111, Entry(8)), (112, Entry(9))],
    ),
    (
        &[
            (0x00C, 0xC004),
            (0x020, 0x0100),
            (0x028, 0x8400),
            (0x02A, 0x0003),
        ],
        &[(123, Entry(8)), (124, Clear)],
    ),
    (
        &[
            (0x00C, 0xE004),
            (0x020, 0x0100),
            (0x028, 0x8400),
            (0x02A, 0x0003),
        ],
        &[(123, Entry(8)), (124, Entry(9))],
    ),
    (
        &[(0x00C, 0x0004), (0x020, 0xFF00), (0x028, 0x0500)],
        &[(4, Clear), (5, Entry(9)), (6, Clear)],
    ),
    (
        &[(0x00C, 0x2004), (0x020, 0xFF00), (0x028, 0x0500)],
        &[(5, Entry(9)), (6, Entry(8))],
    ),
    (
        &[(0x00C, 0x0004), (0x020, 0xFF80)],
        &[(0, Entry(9)), (1, Clear)],
    ),
    (
        &[(0x00C, 0x2004), (0x020, 0xFF80)],
        &[(0, Entry(9)), (1, Entry(8)), (2, Entry(8)), (3, Clear)],
    ),
    (
        &[(0x00C, 0x0004), (0x024, 0x0100)],
        &[(0, Entry(9)), (8, Entry(6)), (128, Clear)],
    ),
    (
        &[(0x00C, 0x2004), (0x024, 0xFF00), (0x02C, 0x0800)],
        &[(0, Entry(6)), (8, Entry(9)), (128, Entry(6))],
    ),
];

#[test]
fn maps_end_or_wrap_at_their_edges(rt: HostRuntime) -> Result<(), Fail> {
    for (registers, dots) in &LINES {
        let case = Case {
            layer: Layer::Affine(2),
            line: 0,
            grown: 0,
            registers: *registers,
            bytes: &TILES,
            priority: 0,
            dots: *dots,
        };
        try_line(&rt, rt.alloc(), &case)?;
    }
    Ok(())
}

/// With a step of 1/2 the place at x = 5 is (2, 0).
const HALF_STEPS: Case = Case {
    layer: Layer::Affine(2),
    line: 0,
    grown: 0,
    registers: &[(0x00C, 0x0006), (0x020, 0x0080)],
    bytes: &[(0x4002, 7)],
    priority: 2,
    dots: &[(3, Clear), (4, Entry(7)), (5, Entry(7)), (6, Clear)],
};

/// Background 3 by its own registers. After three lines the inner point is 3 further down.
const THREE_LINES_ON: Case = Case {
    layer: Layer::Affine(3),
    line: 3,
    grown: 3,
    registers: &[(0x00E, 0x0005), (0x030, 0x0100), (0x036, 0x0100)],
    bytes: &[(0x4018, 1), (0x4019, 255)],
    priority: 1,
    dots: &[(0, Entry(1)), (1, Entry(255)), (2, Clear)],
};

/// A reference point of -1: its 28 bits are signed.
const NEGATIVE_POINT: Case = Case {
    layer: Layer::Affine(2),
    line: 0,
    grown: 0,
    registers: &[
        (0x00C, 0x0004),
        (0x020, 0x0100),
        (0x02A, 0x0FFF),
        (0x028, 0xFF00),
    ],
    bytes: &[(0x4000, 4)],
    priority: 0,
    dots: &[(0, Clear), (1, Entry(4)), (2, Clear)],
};

#[test]
fn places_go_from_the_inner_point_on(rt: HostRuntime) -> Result<(), Fail> {
    for case in &[HALF_STEPS, THREE_LINES_ON, NEGATIVE_POINT] {
        try_line(&rt, rt.alloc(), case)?;
    }
    Ok(())
}
