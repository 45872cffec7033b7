//! The layers that are on, in their order.

use crate::scene::{BACK, BLUE, Case, GREEN, RED, SPRITE, WHITE, YELLOW, try_case};
use std::test::Fail;

/// Registers, and colours at places of line 10. A sprite of 8 x 8 dots with priority 0 is at 20, and one with
/// priority 1 at 40.
type Line = (&'static [(u32, u16)], &'static [(usize, u16)]);

/// By priority, sprites before backgrounds, backgrounds by number; layers that are off, and modes that don't have them.
static LINES: [Line; 24] = [
    (&[(0x000, 0x1F00)], &[(20, YELLOW), (40, RED), (100, RED)]),
    (
        &[(0x000, 0x1F00), (0x008, 0x0801)],
        &[(20, YELLOW), (100, GREEN)],
    ),
    (
        &[
            (0x000, 0x1F00),
            (0x008, 0x0803),
            (0x00A, 0x0902),
            (0x00C, 0x0A01),
        ],
        &[(100, WHITE), (40, WHITE)],
    ),
    (
        &[
            (0x000, 0x1700),
            (0x008, 0x0801),
            (0x00A, 0x0901),
            (0x00C, 0x0A01),
        ],
        &[(40, YELLOW), (100, RED)],
    ),
    (&[(0x000, 0x1E00)], &[(100, GREEN)]),
    (&[(0x000, 0x0C00)], &[(20, BLUE), (100, BLUE)]),
    (&[(0x000, 0x0800)], &[(100, WHITE)]),
    (&[(0x000, 0x0000)], &[(0, BACK), (20, BACK), (239, BACK)]),
    (
        &[(0x000, 0x1000)],
        &[(19, BACK), (20, YELLOW), (28, BACK), (40, YELLOW)],
    ),
    (&[(0x000, 0x0F00)], &[(20, RED)]),
    (&[(0x000, 0x0801)], &[(0, BACK)]),
    (&[(0x000, 0x0201)], &[(0, GREEN)]),
    (&[(0x000, 0x0401)], &[(0, RED)]),
    (&[(0x000, 0x0302)], &[(0, BACK)]),
    (&[(0x000, 0x0402)], &[(0, RED)]),
    (&[(0x000, 0x0403)], &[(0, 0x1111), (15, 0x1111), (16, 0)]),
    (&[(0x000, 0x0B03)], &[(0, BACK)]),
    (&[(0x000, 0x0404)], &[(0, RED), (31, RED), (32, BACK)]),
    (&[(0x000, 0x0405)], &[(0, 0x1111), (159, 0), (160, BACK)]),
    (&[(0x000, 0x0F06)], &[(0, BACK), (20, BACK)]),
    (&[(0x000, 0x1F07)], &[(0, BACK), (20, YELLOW)]),
    (&[(0x000, 0x1403)], &[(20, 0)]),
    (&[(0x000, 0x0080)], &[(0, WHITE), (20, WHITE), (239, WHITE)]),
    (&[(0x000, 0x1F80)], &[(0, WHITE), (20, WHITE), (100, WHITE)]),
];

#[test]
fn layers_are_behind_one_another_by_priority(rt: HostRuntime) -> Result<(), Fail> {
    for (registers, colours) in &LINES {
        let case = Case {
            line: 10,
            registers: *registers,
            objects: &[SPRITE, (4, 0x000A, 0x0028, 0x0400)],
            entries: &[],
            colours: *colours,
        };
        try_case(&rt, rt.alloc(), &case)?;
    }
    Ok(())
}
