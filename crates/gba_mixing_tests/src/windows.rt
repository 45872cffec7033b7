//! Windows.

use crate::scene::{BACK, BLUE, Case, GREEN, RED, SPRITE, WHITE, YELLOW, try_case};
use std::alloc::{AllocError, Global};
use std::test::Fail;

/// The line, registers, and colours at places.
type Line = (u32, &'static [(u32, u16)], &'static [(usize, u16)]);

/// Background 0 shows in the window alone. Sides that are turned round, that reach past the edge, that are empty, and
/// that begin past the edge, across in each window and down.
static SIDES: [Line; 16] = [
    (
        0,
        &[(0x000, 0x2100), (0x040, 0xC832), (0x044, 0x00A0)],
        &[(0, BACK), (49, BACK), (199, BACK), (200, RED), (239, RED)],
    ),
    (
        0,
        &[(0x000, 0x2100), (0x040, 0x10F1), (0x044, 0x00A0)],
        &[(15, BACK), (16, RED), (239, RED)],
    ),
    (
        0,
        &[(0x000, 0x2100), (0x040, 0x10FF), (0x044, 0x00A0)],
        &[(15, BACK), (16, RED), (239, RED)],
    ),
    (
        0,
        &[(0x000, 0x2100), (0x040, 0x5050), (0x044, 0x00A0)],
        &[(79, BACK), (80, BACK), (81, BACK)],
    ),
    (
        0,
        &[(0x000, 0x2100), (0x040, 0xF1F2), (0x044, 0x00A0)],
        &[(0, BACK), (239, BACK)],
    ),
    (
        0,
        &[(0x000, 0x2100), (0x040, 0x1014), (0x044, 0x00A0)],
        &[(15, BACK), (16, RED), (19, RED), (20, BACK)],
    ),
    (
        99,
        &[(0x000, 0x2100), (0x040, 0x00F0), (0x044, 0x6432)],
        &[(0, BACK)],
    ),
    (
        100,
        &[(0x000, 0x2100), (0x040, 0x00F0), (0x044, 0x6432)],
        &[(0, RED)],
    ),
    (
        159,
        &[(0x000, 0x2100), (0x040, 0x00F0), (0x044, 0x6432)],
        &[(0, RED)],
    ),
    (
        49,
        &[(0x000, 0x2100), (0x040, 0x00F0), (0x044, 0x6432)],
        &[(0, BACK)],
    ),
    (
        159,
        &[(0x000, 0x2100), (0x040, 0x00F0), (0x044, 0x0AA1)],
        &[(0, RED)],
    ),
    (
        9,
        &[(0x000, 0x2100), (0x040, 0x00F0), (0x044, 0x0AA1)],
        &[(0, BACK)],
    ),
    (
        19,
        &[(0x000, 0x2100), (0x040, 0x00F0), (0x044, 0x0A14)],
        &[(0, RED), (239, RED)],
    ),
    (
        20,
        &[(0x000, 0x2100), (0x040, 0x00F0), (0x044, 0x0A14)],
        &[(0, BACK)],
    ),
    (
        0,
        &[(0x000, 0x4100), (0x042, 0xC832), (0x046, 0x00A0)],
        &[(199, BACK), (200, RED), (239, RED)],
    ),
    (
        20,
        &[(0x000, 0x4100), (0x042, 0x00F0), (0x046, 0x0A14)],
        &[(0, BACK)],
    ),
];

/// Writes of registers, and some more after them.
fn writes_of(
    alloc: Global,
    writes: &[(u32, u16)],
    more: &[(u32, u16)],
) -> Result<Vec<(u32, u16)>, AllocError> {
    let mut all = Vec::new(alloc);
    all.extend_from_slice(writes)?;
    all.extend_from_slice(more)?;
    Ok(all)
}

#[test]
fn windows_hold_what_is_between_their_sides(rt: HostRuntime) -> Result<(), Fail> {
    for (line, registers, colours) in &SIDES {
        let all = writes_of(rt.alloc(), &[(0x048, 0x0101)], registers)?;
        let case = Case {
            line: *line,
            registers: &all,
            objects: &[],
            entries: &[],
            colours: *colours,
        };
        try_case(&rt, rt.alloc(), &case)?;
    }
    Ok(())
}

/// A sprite of the window is at 20. Window 0 comes before window 1, that before the sprite window, and that before what
/// is outside; each layer has its bit; the sprite window needs sprites to be on; without windows everything shows.
static CHOICES: [Line; 12] = [
    (
        10,
        &[
            (0x000, 0x6100),
            (0x040, 0x0A14),
            (0x042, 0x0A1E),
            (0x044, 0x00A0),
            (0x046, 0x00A0),
            (0x048, 0x0100),
        ],
        &[
            (9, BACK),
            (10, BACK),
            (19, BACK),
            (20, RED),
            (29, RED),
            (30, BACK),
        ],
    ),
    (
        10,
        &[(0x000, 0x9100), (0x04A, 0x0100)],
        &[(19, BACK), (20, RED), (27, RED), (28, BACK)],
    ),
    (
        10,
        &[(0x000, 0x9100), (0x04A, 0x0001)],
        &[(19, RED), (20, BACK), (28, RED)],
    ),
    (10, &[(0x000, 0x8100), (0x04A, 0x0100)], &[(20, BACK)]),
    (
        10,
        &[
            (0x000, 0xD100),
            (0x042, 0x1418),
            (0x046, 0x00A0),
            (0x048, 0x0000),
            (0x04A, 0x0100),
        ],
        &[(20, BACK), (23, BACK), (24, RED), (28, BACK)],
    ),
    (
        10,
        &[
            (0x000, 0xB100),
            (0x040, 0x1418),
            (0x044, 0x00A0),
            (0x048, 0x0000),
            (0x04A, 0x0100),
        ],
        &[(20, BACK), (24, RED)],
    ),
    (
        10,
        &[(0x000, 0x1100), (0x04A, 0x0000)],
        &[(20, RED), (100, RED)],
    ),
    (
        10,
        &[
            (0x000, 0x2F00),
            (0x040, 0x00F0),
            (0x044, 0x00A0),
            (0x048, 0x0002),
        ],
        &[(0, GREEN)],
    ),
    (
        10,
        &[
            (0x000, 0x2F00),
            (0x040, 0x00F0),
            (0x044, 0x00A0),
            (0x048, 0x0004),
        ],
        &[(0, BLUE)],
    ),
    (
        10,
        &[
            (0x000, 0x2F00),
            (0x040, 0x00F0),
            (0x044, 0x00A0),
            (0x048, 0x0008),
        ],
        &[(0, WHITE)],
    ),
    (
        10,
        &[
            (0x000, 0x2F00),
            (0x040, 0x00F0),
            (0x044, 0x00A0),
            (0x048, 0x0010),
        ],
        &[(0, BACK)],
    ),
    (
        10,
        &[
            (0x000, 0x3100),
            (0x040, 0x0018),
            (0x044, 0x00A0),
            (0x048, 0x0001),
            (0x04A, 0x0011),
        ],
        &[(23, RED), (24, RED), (40, RED), (50, YELLOW)],
    ),
];

#[test]
fn the_first_window_decides(rt: HostRuntime) -> Result<(), Fail> {
    for (line, registers, colours) in &CHOICES {
        let case = Case {
            line: *line,
            registers: *registers,
            objects: &[(3, 0x080A, 0x0014, 0x0000), (4, 0x000A, 0x0032, 0x0000)],
            entries: &[],
            colours: *colours,
        };
        try_case(&rt, rt.alloc(), &case)?;
    }
    Ok(())
}

/// A sprite that a window doesn't let show, and one that it does.
#[test]
fn sprites_show_where_their_bit_is_set(rt: HostRuntime) -> Result<(), Fail> {
    let registers = [
        (0x000, 0x3100),
        (0x040, 0x0018),
        (0x044, 0x00A0),
        (0x048, 0x0001),
        (0x04A, 0x0011),
    ];
    let case = Case {
        line: 10,
        registers: &registers,
        objects: &[SPRITE],
        entries: &[],
        colours: &[(20, RED), (23, RED), (24, YELLOW), (27, YELLOW), (28, RED)],
    };
    try_case(&rt, rt.alloc(), &case)?;
    Ok(())
}

/// The backdrop half way to white: each of its parts is 1, and 1 + 30 * 8 / 16 is 16.
const BRIGHT: u16 = 0x4210;

/// Window 0 from 50 to 199 in all lines, and the backdrop as the target that is made brighter.
static BRIGHTENED: [(u32, u16); 4] = [
    (0x040, 0x32C8),
    (0x044, 0x00A0),
    (0x050, 0x00A0),
    (0x054, 0x0008),
];

/// Without a layer the backdrop is brightened where effects show: outside of window 0, inside of it, and with the
/// sprite window, which has no place while sprites are off. As a second target, or blended, or as no target, it stays.
static BACKDROPS: [Line; 6] = [
    (
        10,
        &[(0x000, 0x2000), (0x048, 0x001F), (0x04A, 0x0020)],
        &[
            (0, BRIGHT),
            (49, BRIGHT),
            (50, BACK),
            (199, BACK),
            (200, BRIGHT),
            (239, BRIGHT),
        ],
    ),
    (
        10,
        &[(0x000, 0x2000), (0x048, 0x0020), (0x04A, 0x001F)],
        &[
            (0, BACK),
            (49, BACK),
            (50, BRIGHT),
            (199, BRIGHT),
            (200, BACK),
            (239, BACK),
        ],
    ),
    (
        10,
        &[(0x000, 0x8000), (0x04A, 0x2000)],
        &[(0, BACK), (20, BACK), (239, BACK)],
    ),
    (10, &[(0x000, 0x0000)], &[(0, BRIGHT), (239, BRIGHT)]),
    (
        10,
        &[(0x000, 0x0000), (0x050, 0x2060)],
        &[(0, BACK), (239, BACK)],
    ),
    (
        10,
        &[(0x000, 0x0000), (0x050, 0x009F)],
        &[(0, BACK), (239, BACK)],
    ),
];

#[test]
fn a_line_without_layers_is_the_backdrop(rt: HostRuntime) -> Result<(), Fail> {
    for (line, registers, colours) in &BACKDROPS {
        let all = writes_of(rt.alloc(), &BRIGHTENED, registers)?;
        let case = Case {
            line: *line,
            registers: &all,
            objects: &[(3, 0x080A, 0x0014, 0x0000)],
            entries: &[],
            colours: *colours,
        };
        try_case(&rt, rt.alloc(), &case)?;
    }
    Ok(())
}
