//! Lines of sprites.

use crate::memory::{Fill, Object, oam_of, registers_of, vram_of};
use crate::sprites::Want::{Clear, Entry, Semi, Windowed};
use gba_ppu_dot::{Dot, DotKind};
use gba_ppu_obj::sprite_line;
use std::alloc::{AllocError, Global};
use std::process::Abort;
use std::test::Fail;

/// What must stand at a place.
#[derive(Clone, Copy)]
enum Want {
    /// Nothing opaque, and no sprite window.
    Clear,
    /// An entry of the palette.
    Entry(u16),
    /// The same, semi-transparent.
    Semi(u16),
    /// Nothing opaque, and the sprite window.
    Windowed,
}

#[derive(Clone, Copy)]
struct Case<'a> {
    /// DISPCNT.
    control: u16,
    line: u32,
    objects: &'a [Object],
    matrix: [u16; 4],
    fills: &'a [Fill],
    priority: u8,
    dots: &'a [(usize, Want)],
}

const STRAIGHT: [u16; 4] = [0x0100, 0, 0, 0x0100];

/// Tile 1 has the dots 1 to 8 in its first row with 4 bits, and 11 to 15 and 1 to 3 in its second one.
static COLUMNS: [Fill; 4] = [
    (0x1_0020, 1, 0x4321),
    (0x1_0022, 1, 0x8765),
    (0x1_0024, 1, 0xEDCB),
    (0x1_0026, 1, 0x321F),
];

/// An opaque dot of the palette.
fn seen(entry: u16, priority: u8, kind: DotKind) -> Dot {
    Dot {
        opaque: true,
        entry,
        direct: false,
        priority,
        kind,
        window: false,
    }
}

fn wanted(want: Want, priority: u8) -> Dot {
    match want {
        Clear => Dot::CLEAR,
        Entry(entry) => seen(entry, priority, DotKind::Plain),
        Semi(entry) => seen(entry, priority, DotKind::Semi),
        Windowed => Dot {
            window: true,
            ..Dot::CLEAR
        },
    }
}

fn draw<R: Abort>(rt: &R, control: u16, vram: &[u8], oam: &[u8], line: u32, dots: &mut [Dot; 240]) {
    let registers = registers_of(&[(0x000, control)]);
    assert!(rt; line < 160);
    assert!(rt; vram.len() == 98304);
    assert!(rt; oam.len() == 1024);
    sprite_line(&registers, vram, oam, line, dots);
}

fn assert_dot<R: Abort>(rt: &R, dots: &[Dot; 240], place: usize, dot: Dot) {
    assert!(rt; place < 240);
    assert_eq!(rt; dots[place], dot);
}

/// Draws the line, over what must not stay, and looks at its dots.
fn try_case<R: Abort>(rt: &R, alloc: Global, case: &Case) -> Result<(), AllocError> {
    let vram = vram_of(rt, alloc, case.fills)?;
    let oam = oam_of(rt, alloc, case.objects, case.matrix)?;
    let mut dots = [Dot::coloured(3, 0x1234); 240];
    draw(rt, case.control, &vram, &oam, case.line, &mut dots);
    for (place, want) in case.dots {
        assert_dot(rt, &dots, *place, wanted(*want, case.priority));
    }
    Ok(())
}

/// The first and the second halfword of a sprite at (100, 50), and its sides.
type Sides = (u16, u16, usize, u32);

/// All shapes and sizes (GBATEK, LCD OBJ OAM Attributes).
static SIDES: [Sides; 12] = [
    (0x0032, 0x0064, 8, 8),
    (0x0032, 0x4064, 16, 16),
    (0x0032, 0x8064, 32, 32),
    (0x0032, 0xC064, 64, 64),
    (0x4032, 0x0064, 16, 8),
    (0x4032, 0x4064, 32, 8),
    (0x4032, 0x8064, 32, 16),
    (0x4032, 0xC064, 64, 32),
    (0x8032, 0x0064, 8, 16),
    (0x8032, 0x4064, 8, 32),
    (0x8032, 0x8064, 16, 32),
    (0x8032, 0xC064, 32, 64),
];

fn opaque_at<R: Abort>(rt: &R, vram: &[u8], oam: &[u8], line: u32, place: usize) -> bool {
    let mut dots = [Dot::CLEAR; 240];
    draw(rt, 0x1040, vram, oam, line, &mut dots);
    assert!(rt; place < 240);
    dots[place].opaque
}

fn try_sides<R: Abort>(
    rt: &R,
    alloc: Global,
    vram: &[u8],
    sides: &Sides,
) -> Result<(), AllocError> {
    let (first, second, width, height) = *sides;
    let oam = oam_of(rt, alloc, &[(7, first, second, 0)], STRAIGHT)?;
    assert!(rt; width > 0 && width <= 64);
    assert!(rt; height > 0 && height <= 64);
    for line in [50, 50 + height - 1] {
        assert!(rt; !opaque_at(rt, vram, &oam, line, 99));
        assert!(rt; opaque_at(rt, vram, &oam, line, 100));
        assert!(rt; opaque_at(rt, vram, &oam, line, 100 + width - 1));
        assert!(rt; !opaque_at(rt, vram, &oam, line, 100 + width));
    }
    assert!(rt; !opaque_at(rt, vram, &oam, 49, 100));
    assert!(rt; !opaque_at(rt, vram, &oam, 50 + height, 100));
    Ok(())
}

#[test]
fn each_shape_has_its_sides_in_each_size(rt: HostRuntime) -> Result<(), Fail> {
    let vram = vram_of(&rt, rt.alloc(), &[(0x1_0000, 0x4000, 0x1111)])?;
    for sides in &SIDES {
        try_sides(&rt, rt.alloc(), &vram, sides)?;
    }
    Ok(())
}

/// DISPCNT, the line, the sprite, and places with their dots.
type Row = (u16, u32, &'static [Object], &'static [(usize, Want)]);

/// A sprite of 8 x 8 dots at places, mirrored and upside down; columns go round at 512 and lines at 256.
static PLACES: [Row; 10] = [
    (
        0x0040,
        10,
        &[(0, 0x000A, 0x0014, 0x0001)],
        &[(19, Clear), (20, Entry(257)), (27, Entry(264)), (28, Clear)],
    ),
    (
        0x0040,
        11,
        &[(0, 0x000A, 0x0014, 0xF001)],
        &[(20, Entry(507)), (24, Entry(511)), (25, Entry(497))],
    ),
    (
        0x0040,
        10,
        &[(0, 0x000A, 0x1014, 0x0001)],
        &[(20, Entry(264)), (27, Entry(257))],
    ),
    (
        0x0040,
        17,
        &[(0, 0x000A, 0x2014, 0x0001)],
        &[(20, Entry(257)), (27, Entry(264))],
    ),
    (
        0x0040,
        0,
        &[(0, 0x0000, 0x01FD, 0x0001)],
        &[(0, Entry(260)), (4, Entry(264)), (5, Clear), (239, Clear)],
    ),
    (
        0x0040,
        0,
        &[(0, 0x0000, 0x00EC, 0x0001)],
        &[
            (235, Clear),
            (236, Entry(257)),
            (239, Entry(260)),
            (0, Clear),
        ],
    ),
    (
        0x0040,
        0,
        &[(0, 0x0000, 0x00F0, 0x0001), (1, 0x0000, 0x01F8, 0x0001)],
        &[(0, Clear), (239, Clear)],
    ),
    (
        0x0040,
        1,
        &[(0, 0x80FA, 0x0014, 0x0000)],
        &[(20, Clear), (27, Clear)],
    ),
    (
        0x0040,
        2,
        &[(0, 0x80FA, 0x0014, 0x0000)],
        &[(19, Clear), (20, Entry(257)), (27, Entry(264))],
    ),
    (
        0x0040,
        3,
        &[(0, 0x80FA, 0x0014, 0x0000)],
        &[(20, Entry(267)), (24, Entry(271)), (25, Entry(257))],
    ),
];

#[test]
fn boxes_lie_at_their_places_and_go_round(rt: HostRuntime) -> Result<(), Fail> {
    for (control, line, objects, dots) in &PLACES {
        let case = Case {
            control: *control,
            line: *line,
            objects: *objects,
            matrix: STRAIGHT,
            fills: &COLUMNS,
            priority: 0,
            dots: *dots,
        };
        try_case(&rt, rt.alloc(), &case)?;
    }
    Ok(())
}

/// What is drawn of tiles: DISPCNT, the line, the sprite, video memory, and places with their dots.
type Tiles = (u16, u32, Object, &'static [Fill], &'static [(usize, Want)]);

/// Sprites at (0, 0): tiles one after another and in rows of 32, with 4 and with 8 bits; an odd number with 8
/// bits, which loses its bit 0 in rows alone; numbers past 1,023, which begin anew; in modes 3 to 5 numbers from
/// 512 on alone.
static TILES: [Tiles; 16] = [
    (
        0x0040,
        0,
        (0, 0x4000, 0x0000, 0x0002),
        &[(0x1_0060, 1, 0x0007)],
        &[(7, Clear), (8, Entry(263)), (9, Clear)],
    ),
    (
        0x0040,
        8,
        (0, 0x0000, 0x4000, 0x0002),
        &[(0x1_0080, 1, 0x0007)],
        &[(0, Entry(263)), (8, Clear)],
    ),
    (
        0x0000,
        8,
        (0, 0x0000, 0x4000, 0x0002),
        &[(0x1_0440, 1, 0x0007)],
        &[(0, Entry(263)), (8, Clear)],
    ),
    (
        0x0000,
        15,
        (0, 0x0000, 0x4000, 0x0002),
        &[(0x1_047C, 1, 0x0070)],
        &[(8, Clear), (9, Entry(263)), (10, Clear)],
    ),
    (
        0x0040,
        0,
        (0, 0x6000, 0x0000, 0xF002),
        &[(0x1_0080, 1, 0xFF01)],
        &[(7, Clear), (8, Entry(257)), (9, Entry(511))],
    ),
    (
        0x0040,
        8,
        (0, 0x2000, 0x4000, 0x0002),
        &[(0x1_00C0, 1, 0x0007)],
        &[(0, Entry(263)), (8, Clear)],
    ),
    (
        0x0000,
        8,
        (0, 0x2000, 0x4000, 0x0002),
        &[(0x1_0440, 1, 0x0007)],
        &[(0, Entry(263)), (8, Clear)],
    ),
    (
        0x0040,
        0,
        (0, 0x2000, 0x0000, 0x0003),
        &[(0x1_0060, 1, 0x0007), (0x1_0040, 1, 0x0009)],
        &[(0, Entry(263))],
    ),
    (
        0x0000,
        0,
        (0, 0x2000, 0x0000, 0x0003),
        &[(0x1_0060, 1, 0x0007), (0x1_0040, 1, 0x0009)],
        &[(0, Entry(265))],
    ),
    (
        0x0040,
        0,
        (0, 0x4000, 0x0000, 0x03FF),
        &[(0x1_7FE0, 1, 0x0007), (0x1_0000, 1, 0x0009)],
        &[(0, Entry(263)), (8, Entry(265))],
    ),
    (
        0x0000,
        8,
        (0, 0x0000, 0x4000, 0x03F0),
        &[(0x1_0200, 1, 0x0009)],
        &[(0, Entry(265))],
    ),
    (
        0x0040,
        4,
        (0, 0x2000, 0x0000, 0x03FF),
        &[(0x1_0000, 1, 0x0009)],
        &[(0, Entry(265))],
    ),
    (
        0x0043,
        0,
        (0, 0x4000, 0x0000, 0x01FF),
        &[(0x1_3FE0, 2, 0x1111), (0x1_4000, 1, 0x0002)],
        &[(0, Clear), (7, Clear), (8, Entry(258))],
    ),
    (
        0x0044,
        0,
        (0, 0x4000, 0x0000, 0x01FF),
        &[(0x1_3FE0, 2, 0x1111), (0x1_4000, 1, 0x0002)],
        &[(0, Clear), (8, Entry(258))],
    ),
    (
        0x0045,
        0,
        (0, 0x4000, 0x0000, 0x01FF),
        &[(0x1_3FE0, 2, 0x1111), (0x1_4000, 1, 0x0002)],
        &[(0, Clear), (8, Entry(258))],
    ),
    (
        0x0042,
        0,
        (0, 0x4000, 0x0000, 0x01FF),
        &[(0x1_3FE0, 2, 0x1111), (0x1_4000, 1, 0x0002)],
        &[(0, Entry(257)), (8, Entry(258))],
    ),
];

#[test]
fn tiles_are_found_in_both_orders(rt: HostRuntime) -> Result<(), Fail> {
    for (control, line, object, fills, dots) in &TILES {
        let objects = [*object];
        let case = Case {
            control: *control,
            line: *line,
            objects: &objects,
            matrix: STRAIGHT,
            fills: *fills,
            priority: 0,
            dots: *dots,
        };
        try_case(&rt, rt.alloc(), &case)?;
    }
    Ok(())
}

/// The line, the first halfword of a sprite of 8 x 8 dots at (20, 10) with tile 1, the parameters, and places with
/// their dots.
type Turn = (u32, u16, [u16; 4], &'static [(usize, Want)]);

/// As it is; in a doubled box, whose middle is the picture's; mirrored about its middle, so that the first column is
/// past the edge; at half the steps, which round down, in both boxes; at double steps; turned by a quarter; moved into
/// the second row.
static TURNS: [Turn; 10] = [
    (
        10,
        0x010A,
        STRAIGHT,
        &[(19, Clear), (20, Entry(257)), (27, Entry(264)), (28, Clear)],
    ),
    (
        14,
        0x030A,
        STRAIGHT,
        &[(23, Clear), (24, Entry(257)), (31, Entry(264)), (32, Clear)],
    ),
    (13, 0x030A, STRAIGHT, &[(24, Clear), (31, Clear)]),
    (
        10,
        0x010A,
        [0xFF00, 0, 0, 0x0100],
        &[(20, Clear), (21, Entry(264)), (27, Entry(258)), (28, Clear)],
    ),
    (
        10,
        0x010A,
        [0x0080, 0, 0, 0x0100],
        &[
            (20, Entry(259)),
            (21, Entry(259)),
            (22, Entry(260)),
            (23, Entry(260)),
            (24, Entry(261)),
            (27, Entry(262)),
        ],
    ),
    (
        14,
        0x030A,
        [0x0080, 0, 0, 0x0100],
        &[
            (20, Entry(257)),
            (21, Entry(257)),
            (35, Entry(264)),
            (36, Clear),
        ],
    ),
    (
        10,
        0x010A,
        [0x0200, 0, 0, 0x0100],
        &[
            (21, Clear),
            (22, Entry(257)),
            (23, Entry(259)),
            (25, Entry(263)),
            (26, Clear),
        ],
    ),
    (
        14,
        0x010A,
        [0, 0xFF00, 0x0100, 0],
        &[(20, Entry(261)), (21, Entry(271)), (22, Clear)],
    ),
    (
        10,
        0x010A,
        [0, 0xFF00, 0x0100, 0],
        &[(20, Clear), (21, Clear)],
    ),
    (
        17,
        0x010A,
        [0, 0xFF00, 0x0100, 0],
        &[(20, Entry(258)), (21, Entry(268))],
    ),
];

#[test]
fn affine_sprites_end_at_the_edges_of_their_pictures(rt: HostRuntime) -> Result<(), Fail> {
    for (line, first, matrix, dots) in &TURNS {
        let objects = [(0, *first, 0x0014, 0x0001)];
        let case = Case {
            control: 0x0040,
            line: *line,
            objects: &objects,
            matrix: *matrix,
            fills: &COLUMNS,
            priority: 0,
            dots: *dots,
        };
        try_case(&rt, rt.alloc(), &case)?;
    }
    Ok(())
}

/// Sprites, the seen one's priority, and the dot at (20, 10).
type Pile = (&'static [Object], u8, Want);

/// The least priority is in front, and of one priority the least number, with both kinds. The sprite window hides
/// nothing and is hidden by nothing; of mode 3 and of shape 3 nothing is seen, nor of a hidden sprite.
static PILES: [Pile; 10] = [
    (
        &[(3, 0x000A, 0x0014, 0x1401), (5, 0x000A, 0x0014, 0x2001)],
        0,
        Entry(289),
    ),
    (
        &[(3, 0x000A, 0x0014, 0x1801), (5, 0x000A, 0x0014, 0x2801)],
        2,
        Entry(273),
    ),
    (
        &[(127, 0x000A, 0x0014, 0x1001), (0, 0x000A, 0x0014, 0x2C01)],
        0,
        Entry(273),
    ),
    (
        &[(3, 0x040A, 0x0014, 0x1401), (5, 0x000A, 0x0014, 0x2401)],
        1,
        Semi(273),
    ),
    (&[(3, 0x080A, 0x0014, 0x1001)], 0, Windowed),
    (&[(3, 0x0C0A, 0x0014, 0x1001)], 0, Clear),
    (&[(3, 0xC00A, 0x0014, 0x1001)], 0, Clear),
    (&[(3, 0x020A, 0x0014, 0x1001)], 0, Clear),
    (
        &[(3, 0x0C0A, 0x0014, 0x1001), (5, 0x000A, 0x0014, 0x2401)],
        1,
        Entry(289),
    ),
    (
        &[(3, 0x000A, 0x0014, 0x1000), (5, 0x000A, 0x0014, 0x2401)],
        1,
        Entry(289),
    ),
];

#[test]
fn the_least_priority_and_number_are_in_front(rt: HostRuntime) -> Result<(), Fail> {
    for (objects, priority, want) in &PILES {
        let dots = [(20, *want)];
        let case = Case {
            control: 0x0040,
            line: 10,
            objects: *objects,
            matrix: STRAIGHT,
            fills: &COLUMNS,
            priority: *priority,
            dots: &dots,
        };
        try_case(&rt, rt.alloc(), &case)?;
    }
    Ok(())
}

/// A sprite of the window beside one that is seen, before and behind it.
#[test]
fn a_dot_can_be_seen_and_in_the_window(rt: HostRuntime) -> Result<(), Fail> {
    let vram = vram_of(&rt, rt.alloc(), &COLUMNS)?;
    for numbers in [(3, 5), (5, 3)] {
        let objects = [
            (numbers.0, 0x080A, 0x0014, 0x0001),
            (numbers.1, 0x000A, 0x0014, 0x0401),
        ];
        let oam = oam_of(&rt, rt.alloc(), &objects, STRAIGHT)?;
        let mut dots = [Dot::CLEAR; 240];
        draw(&rt, 0x0040, &vram, &oam, 10, &mut dots);
        let both = Dot {
            window: true,
            ..wanted(Entry(257), 1)
        };
        assert_dot(&rt, &dots, 20, both);
    }
    Ok(())
}
