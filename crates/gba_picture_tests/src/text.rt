//! Text backgrounds.

use crate::layers::Want::{Clear, Entry};
use crate::layers::{Case, Layer, Want, try_line};
use std::test::Fail;

/// Registers, the line, and places with their dots.
type Corner = (&'static [(u32, u16)], u32, &'static [(usize, Want)]);

/// The map begins at 0800h and has up to four blocks of 2 KiB. The first entry of block n names tile n + 1, which has 8
/// bits; its first dot is n + 1 and its other dots are 0.
static FOUR_BLOCKS: [(usize, u8); 8] = [
    (0x0040, 1),
    (0x0080, 2),
    (0x00C0, 3),
    (0x0100, 4),
    (0x0800, 1),
    (0x1000, 2),
    (0x1800, 3),
    (0x2000, 4),
];

/// Each size at the edges of its blocks: 256 x 256, 512 x 256, 256 x 512, whose lower block is the next one,
/// and 512 x 512.
static CORNERS: [Corner; 16] = [
    (&[(0x008, 0x0180)], 0, &[(0, Entry(1)), (8, Clear)]),
    (
        &[(0x008, 0x0180), (0x010, 256), (0x012, 256)],
        0,
        &[(0, Entry(1))],
    ),
    (
        &[(0x008, 0x0180), (0x010, 250)],
        0,
        &[(5, Clear), (6, Entry(1)), (7, Clear)],
    ),
    (&[(0x008, 0x0180), (0x012, 97)], 159, &[(0, Entry(1))]),
    (
        &[(0x008, 0x4180), (0x010, 250)],
        0,
        &[(5, Clear), (6, Entry(2)), (7, Clear)],
    ),
    (
        &[(0x008, 0x4180), (0x010, 256), (0x012, 256)],
        0,
        &[(0, Entry(2))],
    ),
    (
        &[(0x008, 0x4180), (0x010, 511)],
        0,
        &[(0, Clear), (1, Entry(1))],
    ),
    (
        &[(0x008, 0x4180), (0x010, 17)],
        0,
        &[(238, Clear), (239, Entry(2))],
    ),
    (&[(0x008, 0x8180), (0x012, 256)], 0, &[(0, Entry(2))]),
    (
        &[(0x008, 0x8180), (0x010, 256), (0x012, 97)],
        159,
        &[(0, Entry(2))],
    ),
    (&[(0x008, 0x8180), (0x012, 511)], 1, &[(0, Entry(1))]),
    (&[(0x008, 0x8180), (0x012, 97)], 158, &[(0, Clear)]),
    (&[(0x008, 0xC180)], 0, &[(0, Entry(1))]),
    (
        &[(0x008, 0xC180), (0x010, 255)],
        0,
        &[(0, Clear), (1, Entry(2))],
    ),
    (&[(0x008, 0xC180), (0x012, 255)], 1, &[(0, Entry(3))]),
    (
        &[(0x008, 0xC180), (0x010, 256), (0x012, 256)],
        0,
        &[(0, Entry(4))],
    ),
];

#[test]
fn maps_of_each_size_begin_anew_at_their_edges(rt: HostRuntime) -> Result<(), Fail> {
    for (registers, line, dots) in &CORNERS {
        let case = Case {
            layer: Layer::Text(0),
            line: *line,
            grown: 0,
            registers: *registers,
            bytes: &FOUR_BLOCKS,
            priority: 0,
            dots: *dots,
        };
        try_line(&rt, rt.alloc(), &case)?;
    }
    Ok(())
}

/// Tile 1 has the dots 1 to 8 in its first row, with 4 bits and palette 1, mirrored from left to right.
const MIRRORED: Case = Case {
    layer: Layer::Text(0),
    line: 0,
    grown: 0,
    registers: &[(0x008, 0x0102)],
    bytes: &[
        (0x0020, 0x21),
        (0x0021, 0x43),
        (0x0022, 0x65),
        (0x0023, 0x87),
        (0x0800, 0x01),
        (0x0801, 0x14),
    ],
    priority: 2,
    dots: &[
        (0, Entry(0x18)),
        (1, Entry(0x17)),
        (7, Entry(0x11)),
        (8, Clear),
    ],
};

/// The same as it is stored, on background 3 by its own registers, moved by 3, and with palette 15.
const STORED: Case = Case {
    layer: Layer::Text(3),
    line: 0,
    grown: 0,
    registers: &[(0x00E, 0x0103), (0x01C, 3), (0x01E, 0)],
    bytes: &[
        (0x0020, 0x21),
        (0x0021, 0x43),
        (0x0022, 0x65),
        (0x0023, 0x87),
        (0x0800, 0x01),
        (0x0801, 0xF0),
    ],
    priority: 3,
    dots: &[(0, Entry(0xF4)), (4, Entry(0xF8)), (5, Clear)],
};

/// Upside down, the first row is the tile's last one.
const UPSIDE_DOWN: Case = Case {
    layer: Layer::Text(1),
    line: 0,
    grown: 0,
    registers: &[(0x00A, 0x0100)],
    bytes: &[
        (0x0020, 0x21),
        (0x003C, 0x05),
        (0x0800, 0x01),
        (0x0801, 0x08),
    ],
    priority: 0,
    dots: &[(0, Entry(0x05)), (1, Clear)],
};

/// With 8 bits the palette of the entry counts for nothing, and the tiles begin at the second 16 KiB.
const EIGHT_BITS: Case = Case {
    layer: Layer::Text(2),
    line: 1,
    grown: 0,
    registers: &[(0x00C, 0x0085)],
    bytes: &[
        (0x0000, 0x01),
        (0x0001, 0xF0),
        (0x4048, 0xFF),
        (0x4049, 0x01),
    ],
    priority: 1,
    dots: &[(0, Entry(0xFF)), (1, Entry(0x01)), (2, Clear)],
};

/// The last tile before 10000h is seen and the next one isn't, with 8 bits and with 4.
const LAST_OF_8_BITS: Case = Case {
    layer: Layer::Text(0),
    line: 0,
    grown: 0,
    registers: &[(0x008, 0x008C)],
    bytes: &[
        (0x0000, 0xFF),
        (0x0002, 0x00),
        (0x0003, 0x01),
        (0xFFC0, 0x07),
        (0x1_0000, 0x08),
    ],
    priority: 0,
    dots: &[(0, Entry(0x07)), (8, Clear)],
};

const LAST_OF_4_BITS: Case = Case {
    layer: Layer::Text(0),
    line: 0,
    grown: 0,
    registers: &[(0x008, 0x000C)],
    bytes: &[
        (0x0000, 0xFF),
        (0x0001, 0x01),
        (0x0002, 0x00),
        (0x0003, 0x02),
        (0xFFE0, 0x70),
        (0x1_0000, 0x88),
    ],
    priority: 0,
    dots: &[(0, Clear), (1, Entry(0x07)), (8, Clear), (9, Clear)],
};

/// An entry of the map past 10000h counts as it stands: the fourth block from F800h on begins at 11000h.
const LATE_MAP: Case = Case {
    layer: Layer::Text(0),
    line: 0,
    grown: 0,
    registers: &[(0x008, 0xDF80), (0x010, 256), (0x012, 256)],
    bytes: &[(0x0040, 0x09), (0x1_1000, 0x01)],
    priority: 0,
    dots: &[(0, Entry(0x09)), (1, Clear)],
};

#[test]
fn tiles_are_read_as_their_entries_say(rt: HostRuntime) -> Result<(), Fail> {
    let cases = [
        MIRRORED,
        STORED,
        UPSIDE_DOWN,
        EIGHT_BITS,
        LAST_OF_8_BITS,
        LAST_OF_4_BITS,
        LATE_MAP,
    ];
    for case in &cases {
        try_line(&rt, rt.alloc(), case)?;
    }
    Ok(())
}
