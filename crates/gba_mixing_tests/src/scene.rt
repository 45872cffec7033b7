//! A worked line of the picture: what is written, and the colours that must come of it.

use crate::memory::{Fill, Object, oam_of, palette_of, registers_of, vram_of};
use gba_ppu_mix::mix_line;
use gba_ppu_reg::PictureRegisters;
use std::alloc::{AllocError, Global};
use std::process::Abort;

/// The backdrop's colour, which is stored with bit 15 set.
pub(crate) const BACK: u16 = 0x0421;
/// The colours of backgrounds 0 to 3, and of a sprite.
pub(crate) const RED: u16 = 0x001F;

pub(crate) const GREEN: u16 = 0x03E0;

pub(crate) const BLUE: u16 = 0x7C00;

pub(crate) const WHITE: u16 = 0x7FFF;

pub(crate) const YELLOW: u16 = 0x03FF;

/// A sprite of 8 x 8 dots at (20, 10).
pub(crate) const SPRITE: Object = (3, 0x000A, 0x0014, 0x0000);

/// Every dot of tile 0 is number 1. The maps of backgrounds 0 to 3 begin at 4000h, 4800h, 5000h and 5800h; all their
/// entries name tile 0, with palettes 1 to 4.
static FILLS: [Fill; 6] = [
    (0x0000, 16, 0x1111),
    (0x4000, 0x400, 0x1000),
    (0x4800, 0x400, 0x2000),
    (0x5000, 0x400, 0x3000),
    (0x5800, 0x400, 0x4000),
    (0x1_0000, 16, 0x1111),
];

/// The registers that each case has: backgrounds 0 to 3 with their maps, and background 2 neither scaled nor turned.
static CONTROLS: [(u32, u16); 6] = [
    (0x008, 0x0800),
    (0x00A, 0x0900),
    (0x00C, 0x0A00),
    (0x00E, 0x0B00),
    (0x020, 0x0100),
    (0x026, 0x0100),
];

#[derive(Clone, Copy)]
pub(crate) struct Case<'a> {
    pub line: u32,
    pub registers: &'a [(u32, u16)],
    pub objects: &'a [Object],
    /// Entries of the palette, and their colours, over those of the scene.
    pub entries: &'a [(usize, u16)],
    /// Places in the line, and their colours.
    pub colours: &'a [(usize, u16)],
}

/// The entries of the palette that each case has.
static ENTRIES: [(usize, u16); 6] = [
    (0, 0x8000 + BACK),
    (17, RED),
    (33, 0x8000 + GREEN),
    (49, BLUE),
    (65, WHITE),
    (257, YELLOW),
];

fn palette_with<R: Abort>(
    rt: &R,
    alloc: Global,
    entries: &[(usize, u16)],
) -> Result<Vec<u8>, AllocError> {
    let mut all = Vec::new(alloc);
    all.extend_from_slice(&ENTRIES)?;
    all.extend_from_slice(entries)?;
    palette_of(rt, alloc, &all)
}

pub(crate) fn mix<R: Abort>(
    rt: &R,
    registers: &PictureRegisters,
    palette: &[u8],
    vram: &[u8],
    oam: &[u8],
    line: u32,
    colours: &mut [u16; 240],
) {
    assert!(rt; line < 160);
    assert!(rt; palette.len() == 1024);
    assert!(rt; vram.len() == 98304);
    assert!(rt; oam.len() == 1024);
    mix_line(registers, palette, vram, oam, line, colours);
}

/// The registers of the scene, and those of a case.
fn registers_with(writes: &[(u32, u16)]) -> PictureRegisters {
    let mut registers = registers_of(&CONTROLS);
    for (offset, value) in writes {
        registers.write(*offset, *value);
    }
    registers
}

fn assert_colour<R: Abort>(rt: &R, colours: &[u16; 240], place: usize, colour: u16) {
    assert!(rt; place < 240);
    assert_eq!(rt; colours[place], colour);
}

/// Mixes the line, over what must not stay, and looks at its colours.
pub(crate) fn try_case<R: Abort>(rt: &R, alloc: Global, case: &Case) -> Result<(), AllocError> {
    let registers = registers_with(case.registers);
    let palette = palette_with(rt, alloc, case.entries)?;
    let vram = vram_of(rt, alloc, &FILLS)?;
    let oam = oam_of(rt, alloc, case.objects, [0x0100, 0, 0, 0x0100])?;
    let mut colours = [0xFFFF; 240];
    mix(
        rt,
        &registers,
        &palette,
        &vram,
        &oam,
        case.line,
        &mut colours,
    );
    for (place, colour) in case.colours {
        assert_colour(rt, &colours, *place, *colour);
    }
    Ok(())
}
