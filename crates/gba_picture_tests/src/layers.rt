//! A worked line: what is written, and the dots that must come of it.

use gba_ppu_affine::{affine_line, bitmap_line};
use gba_ppu_dot::{Dot, DotKind};
use gba_ppu_reg::PictureRegisters;
use gba_ppu_text::text_line;
use std::alloc::{AllocError, Global};
use std::process::Abort;

#[derive(Clone, Copy)]
pub(crate) enum Layer {
    /// A text background by its number.
    Text(u32),
    /// An affine background by its number.
    Affine(u32),
    Bitmap,
}

/// What must stand at a place.
#[derive(Clone, Copy)]
pub(crate) enum Want {
    /// Nothing opaque.
    Clear,
    /// An entry of the palette.
    Entry(u16),
    /// A colour of its own.
    Colour(u16),
}

#[derive(Clone, Copy)]
pub(crate) struct Case {
    pub layer: Layer,
    pub line: u32,
    /// How often the inner reference points grow before the line.
    pub grown: u32,
    /// Offsets of registers, and the halfwords written there.
    pub registers: &'static [(u32, u16)],
    /// Offsets in video memory, and the bytes that are there. Others are 0.
    pub bytes: &'static [(usize, u8)],
    pub priority: u8,
    /// Places in the line, from 0 to 239, and what must stand there.
    pub dots: &'static [(usize, Want)],
}

fn registers_of(case: &Case) -> PictureRegisters {
    let mut registers = PictureRegisters::new();
    for (offset, value) in case.registers {
        registers.write(*offset, *value);
    }
    for _ in 0..case.grown {
        registers.next_line();
    }
    registers
}

fn vram_of<R: Abort>(rt: &R, alloc: Global, case: &Case) -> Result<Vec<u8>, AllocError> {
    let mut vram = vec![in alloc; 0u8; 98304]?;
    for (offset, byte) in case.bytes {
        assert!(rt; *offset < vram.len());
        vram[*offset] = *byte;
    }
    Ok(vram)
}

fn draw<R: Abort>(rt: &R, case: &Case, r: &PictureRegisters, vram: &[u8], dots: &mut [Dot]) {
    assert!(rt; case.line < 160);
    assert!(rt; vram.len() == 98304);
    assert!(rt; dots.len() == 240);
    match case.layer {
        Layer::Text(background) => {
            assert!(rt; background < 4);
            text_line(r, vram, background, case.line, dots);
        }
        Layer::Affine(background) => {
            assert!(rt; background >= 2 && background < 4);
            affine_line(r, vram, background, case.line, dots);
        }
        Layer::Bitmap => bitmap_line(r, vram, 2, case.line, dots),
    }
}

fn wanted(want: Want, priority: u8) -> Dot {
    let dot = Dot {
        opaque: true,
        entry: 0,
        direct: false,
        priority,
        kind: DotKind::Plain,
        window: false,
    };
    match want {
        Want::Clear => Dot::CLEAR,
        Want::Entry(entry) => Dot { entry, ..dot },
        Want::Colour(colour) => Dot {
            entry: colour,
            direct: true,
            ..dot
        },
    }
}

/// What isn't opaque is compared by that alone.
fn compare<R: Abort>(rt: &R, dot: Dot, want: Want, priority: u8) {
    let wanted = wanted(want, priority);
    assert_eq!(rt; dot.opaque, wanted.opaque);
    if dot.opaque {
        assert_eq!(rt; dot, wanted);
    }
}

/// Draws the line, over what must not stay, and looks at its dots.
pub(crate) fn try_line<R: Abort>(rt: &R, alloc: Global, case: &Case) -> Result<(), AllocError> {
    let registers = registers_of(case);
    let vram = vram_of(rt, alloc, case)?;
    let mut dots = [Dot::coloured(3, 0x1234); 240];
    draw(rt, case, &registers, &vram, &mut dots);
    for (place, want) in case.dots {
        assert!(rt; *place < 240);
        compare(rt, dots[*place], *want, case.priority);
    }
    Ok(())
}
