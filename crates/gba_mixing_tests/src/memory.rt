//! Memories of worked lines.

use gba_ppu_reg::PictureRegisters;
use std::alloc::{AllocError, Global};
use std::process::Abort;

/// A sprite by its number, and its three halfwords.
pub(crate) type Object = (usize, u16, u16, u16);

/// From an offset, so many halfwords of a value.
pub(crate) type Fill = (usize, usize, u16);

pub(crate) fn registers_of(writes: &[(u32, u16)]) -> PictureRegisters {
    let mut registers = PictureRegisters::new();
    for (offset, value) in writes {
        registers.write(*offset, *value);
    }
    registers
}

pub(crate) fn put_half<R: Abort>(rt: &R, bytes: &mut [u8], offset: usize, half: u16) {
    assert!(rt; offset < bytes.len());
    assert!(rt; bytes.len() - offset > 1);
    let [low, high] = half.to_le_bytes();
    bytes[offset] = low;
    bytes[offset + 1] = high;
}

fn put_fill<R: Abort>(rt: &R, bytes: &mut [u8], fill: &Fill) {
    assert!(rt; fill.0 < 0x2_0000);
    assert!(rt; fill.1 < 0x2_0000);
    for place in 0..fill.1 {
        put_half(rt, bytes, fill.0 + 2 * place, fill.2);
    }
}

/// Video memory that is 0 elsewhere.
pub(crate) fn vram_of<R: Abort>(
    rt: &R,
    alloc: Global,
    fills: &[Fill],
) -> Result<Vec<u8>, AllocError> {
    let mut vram = vec![in alloc; 0u8; 98304]?;
    for fill in fills {
        put_fill(rt, &mut vram, fill);
    }
    Ok(vram)
}

/// A palette that is 0 elsewhere, by entries and their colours.
pub(crate) fn palette_of<R: Abort>(
    rt: &R,
    alloc: Global,
    entries: &[(usize, u16)],
) -> Result<Vec<u8>, AllocError> {
    let mut palette = vec![in alloc; 0u8; 1024]?;
    for (entry, colour) in entries {
        assert!(rt; *entry < 512);
        put_half(rt, &mut palette, 2 * *entry, *colour);
    }
    Ok(palette)
}

fn put_object<R: Abort>(rt: &R, oam: &mut [u8], object: &Object) {
    assert!(rt; object.0 < 128);
    put_half(rt, oam, 8 * object.0, object.1);
    put_half(rt, oam, 8 * object.0 + 2, object.2);
    put_half(rt, oam, 8 * object.0 + 4, object.3);
}

/// OAM whose other sprites are hidden, with the parameters of group 0.
pub(crate) fn oam_of<R: Abort>(
    rt: &R,
    alloc: Global,
    objects: &[Object],
    matrix: [u16; 4],
) -> Result<Vec<u8>, AllocError> {
    let mut oam = vec![in alloc; 0u8; 1024]?;
    for number in 0..128 {
        put_object(rt, &mut oam, &(number, 0x0200, 0, 0));
    }
    for object in objects {
        put_object(rt, &mut oam, object);
    }
    for number in 0..4 {
        put_half(rt, &mut oam, 6 + 8 * number, matrix[number]);
    }
    Ok(oam)
}
