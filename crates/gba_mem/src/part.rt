//! The memories that are written.

/// A memory that is written: the work RAM, the inner RAM, the palette, the VRAM, the OAM, and the SRAM or the flash.
#[derive(Clone, Copy, Debug, PartialEq, Eq)]
pub enum MemoryPart {
    Work,
    Inner,
    Palette,
    Vram,
    Oam,
    Backup,
}
