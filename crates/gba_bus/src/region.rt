//! The regions of the address space, as a type.

/// A region of the address space (GBATEK, GBA Memory Map).
#[derive(Clone, Copy, Debug, PartialEq, Eq)]
pub enum Region {
    /// The BIOS: 16 KiB from 00000000h.
    Bios,
    /// The work RAM: 256 KiB at 02000000h, repeated in its 16 MiB.
    Work,
    /// The inner RAM: 32 KiB at 03000000h, repeated in its 16 MiB.
    Inner,
    /// The I/O registers: 1 KiB from 04000000h.
    Io,
    /// The palette: 1 KiB at 05000000h, repeated in its 16 MiB.
    Palette,
    /// The video RAM: 96 KiB at 06000000h, repeated in its 16 MiB by 128 KiB.
    Vram,
    /// The attributes of sprites: 1 KiB at 07000000h, repeated in its 16 MiB.
    Oam,
    /// The cartridge's ROM with the first wait states: 32 MiB from 08000000h.
    Rom0,
    /// The same ROM with the second wait states: 32 MiB from 0A000000h.
    Rom1,
    /// The same ROM with the third wait states: 32 MiB from 0C000000h.
    Rom2,
    /// The cartridge's SRAM: 32 KiB at 0E000000h, repeated in 32 MiB.
    Sram,
    /// Every other address, where there is nothing.
    Other,
}
