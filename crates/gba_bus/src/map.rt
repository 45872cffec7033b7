//! Which region an address belongs to.

ghost use Rattle.std.specs.Prelude.{◌≡◌};
ghost use Rattle.gba_bus.specs.Regions.{is_bios, is_inner, is_io, is_rom, region_of};

use crate::Region;

/// The region of an address (GBATEK, GBA Memory Map).
#[tactic(auto, unfolding(crate::specs::Regions::region_of))]
pub fn region_of(address: u32) -> Region
    ensures { result ≡ region_of address }
{
    match address >> 24 {
        0x0 => {
            if address < 0x4000 {
                Region::Bios
            } else {
                Region::Other
            }
        }
        0x2 => Region::Work,
        0x3 => Region::Inner,
        0x4 => {
            if address < 0x0400_0400 {
                Region::Io
            } else {
                Region::Other
            }
        }
        0x5 => Region::Palette,
        0x6 => Region::Vram,
        0x7 => Region::Oam,
        0x8 | 0x9 => Region::Rom0,
        0xA | 0xB => Region::Rom1,
        0xC | 0xD => Region::Rom2,
        0xE | 0xF => Region::Sram,
        _ => Region::Other,
    }
}

/// Whether an address is in the BIOS.
#[tactic(auto, unfolding(crate::specs::Regions::region_of))]
#[inline]
pub fn is_in_bios(address: u32) -> bool
    ensures { result ≡ is_bios (region_of address) }
{
    address < 0x4000
}

/// Whether an address is in the inner RAM.
#[tactic(auto, unfolding(crate::specs::Regions::region_of))]
#[inline]
pub fn is_in_inner(address: u32) -> bool
    ensures { result ≡ is_inner (region_of address) }
{
    address >> 24 == 0x3
}

/// Whether an address is one of the I/O registers.
pub fn is_in_io(address: u32) -> bool
    ensures { result ≡ is_io (region_of address) }
{
    match region_of(address) {
        Region::Io => true,
        _ => false,
    }
}

/// Whether an address is in a view of the ROM.
#[tactic(auto, unfolding(crate::specs::Regions::region_of))]
#[inline]
pub fn is_in_rom(address: u32) -> bool
    ensures { result ≡ is_rom (region_of address) }
{
    match address >> 24 {
        0x8..=0xD => true,
        _ => false,
    }
}
