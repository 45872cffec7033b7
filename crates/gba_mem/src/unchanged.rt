//! Whether a write to video memory would change nothing.

ghost use Rattle.std.specs.Prelude.{◌≡◌, ◌≤◌, ◌+◌, length, true};
ghost use Rattle.gba_bus.specs.Regions.{region_of};
ghost use Rattle.gba_bus.specs.Widths.{size};
ghost use Rattle.gba_mem.specs.Video.{has_both, has_number, has_oam, has_palette, has_vram, is_video};

use crate::{Memory, places};
use gba_bus::{Region, Width, region_of};
use gba_word::bits;

/// Whether an address is in video memory: the palette, the VRAM or the OAM (GBATEK, GBA Memory Map).
#[tactic(auto, unfolding(gba_bus::specs::Regions::region_of))]
#[inline]
pub fn is_in_video(address: u32) -> bool
    ensures { result ≡ is_video (region_of address) }
{
    match address >> 24 {
        0x5..=0x7 => true,
        _ => false,
    }
}

/// Whether the bytes at a place are the low bytes of a number.
fn has(bytes: &[u8], width: Width, place: usize, value: u32) -> bool
    requires { place + size width ≤ length bytes.now }
    ensures { result ≡ has_number width bytes.now place value }
{
    match width {
        Width::Byte => u32::from(bytes[place]) == bits(value, 0, 8),
        Width::Half => {
            u32::from(bytes[place]) == bits(value, 0, 8)
                && u32::from(bytes[place + 1]) == bits(value, 8, 8)
        }
        Width::Word => {
            u32::from(bytes[place]) == bits(value, 0, 8)
                && u32::from(bytes[place + 1]) == bits(value, 8, 8)
                && u32::from(bytes[place + 2]) == bits(value, 16, 8)
                && u32::from(bytes[place + 3]) == bits(value, 24, 8)
        }
    }
}

/// Whether both bytes of the halfword at a place are the low byte of a number.
fn has_twice(bytes: &[u8], place: usize, value: u32) -> bool
    requires { place + 2 ≤ length bytes.now }
    ensures { result ≡ has_both bytes.now place value }
{
    let byte = bits(value, 0, 8);
    u32::from(bytes[place]) == byte && u32::from(bytes[place + 1]) == byte
}

/// Whether a write leaves the palette as it is.
#[tactic(auto, unfolding(crate::specs::Video::has_palette))]
fn keeps_palette(palette: &[u8], address: u32, width: Width, value: u32) -> bool
    requires { length palette.now ≡ 0x400 }
    ensures { result ≡ has_palette palette.now address width value }
{
    match width {
        Width::Byte => has_twice(palette, places::palette(address, Width::Half), value),
        Width::Half | Width::Word => has(palette, width, places::palette(address, width), value),
    }
}

/// Whether a write leaves the VRAM as it is.
#[tactic(auto, unfolding(crate::specs::Video::has_vram))]
fn keeps_vram(mode: u32, vram: &[u8], address: u32, width: Width, value: u32) -> bool
    requires { length vram.now ≡ 0x18000 }
    ensures { result ≡ has_vram mode vram.now address width value }
{
    match width {
        Width::Byte => {
            if places::vram(address, Width::Byte) < places::start_of_sprites(mode) {
                has_twice(vram, places::vram(address, Width::Half), value)
            } else {
                true
            }
        }
        Width::Half | Width::Word => has(vram, width, places::vram(address, width), value),
    }
}

/// Whether a write leaves the OAM as it is.
#[tactic(auto, unfolding(crate::specs::Video::has_oam))]
fn keeps_oam(oam: &[u8], address: u32, width: Width, value: u32) -> bool
    requires { length oam.now ≡ 0x400 }
    ensures { result ≡ has_oam oam.now address width value }
{
    match width {
        Width::Byte => true,
        Width::Half | Width::Word => has(oam, width, places::oam(address, width), value),
    }
}

impl Memory {
    ghost use Rattle.std.specs.Prelude.{◌≡◌, true};
    ghost use Rattle.gba_bus.specs.Regions.{region_of};
    ghost use Rattle.gba_mem.specs.Stores.{store};
    ghost use Rattle.gba_mem.specs.Video.{is_video};

    /// Whether [`Memory::store`] would change nothing at an address in video memory: the bytes are there already, or
    /// the write is dropped.
    pub fn keeps(&self, mode: u32, address: u32, width: Width, value: u32) -> bool
        requires { is_video (region_of address) ≡ true }
        ensures sound { result ≡ true → store mode self.now address width value ≡ self.now }
        ensures exact { store mode self.now address width value ≡ self.now → result ≡ true }
    {
        match region_of(address) {
            Region::Palette => keeps_palette(self.palette(), address, width, value),
            Region::Vram => keeps_vram(mode, self.vram(), address, width, value),
            _ => keeps_oam(self.oam(), address, width, value),
        }
    }
}
