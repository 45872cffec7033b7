//! Where an access stands in each memory. Each place leaves room for the whole access.

ghost use Rattle.std.specs.Prelude.{◌≡◌, ◌≤◌, ◌<◌, ◌+◌, ◌-◌, ◌%◌};
ghost use Rattle.gba_bus.specs.Widths.{aligned, size};
ghost use Rattle.gba_mem.specs.Places.{inner_place, oam_place, palette_place, sprite_part, sram_place, vram_place, work_place};

use gba_bus::Width;

pub(crate) fn bios(address: u32, width: Width) -> usize
    requires { address < 0x4000 }
    ensures place { result ≡ aligned width address }
    ensures within { result + size width ≤ 0x4000 }
{
    width.align(address) as usize
}

pub(crate) fn work(address: u32, width: Width) -> usize
    ensures place { result ≡ work_place (aligned width address) }
    ensures within { result + size width ≤ 0x40000 }
{
    (width.align(address) % 0x40000) as usize
}

pub(crate) fn inner(address: u32, width: Width) -> usize
    ensures place { result ≡ inner_place (aligned width address) }
    ensures within { result + size width ≤ 0x8000 }
{
    (width.align(address) % 0x8000) as usize
}

pub(crate) fn palette(address: u32, width: Width) -> usize
    ensures place { result ≡ palette_place (aligned width address) }
    ensures within { result + size width ≤ 0x400 }
{
    (width.align(address) % 0x400) as usize
}

pub(crate) fn vram(address: u32, width: Width) -> usize
    ensures place { result ≡ vram_place (aligned width address) }
    ensures within { result + size width ≤ 0x18000 }
{
    let place = width.align(address) % 0x20000;
    if place < 0x18000 {
        place as usize
    } else {
        (place - 0x8000) as usize
    }
}

pub(crate) fn oam(address: u32, width: Width) -> usize
    ensures place { result ≡ oam_place (aligned width address) }
    ensures within { result + size width ≤ 0x400 }
{
    (width.align(address) % 0x400) as usize
}

/// In the SRAM, which is read and written by bytes.
pub(crate) fn sram(address: u32) -> usize
    ensures place { result ≡ sram_place address }
    ensures within { result < 0x8000 }
{
    (address % 0x8000) as usize
}

/// Where the tiles of sprites begin in the VRAM.
pub(crate) fn start_of_sprites(mode: u32) -> usize
    ensures { result ≡ sprite_part mode }
{
    if mode < 3 { 0x10000 } else { 0x14000 }
}
