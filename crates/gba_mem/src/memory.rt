//! The memories of a console.

ghost use Rattle.std.specs.Prelude.{◌≡◌, ◌≤◌, [], unwrap_or, vec_len};
ghost use Rattle.gba_bus.specs.Regions.{is_bios, is_inner, is_rom, region_of};

mod replacing;

use crate::backup::{BackupChip, saved};
use crate::numbers::{number, put, put_twice, repeated};
use crate::places;
use crate::start::{
    filled, length_of_inner, length_of_oam, length_of_palette, length_of_vram, length_of_work,
};
use gba_bus::{Region, Width, is_in_bios, is_in_inner, is_in_rom, region_of};
use gba_flash::FlashMachine;
use gba_image::{Backup, Cartridge, ConsoleImages};
use gba_terms::NoMemory;
use gba_word::bits;
use std::alloc::Global;
use std::marker::Model;

/// The ROM of a cartridge, or none.
fn rom_of(alloc: Global, cart: Option<Cartridge>) -> Vec<u8>
    ensures bytes { result.items ≡ unwrap_or cart [] }
    ensures most { vec_len result ≤ 0x2000000 }
{
    match cart {
        Some(cart) => cart.into_bytes(),
        None => Vec::new(alloc),
    }
}

/// The memories of a console (GBATEK, GBA Memory Map), but for the I/O registers, which read 0 here and drop writes.
/// Contracts see the lists of their bytes.
#[derive(Drop)]
pub struct Memory {
    bios: Vec<u8>,
    rom: Vec<u8>,
    work: Vec<u8>,
    inner: Vec<u8>,
    palette: Vec<u8>,
    vram: Vec<u8>,
    oam: Vec<u8>,
    backup: BackupChip,
}

impl Model for Memory {
    ghost use Rattle.std.specs.Prelude.{◌≡◌, ◌≤◌, vec_len};
    ghost use Rattle.gba_mem.specs.Memories.{Memories};
    ghost use Rattle.gba_mem.specs.Views.{backup_value};

    ghost Value = { Memories };

    ghost view = { λ m. record {
      bios = m.bios.items;
      rom = m.rom.items;
      work = m.work.items;
      inner = m.inner.items;
      palette = m.palette.items;
      vram = m.vram.items;
      oam = m.oam.items;
      backup = backup_value m.backup;
    } };

    ghost invariant = { λ m.
        (vec_len m.bios ≡ 0x4000) × (vec_len m.rom ≤ 0x2000000)
        × (vec_len m.work ≡ 0x40000) × (vec_len m.inner ≡ 0x8000)
        × (vec_len m.palette ≡ 0x400) × (vec_len m.vram ≡ 0x18000)
        × (vec_len m.oam ≡ 0x400) };
}

impl Memory {
    ghost use Rattle.std.specs.Prelude.{◌≡◌, ℕ, ◌+◌, ◌^◌, ◌≤◌, IfOk, IfSome, true, length};
    ghost use Rattle.gba_bus.specs.Regions.{is_bios, is_inner, is_rom, region_of};
    ghost use Rattle.gba_bus.specs.Widths.{aligned, size};
    ghost use Rattle.gba_flash.specs.Soundness.{IsSoundMachine};
    ghost use Rattle.gba_image.specs.Backups.{backup_length};
    ghost use Rattle.gba_image.specs.Checks.{SaveFits};
    ghost use Rattle.gba_mem.specs.Backups.{backup_bytes as bytes_of_backup, backup_of, flash_machine as machine_of_flash, with_machine};
    ghost use Rattle.gba_mem.specs.Loads.{load, number_of, rom_byte};
    ghost use Rattle.gba_mem.specs.Memories.{at_start};
    ghost use Rattle.gba_mem.specs.Stores.{store};
    ghost use Rattle.gba_mem.specs.Places.{inner_place};
    ghost use Rattle.gba_mem.specs.Wide.{wide_load, wide_number, with_inner, wide_oam, wide_palette, wide_rom, wide_store, wide_vram};

    /// The memories of a console at the start, from its images, whose save was checked for their backup. RAM is 0, and
    /// the backup has the save's bytes, or FFh throughout. The images' bytes are moved in, not copied; on refusal they
    /// are dropped.
    #[tactic(auto, unfolding(crate::specs::Memories::at_start))]
    pub fn new(alloc: Global, images: ConsoleImages) -> Result<Memory, NoMemory>
        requires { SaveFits images.save images.backup }
        ensures { IfOk result (λ memory. memory ≡ at_start images.bios images.cart images.save images.backup) }
    {
        let ConsoleImages {
            bios,
            cart,
            save,
            backup,
        } = images;
        let work = filled(alloc, length_of_work(), 0)?;
        let inner = filled(alloc, length_of_inner(), 0)?;
        let palette = filled(alloc, length_of_palette(), 0)?;
        let vram = filled(alloc, length_of_vram(), 0)?;
        let oam = filled(alloc, length_of_oam(), 0)?;
        let saved = saved(alloc, save, backup)?;
        Ok(Memory {
            bios: bios.into_bytes(),
            rom: rom_of(alloc, cart),
            work,
            inner,
            palette,
            vram,
            oam,
            backup: BackupChip::new(saved, backup),
        })
    }

    /// The 262,144 bytes of the work RAM.
    pub fn work(&self) -> &[u8]
        ensures bytes { result.now ≡ self.now.work }
        ensures length { length result.now ≡ 0x40000 }
    {
        self.work.as_slice()
    }

    /// The 32,768 bytes of the inner RAM.
    pub fn inner(&self) -> &[u8]
        ensures bytes { result.now ≡ self.now.inner }
        ensures length { length result.now ≡ 0x8000 }
    {
        self.inner.as_slice()
    }

    /// The 1,024 bytes of the palette.
    pub fn palette(&self) -> &[u8]
        ensures bytes { result.now ≡ self.now.palette }
        ensures length { length result.now ≡ 0x400 }
    {
        self.palette.as_slice()
    }

    /// The 98,304 bytes of the VRAM.
    pub fn vram(&self) -> &[u8]
        ensures bytes { result.now ≡ self.now.vram }
        ensures length { length result.now ≡ 0x18000 }
    {
        self.vram.as_slice()
    }

    /// The 1,024 bytes of the OAM.
    pub fn oam(&self) -> &[u8]
        ensures bytes { result.now ≡ self.now.oam }
        ensures length { length result.now ≡ 0x400 }
    {
        self.oam.as_slice()
    }

    /// What keeps the saves.
    pub fn backup(&self) -> Backup
        ensures { result ≡ backup_of self.now.backup }
    {
        self.backup.kind()
    }

    /// The bytes of the SRAM or of the flash, those of all its banks.
    pub fn backup_bytes(&self) -> &[u8]
        ensures bytes { result.now ≡ bytes_of_backup self.now.backup }
        ensures length { length result.now ≡ backup_length (backup_of self.now.backup) }
    {
        self.backup.bytes()
    }

    /// What the flash remembers beside its bytes; nothing where there is none. With the flash of 65,536 bytes its bank
    /// is 0 and it awaits none.
    pub fn flash_machine(&self) -> Option<FlashMachine>
        ensures value { result ≡ machine_of_flash self.now.backup }
        ensures sound { IfSome result (λ machine. IsSoundMachine (backup_of self.now.backup) machine) }
    {
        self.backup.machine()
    }

    /// Lets the flash go on from where a machine has come. Nothing changes where there is none.
    pub fn restore_flash(&mut self, machine: FlashMachine)
        requires { IsSoundMachine (backup_of self.old.backup) machine }
        ensures { self.new ≡ record self.old { backup = with_machine machine self.old.backup } }
    {
        self.backup.restore(machine);
    }

    /// A byte of ROM, past the image too (GBATEK, GBA Unpredictable Things).
    fn byte_of_rom(&self, address: u32) -> u8
        ensures { result ≡ rom_byte self.now.rom address }
    {
        let place = (address % 0x0200_0000) as usize;
        if place < self.rom.len() {
            return self.rom[place];
        }
        let half = address / 2 % 0x1_0000;
        if address % 2 == 0 {
            (half % 0x100) as u8
        } else {
            (half / 0x100) as u8
        }
    }

    /// What the ROM reads where some byte is past the image.
    #[inline(never)]
    fn number_of_rom(&self, width: Width, address: u32) -> u32
        requires { address + size width ≤ 2 ^ 32 }
        ensures { result ≡ number_of (rom_byte self.now.rom) width address }
    {
        match width {
            Width::Byte => u32::from(self.byte_of_rom(address)),
            Width::Half => u32::from(u16::from_le_bytes([
                self.byte_of_rom(address),
                self.byte_of_rom(address + 1),
            ])),
            Width::Word => u32::from_le_bytes([
                self.byte_of_rom(address),
                self.byte_of_rom(address + 1),
                self.byte_of_rom(address + 2),
                self.byte_of_rom(address + 3),
            ]),
        }
    }

    /// What the ROM reads at an aligned address.
    #[tactic(auto, unfolding(crate::specs::Wide::wide_rom))]
    fn read_rom(&self, width: Width, address: u32) -> u32
        requires { address + size width ≤ 2 ^ 32 }
        ensures { result ≡ wide_rom self.now.rom width address }
    {
        let place = (address % 0x0200_0000) as usize;
        if place + width.size() as usize <= self.rom.len() {
            number(self.rom.as_slice(), width, place)
        } else {
            self.number_of_rom(width, address)
        }
    }

    /// What an access reads, by its region.
    #[tactic(auto, unfolding(crate::specs::Wide::wide_load, gba_bus::specs::Regions::region_of))]
    #[inline(never)]
    fn wide_load(&self, in_bios: bool, address: u32, width: Width) -> u32
        ensures { result ≡ wide_load (region_of address) in_bios self.now address width }
    {
        match region_of(address) {
            Region::Bios => {
                if in_bios {
                    number(self.bios.as_slice(), width, places::bios(address, width))
                } else {
                    0
                }
            }
            Region::Work => number(self.work.as_slice(), width, places::work(address, width)),
            Region::Inner => number(self.inner.as_slice(), width, places::inner(address, width)),
            Region::Palette => number(
                self.palette.as_slice(),
                width,
                places::palette(address, width),
            ),
            Region::Vram => number(self.vram.as_slice(), width, places::vram(address, width)),
            Region::Oam => number(self.oam.as_slice(), width, places::oam(address, width)),
            Region::Rom0 | Region::Rom1 | Region::Rom2 => self.read_rom(
                width,
                width.align(address),
            ),
            Region::Sram => repeated(self.backup.read(width.align(address)), width),
            Region::Io | Region::Other => 0,
        }
    }

    /// Writes in the palette.
    #[tactic(auto, unfolding(crate::specs::Wide::wide_palette))]
    fn store_palette(palette: &mut [u8], address: u32, width: Width, value: u32)
        requires { length palette.old ≡ 0x400 }
        ensures { palette.new ≡ wide_palette palette.old address width value }
    {
        match width {
            Width::Byte => put_twice(palette, places::palette(address, Width::Half), value),
            Width::Half | Width::Word => put(
                palette,
                width,
                places::palette(address, width),
                value,
            ),
        }
    }

    /// Writes in the VRAM.
    #[tactic(auto, unfolding(crate::specs::Wide::wide_vram))]
    fn store_vram(mode: u32, vram: &mut [u8], address: u32, width: Width, value: u32)
        requires { length vram.old ≡ 0x18000 }
        ensures { vram.new ≡ wide_vram mode vram.old address width value }
    {
        match width {
            Width::Byte => {
                if places::vram(address, Width::Byte) < places::start_of_sprites(mode) {
                    put_twice(vram, places::vram(address, Width::Half), value);
                }
            }
            Width::Half | Width::Word => put(vram, width, places::vram(address, width), value),
        }
    }

    /// Writes in the OAM.
    #[tactic(auto, unfolding(crate::specs::Wide::wide_oam))]
    fn store_oam(oam: &mut [u8], address: u32, width: Width, value: u32)
        requires { length oam.old ≡ 0x400 }
        ensures { oam.new ≡ wide_oam oam.old address width value }
    {
        match width {
            Width::Byte => {}
            Width::Half | Width::Word => put(oam, width, places::oam(address, width), value),
        }
    }

    /// What a write leaves, by its region.
    #[tactic(auto, unfolding(crate::specs::Wide::wide_store))]
    #[inline(never)]
    fn wide_store(&mut self, mode: u32, address: u32, width: Width, value: u32)
        ensures { self.new ≡ wide_store (region_of address) mode self.old address width value }
    {
        match region_of(address) {
            Region::Work => put(
                self.work.as_mut_slice(),
                width,
                places::work(address, width),
                value,
            ),
            Region::Inner => self.put_inner(address, width, value),
            Region::Palette => Memory::store_palette(
                self.palette.as_mut_slice(),
                address,
                width,
                value,
            ),
            Region::Vram => Memory::store_vram(
                mode,
                self.vram.as_mut_slice(),
                address,
                width,
                value,
            ),
            Region::Oam => Memory::store_oam(self.oam.as_mut_slice(), address, width, value),
            Region::Sram => self
                .backup
                .write(width.align(address), bits(value, 0, 8) as u8),
            Region::Bios
            | Region::Io
            | Region::Rom0
            | Region::Rom1
            | Region::Rom2
            | Region::Other => {}
        }
    }

    /// What an instruction is read as, the commonest regions first, each after one test.
    #[tactic(auto, using(crate::proofs::Telling::told_regions), unfolding(gba_bus::specs::Regions::region_of))]
    #[inline]
    fn wide_code(&self, address: u32, width: Width) -> u32
        ensures { result ≡ wide_load (region_of address) (is_bios (region_of address)) self.now address width }
    {
        if is_in_bios(address) {
            return number(self.bios.as_slice(), width, places::bios(address, width));
        }
        if is_in_inner(address) {
            return number(self.inner.as_slice(), width, places::inner(address, width));
        }
        if is_in_rom(address) {
            return self.read_rom(width, width.align(address));
        }
        self.wide_load(false, address, width)
    }

    /// What an access reads, the inner RAM after one test.
    #[tactic(auto, using(crate::proofs::Telling::told_regions))]
    #[inline]
    fn quick_load(&self, in_bios: bool, address: u32, width: Width) -> u32
        ensures { result ≡ wide_load (region_of address) in_bios self.now address width }
    {
        if is_in_inner(address) {
            return number(self.inner.as_slice(), width, places::inner(address, width));
        }
        self.wide_load(in_bios, address, width)
    }

    /// Writes in the inner RAM.
    #[inline]
    fn put_inner(&mut self, address: u32, width: Width, value: u32)
        ensures { self.new ≡ with_inner self.old address width value }
    {
        put(
            self.inner.as_mut_slice(),
            width,
            places::inner(address, width),
            value,
        );
    }

    /// What a write leaves, the inner RAM after one test.
    #[tactic(auto, using(crate::proofs::Telling::told_regions))]
    #[inline]
    fn quick_store(&mut self, mode: u32, address: u32, width: Width, value: u32)
        ensures { self.new ≡ wide_store (region_of address) mode self.old address width value }
    {
        if is_in_inner(address) {
            self.put_inner(address, width, value);
        } else {
            self.wide_store(mode, address, width, value);
        }
    }

    /// What an access reads at its aligned address, for the instruction at `from`. To an instruction outside the BIOS,
    /// and so to a DMA unit, the BIOS reads 0 (this project's profile).
    #[inline]
    pub fn load(&self, from: u32, address: u32, width: Width) -> u32
        ensures { result ≡ load self.now from address width }
    {
        self.quick_load(is_in_bios(from), address, width)
    }

    /// Writes the low bits of a number, as many as the width has, at the aligned address. `mode` is the mode of the
    /// picture, bits 0 to 2 of DISPCNT: it says which part of the VRAM drops bytes.
    #[inline]
    pub fn store(&mut self, mode: u32, address: u32, width: Width, value: u32)
        ensures { self.new ≡ store mode self.old address width value }
    {
        self.quick_store(mode, address, width, value);
    }

    #[inline]
    fn inner_number(&self, address: u32, width: Width) -> u32
        ensures { result ≡ wide_number self.now.inner width (inner_place (aligned width address)) }
    {
        number(self.inner.as_slice(), width, places::inner(address, width))
    }

    #[tactic(auto, unfolding(gba_bus::specs::Regions::region_of))]
    #[inline]
    fn bios_number(&self, address: u32, width: Width) -> u32
        requires { is_bios (region_of address) ≡ true }
        ensures { result ≡ wide_number self.now.bios width (aligned width address) }
    {
        number(self.bios.as_slice(), width, places::bios(address, width))
    }

    #[inline]
    fn rom_number(&self, address: u32, width: Width) -> u32
        ensures { result ≡ wide_rom self.now.rom width (aligned width address) }
    {
        self.read_rom(width, width.align(address))
    }

    /// What [`Memory::load`] reads at an address in the inner RAM, whatever instruction asks for it.
    #[inline]
    pub fn load_inner(&self, address: u32, width: Width) -> u32
        requires { is_inner (region_of address) ≡ true }
        ensures { (from : ℕ) → result ≡ load self.now from address width }
    {
        self.inner_number(address, width)
    }

    /// What [`Memory::store`] writes at an address in the inner RAM, whatever the mode of the picture.
    #[inline]
    pub fn store_inner(&mut self, address: u32, width: Width, value: u32)
        requires { is_inner (region_of address) ≡ true }
        ensures { (mode : ℕ) → self.new ≡ store mode self.old address width value }
    {
        self.put_inner(address, width, value);
    }

    /// What [`Memory::code`] reads at an address in the BIOS.
    #[inline]
    pub fn code_in_bios(&self, address: u32, width: Width) -> u32
        requires { is_bios (region_of address) ≡ true }
        ensures { result ≡ load self.now address address width }
    {
        self.bios_number(address, width)
    }

    /// What [`Memory::code`] reads at an address in a view of the ROM.
    #[inline]
    pub fn code_in_rom(&self, address: u32, width: Width) -> u32
        requires { is_rom (region_of address) ≡ true }
        ensures { result ≡ load self.now address address width }
    {
        self.rom_number(address, width)
    }

    /// The instruction at an address, as [`Memory::load`] reads it for that instruction itself. Quick where
    /// instructions mostly stand: in the BIOS, the inner RAM and the ROM.
    #[inline]
    pub fn code(&self, address: u32, width: Width) -> u32
        ensures { result ≡ load self.now address address width }
    {
        self.wide_code(address, width)
    }
}
