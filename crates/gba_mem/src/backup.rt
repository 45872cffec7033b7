//! What keeps the saves of a cartridge.

ghost use Rattle.std.specs.Prelude.{◌≡◌, IfOk, vec_len};
ghost use Rattle.gba_image.specs.Backups.{backup_length};
ghost use Rattle.gba_image.specs.Checks.{SaveFits};
ghost use Rattle.gba_mem.specs.Memories.{saved_bytes};

use crate::places;
use crate::start::filled;
use gba_flash::{Flash, FlashMachine};
use gba_image::{Backup, Save};
use std::alloc::{AllocError, Global};
use std::marker::Model;

/// The bytes of a save, or as many of FFh.
pub(crate) fn saved(
    alloc: Global,
    save: Option<Save>,
    backup: Backup,
) -> Result<Vec<u8>, AllocError>
    requires { SaveFits save backup }
    ensures bytes { IfOk result (λ bytes. bytes.items ≡ saved_bytes save backup) }
    ensures length { IfOk result (λ bytes. vec_len bytes ≡ backup_length backup) }
{
    match save {
        Some(save) => Ok(save.into_bytes()),
        None => filled(alloc, backup.length(), 0xFF),
    }
}

/// The SRAM of a cartridge. Contracts see its bytes.
#[derive(Drop)]
pub(crate) struct Sram {
    bytes: Vec<u8>,
}

impl Model for Sram {
    ghost use Rattle.std.specs.Prelude.{◌≡◌, ℕ, List, vec_len};

    ghost Value = { List ℕ };

    ghost view = { λ s. s.bytes.items };

    ghost invariant = { λ s. vec_len s.bytes ≡ 0x8000 };
}

impl Sram {
    ghost use Rattle.std.specs.Prelude.{◌≡◌, ◌+◌, ◌≤◌, length, slice_index, slice_set, vec_len};
    ghost use Rattle.gba_flash.specs.Replacing.{with_bytes, zeros};
    ghost use Rattle.gba_mem.specs.Places.{sram_place};

    fn new(bytes: Vec<u8>) -> Sram
        requires { vec_len bytes ≡ 0x8000 }
        ensures { result ≡ bytes.items }
    {
        Sram { bytes }
    }

    fn bytes(&self) -> &[u8]
        ensures bytes { result.now ≡ self.now }
        ensures length { length result.now ≡ 0x8000 }
    {
        self.bytes.as_slice()
    }

    fn set_bytes(&mut self, place: usize, bytes: &[u8])
        requires { place + length bytes.now ≤ 0x8000 }
        ensures { self.new ≡ with_bytes place bytes.now self.old }
    {
        self.bytes.as_mut_slice()[place..place + bytes.len()].copy_from_slice(bytes);
    }

    fn clear(&mut self)
        ensures { self.new ≡ zeros self.old }
    {
        self.bytes.as_mut_slice().fill(0);
    }

    fn read(&self, address: u32) -> u8
        ensures { result ≡ slice_index self.now (sram_place address) }
    {
        self.bytes[places::sram(address)]
    }

    fn write(&mut self, address: u32, value: u8)
        ensures { self.new ≡ slice_set self.old (sram_place address) value }
    {
        self.bytes[places::sram(address)] = value;
    }
}

/// What keeps the saves of a cartridge.
#[derive(Drop)]
pub(crate) enum BackupChip {
    Sram(Sram),
    Flash(Flash),
}

impl BackupChip {
    ghost use Rattle.std.specs.Prelude.{◌≡◌, ◌+◌, ◌≤◌, IfSome, length, vec_len};
    ghost use Rattle.gba_flash.specs.Soundness.{IsSoundMachine};
    ghost use Rattle.gba_image.specs.Backups.{backup_length};
    ghost use Rattle.gba_mem.specs.Backups.{backup_at_start, backup_byte, backup_bytes, backup_cleared, backup_of, backup_written, flash_machine, with_backup_bytes, with_machine};
    ghost use Rattle.gba_mem.specs.Views.{backup_value};

    /// A chip with these bytes, as many as it has.
    pub(crate) fn new(bytes: Vec<u8>, backup: Backup) -> BackupChip
        requires { vec_len bytes ≡ backup_length backup }
        ensures { backup_value result ≡ backup_at_start backup bytes.items }
    {
        match backup {
            Backup::Sram => BackupChip::Sram(Sram::new(bytes)),
            Backup::Flash64 | Backup::Flash128 => BackupChip::Flash(Flash::new(bytes, backup)),
        }
    }

    pub(crate) fn kind(&self) -> Backup
        ensures { result ≡ backup_of (backup_value self.now) }
    {
        match self {
            BackupChip::Sram(_) => Backup::Sram,
            BackupChip::Flash(flash) => flash.backup(),
        }
    }

    pub(crate) fn bytes(&self) -> &[u8]
        ensures bytes { result.now ≡ backup_bytes (backup_value self.now) }
        ensures length { length result.now ≡ backup_length (backup_of (backup_value self.now)) }
    {
        match self {
            BackupChip::Sram(sram) => sram.bytes(),
            BackupChip::Flash(flash) => flash.bytes(),
        }
    }

    /// The byte at an address.
    pub(crate) fn read(&self, address: u32) -> u8
        ensures { result ≡ backup_byte (backup_value self.now) address }
    {
        match self {
            BackupChip::Sram(sram) => sram.read(address),
            BackupChip::Flash(flash) => flash.read(address % 0x1_0000),
        }
    }

    /// Writes a byte at an address.
    pub(crate) fn write(&mut self, address: u32, value: u8)
        ensures { backup_value self.new ≡ backup_written (backup_value self.old) address value }
    {
        match self {
            BackupChip::Sram(sram) => sram.write(address, value),
            BackupChip::Flash(flash) => flash.write(address % 0x1_0000, value),
        }
    }

    /// What a flash remembers beside its bytes.
    pub(crate) fn machine(&self) -> Option<FlashMachine>
        ensures value { result ≡ flash_machine (backup_value self.now) }
        ensures sound { IfSome result (λ machine. IsSoundMachine (backup_of (backup_value self.now)) machine) }
    {
        match self {
            BackupChip::Sram(_) => None,
            BackupChip::Flash(flash) => Some(flash.machine()),
        }
    }

    /// Replaces bytes from a place on.
    pub(crate) fn set_bytes(&mut self, place: usize, bytes: &[u8])
        requires { place + length bytes.now ≤ backup_length (backup_of (backup_value self.old)) }
        ensures { backup_value self.new ≡ with_backup_bytes place bytes.now (backup_value self.old) }
    {
        match self {
            BackupChip::Sram(sram) => sram.set_bytes(place, bytes),
            BackupChip::Flash(flash) => flash.set_bytes(place, bytes),
        }
    }

    /// Makes every byte 0.
    pub(crate) fn clear(&mut self)
        ensures { backup_value self.new ≡ backup_cleared (backup_value self.old) }
    {
        match self {
            BackupChip::Sram(sram) => sram.clear(),
            BackupChip::Flash(flash) => flash.clear(),
        }
    }

    /// Lets a flash go on from where a machine has come.
    pub(crate) fn restore(&mut self, machine: FlashMachine)
        requires { IsSoundMachine (backup_of (backup_value self.old)) machine }
        ensures { backup_value self.new ≡ with_machine machine (backup_value self.old) }
    {
        match self {
            BackupChip::Sram(_) => {}
            BackupChip::Flash(flash) => flash.restore(machine),
        }
    }
}
