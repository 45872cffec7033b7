//! The three images, and what one console is made from.

ghost use Rattle.std.specs.Prelude.{◌≡◌, ◌≤◌, length, sum};
ghost use Rattle.gba_image.specs.Checks.{header_check};

use crate::{Backup, ImageError};
use std::marker::Model;

/// The length of a BIOS in bytes (GBATEK, GBA Memory Map).
const BIOS_LENGTH: usize = 16_384;

/// The shortest cartridge in bytes: its header (GBATEK, GBA Cartridge Header).
const HEADER_LENGTH: usize = 192;

/// The longest cartridge in bytes (GBATEK, GBA Memory Map).
pub const LONGEST_CARTRIDGE: usize = 33_554_432;

/// The sum of a few bytes.
fn total(bytes: &[u8]) -> u32
    requires { length bytes.now ≤ 256 }
    ensures sum { result ≡ sum bytes.now }
    ensures most { result ≤ 65280 }
{
    let mut sum = 0u32;
    for byte in bytes {
        sum += u32::from(*byte);
    }
    sum
}

/// The header check of a cartridge (GBATEK, GBA Cartridge Header).
fn check_byte(bytes: &[u8]) -> u8
    requires { 192 ≤ length bytes.now }
    ensures { result ≡ header_check bytes.now }
{
    let taken = total(&bytes[0xA0..0xBD]) + 0x19;
    ((256 - taken % 256) % 256) as u8
}

/// A BIOS: 16,384 bytes. Contracts see its bytes.
#[derive(Drop)]
pub struct Bios {
    bytes: Vec<u8>,
}

impl Model for Bios {
    ghost use Rattle.std.specs.Prelude.{◌≡◌, ℕ, List, vec_len};

    ghost Value = { List ℕ };

    ghost view = { λ b. b.bytes.items };

    ghost invariant = { λ b. vec_len b.bytes ≡ 16384 };
}

impl Bios {
    ghost use Rattle.std.specs.Prelude.{◌≡◌, ◌≤◌, length, vec_len};
    ghost use Rattle.gba_image.specs.Checks.{Judges, bios_fault};

    /// Takes the bytes as a BIOS. On refusal they are dropped.
    #[tactic(auto, unfolding(crate::specs::Checks::bios_fault))]
    pub fn check(bytes: Vec<u8>) -> Result<Bios, ImageError>
        ensures { Judges (bios_fault bytes.items) bytes.items result }
    {
        if bytes.len() == BIOS_LENGTH {
            Ok(Bios { bytes })
        } else {
            Err(ImageError::BiosLength)
        }
    }

    /// The bytes from address 0 up.
    pub fn bytes(&self) -> &[u8]
        ensures bytes { result.now ≡ self.now }
        ensures length { length result.now ≡ 16384 }
    {
        self.bytes.as_slice()
    }

    /// The bytes, without copying them.
    pub fn into_bytes(self) -> Vec<u8>
        ensures bytes { result.items ≡ self }
        ensures length { vec_len result ≡ 16384 }
    {
        self.bytes
    }
}

/// A cartridge: 192 to 33,554,432 bytes with a right header. Contracts see its bytes.
#[derive(Drop)]
pub struct Cartridge {
    bytes: Vec<u8>,
}

impl Model for Cartridge {
    ghost use Rattle.std.specs.Prelude.{ℕ, List, ◌≤◌, vec_len};

    ghost Value = { List ℕ };

    ghost view = { λ c. c.bytes.items };

    ghost invariant = { λ c. (192 ≤ vec_len c.bytes) × (vec_len c.bytes ≤ 33554432) };
}

impl Cartridge {
    ghost use Rattle.std.specs.Prelude.{◌≡◌, ◌≤◌, length, vec_len};
    ghost use Rattle.gba_image.specs.Checks.{Judges, cartridge_fault};

    /// Takes the bytes as a cartridge, without copying them. On refusal they are dropped.
    #[tactic(auto, unfolding(crate::specs::Checks::cartridge_fault))]
    pub fn check(bytes: Vec<u8>) -> Result<Cartridge, ImageError>
        ensures { Judges (cartridge_fault bytes.items) bytes.items result }
    {
        if bytes.len() < HEADER_LENGTH {
            return Err(ImageError::TooShort);
        }
        if bytes.len() > LONGEST_CARTRIDGE {
            return Err(ImageError::TooLong);
        }
        if bytes[0xB2] != 0x96 {
            return Err(ImageError::FixedByte);
        }
        if bytes[0xBD] != check_byte(bytes.as_slice()) {
            return Err(ImageError::HeaderCheck);
        }
        Ok(Cartridge { bytes })
    }

    /// The bytes from the front of the ROM up.
    pub fn bytes(&self) -> &[u8]
        ensures bytes { result.now ≡ self.now }
        ensures least { 192 ≤ length result.now }
        ensures most { length result.now ≤ 33554432 }
    {
        self.bytes.as_slice()
    }

    /// The bytes, without copying them.
    pub fn into_bytes(self) -> Vec<u8>
        ensures bytes { result.items ≡ self }
        ensures least { 192 ≤ vec_len result }
        ensures most { vec_len result ≤ 33554432 }
    {
        self.bytes
    }
}

/// A save: the bytes of a backup, 32,768, 65,536 or 131,072 of them. Contracts see its bytes.
#[derive(Drop)]
pub struct Save {
    bytes: Vec<u8>,
}

impl Model for Save {
    ghost use Rattle.std.specs.Prelude.{◌≡◌, ℕ, List, true, vec_len};
    ghost use Rattle.gba_image.specs.Backups.{is_backup_length};

    ghost Value = { List ℕ };

    ghost view = { λ s. s.bytes.items };

    ghost invariant = { λ s. is_backup_length (vec_len s.bytes) ≡ true };
}

impl Save {
    ghost use Rattle.std.specs.Prelude.{◌≡◌, ◌≤◌, length, true, vec_len};
    ghost use Rattle.gba_image.specs.Backups.{is_backup_length};
    ghost use Rattle.gba_image.specs.Checks.{Judges, save_fault};

    /// Takes the bytes as a save of this backup. On refusal they are dropped.
    #[tactic(auto, unfolding(crate::specs::Checks::save_fault))]
    pub fn check(bytes: Vec<u8>, backup: Backup) -> Result<Save, ImageError>
        ensures { Judges (save_fault bytes.items backup) bytes.items result }
    {
        if bytes.len() == backup.length() {
            Ok(Save { bytes })
        } else {
            Err(ImageError::SaveLength)
        }
    }

    /// The bytes of the backup, from its front up.
    pub fn bytes(&self) -> &[u8]
        ensures bytes { result.now ≡ self.now }
        ensures length { is_backup_length (length result.now) ≡ true }
    {
        self.bytes.as_slice()
    }

    /// The bytes, without copying them.
    pub fn into_bytes(self) -> Vec<u8>
        ensures bytes { result.items ≡ self }
        ensures length { is_backup_length (vec_len result) ≡ true }
    {
        self.bytes
    }
}

/// What one console is made from: its BIOS, its cartridge and the save of the cartridge, where it has them, and what
/// the cartridge keeps its saves in.
#[derive(Drop)]
pub struct ConsoleImages {
    pub bios: Bios,
    pub cart: Option<Cartridge>,
    pub save: Option<Save>,
    pub backup: Backup,
}
