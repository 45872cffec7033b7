//! What a cartridge keeps its saves in.

/// What a cartridge keeps its saves in (GBATEK, GBA Cart Backup IDs): SRAM of 32,768 bytes, or flash of 65,536 or of
/// 131,072 bytes.
#[derive(Clone, Copy, Debug, PartialEq, Eq)]
pub enum Backup {
    Sram,
    Flash64,
    Flash128,
}

impl Backup {
    ghost use Rattle.std.specs.Prelude.{◌≡◌};
    ghost use Rattle.gba_image.specs.Backups.{backup_length};

    /// How many bytes it has.
    pub fn length(self) -> usize
        ensures { result ≡ backup_length self }
    {
        match self {
            Backup::Sram => 32_768,
            Backup::Flash64 => 65_536,
            Backup::Flash128 => 131_072,
        }
    }
}
