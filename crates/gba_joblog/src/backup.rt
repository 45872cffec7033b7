//! The words for what a cartridge keeps its saves in.

ghost use Rattle.std.specs.Prelude.{◌≡◌};
ghost use Rattle.gba_joblog.specs.Backups.{backup_named as backup_spelled, backup_word as word_of};

use gba_image::Backup;

/// The word of a job's line for what a cartridge keeps its saves in, as `flash64`.
pub fn backup_word(backup: Backup) -> &'static str
    ensures { result.now ≡ word_of backup }
{
    match backup {
        Backup::Sram => "sram",
        Backup::Flash64 => "flash64",
        Backup::Flash128 => "flash128",
    }
}

/// That of which a word is the line's.
pub(crate) fn backup_named(word: &[u8]) -> Option<Backup>
    ensures { result ≡ backup_spelled word.now }
{
    if word == b"sram".as_slice() {
        Some(Backup::Sram)
    } else if word == b"flash64".as_slice() {
        Some(Backup::Flash64)
    } else if word == b"flash128".as_slice() {
        Some(Backup::Flash128)
    } else {
        None
    }
}
