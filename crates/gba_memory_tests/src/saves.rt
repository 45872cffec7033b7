//! Saves for what consoles save in.

ghost use Rattle.std.specs.Prelude.{IsTrue};
ghost use Rattle.gba_image.specs.Checks.{SaveFits};

use gba_image::{Backup, Save};

/// Whether a save, where there is one, has the bytes of a backup.
pub fn fits(save: &Option<Save>, backup: Backup) -> bool
    ensures { IsTrue result → SaveFits save.now backup }
{
    match save {
        Some(save) => save.bytes().len() == backup.length(),
        None => true,
    }
}
