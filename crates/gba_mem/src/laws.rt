//! Laws over the definitions. Each is the contract of a function that takes no value.

ghost use Rattle.gba_mem.specs.BackupLaw.{BackupsStaySound};
ghost use Rattle.gba_mem.specs.Fits.{CutsNothing};
ghost use Rattle.gba_mem.specs.Video.{StoresKeepVideo};

/// The number that is read of bytes is their sum, the lowest byte first: the cut to the width in the definitions takes
/// nothing off it.
pub fn cuts_nothing()
    ensures { CutsNothing }
{}

/// A write outside video memory leaves it.
pub fn stores_keep_video()
    ensures { StoresKeepVideo }
{}

/// Whatever is stored, the SRAM or the flash keeps its kind and the number of its bytes, and a flash of 65,536 bytes
/// sees its one bank and awaits no other.
pub fn backups_stay_sound()
    ensures { BackupsStaySound }
{}
