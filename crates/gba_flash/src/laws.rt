//! Laws over the definitions. Each is the contract of a function that takes no value.

ghost use Rattle.gba_flash.specs.Laws.{KeepsBytes};
ghost use Rattle.gba_flash.specs.Soundness.{StaysSound};

/// A byte changes only by a write that programs it, by one that erases its sector, and by one that erases all.
pub fn keeps_bytes()
    ensures { KeepsBytes }
{}

/// A flash keeps the number of its bytes, and one of 65,536 bytes has no second bank and awaits none,
/// whatever is written.
pub fn stays_sound()
    ensures { StaysSound }
{}
