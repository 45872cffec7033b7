//! Laws over the definitions. Each is the contract of a function that takes no value.

ghost use Rattle.gba_psg.specs.Laws.{CyclesAdd, IsStill, KeepsTime};
ghost use Rattle.gba_psg.specs.Numbers.{MadeAgain};
ghost use Rattle.gba_psg.specs.Soundness.{StaysSound};

/// A square wave that was started is at its place by the cycles that went by.
pub fn keeps_time()
    ensures { KeepsTime }
{}

/// Cycles and more cycles are all of them.
pub fn cycles_add()
    ensures { CyclesAdd }
{}

/// While the master enable is 0 nothing moves and nothing sounds.
pub fn is_still()
    ensures { IsStill }
{}

/// At reset and after every call the numbers are in range, and a channel that is on has cycles to wait and a length
/// that is left.
pub fn stays_sound()
    ensures { StaysSound }
{}

/// What the tones say of themselves makes them again.
pub fn made_again()
    ensures { MadeAgain }
{}
