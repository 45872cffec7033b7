//! Laws over the definitions. Each is the contract of a function that takes no value.

ghost use Rattle.gba_ppu_affine.specs.Rounding.{RoundsDown};

/// The places by words are those by signed numbers, rounded down.
pub fn places_are_rounded_down()
    ensures { RoundsDown }
{}
