//! Laws over the definitions. Each is the contract of a function that takes no value.

ghost use Rattle.gba_ppu_obj.specs.Rounding.{RoundsDown};
ghost use Rattle.gba_ppu_obj.specs.Seen.{SeesTheForemost};

/// Of the sprites at a place the foremost opaque one is seen, and the place is in the window where one of them is.
pub fn the_foremost_sprite_is_seen()
    ensures { SeesTheForemost }
{}

/// The places of affine sprites by words are those by signed numbers, rounded down.
pub fn places_are_rounded_down()
    ensures { RoundsDown }
{}
