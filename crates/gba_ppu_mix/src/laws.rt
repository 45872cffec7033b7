//! Laws over the definitions. Each is the contract of a function that takes no value.

ghost use Rattle.gba_ppu_mix.specs.Foremost.{HasForemostOfLayers, HasTwoLayers};

/// A stack has the two foremost of the layers that show, the backdrop and nothing behind it, and these are two.
pub fn the_two_foremost_are_kept()
    ensures foremost { HasForemostOfLayers }
    ensures two { HasTwoLayers }
{}
