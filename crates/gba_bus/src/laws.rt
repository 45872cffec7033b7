//! Laws over the definitions. Each is the contract of a function that takes no value.

ghost use Rattle.gba_bus.specs.Prices.{PricesAreWithin};

/// Each price is from 1 to 18 cycles, whatever the region, the width and the wait control.
pub fn prices_are_within()
    ensures { PricesAreWithin }
{}
