//! Laws over the definitions. Each is the contract of a function that takes no value.

ghost use Rattle.gba_dma.specs.Consistency.{StaysConsistent};

/// At reset and after every call an active channel is enabled, and an enabled one has units left.
pub fn stays_consistent()
    ensures { StaysConsistent }
{}
