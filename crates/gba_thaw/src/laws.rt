//! Laws over the definitions. Each is the contract of a function that takes no value.

ghost use Rattle.gba_thaw.specs.Law.{ThawsPlainly, ThawsSoundly};

/// What is thawed stands on the cable of the start: as many consoles, with the same delays between them. They are sound
/// and in time, each signal on its way can still be taken, and the lists of all are empty.
pub fn thaws_soundly()
    ensures { ThawsSoundly }
{}

/// Where the lists of the consoles begin at their start, and where their room ends, isn't seen by what a frozen
/// file comes to.
pub fn thaws_plainly()
    ensures { ThawsPlainly }
{}
