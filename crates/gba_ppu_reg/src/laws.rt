//! Laws over the definitions. Each is the contract of a function that takes no value.

ghost use Rattle.gba_ppu_reg.specs.Quiet.{QuietPlaces, VisitsOnce};

/// In the quiet cycles nothing comes, and then something does.
pub fn quiet_places()
    ensures { QuietPlaces }
{}

/// In fewer cycles than a line has no dot comes twice.
pub fn visits_once()
    ensures { VisitsOnce }
{}
