//! Laws of the numbers.

ghost use Rattle.gba_numbers.specs.Laws.{HaveOwnPlaces, SetsOne};

/// A number that is set is the number that is read there, and every other stays.
pub fn sets_one()
    ensures { SetsOne }
{}

/// No two numbers have the same place.
pub fn have_own_places()
    ensures { HaveOwnPlaces }
{}
