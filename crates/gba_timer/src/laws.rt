//! Laws over the definitions. Each is the contract of a function that takes no value.

ghost use Rattle.gba_timer.specs.Quiet.{CountsBefore, QuietMarks};

/// What the cycles before an event are.
pub fn counts_before()
    ensures { CountsBefore }
{}

/// In the quiet cycles no timer has a mark.
pub fn quiet_marks()
    ensures { QuietMarks }
{}
