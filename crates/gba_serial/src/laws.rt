//! Laws over the definitions. Each is the contract of a function that takes no value.

ghost use Rattle.gba_serial.specs.Apart.{EndsApart, StaysQuiet};
ghost use Rattle.gba_serial.specs.Law.{StartsInTime, StaysSeated, TellsOnce, TransfersGoOn, WritesKeepTransfers};
ghost use Rattle.gba_serial.specs.Making.{MadeAgain};

/// A signal bears the clock at which its step began, and its parts fit their widths. Nothing is told twice.
pub fn tells_once()
    ensures { TellsOnce }
{}

/// No write in a transfer touches it.
pub fn writes_keep_transfers()
    ensures { WritesKeepTransfers }
{}

/// Nothing changes a unit's player, its number of consoles or its delay.
pub fn stays_seated()
    ensures { StaysSeated }
{}

/// A start that a console makes arrives in time to be answered, and its starts are at least 516 cycles apart.
pub fn starts_in_time()
    ensures { StartsInTime }
{}

/// A transfer goes on through every step that doesn't reach its end, and such a step tells nothing. So a step answers
/// at most one start.
pub fn transfers_go_on()
    ensures { TransfersGoOn }
{}

/// Two ends of one console are at least 512 cycles apart.
pub fn ends_apart()
    ensures { EndsApart }
{}

/// Nothing ends before the next end, and nothing falls silent that has nothing to tell.
pub fn stays_quiet()
    ensures { StaysQuiet }
{}

/// What a unit has makes it again, but for what it had to tell.
pub fn made_again()
    ensures { MadeAgain }
{}
