//! Laws over the definitions. Each is the contract of a function that takes no value.

ghost use Rattle.gba_freeze_laws.specs.Length.{FrozenFilesAreShort};
ghost use Rattle.gba_freeze_laws.specs.Parts.{FrozenRunsGoOn};
ghost use Rattle.gba_freeze_laws.specs.Reached.{RunsCanBeFrozen};

use gba_console::Console;
use gba_console::laws::segments;
use gba_run_laws::laws::{steps_hold, steps_leave_the_rest};
use gba_thaw_laws::laws::files_thaw_again;
use link_cut_laws::{cable, end, leave, start, steps};
use link_mapped::{alike, runs};

/// Whatever the run of a job reaches can be frozen: its consoles keep to the rules by which a frozen file is read, a
/// run can go on from its signals, and these are few.
pub fn runs_can_be_frozen()
    ensures { RunsCanBeFrozen }
{
    steps_hold();
    steps_leave_the_rest();
    start::<Console>();
    leave::<Console>();
    cable::<Console>();
    steps::<Console>();
    end::<Console>();
}

/// The frozen file of consoles that can be frozen isn't longer than one that is read, 134,217,728 bytes.
pub fn frozen_files_are_short()
    ensures { FrozenFilesAreShort }
{}

/// The frozen file of a job's run at a clock is thawed to what was frozen, but for what no step looks at, and the run
/// goes on from there: of each console, what the whole run makes of frames, samples and words is what was made before
/// and then what is made since, and the state, the save and the line of the summary are the same at the end.
pub fn frozen_runs_go_on()
    ensures { FrozenRunsGoOn }
{
    runs_can_be_frozen();
    frozen_files_are_short();
    files_thaw_again();
    segments();
    cable::<Console>();
    alike::<Console>();
    runs::<Console>();
}
