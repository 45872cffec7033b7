//! Laws over the definitions. Each is the contract of a function that takes no value.

ghost use Rattle.gba_run_files.specs.Law.{FrozenRunsHaveOwnFiles, LogsHaveRoom, OutputsDiffer, ResumedRunsHaveOwnFiles, RunsHaveOwnFiles};

use gba_console::laws::segments;

/// How much longer a log is once the digests of its outputs are stated.
pub fn logs_have_room()
    ensures { LogsHaveRoom }
{}

/// The files of a run of at most four consoles have different names, and none is standard output.
pub fn outputs_differ()
    ensures { OutputsDiffer }
{}

/// Of a job's run each piece is one of a file, and the pieces of a file, one after another, are its bytes.
pub fn runs_have_own_files()
    ensures { RunsHaveOwnFiles }
{
    segments();
}

/// The same of a run that is frozen at its end.
pub fn frozen_runs_have_own_files()
    ensures { FrozenRunsHaveOwnFiles }
{
    segments();
}

/// The same of a run that goes on from where its consoles were frozen.
pub fn resumed_runs_have_own_files()
    ensures { ResumedRunsHaveOwnFiles }
{
    segments();
}
