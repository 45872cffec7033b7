//! A law over the definitions, which is the contract of a function that takes no value.

ghost use Rattle.gba_resume_laws.specs.Resuming.{FrozenJobsGoOnAsRun};

use gba_freeze_laws::laws::{frozen_files_are_short, frozen_runs_go_on, runs_can_be_frozen};

/// What `freeze` wrote of a job is resumed, if JOB and its inputs are as they were. Each file of frames, samples and
/// words that `run` writes of the job is that of `freeze` followed by that of `resume`; each state and each save is
/// that of `resume`; and the summary of `resume` is that of `run` without its last line.
pub fn frozen_jobs_go_on_as_run()
    ensures { FrozenJobsGoOnAsRun }
{
    runs_can_be_frozen();
    frozen_files_are_short();
    frozen_runs_go_on();
}
