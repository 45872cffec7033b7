//! What the words come to, and its answer.

ghost use Rattle.std.specs.Prelude.{◌≡◌};
ghost use Rattle.gba_command.specs.Answer.{Answers};
ghost use Rattle.gba_command.specs.Views.{end_of, run_value};
ghost use Rattle.gba_link.specs.Work.{work_value};

use gba_command::{Outputs, Refusal, answer};
use gba_run_files::{PreparedFreeze, PreparedResume, PreparedRun};
use gba_store::{Gate, Sink};
use std::alloc::Global;
use std::thread::Threads;

/// What a command comes to that isn't refused.
#[derive(Drop)]
pub(crate) enum Work {
    /// All that is written is made.
    Made(Outputs),
    /// The consoles are at reset, and all memory is taken.
    Ready(PreparedRun),
    /// The same of a run that is frozen at its end.
    Frozen(PreparedFreeze),
    /// The consoles stand where they were frozen.
    Resumed(PreparedResume),
}

/// What is made, or why it is refused.
pub(crate) fn made(outputs: Result<Outputs, Refusal>) -> Result<Work, Refusal>
    ensures { end_of work_value result ≡ end_of run_value outputs }
{
    match outputs {
        Ok(outputs) => Ok(Work::Made(outputs)),
        Err(refusal) => Err(refusal),
    }
}

/// Writes what a command comes to, or its report, and answers the exit status. The consoles run now, and their files
/// grow from segment to segment.
pub(crate) fn answer_work<R: Threads + Sync, O: Sink, G: Gate + Sync>(
    rt: &R,
    alloc: Global,
    out: &mut O,
    work: Result<Work, Refusal>,
    gate: &G,
) -> u8
    ensures { Answers O.Tells result (end_of work_value work) (O.state out.old) (O.state out.new) }
{
    match work {
        Ok(Work::Ready(run)) => run.write(rt, alloc, out, gate),
        Ok(Work::Frozen(run)) => run.write(rt, alloc, out, gate),
        Ok(Work::Resumed(run)) => run.write(rt, alloc, out, gate),
        Ok(Work::Made(outputs)) => answer(out, &Ok(outputs)),
        Err(refusal) => answer(out, &Err(refusal)),
    }
}
