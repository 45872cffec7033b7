//! What a command answers.

ghost use Rattle.std.specs.Prelude.{◌≡◌, ℕ, List, Result};
ghost use Rattle.gba_store.specs.Files.{SinkState};
ghost use Rattle.gba_command.specs.Answer.{Answers, Closes, Concludes, Finishes};
ghost use Rattle.gba_command.specs.Cause.{Cause as CauseValue};
ghost use Rattle.gba_command.specs.Views.{conclusion_value, end_of, run_value, write_stop_value};
ghost use Rattle.gba_command.specs.Writing.{PerformsAll, Run, Wrote, file_calls};

use crate::cause::Cause;
use crate::outputs::Outputs;
use crate::refusal::Refusal;
use crate::writing::{WriteStop, report, write_files, write_summary};
use gba_store::Sink;
use gba_text::Line;

/// What a run that is written answers: 0, or the refusal with which it ends.
fn conclude<O: Sink>(out: &mut O, end: &Result<Line, Cause>) -> u8
    ensures { Concludes O.Tells result (conclusion_value end.now)
        (O.state out.old) (O.state out.new) }
{
    match end {
        Ok(_) => 0,
        Err(cause) => {
            report(out, &cause.report());
            cause.status()
        }
    }
}

/// Ends a run whose files are written: with its summary or the refusal, and answers the exit status.
pub fn close_written<O: Sink>(out: &mut O, end: &Result<Line, Cause>) -> u8
    ensures { (run : Run) (old : SinkState) → PerformsAll O.Tells (file_calls run) old (O.state out.old) Wrote
        → conclusion_value end.now ≡ run.end → Finishes O.Tells result run old (O.state out.new) }
{
    match write_summary(out, end) {
        Ok(()) => conclude(out, end),
        Err(stop) => report_stop(out, &stop),
    }
}

/// Reports why the calls of a run stopped, and answers the exit status.
fn report_stop<O: Sink>(out: &mut O, stop: &WriteStop) -> u8
    ensures { (conclusion : Result (List ℕ) CauseValue)
        → Closes O.Tells result conclusion (write_stop_value stop.now) (O.state out.old) (O.state out.new) }
{
    report(out, &stop.report());
    stop.status()
}

/// Ends a run whose writing stopped: with its report, and answers the exit status.
pub fn close_stopped<O: Sink>(out: &mut O, stop: &WriteStop) -> u8
    ensures { (run : Run) (old : SinkState)
        → PerformsAll O.Tells (file_calls run) old (O.state out.old) (write_stop_value stop.now)
        → Finishes O.Tells result run old (O.state out.new) }
{
    report_stop(out, stop)
}

/// Writes a run and answers the exit status.
fn finish<O: Sink>(out: &mut O, run: &Outputs) -> u8
    ensures { Finishes O.Tells result (run_value run.now) (O.state out.old) (O.state out.new) }
{
    match write_files(out, run.files.as_slice()) {
        Ok(()) => close_written(out, &run.end),
        Err(stop) => close_stopped(out, &stop),
    }
}

/// Writes what a command came to, or its report, and answers the exit status. Where a report is refused, the status
/// stays.
pub fn answer<O: Sink>(out: &mut O, prepared: &Result<Outputs, Refusal>) -> u8
    ensures { Answers O.Tells result (end_of run_value prepared.now)
        (O.state out.old) (O.state out.new) }
{
    match prepared {
        Ok(run) => finish(out, run),
        Err(refusal) => {
            report(out, &refusal.report());
            refusal.status()
        }
    }
}
