//! A job that is run to a clock and frozen there.

ghost use Rattle.std.specs.Prelude.{◌≡◌, ◌≤◌, ◌^◌, IfOk, map};
ghost use Rattle.std.specs.List.{AllZip};
ghost use Rattle.gba_command.specs.Reading.{GoesTo};
ghost use Rattle.gba_command.specs.Views.{Agrees, end_of, freeze_words_value};
ghost use Rattle.gba_command.specs.Words.{AreFreezeWords};
ghost use Rattle.gba_inputs.specs.Filled.{filled};
ghost use Rattle.gba_inputs.specs.Law.{AreInputs};
ghost use Rattle.gba_inputs.specs.Views.{inputs_value};
ghost use Rattle.gba_joblog.specs.Soundness.{IsJob};
ghost use Rattle.gba_joblog.specs.Views.{job_value};
ghost use Rattle.gba_link.specs.FreezePlan.{clock_or_refusal, freeze_plan, frozen_plan, result_of_freeze};
ghost use Rattle.gba_link.specs.RunPlan.{images_in};
ghost use Rattle.gba_link.specs.Work.{work_value};
ghost use Rattle.gba_run_files.specs.Frozen.{job_unstated};
ghost use Rattle.gba_session.specs.Start.{FitJob};

use crate::run::{filled_job, read_job};
use crate::work::Work;
use gba_command::{Cause, FreezeWords, Refusal, name_in_report};
use gba_image::ConsoleImages;
use gba_inputs::{Inputs, read_inputs};
use gba_joblog::{Job, JobError, JobKind};
use gba_run_files::{PreparedFreeze, frozen_name, log_digest, until_clock, without_digests};
use gba_store::Store;
use gba_terms::NoMemory;
use std::alloc::{AllocError, Global};

/// The job, where CLOCK isn't above its cycles.
fn checked_clock(words: &FreezeWords<'_>, job: Job) -> Result<Job, Refusal>
    requires words { AreFreezeWords (freeze_words_value words.now) }
    requires sound { IsJob (job_value job) }
    ensures agrees { Agrees job_value (clock_or_refusal (freeze_words_value words.now) (job_value job)) result }
    ensures sound { IfOk result (λ job. IsJob (job_value job)) }
{
    if words.clock <= job.cycles {
        return Ok(job);
    }
    let error = JobError {
        line: 0,
        kind: JobKind::Number,
    };
    Err(Refusal::Refused(Cause::Job(name_in_report(words.run.job), error)))
}

/// The job with what was read for it written in and no digest of an output stated, and its images.
pub(crate) fn unstated_job(
    alloc: Global,
    job: Job,
    inputs: Vec<Inputs>,
) -> Result<(Job, Vec<ConsoleImages>), AllocError>
    requires sound { IsJob (job_value job) }
    requires inputs { AllZip AreInputs (job_value job).consoles (map inputs_value inputs.items) }
    ensures filled { IfOk result (λ made. job_value made.0
        ≡ job_unstated (filled (job_value job) (map inputs_value inputs.items))) }
    ensures images { IfOk result (λ made. made.1.items ≡ map images_in (map inputs_value inputs.items)) }
    ensures sound { IfOk result (λ made. IsJob (job_value made.0)) }
    ensures fit { IfOk result (λ made. FitJob (job_value made.0) made.1.items) }
{
    let (job, images) = filled_job(alloc, job, inputs)?;
    Ok((without_digests(job), images))
}

/// Prepares the run of a job with its inputs that is frozen at CLOCK. All memory is taken.
fn freeze_inputs(
    alloc: Global,
    words: &FreezeWords<'_>,
    job: Job,
    inputs: Vec<Inputs>,
) -> Result<PreparedFreeze, NoMemory>
    requires words { AreFreezeWords (freeze_words_value words.now) }
    requires sound { IsJob (job_value job) }
    requires inputs { AllZip AreInputs (job_value job).consoles (map inputs_value inputs.items) }
    ensures { IfOk result (λ run. run
        ≡ result_of_freeze (freeze_words_value words.now) (job_value job) (map inputs_value inputs.items)) }
{
    let (job, images) = unstated_job(alloc, job, inputs)?;
    let digest = log_digest(alloc, &job)?;
    let job = until_clock(job, words.clock);
    PreparedFreeze::new(alloc, words.run.out, job, digest, images)
}

/// Reads the inputs of a job and prepares its run to CLOCK.
fn freeze_job<S: Store>(
    alloc: Global,
    store: &mut S,
    words: &FreezeWords<'_>,
    job: Job,
) -> Result<Work, Refusal>
    requires words { AreFreezeWords (freeze_words_value words.now) }
    requires sound { IsJob (job_value job) }
    ensures { GoesTo S.gives (frozen_plan (freeze_words_value words.now) (job_value job))
        store.old store.new (end_of work_value result) }
{
    let job = checked_clock(words, job)?;
    let inputs = read_inputs(alloc, store, job.consoles.as_slice())?;
    match freeze_inputs(alloc, words, job, inputs) {
        Ok(run) => Ok(Work::Frozen(run)),
        Err(_) => Err(Refusal::NoMemory),
    }
}

/// Reads the job of a command and prepares its run to CLOCK.
pub(crate) fn freeze_command<S: Store>(
    alloc: Global,
    store: &mut S,
    words: &FreezeWords<'_>,
) -> Result<Work, Refusal>
    requires { AreFreezeWords (freeze_words_value words.now) }
    ensures { GoesTo S.gives (freeze_plan (freeze_words_value words.now))
        store.old store.new (end_of work_value result) }
{
    let Ok(name) = frozen_name(alloc, words.run.out) else {
        return Err(Refusal::NoMemory);
    };
    let job = read_job(alloc, store, &words.run, None, Some(name.as_str()))?;
    freeze_job(alloc, store, words, job)
}
