//! From the words and the files to a run that is ready.

ghost use Rattle.std.specs.Prelude.{◌≡◌, ◌≤◌, IfOk, length, map, option_map};
ghost use Rattle.std.specs.List.{AllZip};
ghost use Rattle.gba_command.specs.Reading.{GoesTo};
ghost use Rattle.gba_command.specs.Views.{Agrees, end_of, output_value, run_words_value};
ghost use Rattle.gba_command.specs.Words.{AreRunWords};
ghost use Rattle.gba_inputs.specs.Filled.{filled};
ghost use Rattle.gba_inputs.specs.Law.{AreInputs};
ghost use Rattle.gba_inputs.specs.Views.{images_of, inputs_value};
ghost use Rattle.gba_joblog.specs.Clash.{least as least_of};
ghost use Rattle.gba_joblog.specs.Soundness.{IsJob};
ghost use Rattle.gba_joblog.specs.Views.{job_value};
ghost use Rattle.gba_link.specs.RunPlan.{clash_for as clash_for_words, images_in, job_or_refusal_for, job_plan_for, result_of_run, run_plan, whole_run_plan};
ghost use Rattle.gba_link.specs.Work.{work_value};
ghost use Rattle.gba_run_files.specs.Written.{after_files};
ghost use Rattle.gba_session.specs.Start.{FitJob};

use crate::work::Work;
use gba_command::{Cause, OutputFile, Refusal, RunWords, name_in_report, read_file};
use gba_image::ConsoleImages;
use gba_inputs::{Inputs, fill_job, read_inputs};
use gba_joblog::{Job, JobError, JobKind, LONGEST_JOB, ParseRefused};
use gba_run_files::PreparedRun;
use gba_store::Store;
use gba_terms::NoMemory;
use std::alloc::{AllocError, Global};

/// The lesser of two lines, where both are there.
fn least(a: Option<u64>, b: Option<u64>) -> Option<u64>
    ensures { result ≡ least_of a b }
{
    match (a, b) {
        (Some(m), Some(n)) => { if m <= n { Some(m) } else { Some(n) } }
        (Some(m), None) => Some(m),
        (None, line) => line,
    }
}

/// The line at which a job is refused, since an output file or the one file more is JOB, FROZEN or one of the
/// job's inputs.
fn clash_for(
    job: &Job,
    words: &RunWords<'_>,
    frozen: Option<&str>,
    more: Option<&str>,
) -> Option<u64>
    ensures { result
        ≡ clash_for_words (option_map (λ one. one.now) frozen.entry) (option_map (λ one. one.now) more.entry)
        (run_words_value words.now) (job_value job.now) }
{
    let clash = job.clash(words.job, words.out, more);
    match frozen {
        Some(frozen) => least(clash, job.clash(frozen, words.out, more)),
        None => clash,
    }
}

/// The job that the bytes say, where no output file, and not the one file more, is JOB, FROZEN or one of the
/// job's inputs.
fn accepted_job(
    alloc: Global,
    words: &RunWords<'_>,
    frozen: Option<&str>,
    more: Option<&str>,
    bytes: &[u8],
) -> Result<Job, Refusal>
    requires { length words.now.job.now ≤ 200 }
    ensures agrees { Agrees job_value
        (job_or_refusal_for (option_map (λ one. one.now) frozen.entry) (option_map (λ one. one.now) more.entry)
        (run_words_value words.now) bytes.now) result }
    ensures sound { IfOk result (λ job. IsJob (job_value job)) }
{
    let job = match Job::parse(alloc, bytes) {
        Ok(job) => job,
        Err(ParseRefused::Job(error)) => return Err(Refusal::Refused(Cause::Job(
            name_in_report(words.job),
            error,
        ))),
        Err(ParseRefused::NoMemory) => return Err(Refusal::NoMemory),
    };
    match clash_for(&job, words, frozen, more) {
        None => Ok(job),
        Some(line) => {
            let error = JobError {
                line,
                kind: JobKind::Clash,
            };
            Err(Refusal::Refused(Cause::Job(name_in_report(words.job), error)))
        }
    }
}

/// The images of consoles.
fn images_from(alloc: Global, inputs: Vec<Inputs>) -> Result<Vec<ConsoleImages>, AllocError>
    ensures { IfOk result (λ images. images.items ≡ map images_of inputs.items) }
{
    inputs.into_iter().map(|one| one.images).collect(alloc)
}

/// The job with what was read for it written in, and its images.
pub(crate) fn filled_job(
    alloc: Global,
    mut job: Job,
    mut inputs: Vec<Inputs>,
) -> Result<(Job, Vec<ConsoleImages>), AllocError>
    requires sound { IsJob (job_value job) }
    requires inputs { AllZip AreInputs (job_value job).consoles (map inputs_value inputs.items) }
    ensures filled { IfOk result (λ made. job_value made.0 ≡ filled (job_value job) (map inputs_value inputs.items)) }
    ensures images { IfOk result (λ made. made.1.items ≡ map images_in (map inputs_value inputs.items)) }
    ensures sound { IfOk result (λ made. IsJob (job_value made.0)) }
    ensures fit { IfOk result (λ made. FitJob (job_value made.0) made.1.items) }
{
    fill_job(alloc, &mut job, inputs.as_mut_slice());
    let images = images_from(alloc, inputs)?;
    Ok((job, images))
}

/// Prepares the run of a job with its inputs, which writes these files before its own. All memory is taken.
pub(crate) fn prepare_inputs(
    alloc: Global,
    out: &str,
    first: Vec<OutputFile>,
    job: Job,
    inputs: Vec<Inputs>,
) -> Result<PreparedRun, NoMemory>
    requires out { length out.now ≤ 180 }
    requires sound { IsJob (job_value job) }
    requires inputs { AllZip AreInputs (job_value job).consoles (map inputs_value inputs.items) }
    ensures { IfOk result (λ run. run ≡ after_files (map output_value first.items)
        (result_of_run out.now (job_value job) (map inputs_value inputs.items))) }
{
    let (job, images) = filled_job(alloc, job, inputs)?;
    let run = PreparedRun::new(alloc, out, first, job, images)?;
    Ok(run)
}

/// Reads the inputs of a job and prepares its run.
fn prepare_job<S: Store>(
    alloc: Global,
    store: &mut S,
    words: &RunWords<'_>,
    job: Job,
) -> Result<Work, Refusal>
    requires out { length words.now.out.now ≤ 180 }
    requires sound { IsJob (job_value job) }
    ensures { GoesTo S.gives (run_plan (run_words_value words.now) (job_value job))
        store.old store.new (end_of work_value result) }
{
    let inputs = read_inputs(alloc, store, job.consoles.as_slice())?;
    match prepare_inputs(alloc, words.out, Vec::new(alloc), job, inputs) {
        Ok(run) => Ok(Work::Ready(run)),
        Err(_) => Err(Refusal::NoMemory),
    }
}

/// Reads JOB, which may not be written by what its command does, nor be the one file more, nor name such an input; nor
/// may FROZEN be written.
pub(crate) fn read_job<S: Store>(
    alloc: Global,
    store: &mut S,
    words: &RunWords<'_>,
    frozen: Option<&str>,
    more: Option<&str>,
) -> Result<Job, Refusal>
    requires { AreRunWords (run_words_value words.now) }
    ensures goes { GoesTo S.gives
        (job_plan_for (option_map (λ one. one.now) frozen.entry) (option_map (λ one. one.now) more.entry)
        (run_words_value words.now))
        store.old store.new (end_of job_value result) }
    ensures sound { IfOk result (λ job. IsJob (job_value job)) }
{
    let long = Cause::Job(
        name_in_report(words.job),
        JobError {
            line: 0,
            kind: JobKind::Long,
        },
    );
    let bytes = read_file(alloc, store, words.job, LONGEST_JOB as u64, long)?;
    accepted_job(alloc, words, frozen, more, bytes.as_slice())
}

/// Reads the job of a command and prepares its run.
pub(crate) fn prepare_command<S: Store>(
    alloc: Global,
    store: &mut S,
    words: &RunWords<'_>,
) -> Result<Work, Refusal>
    requires { AreRunWords (run_words_value words.now) }
    ensures { GoesTo S.gives (whole_run_plan (run_words_value words.now))
        store.old store.new (end_of work_value result) }
{
    let job = read_job(alloc, store, words, None, None)?;
    prepare_job(alloc, store, words, job)
}
