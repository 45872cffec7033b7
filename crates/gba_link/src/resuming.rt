//! A job that is run on from where it was frozen.

ghost use Rattle.std.specs.Prelude.{◌≡◌, IfOk, map};
ghost use Rattle.std.specs.List.{AllZip};
ghost use Rattle.gba_command.specs.Reading.{GoesTo};
ghost use Rattle.gba_command.specs.Views.{Agrees, cause_value, end_of, resume_words_value};
ghost use Rattle.gba_command.specs.Words.{AreResumeWords};
ghost use Rattle.gba_inputs.specs.Law.{AreInputs};
ghost use Rattle.gba_inputs.specs.Views.{inputs_value};
ghost use Rattle.gba_joblog.specs.Soundness.{IsJob};
ghost use Rattle.gba_joblog.specs.Views.{job_value};
ghost use Rattle.gba_link.specs.ResumePlan.{after_inputs_resumed, frozen_refusal, resume_plan, resumed_plan, run_or_refusal};
ghost use Rattle.gba_link.specs.Work.{run_itself, work_value};

use crate::freezing::unstated_job;
use crate::run::read_job;
use crate::work::Work;
use gba_command::{Cause, Refusal, ResumeWords, name_in_report, read_file};
use gba_frozen::{ThawError, ThawKind};
use gba_frozen_read::LONGEST_FILE;
use gba_inputs::{Inputs, read_inputs};
use gba_joblog::Job;
use gba_run_files::{PreparedResume, log_digest};
use gba_session::start_cut;
use gba_store::Store;
use gba_thaw::laws::{thaws_plainly, thaws_soundly};
use gba_thaw::{ThawRefused, thaw};
use std::alloc::Global;

/// FROZEN is refused at a line.
fn frozen_cause(words: &ResumeWords<'_>, error: ThawError) -> Cause
    requires { AreResumeWords (resume_words_value words.now) }
    ensures { cause_value result ≡ frozen_refusal (resume_words_value words.now) error }
{
    Cause::Frozen(name_in_report(words.frozen), error)
}

/// Prepares the run of a job with its inputs from where the bytes of FROZEN say that it was frozen. All
/// memory is taken.
fn resume_inputs(
    alloc: Global,
    words: &ResumeWords<'_>,
    job: Job,
    inputs: Vec<Inputs>,
    bytes: &[u8],
) -> Result<PreparedResume, Refusal>
    requires words { AreResumeWords (resume_words_value words.now) }
    requires sound { IsJob (job_value job) }
    requires inputs { AllZip AreInputs (job_value job).consoles (map inputs_value inputs.items) }
    ensures { Agrees run_itself
        (run_or_refusal (resume_words_value words.now) (job_value job) (map inputs_value inputs.items) bytes.now)
        result }
{
    thaws_soundly();
    thaws_plainly();
    let Ok((job, images)) = unstated_job(alloc, job, inputs) else {
        return Err(Refusal::NoMemory);
    };
    let Ok(digest) = log_digest(alloc, &job) else {
        return Err(Refusal::NoMemory);
    };
    let Ok(start) = start_cut(alloc, &job, images) else {
        return Err(Refusal::NoMemory);
    };
    let cut = match thaw(alloc, bytes, &digest, job.cycles, start) {
        Ok(cut) => cut,
        Err(ThawRefused::Frozen(error)) => return Err(Refusal::Refused(frozen_cause(words, error))),
        Err(ThawRefused::NoMemory) => return Err(Refusal::NoMemory),
    };
    match PreparedResume::new(alloc, words.run.out, job, cut) {
        Ok(run) => Ok(run),
        Err(_) => Err(Refusal::NoMemory),
    }
}

/// Reads FROZEN, and prepares the run of a job with its inputs from there.
fn resume_frozen<S: Store>(
    alloc: Global,
    store: &mut S,
    words: &ResumeWords<'_>,
    job: Job,
    inputs: Vec<Inputs>,
) -> Result<Work, Refusal>
    requires words { AreResumeWords (resume_words_value words.now) }
    requires sound { IsJob (job_value job) }
    requires inputs { AllZip AreInputs (job_value job).consoles (map inputs_value inputs.items) }
    ensures { GoesTo S.gives
        (after_inputs_resumed (resume_words_value words.now) (job_value job) (map inputs_value inputs.items))
        store.old store.new (end_of work_value result) }
{
    let long = frozen_cause(
        words,
        ThawError {
            line: 0,
            kind: ThawKind::Spelling,
        },
    );
    let bytes = read_file(alloc, store, words.frozen, LONGEST_FILE as u64, long)?;
    let run = resume_inputs(alloc, words, job, inputs, bytes.as_slice())?;
    Ok(Work::Resumed(run))
}

/// Reads the inputs of a job and FROZEN, and prepares its run from there.
fn resume_job<S: Store>(
    alloc: Global,
    store: &mut S,
    words: &ResumeWords<'_>,
    job: Job,
) -> Result<Work, Refusal>
    requires words { AreResumeWords (resume_words_value words.now) }
    requires sound { IsJob (job_value job) }
    ensures { GoesTo S.gives (resumed_plan (resume_words_value words.now) (job_value job))
        store.old store.new (end_of work_value result) }
{
    let inputs = read_inputs(alloc, store, job.consoles.as_slice())?;
    resume_frozen(alloc, store, words, job, inputs)
}

/// Reads the job of a command and prepares its run from where it was frozen.
pub(crate) fn resume_command<S: Store>(
    alloc: Global,
    store: &mut S,
    words: &ResumeWords<'_>,
) -> Result<Work, Refusal>
    requires { AreResumeWords (resume_words_value words.now) }
    ensures { GoesTo S.gives (resume_plan (resume_words_value words.now))
        store.old store.new (end_of work_value result) }
{
    let job = read_job(alloc, store, &words.run, Some(words.frozen), None)?;
    resume_job(alloc, store, words, job)
}
