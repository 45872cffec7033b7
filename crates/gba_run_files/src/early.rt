//! A job up to a clock, and the digest by which a frozen file tells of which job it is.

ghost use Rattle.std.specs.Prelude.{◌≡◌, ◌≤◌, ◌^◌, List, IfOk, map};
ghost use Rattle.gba_image.specs.declared.images.ConsoleImages.{ConsoleImages};
ghost use Rattle.gba_joblog.specs.Soundness.{IsJob};
ghost use Rattle.gba_joblog.specs.Views.{console_value, job_value};
ghost use Rattle.gba_run_files.specs.Frozen.{console_so_far, console_unstated, job_digest as digest_of_job, job_unstated, job_until, unstated as unstated_line};
ghost use Rattle.gba_session.specs.Start.{FitJob};
ghost use Rattle.sha2.specs.Sha256.{sha256};
ghost use Rattle.gba_joblog.specs.Log.{log_text};

use gba_joblog::{Job, JobConsole, OutLine, PerKind, digest_of};
use gba_log::{print, printed_len};
use std::alloc::{AllocError, Global};

/// An output's line without its digest.
fn unstated(line: Option<OutLine>) -> Option<OutLine>
    ensures { result ≡ unstated_line line }
{
    match line {
        None => None,
        Some(_) => Some(OutLine { digest: None }),
    }
}

/// States no digest of the consoles' outputs.
fn unstate_consoles(consoles: &mut [JobConsole])
    ensures { map console_value consoles.new ≡ map console_unstated (map console_value consoles.old) }
{
    for place in 0..consoles.len() {
        let console = &mut consoles[place];
        console.outs = PerKind {
            frames: unstated(console.outs.frames),
            samples: unstated(console.outs.samples),
            words: unstated(console.outs.words),
            state: unstated(console.outs.state),
            save: unstated(console.outs.save),
        };
    }
}

/// Asks the consoles for no state and no save.
fn shorten_consoles(consoles: &mut [JobConsole])
    ensures { map console_value consoles.new ≡ map console_so_far (map console_value consoles.old) }
{
    for place in 0..consoles.len() {
        let console = &mut consoles[place];
        console.outs.state = None;
        console.outs.save = None;
    }
}

fn unstate(job: &mut Job)
    ensures { job_value job.new ≡ job_unstated (job_value job.old) }
{
    unstate_consoles(job.consoles.as_mut_slice());
}

fn shorten(job: &mut Job, clock: u64)
    ensures { job_value job.new ≡ job_until clock (job_value job.old) }
{
    shorten_consoles(job.consoles.as_mut_slice());
    job.cycles = clock;
}

/// The job with no digest of its outputs stated.
pub fn without_digests(mut job: Job) -> Job
    ensures value { job_value result ≡ job_unstated (job_value job) }
    ensures sound { IsJob (job_value job) → IsJob (job_value result) }
    ensures fit { (images : List ConsoleImages) → FitJob (job_value job) images → FitJob (job_value result) images }
{
    unstate(&mut job);
    job
}

/// The job up to a clock from 1 to 2^38. No state and no save is asked for, since these are of the job's own end.
pub fn until_clock(mut job: Job, clock: u64) -> Job
    requires some { 1 ≤ clock }
    requires most { clock ≤ 2 ^ 38 }
    ensures value { job_value result ≡ job_until clock (job_value job) }
    ensures sound { IsJob (job_value job) → IsJob (job_value result) }
    ensures fit { (images : List ConsoleImages) → FitJob (job_value job) images → FitJob (job_value result) images }
{
    shorten(&mut job, clock);
    job
}

/// The SHA-256 digest of a job's log, as far as there is memory for it.
pub fn log_digest(alloc: Global, job: &Job) -> Result<[u8; 32], AllocError>
    requires sound { IsJob (job_value job.now) }
    ensures { IfOk result (λ digest. digest ≡ sha256 (log_text (job_value job.now))) }
{
    let mut text = Vec::with_capacity(alloc, printed_len(job) as usize)?;
    print(job, &mut text);
    Ok(digest_of(text.as_slice()))
}
