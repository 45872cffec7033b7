//! What `trace` lists: steps of a job's consoles, from their reset on.

ghost use Rattle.std.specs.Prelude.{◌≡◌, ◌≤◌, ◌<◌, ◌^◌, IfOk, length, map, string_bytes, string_len};
ghost use Rattle.std.specs.List.{AllZip};
ghost use Rattle.gba_command.specs.Reading.{GoesTo};
ghost use Rattle.gba_command.specs.Views.{end_of, run_value, trace_words_value};
ghost use Rattle.gba_command.specs.Words.{AreTraceWords};
ghost use Rattle.gba_inputs.specs.Filled.{filled};
ghost use Rattle.gba_inputs.specs.Law.{AreInputs};
ghost use Rattle.gba_inputs.specs.Views.{inputs_value};
ghost use Rattle.gba_joblog.specs.Soundness.{IsJob};
ghost use Rattle.gba_joblog.specs.Unasked.{unasked};
ghost use Rattle.gba_joblog.specs.Views.{job_value};
ghost use Rattle.gba_link.specs.RunPlan.{images_in};
ghost use Rattle.gba_link.specs.TracePlan.{result_of_trace, start_with, trace_file, trace_plan, traced};
ghost use Rattle.gba_session.specs.Start.{FitJob};
ghost use Rattle.gba_trace.specs.Trace.{trace_count, trace_text};

use crate::run::{filled_job, read_job};
use gba_command::{Outputs, Refusal, TraceWords};
use gba_image::ConsoleImages;
use gba_inputs::{Inputs, read_inputs};
use gba_joblog::Job;
use gba_session::{later_end, start_cut};
use gba_store::Store;
use gba_terms::NoMemory;
use gba_trace::{Traced, trace};
use gba_translate::{count_line, write_file};
use std::alloc::{AllocError, Global};

/// The name of the trace under OUT.
fn trace_name(alloc: Global, out: &str) -> Result<String, AllocError>
    requires { length out.now ≤ 180 }
    ensures name { IfOk result (λ name. string_bytes name ≡ trace_file out.now) }
    ensures short { IfOk result (λ name. string_len name ≤ 200) }
{
    let name = format!(in alloc; "{out}.trace")?;
    Ok(name)
}

/// The job with what was read for it written in and no output asked for, and its images.
fn unasked_job(
    alloc: Global,
    job: Job,
    inputs: Vec<Inputs>,
) -> Result<(Job, Vec<ConsoleImages>), AllocError>
    requires sound { IsJob (job_value job) }
    requires inputs { AllZip AreInputs (job_value job).consoles (map inputs_value inputs.items) }
    ensures filled { IfOk result (λ made. job_value made.0
        ≡ unasked (filled (job_value job) (map inputs_value inputs.items))) }
    ensures images { IfOk result (λ made. made.1.items ≡ map images_in (map inputs_value inputs.items)) }
    ensures sound { IfOk result (λ made. IsJob (job_value made.0)) }
    ensures fit { IfOk result (λ made. FitJob (job_value made.0) made.1.items) }
{
    let (job, images) = filled_job(alloc, job, inputs)?;
    let job = job.without_outputs();
    Ok((job, images))
}

/// The lines of the steps that the words ask for.
fn trace_job(
    alloc: Global,
    first: u64,
    count: u64,
    job: Job,
    inputs: Vec<Inputs>,
) -> Result<Traced, NoMemory>
    requires few { count ≤ 1000000 }
    requires sound { IsJob (job_value job) }
    requires inputs { AllZip AreInputs (job_value job).consoles (map inputs_value inputs.items) }
    ensures text { IfOk result (λ made. made.text.items ≡ trace_text first count (job_value job).cycles
        (start_with (job_value job) (map inputs_value inputs.items))) }
    ensures lines { IfOk result (λ made. made.lines ≡ trace_count first count (job_value job).cycles
        (start_with (job_value job) (map inputs_value inputs.items))) }
{
    let (job, images) = unasked_job(alloc, job, inputs)?;
    let cut = start_cut(alloc, &job, images)?;
    let end = later_end(job.cycles, 0);
    trace(alloc, cut, end, first, count, job.cycles)
}

/// The trace of a job with its inputs, as it is written.
fn trace_inputs(
    alloc: Global,
    words: &TraceWords<'_>,
    name: String,
    job: Job,
    inputs: Vec<Inputs>,
) -> Result<Outputs, NoMemory>
    requires words { AreTraceWords (trace_words_value words.now) }
    requires name { string_bytes name ≡ trace_file words.now.run.out.now }
    requires short { string_len name ≤ 200 }
    requires sound { IsJob (job_value job) }
    requires inputs { AllZip AreInputs (job_value job).consoles (map inputs_value inputs.items) }
    ensures { IfOk result (λ outputs. run_value outputs
        ≡ result_of_trace (trace_words_value words.now) (job_value job) (map inputs_value inputs.items)) }
{
    let made = trace_job(alloc, words.first, words.count, job, inputs)?;
    let outputs = write_file(alloc, name, made.text, count_line(b"trace", made.lines))?;
    Ok(outputs)
}

/// Reads the job of a command and its inputs, and lists the steps.
pub(crate) fn trace_command<S: Store>(
    alloc: Global,
    store: &mut S,
    words: &TraceWords<'_>,
) -> Result<Outputs, Refusal>
    requires { AreTraceWords (trace_words_value words.now) }
    ensures { GoesTo S.gives (trace_plan (trace_words_value words.now))
        store.old store.new (end_of run_value result) }
{
    let Ok(name) = trace_name(alloc, words.run.out) else {
        return Err(Refusal::NoMemory);
    };
    let job = read_job(alloc, store, &words.run, None, Some(name.as_str()))?;
    let inputs = read_inputs(alloc, store, job.consoles.as_slice())?;
    match trace_inputs(alloc, words, name, job, inputs) {
        Ok(outputs) => Ok(outputs),
        Err(_) => Err(Refusal::NoMemory),
    }
}
