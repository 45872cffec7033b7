//! A run that is ready, and its writing.

ghost use Rattle.std.specs.Prelude.{◌≡◌, ◌+◌, ◌≤◌, ◌++◌, ◌∷◌, [], IfOk, length, map, option_map, string_bytes, string_len, true, vec_capacity};
ghost use Rattle.arrayvec.specs.ArrayVec.{array_vec_len};
ghost use Rattle.gba_command.specs.Views.{cause_value, conclusion_value, write_end};
ghost use Rattle.gba_command.specs.Writing.{PerformsAll, addition};
ghost use Rattle.gba_joblog.specs.Log.{log_text};
ghost use Rattle.gba_joblog.specs.Soundness.{IsJob};
ghost use Rattle.gba_joblog.specs.Views.{console_value, job_value};
ghost use Rattle.gba_session.specs.Files.{asks_of};
ghost use Rattle.gba_session.specs.Session.{is_over, whole_cut};
ghost use Rattle.gba_run_files.specs.Law.{digests_room};
ghost use Rattle.gba_run_files.specs.Outputs.{difference_of};
ghost use Rattle.gba_run_files.specs.Views.{names_value};
ghost use Rattle.gba_run_files.specs.Written.{conclusion, files_at, log_line, log_of, summary_lines};

use crate::names::Names;
use crate::naming::{all_names, log_name};
use crate::stating::state_consoles;
use crate::writing::write_outputs;
use gba_command::{Cause, OutputFile, WriteStop, append, close_stopped, close_written};
use gba_image::ConsoleImages;
use gba_joblog::{Job, digest_of, digits_of};
use gba_log::{print, printed_len};
use gba_session::{Digests, Session};
use gba_store::{Gate, Sink};
use gba_terms::NoMemory;
use gba_text::{Line, add_text};
use std::alloc::Global;
use std::marker::Model;
use std::thread::Threads;

/// The most bytes that a log gains once the digests of its outputs are stated.
const DIGESTS_ROOM: u64 = 1_440;

/// Adds the last line of a summary, which has the digest of the log.
fn add_log_line(summary: &mut Line, log: &[u8])
    requires { array_vec_len summary.old ≤ 600 }
    ensures { summary.new.items ≡ summary.old.items ++ log_line log.now }
{
    let digest = digest_of(log);
    add_text(summary, b"log ");
    add_text(summary, &digits_of(&digest));
    add_text(summary, b"\n");
}

/// How a run ends: with its summary, or with the refusal of an output.
fn conclude(cause: Option<Cause>, summary: Line) -> Result<Line, Cause>
    ensures { conclusion_value result ≡ conclusion (option_map cause_value cause) summary.items }
{
    match cause {
        None => Ok(summary),
        Some(cause) => Err(cause),
    }
}

/// States the digests of a finished run's outputs, prints the log into its room, and answers how the run ends.
fn end_log(
    job: &mut Job,
    names: &[Names],
    session: &Session,
    digests: &Digests,
    log: &mut Vec<u8>,
) -> Result<Line, Cause>
    requires sound { IsJob (job_value job.old) }
    requires names { length names.now ≡ length (job_value job.old).consoles }
    requires asks { session.now.asks ≡ map asks_of (job_value job.old).consoles }
    requires over { is_over session.now ≡ true }
    requires digests { digests.now ≡ session.now }
    requires empty { log.old.items ≡ [] }
    requires room { length (log_text (job_value job.old)) + digests_room ≤ vec_capacity log.old }
    ensures log { log.new.items ≡ log_of (job_value job.old) (files_at (job_value job.old) (whole_cut session.now)) }
    ensures end { let files = files_at (job_value job.old) (whole_cut session.now) in
        let cause = difference_of (map names_value names.now) (job_value job.old).consoles files in
        conclusion_value result
        ≡ conclusion cause (summary_lines (whole_cut session.now).consoles ++ log_line log.new.items) }
{
    let cause = state_consoles(job.consoles.as_mut_slice(), names, digests);
    print(job, log);
    let mut summary = session.summary();
    add_log_line(&mut summary, log.as_slice());
    conclude(cause, summary)
}

/// A run that is ready: all memory that it needs is taken, and nothing is written. Contracts see the run that
/// it comes to.
#[derive(Drop)]
pub struct PreparedRun {
    first: Vec<OutputFile>,
    names: Vec<Names>,
    log_name: String,
    job: Job,
    session: Session,
    digests: Digests,
    log: Vec<u8>,
}

impl Model for PreparedRun {
    ghost use Rattle.std.specs.Prelude.{◌≡◌, ◌+◌, ◌≤◌, [], length, map, string_bytes, string_len, vec_capacity};
    ghost use Rattle.gba_command.specs.Views.{output_value};
    ghost use Rattle.gba_command.specs.Writing.{Run};
    ghost use Rattle.gba_joblog.specs.Log.{log_text};
    ghost use Rattle.gba_joblog.specs.Soundness.{IsJob};
    ghost use Rattle.gba_joblog.specs.Views.{job_value};
    ghost use Rattle.gba_run_files.specs.Law.{digests_room};
    ghost use Rattle.gba_run_files.specs.Ready.{IsReady};
    ghost use Rattle.gba_run_files.specs.Views.{names_value};
    ghost use Rattle.gba_run_files.specs.Written.{after_files, run_of};

    ghost Value = { Run };

    ghost view = { λ p. after_files (map output_value p.first.items)
        (run_of (record { consoles = map names_value p.names.items; log = string_bytes p.log_name }) (job_value p.job)
        p.session) };

    ghost invariant = { λ p.
        IsJob (job_value p.job) × IsReady (job_value p.job) p.session
        × (length p.names.items ≡ length (job_value p.job).consoles) × (string_len p.log_name ≤ 200)
        × (p.log.items ≡ []) × (length (log_text (job_value p.job)) + digests_room ≤ vec_capacity p.log)
        × (p.digests ≡ p.session) };
}

impl PreparedRun {
    ghost use Rattle.std.specs.Prelude.{◌≡◌, ◌≤◌, IfOk, length, map};
    ghost use Rattle.gba_command.specs.Answer.{Finishes};
    ghost use Rattle.gba_command.specs.Views.{conclusion_value, output_value, write_end};
    ghost use Rattle.gba_command.specs.Writing.{PerformsAll, file_calls};
    ghost use Rattle.gba_joblog.specs.Soundness.{IsJob};
    ghost use Rattle.gba_joblog.specs.Views.{job_value};
    ghost use Rattle.gba_session.specs.Session.{prepared};
    ghost use Rattle.gba_session.specs.Start.{FitJob};
    ghost use Rattle.gba_run_files.specs.Names.{run_names};
    ghost use Rattle.gba_run_files.specs.Written.{after_files, run_of};

    /// Takes the memory of the run of a job under OUT with these images, those of each console for its backup, which
    /// writes these files before its own. The job is as its log says it, but for the digests of its outputs.
    pub fn new(
        alloc: Global,
        out: &str,
        first: Vec<OutputFile>,
        job: Job,
        images: Vec<ConsoleImages>,
    ) -> Result<PreparedRun, NoMemory>
        requires out { length out.now ≤ 180 }
        requires sound { IsJob (job_value job) }
        requires images { FitJob (job_value job) images.items }
        ensures { IfOk result (λ run. run ≡ after_files (map output_value first.items)
            (run_of (run_names out.now (length (job_value job).consoles)) (job_value job)
            (prepared (job_value job) images.items))) }
    {
        let names = all_names(alloc, out, job.consoles.len())?;
        let log_name = log_name(alloc, out)?;
        let log = Vec::with_capacity(alloc, (printed_len(&job) + DIGESTS_ROOM) as usize)?;
        let session = Session::prepare(alloc, &job, images)?;
        let digests = Digests::new(alloc, &session)?;
        Ok(PreparedRun {
            first,
            names,
            log_name,
            job,
            session,
            digests,
            log,
        })
    }

    /// Runs the consoles and writes the files, and answers how the run ends. The first segment is run before a file is
    /// made empty; the pieces of a segment are added before the next one is run.
    fn write_files<R: Threads + Sync, O: Sink, G: Gate + Sync>(
        self,
        rt: &R,
        alloc: Global,
        out: &mut O,
        gate: &G,
    ) -> Result<Result<Line, Cause>, WriteStop>
        ensures files { PerformsAll O.Tells (file_calls self) (O.state out.old) (O.state out.new) (write_end result) }
        ensures end { IfOk result (λ end. conclusion_value end ≡ self.end) }
    {
        let mut job = self.job;
        let mut log = self.log;
        let first = self.first;
        let log_name = self.log_name;
        let all_names = self.names;
        let names = all_names.as_slice();
        let mut digests = Some(self.digests);
        let session = write_outputs(
            rt,
            alloc,
            out,
            first.as_slice(),
            names,
            &job,
            Some(log_name.as_str()),
            self.session,
            gate,
            &mut digests,
        )?;
        let Some(digests) = digests else {
            unreachable!()
        };
        let end = end_log(&mut job, names, &session, &digests, &mut log);
        append(out, log_name.as_str(), log.as_slice())?;
        Ok(end)
    }

    /// Runs the consoles and writes the run, and answers the exit status. Several consoles step side by side on
    /// threads, where their steps enter the gate.
    pub fn write<R: Threads + Sync, O: Sink, G: Gate + Sync>(
        self,
        rt: &R,
        alloc: Global,
        out: &mut O,
        gate: &G,
    ) -> u8
        ensures { Finishes O.Tells result self (O.state out.old) (O.state out.new) }
    {
        match self.write_files(rt, alloc, out, gate) {
            Ok(end) => close_written(out, &end),
            Err(stop) => close_stopped(out, &stop),
        }
    }
}
