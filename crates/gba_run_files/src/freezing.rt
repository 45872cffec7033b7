//! A run that is frozen at a clock, and its writing.

ghost use Rattle.std.specs.Prelude.{◌≡◌, ◌+◌, ◌≤◌, ◌++◌, [], IfOk, length, map, string_bytes, string_len, vec_capacity};
ghost use Rattle.gba_command.specs.Views.{write_end};
ghost use Rattle.gba_command.specs.Writing.{PerformsAll, file_calls};

use crate::names::Names;
use crate::naming::{all_names, frozen_name};
use crate::writing::write_outputs;
use gba_command::{Cause, WriteStop, append, close_stopped, close_written};
use gba_image::ConsoleImages;
use gba_joblog::Job;
use gba_session::Session;
use gba_snapshot::{FROZEN_ROOM, freeze};
use gba_store::{Gate, Sink};
use gba_terms::NoMemory;
use gba_text::Line;
use std::alloc::Global;
use std::marker::Model;
use std::thread::Threads;

/// A run that is ready and that is frozen at its end: all memory that it needs is taken, and nothing is written.
/// Contracts see the run that it comes to.
#[derive(Drop)]
pub struct PreparedFreeze {
    names: Vec<Names>,
    name: String,
    job: Job,
    digest: [u8; 32],
    session: Session,
    text: Vec<u8>,
}

impl Model for PreparedFreeze {
    ghost use Rattle.std.specs.Prelude.{◌≡◌, ◌≤◌, [], length, map, string_bytes, string_len, vec_capacity};
    ghost use Rattle.gba_command.specs.Writing.{Run};
    ghost use Rattle.gba_joblog.specs.Soundness.{IsJob};
    ghost use Rattle.gba_joblog.specs.Views.{job_value};
    ghost use Rattle.gba_run_files.specs.Frozen.{frozen_run};
    ghost use Rattle.gba_run_files.specs.Ready.{IsReady};
    ghost use Rattle.gba_run_files.specs.Views.{names_value};

    ghost Value = { Run };

    ghost view = { λ p. frozen_run (record { consoles = map names_value p.names.items; log = string_bytes p.name })
        (job_value p.job) p.digest p.session };

    ghost invariant = { λ p.
        IsJob (job_value p.job) × IsReady (job_value p.job) p.session
        × (length p.names.items ≡ length (job_value p.job).consoles) × (string_len p.name ≤ 200)
        × (p.text.items ≡ []) × (6745374 ≤ vec_capacity p.text) };
}

impl PreparedFreeze {
    ghost use Rattle.std.specs.Prelude.{◌≡◌, ◌≤◌, IfOk, length};
    ghost use Rattle.gba_command.specs.Answer.{Finishes};
    ghost use Rattle.gba_command.specs.Views.{conclusion_value, write_end};
    ghost use Rattle.gba_command.specs.Writing.{PerformsAll, file_calls};
    ghost use Rattle.gba_joblog.specs.Soundness.{IsJob};
    ghost use Rattle.gba_joblog.specs.Views.{job_value};
    ghost use Rattle.gba_session.specs.Session.{prepared};
    ghost use Rattle.gba_session.specs.Start.{FitJob};
    ghost use Rattle.gba_run_files.specs.Frozen.{freeze_names, frozen_run};

    /// Takes the memory of the run of a job under OUT with these images, those of each console for its backup, which is
    /// frozen at the job's end, for the job of this digest.
    pub fn new(
        alloc: Global,
        out: &str,
        job: Job,
        digest: [u8; 32],
        images: Vec<ConsoleImages>,
    ) -> Result<PreparedFreeze, NoMemory>
        requires out { length out.now ≤ 180 }
        requires sound { IsJob (job_value job) }
        requires images { FitJob (job_value job) images.items }
        ensures { IfOk result
            (λ run. run ≡ frozen_run (freeze_names out.now (length (job_value job).consoles)) (job_value job)
            digest (prepared (job_value job) images.items)) }
    {
        let names = all_names(alloc, out, job.consoles.len())?;
        let name = frozen_name(alloc, out)?;
        let text = Vec::with_capacity(alloc, FROZEN_ROOM)?;
        let session = Session::prepare(alloc, &job, images)?;
        Ok(PreparedFreeze {
            names,
            name,
            job,
            digest,
            session,
            text,
        })
    }

    /// Runs the consoles, writes the files, and answers the summary. The first segment is run before a file is made
    /// empty; the pieces of a segment are added before the next one is run, and the frozen file at the end.
    fn write_files<R: Threads + Sync, O: Sink, G: Gate + Sync>(
        self,
        rt: &R,
        alloc: Global,
        out: &mut O,
        gate: &G,
    ) -> Result<Result<Line, Cause>, WriteStop>
        ensures files { PerformsAll O.Tells (file_calls self) (O.state out.old) (O.state out.new) (write_end result) }
        ensures end { IfOk result (λ end. conclusion_value end ≡ self.end) }
    {
        let mut text = self.text;
        let names = self.names;
        let name = self.name;
        let job = self.job;
        let digest = self.digest;
        let first = Vec::new(alloc);
        let session = write_outputs(
            rt,
            alloc,
            out,
            first.as_slice(),
            names.as_slice(),
            &job,
            Some(name.as_str()),
            self.session,
            gate,
            &mut None,
        )?;
        session.ends_whole();
        freeze(&mut text, &digest, session.cut());
        append(out, name.as_str(), text.as_slice())?;
        Ok(Ok(session.summary()))
    }

    /// Runs the consoles and writes the run, and answers the exit status. Several consoles step side by side on
    /// threads, where their steps enter the gate.
    pub fn write<R: Threads + Sync, O: Sink, G: Gate + Sync>(
        self,
        rt: &R,
        alloc: Global,
        out: &mut O,
        gate: &G,
    ) -> u8
        ensures { Finishes O.Tells result self (O.state out.old) (O.state out.new) }
    {
        match self.write_files(rt, alloc, out, gate) {
            Ok(end) => close_written(out, &end),
            Err(stop) => close_stopped(out, &stop),
        }
    }
}
