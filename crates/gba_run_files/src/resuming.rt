//! A run that goes on from a frozen file, and its writing.

ghost use Rattle.std.specs.Prelude.{◌≡◌, ◌≤◌, IfOk, length, map};
ghost use Rattle.gba_command.specs.Views.{write_end};
ghost use Rattle.gba_command.specs.Writing.{PerformsAll, file_calls};

use crate::names::Names;
use crate::naming::all_names;
use crate::writing::write_outputs;
use gba_command::{Cause, WriteStop, close_stopped, close_written};
use gba_console::Console;
use gba_joblog::Job;
use gba_session::Session;
use gba_store::{Gate, Sink};
use gba_terms::NoMemory;
use gba_text::Line;
use link_core::Cut;
use std::alloc::Global;
use std::marker::Model;
use std::thread::Threads;

/// A run that goes on from a cut and that is ready: all memory that it needs is taken, and nothing is written.
/// Contracts see the run that it comes to.
#[derive(Drop)]
pub struct PreparedResume {
    names: Vec<Names>,
    job: Job,
    session: Session,
}

impl Model for PreparedResume {
    ghost use Rattle.std.specs.Prelude.{◌≡◌, length, map};
    ghost use Rattle.gba_command.specs.Writing.{Run};
    ghost use Rattle.gba_joblog.specs.Soundness.{IsJob};
    ghost use Rattle.gba_joblog.specs.Views.{job_value};
    ghost use Rattle.gba_run_files.specs.Ready.{IsReady};
    ghost use Rattle.gba_run_files.specs.Resumed.{resumed_run};
    ghost use Rattle.gba_run_files.specs.Views.{names_value};

    ghost Value = { Run };

    ghost view = { λ p. resumed_run (map names_value p.names.items) (job_value p.job) p.session };

    ghost invariant = { λ p.
        IsJob (job_value p.job) × IsReady (job_value p.job) p.session
        × (length p.names.items ≡ length (job_value p.job).consoles) };
}

impl PreparedResume {
    ghost use Rattle.std.specs.Prelude.{◌≡◌, ◌≤◌, IfOk, length};
    ghost use Rattle.gba_command.specs.Answer.{Finishes};
    ghost use Rattle.gba_command.specs.Views.{conclusion_value, write_end};
    ghost use Rattle.gba_command.specs.Writing.{PerformsAll, file_calls};
    ghost use Rattle.gba_console.specs.Machine.{without_limit};
    ghost use Rattle.gba_joblog.specs.Soundness.{IsJob};
    ghost use Rattle.gba_joblog.specs.Views.{job_value};
    ghost use Rattle.gba_session.specs.Session.{AreEmpty, resumed};
    ghost use Rattle.gba_run_files.specs.Names.{names_from};
    ghost use Rattle.gba_run_files.specs.Resumed.{resumed_run};
    ghost use Rattle.link_order.specs.Cut.{plain_cut};

    /// Takes the memory of the run of a job under OUT that goes on from this cut.
    pub fn new(
        alloc: Global,
        out: &str,
        job: Job,
        cut: Cut<Console>,
    ) -> Result<PreparedResume, NoMemory>
        requires out { length out.now ≤ 180 }
        requires sound { IsJob (job_value job) }
        requires count { length cut.consoles ≡ length (job_value job).consoles }
        requires empty { AreEmpty cut }
        ensures { IfOk result
            (λ run. run ≡ resumed_run (names_from out.now 0 (length (job_value job).consoles)) (job_value job)
            (resumed (job_value job) (plain_cut without_limit cut))) }
    {
        let names = all_names(alloc, out, job.consoles.len())?;
        let session = Session::resume(alloc, &job, cut)?;
        Ok(PreparedResume {
            names,
            job,
            session,
        })
    }

    /// Runs the consoles, writes the files, and answers the summary. The first segment is run before a file is made
    /// empty; the pieces of a segment are added before the next one is run, and state and save at the end.
    fn write_files<R: Threads + Sync, O: Sink, G: Gate + Sync>(
        self,
        rt: &R,
        alloc: Global,
        out: &mut O,
        gate: &G,
    ) -> Result<Result<Line, Cause>, WriteStop>
        ensures files { PerformsAll O.Tells (file_calls self) (O.state out.old) (O.state out.new) (write_end result) }
        ensures end { IfOk result (λ end. conclusion_value end ≡ self.end) }
    {
        let names = self.names;
        let job = self.job;
        let first = Vec::new(alloc);
        let session = write_outputs(
            rt,
            alloc,
            out,
            first.as_slice(),
            names.as_slice(),
            &job,
            None,
            self.session,
            gate,
            &mut None,
        )?;
        Ok(Ok(session.summary()))
    }

    /// Runs the consoles and writes the run, and answers the exit status. Several consoles step side by side on
    /// threads, where their steps enter the gate.
    pub fn write<R: Threads + Sync, O: Sink, G: Gate + Sync>(
        self,
        rt: &R,
        alloc: Global,
        out: &mut O,
        gate: &G,
    ) -> u8
        ensures { Finishes O.Tells result self (O.state out.old) (O.state out.new) }
    {
        match self.write_files(rt, alloc, out, gate) {
            Ok(end) => close_written(out, &end),
            Err(stop) => close_stopped(out, &stop),
        }
    }
}
