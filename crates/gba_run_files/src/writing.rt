//! The files of a run up to its last one.

ghost use Rattle.std.specs.Prelude.{◌≡◌, ◌≤◌, ◌++◌, ℕ, List, IfOk, IfSome, length, map, option_map};
ghost use Rattle.gba_command.specs.Views.{output_value, write_end};
ghost use Rattle.gba_command.specs.Writing.{PerformsAll, addition, creation};
ghost use Rattle.gba_joblog.specs.Soundness.{IsJob};
ghost use Rattle.gba_joblog.specs.Views.{job_value};
ghost use Rattle.gba_joblog.specs.declared.outputs.PerKind.{PerKind};
ghost use Rattle.gba_run_files.specs.Outputs.{last_output, outputs_of};
ghost use Rattle.gba_run_files.specs.Pieces.{run_pieces};
ghost use Rattle.gba_run_files.specs.Ready.{IsLast, IsReady};
ghost use Rattle.gba_run_files.specs.Views.{names_value};

use crate::creating::create_all;
use crate::names::Names;
use crate::pieces::{append_last, append_segments};
use gba_command::{OutputFile, WriteStop, append_files};
use gba_joblog::Job;
use gba_session::{Digests, Session};
use gba_store::{Gate, Sink};
use std::alloc::Global;
use std::thread::Threads;

/// Runs the consoles and writes all files of a run but for the bytes of its last one, which is made empty with the
/// others where there is one. The first segment is run before a file is made empty; the pieces of a segment are added
/// before the next one is run, and its digests are taken meanwhile where there are any.
pub(crate) fn write_outputs<R: Threads + Sync, O: Sink, G: Gate + Sync>(
    rt: &R,
    alloc: Global,
    out: &mut O,
    first: &[OutputFile],
    names: &[Names],
    job: &Job,
    last: Option<&str>,
    session: Session,
    gate: &G,
    digests: &mut Option<Digests>,
) -> Result<Session, WriteStop>
    requires sound { IsJob (job_value job.now) }
    requires ready { IsReady (job_value job.now) session }
    requires names { length names.now ≡ length (job_value job.now).consoles }
    requires digests { IfSome digests.old (λ before. before ≡ session) }
    requires short { IfSome last (λ name. length name.now ≤ 200) }
    ensures calls { (files : List (PerKind (List ℕ))) (bytes : List ℕ)
        → length files ≡ length (job_value job.now).consoles
        → PerformsAll O.Tells (map creation (map output_value first.now
        ++ (outputs_of (map names_value names.now) (job_value job.now).consoles files
        ++ last_output (option_map (λ name. name.now) last.entry) bytes))
        ++ map addition (map output_value first.now ++ run_pieces (map names_value names.now) session))
        (O.state out.old) (O.state out.new) (write_end result) }
    ensures last { IfOk result (IsLast session) }
    ensures digests { IfOk result (λ last. digests.new ≡ option_map (λ _. last) digests.old) }
{
    let session = session.advance(rt, alloc, gate);
    let consoles = job.consoles.as_slice();
    create_all(out, first, names, consoles, last)?;
    append_files(out, first)?;
    let until = job.cycles;
    let session = append_segments(
        rt, alloc, out, names, consoles, session, until, gate, digests,
    )?;
    append_last(out, names, consoles, &session)?;
    Ok(session)
}
