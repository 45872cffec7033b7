//! A frozen file is thawed, and what came of it is compared with what has to come.

ghost use Rattle.gba_joblog.specs.Soundness.{IsJob};
ghost use Rattle.gba_joblog.specs.Views.{job_value};
ghost use Rattle.gba_session.specs.Session.{AreEmpty};

use crate::cases::{Case, Outcome};
use crate::start::{job_of, start_of};
use gba_console::Console;
use gba_frozen::{ThawError, ThawKind};
use gba_joblog::Job;
use gba_session::Session;
use gba_snapshot::{FROZEN_ROOM, freeze};
use gba_store::NoGate;
use gba_thaw::laws::{thaws_plainly, thaws_soundly};
use gba_thaw::{ThawRefused, thaw};
use link_core::Cut;
use std::alloc::Global;
use std::process::Abort;
use std::test::Fail;
use std::thread::Threads;

/// The digest that the files state of their job.
const DIGEST: [u8; 32] = [0x11; 32];

/// The frozen file of consoles on their cable.
fn frozen_file(alloc: Global, cut: &Cut<Console>) -> Result<Vec<u8>, Fail> {
    let mut text = Vec::with_capacity(alloc, FROZEN_ROOM)?;
    freeze(&mut text, &DIGEST, cut);
    Ok(text)
}

/// The refusal that has to come of a file with so many lines.
fn refusal_of(outcome: Outcome, lines: usize) -> Option<ThawRefused> {
    let error = match outcome {
        Outcome::GoesOn {
            summary: _,
            piece: _,
        } => return None,
        Outcome::Refused(line, kind) => ThawError { line, kind },
        Outcome::Unsound => ThawError {
            line: lines as u64,
            kind: ThawKind::Unsound,
        },
    };
    Some(ThawRefused::Frozen(error))
}

/// Bytes as a text, which is empty where they are none.
fn text_in(bytes: &[u8]) -> &str {
    str::from_utf8(bytes).unwrap_or("")
}

/// A piece stands in the frozen file of consoles.
fn has_piece<R: Abort>(
    rt: &R,
    alloc: Global,
    name: &str,
    cut: &Cut<Console>,
    piece: &str,
) -> Result<(), Fail> {
    let file = frozen_file(alloc, cut)?;
    let found = text_in(file.as_slice()).contains(piece);
    assert!(rt; found, "{piece} of {name}");
    Ok(())
}

/// The job has come to its end with this summary, and this piece stands in the frozen file there.
fn ends_so<R: Abort>(
    rt: &R,
    alloc: Global,
    name: &str,
    session: &Session,
    (summary, piece): (&str, &str),
) -> Result<(), Fail> {
    assert!(rt; session.finished());
    let found = session.summary();
    assert_eq!(rt; text_in(found.as_slice()), summary, "of {name}");
    has_piece(rt, alloc, name, session.cut(), piece)
}

/// The consoles run on to the job's end, which is in the first or the second second of the run.
fn goes_on<R: Abort + Threads + Sync>(
    rt: &R,
    alloc: Global,
    name: &str,
    job: &Job,
    cut: Cut<Console>,
    end: (&str, &str),
) -> Result<(), Fail>
    requires sound { IsJob (job_value job.now) }
    requires empty { AreEmpty cut }
{
    assert!(rt; cut.nodes().len() == job.consoles.len());
    let session = Session::resume(alloc, job, cut)?;
    let session = session
        .advance(rt, alloc, &NoGate)
        .advance(rt, alloc, &NoGate);
    ends_so(rt, alloc, name, &session, end)
}

/// What is thawed is frozen again to the same file, and goes on.
fn is_accepted<R: Abort + Threads + Sync>(
    rt: &R,
    alloc: Global,
    name: &str,
    job: &Job,
    file: &str,
    cut: Cut<Console>,
    outcome: Outcome,
) -> Result<(), Fail>
    requires sound { IsJob (job_value job.now) }
    requires empty { AreEmpty cut }
{
    assert!(rt;
        frozen_file(alloc, &cut)?.as_slice() == file.as_bytes(),
        "{name} again"
    );
    match outcome {
        Outcome::GoesOn { summary, piece } => goes_on(rt, alloc, name, job, cut, (summary, piece)),
        _ => panic!(rt; "{name} is accepted"),
    }
}

/// A frozen file of a job comes to this.
pub(crate) fn comes_to<R: Abort + Threads + Sync>(
    rt: &R,
    alloc: Global,
    name: &str,
    job: &str,
    file: &str,
    outcome: Outcome,
) -> Result<(), Fail> {
    thaws_soundly();
    let job = job_of(alloc, job)?;
    let start = start_of(alloc, &job)?;
    match thaw(alloc, file.as_bytes(), &DIGEST, job.cycles, start) {
        Ok(cut) => is_accepted(rt, alloc, name, &job, file, cut, outcome),
        Err(refused) => {
            let wanted = refusal_of(outcome, file.lines().count());
            assert_eq!(rt; Some(refused), wanted, "of {name}");
            Ok(())
        }
    }
}

/// Plays all of them.
pub(crate) fn play_all<R: Abort + Threads + Sync>(
    rt: &R,
    alloc: Global,
    cases: &[Case],
) -> Result<(), Fail> {
    for case in cases {
        let file = case.text(alloc)?;
        comes_to(rt, alloc, case.name, case.job, file.as_str(), case.outcome)?;
    }
    Ok(())
}

// A law answers nothing: that it holds is its contract.
#[test]
fn the_laws_are_stated() {
    thaws_soundly();
    thaws_plainly();
}
