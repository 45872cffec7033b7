#![tactic(auto)]
//! The top call: the program's words, its files and its outputs.

ghost use Rattle.std.specs.Prelude.{◌≡◌, ℕ, List, Result, map, string_bytes};
ghost use Rattle.gba_store.specs.Files.{Rose};
ghost use Rattle.gba_command.specs.Answer.{Answers, Completes};
ghost use Rattle.gba_command.specs.Cause.{Stop};
ghost use Rattle.gba_command.specs.Plan.{outcome};
ghost use Rattle.gba_command.specs.Reading.{GoesTo};
ghost use Rattle.gba_command.specs.Writing.{Run};
ghost use Rattle.gba_link.specs.CommandPlan.{plan_of};

mod commands;
mod freezing;
mod generation;
pub mod laws;
mod resuming;
mod run;
mod tracing;
mod work;

use crate::commands::do_words;
use crate::work::answer_work;
use gba_store::{Gate, Sink, Store};
use std::alloc::Global;
use std::thread::Threads;

/// Does what the words after the program's name say, and answers the exit status.
///
/// | Status | Report on `-` | Comes |
/// |---|---|---|
/// | 0 | the summary | the command is done and its files are written |
/// | 2 | `words` | the words are no command |
/// | 3 | `absent NAME` | JOB, an image, a key file, FROZEN or a source, the next file to read, isn't there |
/// | 4 | `store NAME` | the store failed in the read of the next file |
/// | 5 | `job NAME line L KIND` | JOB or a key file isn't of its language, an output file would be JOB, FROZEN or an input, or CLOCK is above the job's cycles |
/// | 6 | `image NAME KIND` | the image fails its check, or is too long to be listed; KIND is the first reason |
/// | 7 | `digest NAME stated H got H` | a stated digest isn't that of the file that was read or made |
/// | 8 | `source NAME line L KIND` | the source isn't of the assembly language, first at this line |
/// | 9 | `sink NAME` | the sink failed |
/// | 12 | `frozen NAME line L KIND` | no run goes on from FROZEN, which is first refused at this line; a longer file than 134,217,728 bytes has line 0 |
/// | 10 | `memory` | memory was wanting; it may come in place of any other, and hides no absence and no fault |
///
/// Two clauses say all of it, over every store and sink: `answer`, that the reads made are those of the plan of the
/// words, how they end, and what is written and answered for that end; and `complete`, that where no count of absences
/// or faults rose, it is what the words and the files come to, or memory was wanting. Several consoles run side by side
/// on threads, whose steps enter the gate: both clauses hold however the threads are scheduled and whatever the gate
/// does. This project's profile.
pub fn gba_link<R: Threads + Sync, S: Store, O: Sink, G: Gate + Sync>(
    rt: &R,
    alloc: Global,
    words: &[String],
    store: &mut S,
    out: &mut O,
    gate: &G,
) -> u8
    ensures answer { (end : Result Run Stop)
        × GoesTo S.gives (plan_of (map string_bytes words.now)) store.old store.new end
        × Answers O.Tells result end (O.state out.old) (O.state out.new) }
    ensures complete { S.Tells
        → (Rose (S.absences store.old) (S.absences store.new) → ⊥)
        → (Rose (S.faults store.old) (S.faults store.new) → ⊥)
        → (Rose (O.state out.old).faults (O.state out.new).faults → ⊥)
        → Completes O.Tells result (outcome (S.files store.old) (plan_of (map string_bytes words.now)))
        (O.state out.old) (O.state out.new) }
{
    let work = do_words(alloc, store, words);
    answer_work(rt, alloc, out, work, gate)
}
