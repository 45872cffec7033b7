//! From the words and the files to what is to be done.

ghost use Rattle.std.specs.Prelude.{map, string_bytes};
ghost use Rattle.gba_command.specs.Reading.{GoesTo};
ghost use Rattle.gba_command.specs.Views.{command_value, end_of};
ghost use Rattle.gba_command.specs.Words.{IsCommand};
ghost use Rattle.gba_link.specs.CommandPlan.{plan_of, plan_of_command};
ghost use Rattle.gba_link.specs.Work.{work_value};

use crate::freezing::freeze_command;
use crate::generation::generate;
use crate::resuming::resume_command;
use crate::run::prepare_command;
use crate::tracing::trace_command;
use crate::work::{Work, made};
use gba_command::{Cause, Command, Refusal, command_of};
use gba_dis::Set;
use gba_store::Store;
use gba_translate::{assemble_source, list_image};
use std::alloc::Global;

/// A command, done up to what is to be run and written.
fn do_command<S: Store>(
    alloc: Global,
    store: &mut S,
    command: &Command<'_>,
) -> Result<Work, Refusal>
    requires { IsCommand (command_value command.now) }
    ensures { GoesTo S.gives (plan_of_command (command_value command.now))
        store.old store.new (end_of work_value result) }
{
    match command {
        Command::RunJob(words) => prepare_command(alloc, store, words),
        Command::Assemble(words) => made(assemble_source(alloc, store, words)),
        Command::ListArm(words) => made(list_image(alloc, store, words, Set::Arm)),
        Command::ListThumb(words) => made(list_image(alloc, store, words, Set::Thumb)),
        Command::Generate(words) => generate(alloc, words),
        Command::Trace(words) => made(trace_command(alloc, store, words)),
        Command::Freeze(words) => freeze_command(alloc, store, words),
        Command::Resume(words) => resume_command(alloc, store, words),
    }
}

/// What the words say to do, done up to what is to be run and written: all is read, and all memory is taken.
pub(crate) fn do_words<S: Store>(
    alloc: Global,
    store: &mut S,
    words: &[String],
) -> Result<Work, Refusal>
    ensures { GoesTo S.gives (plan_of (map string_bytes words.now))
        store.old store.new (end_of work_value result) }
{
    match command_of(words) {
        Some(command) => do_command(alloc, store, &command),
        None => Err(Refusal::Refused(Cause::NoCommand)),
    }
}
