//! A source is read and assembled.

ghost use Rattle.std.specs.Prelude.{◌≡◌, ◌≤◌, length};
ghost use Rattle.gba_command.specs.Reading.{GoesTo};
ghost use Rattle.gba_command.specs.Views.{Agrees, bytes_value, end_of, file_words_value, run_value};
ghost use Rattle.gba_command.specs.Words.{AreFileWords};
ghost use Rattle.gba_translate.specs.Translation.{assembled, assembly_plan, source_plan};

use crate::files::write_one;
use gba_asm::{AsmError, AsmKind, AsmRefused, LONGEST_SOURCE, assemble};
use gba_command::{Cause, FileWords, Outputs, Refusal, name_in_report, read_file};
use gba_store::Store;
use std::alloc::Global;

/// The bytes that a source of this name says.
fn judge_source(alloc: Global, name: &str, source: &[u8]) -> Result<Vec<u8>, Refusal>
    requires { length name.now ≤ 200 }
    ensures { Agrees bytes_value (assembled name.now source.now) result }
{
    match assemble(alloc, source) {
        Ok(image) => Ok(image),
        Err(AsmRefused::Source(error)) => Err(Refusal::Refused(Cause::Source(
            name_in_report(name),
            error,
        ))),
        Err(AsmRefused::NoMemory) => Err(Refusal::NoMemory),
    }
}

/// Reads a source and judges it.
fn read_source<S: Store>(alloc: Global, store: &mut S, name: &str) -> Result<Vec<u8>, Refusal>
    requires { length name.now ≤ 200 }
    ensures { GoesTo S.gives (source_plan name.now) store.old store.new
        (end_of bytes_value result) }
{
    let long = Cause::Source(
        name_in_report(name),
        AsmError {
            line: 0,
            kind: AsmKind::Size,
        },
    );
    let source = read_file(alloc, store, name, LONGEST_SOURCE as u64, long)?;
    judge_source(alloc, name, source.as_slice())
}

/// Reads a source and assembles it: what is written is the file of its bytes, and the summary `asm N` with their
/// number. A source that isn't of the language is refused at its first such line, and one of more than 1,073,741,824
/// bytes at line 0.
pub fn assemble_source<S: Store>(
    alloc: Global,
    store: &mut S,
    words: &FileWords<'_>,
) -> Result<Outputs, Refusal>
    requires { AreFileWords (file_words_value words.now) }
    ensures goes { GoesTo S.gives (assembly_plan (file_words_value words.now))
        store.old store.new (end_of run_value result) }
{
    let image = read_source(alloc, store, words.from)?;
    match write_one(alloc, words.to, image, b"asm") {
        Ok(outputs) => Ok(outputs),
        Err(_) => Err(Refusal::NoMemory),
    }
}
