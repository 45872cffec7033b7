//! The changes of a console's keys: those that its job says, or those of its key file.

ghost use Rattle.std.specs.Prelude.{◌≡◌, IfOk, IfSome, option_map};
ghost use Rattle.gba_command.specs.Reading.{GoesTo};
ghost use Rattle.gba_command.specs.Views.{Agrees, end_of};
ghost use Rattle.gba_joblog.specs.Soundness.{IsFile};
ghost use Rattle.gba_joblog.specs.Views.{file_value};
ghost use Rattle.gba_inputs.specs.InputsPlan.{any_keys_plan, key_file_plan, keys_or_refusal};
ghost use Rattle.gba_inputs.specs.Views.{changes_value};

use crate::images::{compare, name_of};
use gba_command::{Cause, Refusal, name_in_report, read_file};
use gba_joblog::{FileLine, JobError, JobKind, KeyChange, LONGEST_KEYS, ParseRefused, parse_keys};
use gba_store::Store;
use std::alloc::Global;

/// The changes that a key file says.
fn judge_keys(alloc: Global, file: &FileLine, bytes: &[u8]) -> Result<Vec<KeyChange>, Refusal>
    requires { IsFile (file_value file.now) }
    ensures { Agrees changes_value (keys_or_refusal (file_value file.now) bytes.now) result }
{
    let changes = match parse_keys(alloc, bytes) {
        Ok(changes) => changes,
        Err(ParseRefused::Job(error)) => return Err(Refusal::Refused(Cause::Job(
            name_in_report(name_of(file)),
            error,
        ))),
        Err(ParseRefused::NoMemory) => return Err(Refusal::NoMemory),
    };
    compare(file, bytes)?;
    Ok(changes)
}

/// Reads a key file.
fn read_key_file<S: Store>(
    alloc: Global,
    store: &mut S,
    file: &FileLine,
) -> Result<Vec<KeyChange>, Refusal>
    requires { IsFile (file_value file.now) }
    ensures { GoesTo S.gives (key_file_plan (file_value file.now)) store.old
        store.new (end_of changes_value result) }
{
    let name = name_of(file);
    let long = Cause::Job(
        name_in_report(name),
        JobError {
            line: 0,
            kind: JobKind::Long,
        },
    );
    let bytes = read_file(alloc, store, name, LONGEST_KEYS as u64, long)?;
    judge_keys(alloc, file, bytes.as_slice())
}

fn copy_of(alloc: Global, changes: &[KeyChange]) -> Result<Vec<KeyChange>, Refusal>
    ensures { Agrees changes_value (Ok changes.now) result }
{
    match Vec::from_slice(alloc, changes) {
        Ok(copy) => Ok(copy),
        Err(_) => Err(Refusal::NoMemory),
    }
}

/// Reads the changes that the job says, or those of the key file that it names.
pub(crate) fn read_any_keys<S: Store>(
    alloc: Global,
    store: &mut S,
    changes: &[KeyChange],
    file: &Option<FileLine>,
) -> Result<Vec<KeyChange>, Refusal>
    requires { IfSome (option_map file_value file.now) IsFile }
    ensures { GoesTo S.gives
        (any_keys_plan changes.now (option_map file_value file.now)) store.old store.new (end_of changes_value result) }
{
    match file {
        Some(file) => read_key_file(alloc, store, file),
        None => copy_of(alloc, changes),
    }
}
