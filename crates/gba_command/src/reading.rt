//! The reads of a command.

ghost use Rattle.std.specs.Prelude.{◌+◌, ◌^◌, ◌≤◌, ◌<◌, IfOk, length};
ghost use Rattle.gba_command.specs.Plan.{file};
ghost use Rattle.gba_command.specs.Reading.{GoesTo};
ghost use Rattle.gba_command.specs.Views.{bytes_value, cause_value, end_of};

use crate::cause::Cause;
use crate::refusal::{Refusal, name_in_report};
use gba_store::{ReadError, Store};
use std::alloc::Global;

/// Reads a file of at most `most` bytes. The store is asked for one byte more, which tells whether the file is longer:
/// then it is refused for the cause `long`.
#[tactic(auto, unfolding(crate::specs::Reading::GoesTo))]
pub fn read_file<S: Store>(
    alloc: Global,
    store: &mut S,
    name: &str,
    most: u64,
    long: Cause,
) -> Result<Vec<u8>, Refusal>
    requires named { length name.now ≤ 200 }
    requires bounded { most + 1 < 2 ^ 64 }
    ensures goes { GoesTo S.gives (file name.now most (cause_value long))
        store.old store.new (end_of bytes_value result) }
    ensures short { IfOk result (λ bytes. length bytes.items ≤ most) }
{
    match store.read(alloc, name, most + 1) {
        Ok(bytes) if bytes.len() as u64 > most => Err(Refusal::Refused(long)),
        Ok(bytes) => Ok(bytes),
        Err(ReadError::Absent) => Err(Refusal::Absent(name_in_report(name))),
        Err(ReadError::Failed) => Err(Refusal::StoreFault(name_in_report(name))),
        Err(ReadError::NoMemory) => Err(Refusal::NoMemory),
    }
}
