//! A change of the pressed keys, as the words of a line say it.

ghost use Rattle.std.specs.Prelude.{◌≡◌, ◌<◌, None};
ghost use Rattle.gba_text.specs.Words.{fault_of};
ghost use Rattle.gba_text.specs.Answers.{Agrees};
ghost use Rattle.gba_joblog.specs.Changes.{change_at as change_at_of, least_clock as least_clock_of};

use crate::job::KeyChange;
use crate::kinds::JobKind;
use crate::operands::{end_at, keys_at, number_at};
use gba_text::Cursor;

/// The most key changes of a console.
const MOST_CHANGES: usize = 1_000_000;

/// The greatest clock of a change, in cycles: one less than 2^38.
const MOST_CLOCK: u64 = 274_877_906_943;

/// The least clock that a change after these may have.
#[tactic(auto, unfolding(crate::specs::Changes::least_clock))]
fn least_clock(before: &[KeyChange]) -> u64
    ensures { result ≡ least_clock_of before.now }
{
    if before.is_empty() {
        return 0;
    }
    before[before.len() - 1].clock
}

/// The change that the words left in the line say, after those before it.
#[tactic(auto, unfolding(crate::specs::Changes::change_at))]
pub(crate) fn change_at(before: &[KeyChange], cursor: &mut Cursor<'_>) -> Result<KeyChange, JobKind>
    requires given { 0 < cursor.old.number }
    requires sound { fault_of cursor.old.line ≡ None }
    ensures says { Agrees (λ change. change) result (change_at_of before.now cursor.old.words) }
    ensures number { cursor.new.number ≡ cursor.old.number }
    ensures line { cursor.new.line ≡ cursor.old.line }
    ensures lines { cursor.new.lines ≡ cursor.old.lines }
{
    let clock = number_at(cursor, 0, MOST_CLOCK)?;
    if clock < least_clock(before) {
        return Err(JobKind::Order);
    }
    let keys = keys_at(cursor)?;
    end_at(cursor)?;
    if before.len() >= MOST_CHANGES {
        return Err(JobKind::Long);
    }
    Ok(KeyChange { clock, keys })
}
