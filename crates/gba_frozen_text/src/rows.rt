//! The rows of a console.

ghost use Rattle.std.specs.Prelude.{◌≡◌, ◌+◌, ◌*◌, ◌≤◌, ◌++◌, true, length, map, vec_len, vec_capacity};
ghost use Rattle.std.specs.List.{list_all};
ghost use Rattle.gba_frozen.specs.Rows.{count_of, fits_spelling, is_row, spelling_of};
ghost use Rattle.gba_frozen_print.specs.Printed.{ended};
ghost use Rattle.gba_frozen_text.specs.Text.{row_of, row_values as row_values_of, said_line, says_text};

use crate::freezing::Freezing;
use arrayvec::ArrayVec;
use gba_frozen::{Row, count, field};
use gba_frozen_print::add_row;

/// The numbers of a row, in its order.
fn row_values<S: Freezing>(source: &S, row: Row) -> ArrayVec<u64, 8>
    requires { is_row row ≡ true }
    ensures values { result.items ≡ row_values_of row 0 (count_of row) (S.numbers source.now) }
    ensures fit { list_all (fits_spelling (spelling_of row)) result.items ≡ true }
{
    let mut values = ArrayVec::new();
    for part in 0..count(row) {
        values.push(source.value(field(row, part)));
    }
    values
}

/// Adds a row of a console with its line feed: 193 bytes are enough for any.
#[tactic(auto, unfolding(crate::specs::Text::said_line))]
fn add_row_of<S: Freezing>(into: &mut Vec<u8>, source: &S, row: Row)
    requires row { is_row row ≡ true }
    requires room { vec_len into.old + 193 ≤ vec_capacity into.old }
    ensures items { into.new.items ≡ into.old.items ++ ended (said_line (row_of (S.numbers source.now) row)) }
    ensures len { vec_len into.new ≤ vec_len into.old + 193 }
    ensures room { vec_capacity into.old ≤ vec_capacity into.new }
{
    let values = row_values(source, row);
    add_row(into, row, values.as_slice());
}

/// Adds rows of a console, each with its line feed: 193 bytes for each are enough.
pub fn add_rows<S: Freezing>(into: &mut Vec<u8>, source: &S, rows: &[Row])
    requires rows { list_all is_row rows.now ≡ true }
    requires room { vec_len into.old + 193 * length rows.now ≤ vec_capacity into.old }
    ensures items { into.new.items ≡ into.old.items ++ says_text (map (row_of (S.numbers source.now)) rows.now) }
    ensures len { vec_len into.new ≤ vec_len into.old + 193 * length rows.now }
    ensures room { vec_capacity into.old ≤ vec_capacity into.new }
{
    for row in rows {
        add_row_of(into, source, *row);
    }
}
