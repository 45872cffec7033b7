#![tactic(auto)]
//! The lines of a frozen file: how each is read, in which order they stand, and which line of a file is refused and
//! why. A state file's are spelled as these.
//!
//! Words are parted by one space, and a line is right where it is spelled as it would be printed.

mod kinds;
pub mod laws;
mod lines;
mod pieces;
mod places;
mod rows;
mod script;
mod words;

pub use kinds::{Setup, ThawError, ThawKind};
pub use lines::{FrozenLine, queue_name, read_line};
pub use places::{FIRST_PLACE, MemoryPlace, Place, Slot, is_place, next_place, place_for};
pub use rows::{
    MOST_NUMBERS, Row, Spelling, count, field, is_row, keyword, row_number, row_spelling,
};
pub use script::{is_over, read_next};
