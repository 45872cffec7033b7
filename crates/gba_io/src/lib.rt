#![tactic(auto)]
//! The board of a console: its memories, its devices and its serial unit, as the bus of its processor, what it makes,
//! and what the cable does to it.

mod base;
mod board;
mod bus;
mod cable;
mod ended;
mod in_step;
pub mod laws;
mod made;
mod parts;
mod pouring;
mod serial;

pub use base::Base;
pub use board::Board;
pub use ended::{Ended, SEGMENT_WORDS};
pub use gba_numbers::MemoryName;
pub use made::{Counts, Made, Room};
pub use parts::Core;
pub use pouring::BoardParts;
