#![tactic(auto)]
//! The lines of a frozen file, printed, as those of a state file are; and laws that each of them is read
//! again as it was.

pub mod laws;
mod print;

pub use print::{
    ROW_ROOM, add_digest, add_drawn, add_end, add_memory, add_queue, add_row, add_signal,
    add_version, add_wave,
};
