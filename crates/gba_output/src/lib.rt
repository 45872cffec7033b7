#![tactic(auto)]
//! What a run writes of a console: its state file, its save, the words of its transfers and its summary.

mod state;
mod words;

pub use gba_snapshot::STATE_ROOM;
pub use state::{SAVE_ROOM, add_summary, write_save, write_state};
pub use words::{WORDS_ROOM, write_words};
