#![tactic(auto)]
//! A frozen file as a whole: each of its lines is handed to who keeps what it says.

mod lines;
mod reader;
mod thawing;

pub use reader::{LONGEST_FILE, read_frozen};
pub use thawing::Thawing;
