#![tactic(auto)]
//! The dots of text backgrounds and their paints, line by line.

mod line;
mod map;
mod paint;
mod painted;
mod tile;

pub use line::text_line;
pub use painted::text_paints;
