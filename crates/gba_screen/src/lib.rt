#![tactic(auto)]
//! The screen of a console: its memories, and the lines that are drawn of the present frame, which are owed until
//! someone looks.

mod lines;
mod paying;
mod screen;

pub use screen::Screen;
