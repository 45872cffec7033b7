#![tactic(auto)]
//! What is written of a console's steps: a line for each.

mod step;

pub use step::step_line;
