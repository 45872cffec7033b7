#![tactic(auto)]
//! The consoles of a job go on from what a frozen file says of them.

mod checks;
mod console;
mod cut;
mod file;
pub mod laws;
mod stored;

pub use console::whole;
pub use file::{ThawRefused, thaw};
