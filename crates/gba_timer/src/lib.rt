#![tactic(auto)]
//! The four timers.

pub mod laws;
mod timer;
mod timers;

pub use timer::Timer;
pub use timers::Timers;
