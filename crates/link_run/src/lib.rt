#![tactic(auto)]
//! The consoles of a cut on threads. A round makes a lane of each console, lets them advance side by side, and puts
//! their cut together again; rounds follow one another to the end.

mod advance;
mod gather;
mod opening;
mod round;
mod run;

pub use round::{Round, RoundRefused};
pub use run::run_to;
