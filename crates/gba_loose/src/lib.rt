#![tactic(auto)]
//! The numbers that a frozen file has of a console's board, and what they make of it again.

pub mod laws;
mod reading;

pub use reading::number_of;
