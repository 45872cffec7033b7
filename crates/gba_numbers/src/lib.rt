#![tactic(auto)]
//! The numbers of a console as a frozen file has them: their names, their places in the order of the file, their
//! ranges, and a console's numbers together.
//!
//! Beside the memories these are all numbers that a console keeps between two steps.

mod fields;
pub mod laws;
mod names;
mod numbers;
mod places;
mod ranges;

pub use fields::{BoardField, Field};
pub use names::{MemoryName, register_name};
pub use numbers::Numbers;
pub use places::{NUMBERS, is_field, place};
pub use ranges::fits;
