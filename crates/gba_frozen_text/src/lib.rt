#![tactic(auto)]
//! The text of a whole frozen file, the law that it is read again as it was, and printers of some of its
//! lines together.

mod freezing;
pub mod laws;
mod memories;
mod numbers;
mod rows;

pub use freezing::Freezing;
pub use memories::add_memory_lines;
pub use numbers::add_numbers;
pub use rows::add_rows;
