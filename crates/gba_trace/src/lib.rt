#![tactic(auto)]
//! The steps of consoles on their cable as lines, one for each, in the global order.

mod tracing;
mod way;

pub use tracing::{Traced, trace};
