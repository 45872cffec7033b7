#![tactic(auto)]
//! Tests of the shared table on small nodes, by consoles that each keep a node and its seat.

mod console;
mod ticker;

pub use console::Console;
pub use ticker::Ticker;

#[cfg(test)]
mod seated;
#[cfg(test)]
mod tests;
