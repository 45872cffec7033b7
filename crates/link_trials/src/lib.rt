#![tactic(auto)]
//! Tests of the cable's crates on small nodes: runs in the global order, compared with a plain second program.

mod beat;
mod checks;
mod mixer;
mod start;

pub use beat::Beat;
pub use checks::may_take;
pub use mixer::{Mixer, cycles, mix_of, signal_of};
pub use start::{begin, drawn, mixers};

#[cfg(test)]
mod interleavings;
#[cfg(test)]
mod plain;
#[cfg(test)]
mod tests;
#[cfg(test)]
mod trial;
