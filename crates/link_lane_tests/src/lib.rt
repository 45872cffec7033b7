#![tactic(auto)]
//! Tests of lanes: by one thread, step by step, and on threads, compared with the global order.

mod lanes;

pub use lanes::{advance_all, advance_one, lanes_of};

#[cfg(test)]
mod inbox;
#[cfg(test)]
mod rows;
#[cfg(test)]
mod threads;
