#![tactic(auto)]
//! Tests of rounds: cuts that threads run, compared with the global order.

mod meeter;

pub use meeter::{Meeter, Meeting};

#[cfg(test)]
mod meeting;
#[cfg(test)]
mod schedules;
#[cfg(test)]
mod signals;
#[cfg(test)]
mod whole;
