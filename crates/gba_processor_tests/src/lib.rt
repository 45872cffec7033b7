#![tactic(auto)]
//! Tests of the processor's crates over a small memory.

mod ram;

pub use ram::Ram;

#[cfg(test)]
mod arm;
#[cfg(test)]
mod arm_processing;
#[cfg(test)]
mod arm_transfers;
