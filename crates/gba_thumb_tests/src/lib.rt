#![tactic(auto)]
//! Tests of Thumb execution over a small memory whose prices of code go by address and width.

#[cfg(test)]
mod processing;
#[cfg(test)]
mod program_counter;
#[cfg(test)]
mod regions;
#[cfg(test)]
mod start;
#[cfg(test)]
mod transfers;
