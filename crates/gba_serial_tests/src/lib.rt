#![tactic(auto)]
//! Tests of the serial unit: worked cases of one unit, and of units that are joined by hand.

#[cfg(test)]
mod serial;
