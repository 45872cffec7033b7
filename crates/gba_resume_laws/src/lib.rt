#![tactic(auto)]
//! A job that is frozen and resumed writes what its run writes.

pub mod laws;
