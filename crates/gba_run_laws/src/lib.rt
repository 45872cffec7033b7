#![tactic(auto)]
//! What a console keeps to in each run. Each function takes no value; its contract is its law.

pub mod laws;
