#![tactic(auto)]
//! What the numbers of a board's devices keep to in each run. Each function takes no value; its contract is its law.

pub mod laws;
