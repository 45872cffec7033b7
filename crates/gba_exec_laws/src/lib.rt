#![tactic(auto)]
//! What instructions keep of the register file, whatever the bus is. Each function takes no value; its
//! contract is its law.

pub mod laws;
