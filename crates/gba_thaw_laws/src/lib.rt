#![tactic(auto)]
//! What a frozen file says of a console makes it again.

pub mod laws;
