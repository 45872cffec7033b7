#![tactic(auto)]
//! One console of a shared table, which steps by what it has heard of the others.

mod lane;
mod pause;

pub use lane::{Lane, LaneParts, LaneRefused};
pub use pause::Pause;
