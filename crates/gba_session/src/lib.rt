#![tactic(auto)]
//! A session: the consoles of a job, from their reset to the outputs that they are asked for, in segments.

mod digests;
mod player;
mod running;
mod session;
mod starting;

pub use digests::{Digests, are_worth_threads};
pub use running::{forget_all, later_end};
pub use session::Session;
pub use starting::start_cut;
