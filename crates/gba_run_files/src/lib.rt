#![tactic(auto)]
//! A run that is ready: it takes its memory first, then steps the consoles in segments and writes the files of their
//! outputs as these grow, each with its digest taken once, compared and stated in the log; the log; and the end of
//! the summary.

mod creating;
mod early;
mod freezing;
pub mod laws;
mod names;
mod naming;
mod pieces;
mod prepared;
mod resuming;
mod stating;
mod writing;

pub use early::{log_digest, until_clock, without_digests};
pub use freezing::PreparedFreeze;
pub use naming::frozen_name;
pub use prepared::PreparedRun;
pub use resuming::PreparedResume;
