#![tactic(auto)]
//! The log of a job: the job in one spelling, which reads as the same job.

mod lengths;
mod printing;

pub use lengths::printed_len;
pub use printing::print;
