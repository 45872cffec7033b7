#![tactic(auto)]
//! The generator: of a number it makes the BIOS images of four consoles that send each other words, and of a number of
//! cycles the job that runs them.

mod bios;
mod job;
pub mod laws;
mod names;

pub use bios::make_bios;
pub use job::{job_text, make_job};
pub use names::{bios_name, job_name};
