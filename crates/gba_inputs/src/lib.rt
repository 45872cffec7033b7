#![tactic(auto)]
//! The inputs of a job: the images of its consoles and the changes of their keys, read in the job's order, each checked
//! and compared with the digest that the job states before the next is read; and the job with what was read written in,
//! which its log says.
//!
//! Which files are read, in which order, and what comes of them is one plan (`specs/InputsPlan.antt`).

mod filling;
mod images;
mod inputs;
mod keys;
pub mod laws;
mod reading;

pub use filling::{fill, fill_job};
pub use inputs::{ImageDigests, Inputs};
pub use reading::read_inputs;
