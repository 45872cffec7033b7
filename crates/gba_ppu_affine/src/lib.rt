#![tactic(auto)]
//! The dots of affine backgrounds and of bitmaps, line by line.

mod affine;
mod bitmap;
pub mod laws;
mod walk;

pub use affine::affine_line;
pub use bitmap::bitmap_line;
