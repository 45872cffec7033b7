#![tactic(auto)]
//! Colours of the picture and their blending: one by one, and lines of them eight at a time.

mod choice;
mod colours;
mod effects;
mod eights;
mod kernels;
mod lanes;

pub use choice::{if_bit, if_less};
pub use colours::{brighter, darker};
pub use eights::{eight_from, put_eight};
pub use kernels::{blend_alpha, brighten, darken};
pub use lanes::{both_lanes, brighter_lanes, darker_lanes};
