#![tactic(auto)]
//! The four tone channels: two square waves, a wave of digits, and noise, with their registers.

mod four;
pub mod laws;
mod noise;
mod square;
mod tone;
mod tones;
mod wave;

pub use tone::Tone;
pub use tones::Tones;
