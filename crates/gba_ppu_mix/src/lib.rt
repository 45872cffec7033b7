#![tactic(auto)]
//! The colours of a line: the layers behind one another, windows and blending.

mod blending;
mod eights;
pub mod laws;
mod layers;
mod line;
mod paints;
mod stacks;
mod windows;

pub use gba_ppu_blend::{blend_alpha, brighten, darken};
pub use line::mix_line;
