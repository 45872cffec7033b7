#![tactic(auto)]
//! The dots of sprites, line by line.

mod attributes;
mod draw;
pub mod laws;
mod line;
mod matrix;
mod order;
mod sides;
mod span;
mod sprite;
mod tiles;

pub use line::sprite_line;
