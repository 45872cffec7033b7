#![tactic(auto)]
//! The picture's registers and its position.

pub mod laws;
mod position;
mod reference;
mod registers;

pub use position::{PictureEvents, Position};
pub use reference::Reference;
pub use registers::PictureRegisters;
