#![tactic(auto)]
//! Interrupts, the halt, and the keypad that asks for one of them.

mod interrupts;
mod keypad;

pub use interrupts::{Halt, Interrupts};
pub use keypad::Keypad;
