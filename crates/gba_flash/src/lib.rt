#![tactic(auto)]
//! The flash of a cartridge: its bytes, and the machine of states that its writes drive.

mod flash;
pub mod laws;
mod machine;
#[cfg(test)]
mod tests;

pub use flash::Flash;
pub use machine::{FlashMachine, FlashState};
