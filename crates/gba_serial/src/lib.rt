#![tactic(auto)]
//! A console's serial unit (GBATEK, GBA Communication Ports): its registers, its transfers, and what it tells its peers
//! by signals. When transfers end, and what units tell each other, is this project's profile.

pub mod laws;
mod serial;
mod timing;
mod transfer;

pub use serial::{Seat, Serial, SerialRegisters, players_of_mask};
pub use transfer::{Running, Transfer};
