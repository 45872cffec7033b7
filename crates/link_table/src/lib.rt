#![tactic(auto)]
//! The table that consoles on threads share: each publishes its clock and its signals there, and reads those of its
//! peers.

mod joined;
mod key;
mod law;
mod opening;
mod seat;
mod shared;
mod words;

pub use joined::Joined;
pub use key::Key;
pub use link_script as laws;
pub use seat::{Look, Seat};
pub use shared::Shared;
