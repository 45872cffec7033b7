#![tactic(auto)]
//! The devices of a board: their registers, and how they move cycle by cycle. They move late: a step leaves its cycles
//! as a debt, which is paid where something would happen within it, or where a register is read or written. Contracts
//! see devices that owe nothing.

mod devices;
pub mod laws;
mod parts;
mod place;
mod registers;
mod set;

pub use devices::Devices;
pub use parts::DeviceParts;
pub use set::DeviceSet;
