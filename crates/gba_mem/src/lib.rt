#![tactic(auto)]
//! The memories of a console: what is read and written at each address.

mod backup;
pub mod laws;
mod memory;
mod numbers;
mod part;
mod places;
mod start;
mod unchanged;

pub use memory::Memory;
pub use part::MemoryPart;
pub use unchanged::is_in_video;
