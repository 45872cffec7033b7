#![tactic(auto)]
//! The ARM7TDMI's registers with their banks, the status registers, and exception entry.
//!
//! Contracts see [`Registers`] as the list of the 37 numbers in the order of the register names.

mod apart;
mod banks;
mod condition;
mod exceptions;
mod flag_words;
pub mod laws;
mod registers;

pub use apart::RegisterFile as Registers;
pub use condition::Flags;
pub use exceptions::Exception;
