#![tactic(auto)]
//! The disassembler: `disassemble` gives the listing of bytes, a source that the assembler turns into the same bytes,
//! and `statement` that of one word or halfword.

mod arm;
pub mod laws;
mod listing;
mod lone;
mod pieces;
mod thumb;
mod units;

pub use gba_terms::NoMemory;
pub use listing::disassemble;
pub use lone::statement;
pub use units::Set;
