#![tactic(auto)]
//! The assembler: `assemble` gives the bytes of a source, or its first refused line.

mod assembly;
mod directives;
mod encoding;
mod kinds;
mod labels;
pub mod laws;
mod places;
mod statements;

pub use assembly::{LONGEST_SOURCE, assemble, assemble_line};
pub use gba_asm_words::{AsmError, AsmKind};
pub use kinds::AsmRefused;
