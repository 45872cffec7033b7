#![tactic(auto)]
//!
//! Contracts see [`Tokens`] as a list of tokens. A reader takes its tokens from the front, or refuses the line.

mod kinds;
mod lists;
mod numbers;
mod readers;
mod registers;
mod tokens;

pub use kinds::{AsmError, AsmKind};
pub use lists::list_at;
pub use numbers::number_in;
pub use readers::{Target, target_in};
pub use registers::{is_label, register_in};
pub use tokens::{Token, Tokens, code_of, fault_in};
