#![tactic(auto)]
//! Quick forms: the common shapes of operations, found once when a word is decoded, so that performing them asks
//! nothing more about r15, operands or forms. Each has the effect of its operation.

pub mod laws;
mod making;
mod performing;
mod quick;

pub use making::quick_of_word;
pub use performing::{
    branch, compare_number, compare_plain, load_quick, move_left, move_right, perform_any,
    perform_quick, set_number, set_plain, store_quick, write_number, write_plain,
};
pub use quick::Quick;
