#![tactic(auto)]
//! The words over numbers, lists and bytes that the definitions of several crates cite, in `specs/`: bit fields,
//! hexadecimal text and the names of the registers. Beside them the one refusal that many calls have.

use std::alloc::AllocError;

/// Memory was wanting.
#[derive(Clone, Copy, Debug, PartialEq, Eq)]
pub struct NoMemory;

impl From<AllocError> for NoMemory {
    fn from(_refusal: AllocError) -> NoMemory {
        NoMemory
    }
}
