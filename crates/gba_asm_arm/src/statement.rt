//! What an ARM statement says.

use gba_arm_table::{ArmOp, Condition};
use gba_asm_words::Target;

/// An ARM statement.
#[derive(Clone, Copy, Debug, PartialEq, Eq)]
pub enum ArmStatement<'a> {
    /// An operation that stands for itself wherever it stands; None where a number has no encoding.
    Operation(Option<ArmOp>),
    /// B, and BL with `link`, to a target.
    Branch {
        cond: Condition,
        link: bool,
        target: Target<'a>,
    },
    /// LDR of the word at a target, which is written without brackets.
    Load {
        cond: Condition,
        rd: u8,
        target: Target<'a>,
    },
}
