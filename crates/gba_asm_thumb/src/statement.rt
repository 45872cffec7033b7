//! What a Thumb statement says.

use gba_asm_words::Target;
use gba_thumb_table::ThumbOp;

/// A Thumb statement.
#[derive(Clone, Copy, Debug, PartialEq, Eq)]
pub enum ThumbStatement<'a> {
    /// An operation that stands for itself wherever it stands; None where a number has no encoding.
    Operation(Option<ThumbOp>),
    /// B to a target.
    Branch { target: Target<'a> },
    /// B to a target under the condition of number `cond`, 0 to 13.
    BranchIf { cond: u16, target: Target<'a> },
    /// BL to a target, which is two halfwords.
    Call { target: Target<'a> },
}
