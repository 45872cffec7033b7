//! The operations of a Thumb statement at its address.

ghost use Rattle.std.specs.Prelude.{◌≡◌, ◌<◌, ◌≤◌, IfSome, option_map};
ghost use Rattle.gba_asm_words.specs.Readers.{target_value};
ghost use Rattle.gba_asm_thumb.specs.Placing.{call as call_of, distance as distance_of, halfwords as halfwords_of, is_within as is_within_of, operations_at as operations_at_of, size_of, target_of};
ghost use Rattle.gba_asm_thumb.specs.Statement.{statement_value};

use crate::statement::ThumbStatement;
use gba_asm_words::Target;
use gba_thumb_table::ThumbOp;

/// How far the branch without a condition reaches, in bytes.
const BRANCH_REACH: u32 = 0x800;

/// How far the branch under a condition reaches.
const BRANCH_IF_REACH: u32 = 0x100;

/// How far BL reaches.
const CALL_REACH: u32 = 0x40_0000;

/// The operations of one statement.
#[derive(Clone, Copy, Debug, PartialEq, Eq)]
pub enum ThumbOps {
    One(ThumbOp),
    /// The two halves of BL.
    Two(ThumbOp, ThumbOp),
}

/// How far a target is from the statement's own address plus 4, modulo 2^32.
fn distance(address: u32, target: u32) -> u32
    ensures { result ≡ distance_of address target }
{
    target.wrapping_sub(address.wrapping_add(4))
}

fn is_within(reach: u32, distance: u32) -> bool
    ensures { result ≡ is_within_of reach distance }
{
    distance < reach || u32::MAX - distance < reach
}

/// The halfwords of a distance within reach, modulo the reach.
fn halfwords(reach: u32, distance: u32) -> Option<u32>
    requires { 0 < reach }
    ensures value { result ≡ halfwords_of reach distance }
    ensures small { IfSome result (λ count. count < reach) }
{
    if distance % 2 == 0 && is_within(reach, distance) {
        Some(distance / 2 % reach)
    } else {
        None
    }
}

fn branch(distance: u32) -> Option<ThumbOps>
    ensures { result ≡ option_map (λ count. ThumbOps.One (ThumbOp.Format18 count)) (halfwords_of 2048 distance) }
{
    let count = halfwords(BRANCH_REACH, distance)?;
    let n11 = count as u16;
    Some(ThumbOps::One(ThumbOp::Format18 { n11 }))
}

fn branch_if(cond: u16, distance: u32) -> Option<ThumbOps>
    ensures { result ≡ option_map (λ count. ThumbOps.One (ThumbOp.Format16 cond count)) (halfwords_of 256 distance) }
{
    let count = halfwords(BRANCH_IF_REACH, distance)?;
    let n8 = count as u16;
    Some(ThumbOps::One(ThumbOp::Format16 { cond, n8 }))
}

fn call(distance: u32) -> Option<ThumbOps>
    ensures { result ≡ option_map call_of (halfwords_of 4194304 distance) }
{
    let count = halfwords(CALL_REACH, distance)?;
    let first = ThumbOp::Format19 {
        second: false,
        n11: (count / 2048) as u16,
    };
    let second = ThumbOp::Format19 {
        second: true,
        n11: (count % 2048) as u16,
    };
    Some(ThumbOps::Two(first, second))
}

impl<'a> ThumbStatement<'a> {
    /// Where the statement leads, if it leads to a target.
    pub fn target(&self) -> Option<Target<'a>>
        ensures { option_map target_value result ≡ target_of (statement_value self.now) }
    {
        match self {
            ThumbStatement::Operation(_) => None,
            ThumbStatement::Branch { target } => Some(*target),
            ThumbStatement::BranchIf { target, .. } => Some(*target),
            ThumbStatement::Call { target } => Some(*target),
        }
    }

    /// The bytes of the statement: 2, and of BL 4.
    pub fn size(&self) -> u32
        ensures value { result ≡ size_of (statement_value self.now) }
        ensures small { result ≤ 4 }
    {
        match self {
            ThumbStatement::Call { .. } => 4,
            _ => 2,
        }
    }

    /// The operations of the statement at this address, whose target, if it has one, is at that one. None where a
    /// number has no encoding. Whether an operation itself has one, `gba_thumb_table::encode` tells.
    #[tactic(auto, unfolding(crate::specs::Placing::operations_at))]
    pub fn operations_at(&self, address: u32, target: u32) -> Option<ThumbOps>
        ensures { result ≡ operations_at_of address target (statement_value self.now) }
    {
        match self {
            ThumbStatement::Operation(op) => op.map(|op| ThumbOps::One(op)),
            ThumbStatement::Branch { .. } => branch(distance(address, target)),
            ThumbStatement::BranchIf { cond, .. } => branch_if(*cond, distance(address, target)),
            ThumbStatement::Call { .. } => call(distance(address, target)),
        }
    }
}
