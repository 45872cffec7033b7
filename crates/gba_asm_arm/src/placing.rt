//! The operation of an ARM statement at its address.

ghost use Rattle.std.specs.Prelude.{◌≡◌, option_map};
ghost use Rattle.gba_asm_words.specs.Readers.{target_value};
ghost use Rattle.gba_asm_arm.specs.Placing.{branch as branch_of, distance as distance_of, is_forward as is_forward_of, load as load_of, operation_at as operation_at_of, target_of, words_of as words_in};
ghost use Rattle.gba_asm_arm.specs.Statement.{statement_value};

use crate::statement::ArmStatement;
use gba_arm_table::{ArmOp, Condition, TransferOffset};
use gba_asm_words::Target;

/// How far a target is from the statement's own address plus 8, modulo 2^32.
fn distance(address: u32, target: u32) -> u32
    ensures { result ≡ distance_of address target }
{
    target.wrapping_sub(address.wrapping_add(8))
}

fn is_forward(distance: u32) -> bool
    ensures { result ≡ is_forward_of distance }
{
    distance < 0x8000_0000
}

/// The words of a distance that is a multiple of 4.
fn words_of(distance: u32) -> i32
    ensures { result ≡ words_in distance }
{
    if is_forward(distance) {
        (distance / 4) as i32
    } else {
        -1 - (!distance / 4) as i32
    }
}

fn branch(cond: Condition, link: bool, distance: u32) -> Option<ArmOp>
    ensures { result ≡ branch_of cond link distance }
{
    if distance % 4 != 0 {
        return None;
    }
    Some(ArmOp::Branch {
        cond,
        link,
        offset: words_of(distance),
    })
}

fn load(cond: Condition, rd: u8, distance: u32) -> ArmOp
    ensures { result ≡ load_of cond rd distance }
{
    let up = is_forward(distance);
    let value = if up {
        distance
    } else {
        distance.wrapping_neg()
    };
    ArmOp::Transfer {
        cond,
        load: true,
        byte: false,
        pre: true,
        up,
        write: false,
        rn: 15,
        rd,
        offset: TransferOffset::Number { value },
    }
}

impl<'a> ArmStatement<'a> {
    /// Where the statement leads, if it leads to a target.
    pub fn target(&self) -> Option<Target<'a>>
        ensures { option_map target_value result ≡ target_of (statement_value self.now) }
    {
        match self {
            ArmStatement::Operation(_) => None,
            ArmStatement::Branch { target, .. } => Some(*target),
            ArmStatement::Load { target, .. } => Some(*target),
        }
    }

    /// The operation of the statement at this address, whose target, if it has one, is at that one. None where a number
    /// has no encoding. Whether the operation itself has one, `gba_arm_table::encode` tells.
    #[tactic(auto, unfolding(crate::specs::Placing::operation_at))]
    pub fn operation_at(&self, address: u32, target: u32) -> Option<ArmOp>
        ensures { result ≡ operation_at_of address target (statement_value self.now) }
    {
        match self {
            ArmStatement::Operation(op) => *op,
            ArmStatement::Branch { cond, link, .. } => {
                branch(*cond, *link, distance(address, target))
            }
            ArmStatement::Load { cond, rd, .. } => Some(load(
                *cond,
                *rd,
                distance(address, target),
            )),
        }
    }
}
