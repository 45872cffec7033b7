//! What each Thumb operation means.

ghost use Rattle.std.specs.Prelude.{◌≡◌, ◌<◌};
ghost use Rattle.gba_arm_table.specs.Numbers.{condition_of};
ghost use Rattle.gba_thumb_exec.specs.Meanings.{MeaningFits, meaning_of as meaning_by};
ghost use Rattle.gba_thumb_table.specs.Limits.{Fits};

use crate::operations::{
    add_or_subtract, block, full_register, half_by_number, half_by_register, process_full_register,
    process_number, process_register, push_or_pop, shift_by_constant, software_interrupt,
    stack_address, stack_move, stack_transfer, transfer_by_number, transfer_by_register,
};
use gba_arm_table::{ArmOp, Condition, condition_of};
use gba_thumb_table::ThumbOp;
use gba_word::sign_extend;

/// What a Thumb operation means: an ARM operation, or what no ARM operation says.
#[derive(Clone, Copy)]
pub enum Meaning {
    Arm {
        operation: ArmOp,
    },
    /// LDR from so many words above the PC.
    NearLoad {
        rd: u16,
        words: u16,
    },
    /// The address so many words above the PC.
    NearAddress {
        rd: u16,
        words: u16,
    },
    /// B by so many halfwords, a signed number, where the condition holds.
    BranchIf {
        condition: Condition,
        halfwords: u32,
    },
    /// B by so many halfwords, a signed number.
    Branch {
        halfwords: u32,
    },
    /// The first half of BL.
    LinkHigh {
        n11: u16,
    },
    /// The second half of BL.
    LinkLow {
        n11: u16,
    },
}

/// The condition of a number below 16.
fn numbered_condition(number: u16) -> Condition
    requires { number < 16 }
    ensures { result ≡ condition_of number }
{
    condition_of(u32::from(number) << 28)
}

/// What an operation means.
pub fn meaning_of(op: ThumbOp) -> Meaning
    requires { Fits op }
    ensures value { result ≡ meaning_by op }
    ensures fits { MeaningFits result }
{
    let operation = match op {
        ThumbOp::Format1 { op, o5, rs, rd } => shift_by_constant(op, o5, rs, rd),
        ThumbOp::Format2 { i, op, x3, rs, rd } => add_or_subtract(i, op, x3, rs, rd),
        ThumbOp::Format3 { op, rd, n8 } => process_number(op, rd, n8),
        ThumbOp::Format4 { op, rs, rd } => process_register(op, rs, rd),
        ThumbOp::Format5 { op, h1, h2, rs, rd } => process_full_register(
            op,
            full_register(h2, rs),
            full_register(h1, rd),
        ),
        ThumbOp::Format6 { rd, n8 } => return Meaning::NearLoad { rd, words: n8 },
        ThumbOp::Format7 { l, b, ro, rb, rd } => transfer_by_register(l, b, ro, rb, rd),
        ThumbOp::Format8 { h, s, ro, rb, rd } => half_by_register(h, s, ro, rb, rd),
        ThumbOp::Format9 { b, l, o5, rb, rd } => transfer_by_number(b, l, o5, rb, rd),
        ThumbOp::Format10 { l, o5, rb, rd } => half_by_number(l, o5, rb, rd),
        ThumbOp::Format11 { l, rd, n8 } => stack_transfer(l, rd, n8),
        ThumbOp::Format12 { p: false, rd, n8 } => return Meaning::NearAddress { rd, words: n8 },
        ThumbOp::Format12 { p: true, rd, n8 } => stack_address(rd, n8),
        ThumbOp::Format13 { s, n7 } => stack_move(s, n7),
        ThumbOp::Format14 { l, r, list8 } => push_or_pop(l, r, list8),
        ThumbOp::Format15 { l, rb, list8 } => block(l, rb, list8),
        ThumbOp::Format16 { cond, n8 } => return Meaning::BranchIf {
            condition: numbered_condition(cond),
            halfwords: sign_extend(u32::from(n8), 8),
        },
        ThumbOp::Format17 { n8 } => software_interrupt(n8),
        ThumbOp::Format18 { n11 } => return Meaning::Branch {
            halfwords: sign_extend(u32::from(n11), 11),
        },
        ThumbOp::Format19 { second: false, n11 } => return Meaning::LinkHigh { n11 },
        ThumbOp::Format19 { second: true, n11 } => return Meaning::LinkLow { n11 },
    };
    Meaning::Arm { operation }
}
