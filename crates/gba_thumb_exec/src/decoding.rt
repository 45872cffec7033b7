//! Decoding a halfword once.

ghost use Rattle.std.specs.Prelude.{◌≡◌, IfSome};
ghost use Rattle.gba_thumb_exec.specs.Forms.{branch_distance, branch_form, form_of, form_of_half, narrowed};
ghost use Rattle.gba_thumb_table.specs.Limits.{Fits};
ghost use Rattle.gba_thumb_table.specs.Table.{operation};

use crate::meaning::{Meaning, meaning_of};
use crate::{DecodedHalf, Form};
use gba_arm_table::{ComputeOp, Condition};
use gba_exec_quick::{Quick, quick_of_word};
use gba_thumb_table::laws::operations_fit;
use gba_thumb_table::{ThumbOp, decode};
use gba_word::Shift;

/// A halfword, decoded.
pub fn decode_half(half: u16) -> DecodedHalf
    ensures { result.half ≡ half }
{
    operations_fit();
    make_decoded(half, decode(half))
}

/// A halfword with its operation.
pub fn make_decoded(half: u16, op: Option<ThumbOp>) -> DecodedHalf
    requires operation { op ≡ operation half }
    requires fits { IfSome op Fits }
    ensures { result.half ≡ half }
{
    DecodedHalf {
        half,
        form: form_of_half(op),
    }
}

// How a halfword is performed.
fn form_of_half(op: Option<ThumbOp>) -> Form
    requires { IfSome op Fits }
    ensures { result ≡ form_of_half op }
{
    match op {
        Some(op) => form_of(meaning_of(op)),
        None => Form::Quick { quick: Quick::Trap },
    }
}

// A jump by so many halfwords, as a number of bytes.
fn branch_distance(halfwords: u32) -> u32
    ensures { result ≡ branch_distance halfwords }
{
    halfwords.wrapping_mul(2)
}

// The commonest quick forms are forms of their own.
fn narrowed(quick: Quick) -> Form
    ensures { result ≡ narrowed quick }
{
    match quick {
        Quick::AddNumber { rn, rd, value } => Form::AddNumber { rn, rd, value },
        Quick::AddPlain { rn, rd, rm } => Form::AddPlain { rn, rd, rm },
        Quick::MovPlain { rn, rd, rm } => Form::MovPlain { rn, rd, rm },
        Quick::SetAddNumber {
            rn,
            rd,
            value,
            turned,
        } => Form::SetAddNumber {
            rn,
            rd,
            value,
            turned,
        },
        Quick::SetSubNumber {
            rn,
            rd,
            value,
            turned,
        } => Form::SetSubNumber {
            rn,
            rd,
            value,
            turned,
        },
        Quick::SetMovNumber {
            rn,
            rd,
            value,
            turned,
        } => Form::SetMovNumber {
            rn,
            rd,
            value,
            turned,
        },
        Quick::SetNumber {
            op: ComputeOp::Rsb,
            rn,
            rd,
            value,
            turned,
        } => Form::SetRsbNumber {
            rn,
            rd,
            value,
            turned,
        },
        Quick::SetAddPlain { rn, rd, rm } => Form::SetAddPlain { rn, rd, rm },
        Quick::SetSubPlain { rn, rd, rm } => Form::SetSubPlain { rn, rd, rm },
        Quick::SetAndPlain { rn, rd, rm } => Form::SetAndPlain { rn, rd, rm },
        Quick::SetEorPlain { rn, rd, rm } => Form::SetEorPlain { rn, rd, rm },
        Quick::SetAdcPlain { rn, rd, rm } => Form::SetAdcPlain { rn, rd, rm },
        Quick::SetOrrPlain { rn, rd, rm } => Form::SetOrrPlain { rn, rd, rm },
        Quick::SetBicPlain { rn, rd, rm } => Form::SetBicPlain { rn, rd, rm },
        Quick::SetMvnPlain { rn, rd, rm } => Form::SetMvnPlain { rn, rd, rm },
        Quick::SetMovShifted {
            kind: Shift::Lsl,
            rn,
            rd,
            rm,
            amount,
        } => Form::MoveLeft { rn, rd, rm, amount },
        Quick::SetMovShifted {
            kind: Shift::Lsr,
            rn,
            rd,
            rm,
            amount,
        } => Form::MoveRight { rn, rd, rm, amount },
        Quick::CmpNumber { rn, value, turned } => Form::CmpNumber { rn, value, turned },
        Quick::CmpPlain { rn, rm } => Form::CmpPlain { rn, rm },
        Quick::ComparePlain {
            op: ComputeOp::And,
            rn,
            rm,
        } => Form::TstPlain { rn, rm },
        Quick::LoadWord { rn, rd, offset } => Form::LoadWord { rn, rd, offset },
        Quick::LoadByte { rn, rd, offset } => Form::LoadByte { rn, rd, offset },
        Quick::StoreWord { rn, rd, offset } => Form::StoreWord { rn, rd, offset },
        Quick::StoreByte { rn, rd, offset } => Form::StoreByte { rn, rd, offset },
        Quick::Branch { distance } => Form::Branch { distance },
        _ => Form::Quick { quick },
    }
}

// B under a condition by so many bytes.
fn branch_form(condition: Condition, distance: u32) -> Form
    ensures { result ≡ branch_form condition distance }
{
    match condition {
        Condition::Equal => Form::BranchEqual { distance },
        Condition::NotEqual => Form::BranchNotEqual { distance },
        Condition::CarrySet => Form::BranchCarrySet { distance },
        Condition::CarryClear => Form::BranchCarryClear { distance },
        _ => Form::BranchIf {
            condition,
            distance,
        },
    }
}

// How an operation is performed, by its meaning.
fn form_of(meaning: Meaning) -> Form
    ensures { result ≡ form_of meaning }
{
    match meaning {
        Meaning::Arm { operation } => narrowed(quick_of_word(Some(operation))),
        Meaning::NearLoad { rd, words } => Form::NearLoad { rd, words },
        Meaning::NearAddress { rd, words } => Form::NearAddress { rd, words },
        Meaning::BranchIf {
            condition,
            halfwords,
        } => branch_form(condition, branch_distance(halfwords)),
        Meaning::Branch { halfwords } => Form::Branch {
            distance: branch_distance(halfwords),
        },
        Meaning::LinkHigh { n11 } => Form::LinkHigh { n11 },
        Meaning::LinkLow { n11 } => Form::LinkLow { n11 },
    }
}
