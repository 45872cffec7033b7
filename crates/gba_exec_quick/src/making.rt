//! Which quick form an operation has.

ghost use Rattle.std.specs.Prelude.{◌≡◌, ◌<◌, true};
ghost use Rattle.gba_exec_transfers.specs.Plain.{is_plain};
ghost use Rattle.gba_exec_quick.specs.Making.{
  block_form,
  compare_form,
  compare_number_form,
  compare_plain_form,
  compare_shifted,
  compute_form,
  compute_shifted,
  general_block,
  general_transfer,
  half_form,
  is_lsl,
  number_form,
  number_transfer,
  plain_block,
  plain_form,
  plain_transfer,
  quick_of,
  quick_of_word,
  set_number_form,
  set_plain_form,
  set_shifted_form,
  signed_offset,
};

use crate::Quick;
use gba_arm_table::{ArmOp, ComputeOp, HalfKind, HalfOffset, Operand, TransferOffset};
use gba_bus::Width;
use gba_exec_registers::compute_op_of;
use gba_exec_transfers::{BlockTransfer, LoadUnit, SingleTransfer, is_plain, plain_of};
use gba_word::{Shift, rotate};

/// The quick form of a word's operation.
pub fn quick_of_word(op: Option<ArmOp>) -> Quick
    ensures { result ≡ quick_of_word op }
{
    match op {
        Some(op) => quick_of(op),
        None => Quick::Trap,
    }
}

// The quick form of an operation.
#[tactic(auto, unfolding(crate::specs::Making::quick_of))]
fn quick_of(whole: ArmOp) -> Quick
    ensures { result ≡ quick_of whole }
{
    match whole {
        ArmOp::Compute {
            op,
            set,
            rn,
            rd,
            operand,
            ..
        } => if rn == 15 || rd == 15 {
            Quick::Other { op: whole }
        } else {
            compute_form(whole, op, set, rn, rd, operand)
        },
        ArmOp::Compare {
            op,
            rn,
            operand,
            ..
        } => if rn == 15 {
            Quick::Other { op: whole }
        } else {
            compare_form(whole, compute_op_of(op), rn, operand)
        },
        ArmOp::Transfer {
            load,
            byte,
            pre,
            up,
            write,
            rn,
            rd,
            offset,
            ..
        } => match offset {
            TransferOffset::Number { value } => {
                let distance = value;
                number_transfer(
                    load,
                    byte,
                    SingleTransfer {
                        pre,
                        up,
                        write,
                        rn,
                        rd,
                        distance,
                    },
                )
            }
            TransferOffset::Shifted { .. } => Quick::Other { op: whole },
        },
        ArmOp::Half {
            kind,
            pre,
            up,
            write,
            rn,
            rd,
            offset,
            ..
        } => match offset {
            HalfOffset::Number { value } => {
                let distance = value;
                half_form(
                    kind,
                    SingleTransfer {
                        pre,
                        up,
                        write,
                        rn,
                        rd,
                        distance,
                    },
                )
            }
            HalfOffset::Plain { .. } => Quick::Other { op: whole },
        },
        ArmOp::Block {
            load,
            pre,
            up,
            user,
            write,
            rn,
            list,
            ..
        } => {
            let block = BlockTransfer {
                pre,
                up,
                user,
                write,
                rn,
                list,
            };
            block_form(load, block)
        }
        ArmOp::Branch { link, offset, .. } => {
            let distance = offset.cast_unsigned().wrapping_mul(4);
            if link {
                Quick::BranchLink { distance }
            } else {
                Quick::Branch { distance }
            }
        }
        ArmOp::Exchange { .. }
        | ArmOp::Multiply { .. }
        | ArmOp::MultiplyLong { .. }
        | ArmOp::Swap { .. }
        | ArmOp::ReadStatus { .. }
        | ArmOp::WriteStatus { .. }
        | ArmOp::Interrupt { .. } => Quick::Other { op: whole },
    }
}

fn compute_form(whole: ArmOp, op: ComputeOp, set: bool, rn: u8, rd: u8, operand: Operand) -> Quick
    ensures { result ≡ compute_form whole op set rn rd operand }
{
    match operand {
        Operand::Immediate { value, turn } => {
            let value = rotate(u32::from(value), 2 * u32::from(turn));
            if set {
                set_number_form(op, rn, rd, value, turn != 0)
            } else {
                number_form(op, rn, rd, value)
            }
        }
        Operand::Fixed { rm, kind, amount } => compute_shifted(
            whole, op, set, rn, rd, rm, kind, amount,
        ),
        Operand::ByRegister { .. } => Quick::Other { op: whole },
    }
}

fn compute_shifted(
    whole: ArmOp,
    op: ComputeOp,
    set: bool,
    rn: u8,
    rd: u8,
    rm: u8,
    kind: Shift,
    amount: u8,
) -> Quick
    ensures { result ≡ compute_shifted whole op set rn rd rm kind amount }
{
    if rm == 15 {
        Quick::Other { op: whole }
    } else if amount == 0 {
        if !is_lsl(kind) {
            Quick::Other { op: whole }
        } else if set {
            set_plain_form(op, rn, rd, rm)
        } else {
            plain_form(op, rn, rd, rm)
        }
    } else if set {
        set_shifted_form(op, rn, rd, rm, kind, amount)
    } else {
        Quick::Shifted {
            op,
            rn,
            rd,
            rm,
            kind,
            amount,
        }
    }
}

fn compare_form(whole: ArmOp, op: ComputeOp, rn: u8, operand: Operand) -> Quick
    ensures { result ≡ compare_form whole op rn operand }
{
    match operand {
        Operand::Immediate { value, turn } => {
            let value = rotate(u32::from(value), 2 * u32::from(turn));
            compare_number_form(op, rn, value, turn != 0)
        }
        Operand::Fixed { rm, kind, amount } => compare_shifted(whole, op, rn, rm, kind, amount),
        Operand::ByRegister { .. } => Quick::Other { op: whole },
    }
}

fn compare_shifted(whole: ArmOp, op: ComputeOp, rn: u8, rm: u8, kind: Shift, amount: u8) -> Quick
    ensures { result ≡ compare_shifted whole op rn rm kind amount }
{
    if rm == 15 {
        Quick::Other { op: whole }
    } else if amount == 0 {
        if is_lsl(kind) {
            compare_plain_form(op, rn, rm)
        } else {
            Quick::Other { op: whole }
        }
    } else {
        Quick::CompareShifted {
            op,
            rn,
            rm,
            kind,
            amount,
        }
    }
}

fn is_lsl(kind: Shift) -> bool
    ensures { result ≡ is_lsl kind }
{
    match kind {
        Shift::Lsl => true,
        Shift::Lsr | Shift::Asr | Shift::Ror => false,
    }
}

// LDR, STR, LDRB and STRB by a number.
fn number_transfer(load: bool, byte: bool, one: SingleTransfer) -> Quick
    ensures { result ≡ number_transfer load byte one }
{
    if one.pre && !one.write && one.rn != 15 && one.rd != 15 {
        plain_transfer(
            load,
            byte,
            one.rn,
            one.rd,
            signed_offset(one.up, one.distance),
        )
    } else {
        general_transfer(load, byte, one)
    }
}

fn signed_offset(up: bool, distance: u32) -> u32
    ensures { result ≡ signed_offset up distance }
{
    if up {
        distance
    } else {
        0u32.wrapping_sub(distance)
    }
}

fn plain_transfer(load: bool, byte: bool, rn: u8, rd: u8, offset: u32) -> Quick
    ensures { result ≡ plain_transfer load byte rn rd offset }
{
    match (load, byte) {
        (true, true) => Quick::LoadByte { rn, rd, offset },
        (true, false) => Quick::LoadWord { rn, rd, offset },
        (false, true) => Quick::StoreByte { rn, rd, offset },
        (false, false) => Quick::StoreWord { rn, rd, offset },
    }
}

fn general_transfer(load: bool, byte: bool, one: SingleTransfer) -> Quick
    ensures { result ≡ general_transfer load byte one }
{
    if load {
        Quick::LoadSingle {
            unit: if byte { LoadUnit::Byte } else { LoadUnit::Word },
            one,
        }
    } else {
        Quick::StoreSingle {
            width: if byte { Width::Byte } else { Width::Word },
            one,
        }
    }
}

fn half_form(kind: HalfKind, one: SingleTransfer) -> Quick
    ensures { result ≡ half_form kind one }
{
    match kind {
        HalfKind::StoreHalf => Quick::StoreSingle {
            width: Width::Half,
            one,
        },
        HalfKind::LoadHalf => Quick::LoadSingle {
            unit: LoadUnit::Half,
            one,
        },
        HalfKind::LoadSignedByte => Quick::LoadSingle {
            unit: LoadUnit::SignedByte,
            one,
        },
        HalfKind::LoadSignedHalf => Quick::LoadSingle {
            unit: LoadUnit::SignedHalf,
            one,
        },
    }
}

// LDM and STM.
fn block_form(load: bool, block: BlockTransfer) -> Quick
    ensures { result ≡ block_form load block }
{
    if is_plain(block) {
        plain_block(load, block)
    } else {
        general_block(load, block)
    }
}

fn plain_block(load: bool, block: BlockTransfer) -> Quick
    requires { is_plain block ≡ true }
    ensures { result ≡ plain_block load block }
{
    let plain = plain_of(block);
    if load {
        Quick::LoadPlain { plain }
    } else {
        Quick::StorePlain { plain }
    }
}

fn general_block(load: bool, block: BlockTransfer) -> Quick
    ensures { result ≡ general_block load block }
{
    if load {
        Quick::LoadBlock { block }
    } else {
        Quick::StoreBlock { block }
    }
}

// Data processing of a register and a number, without S.
fn number_form(op: ComputeOp, rn: u8, rd: u8, value: u32) -> Quick
    ensures { result ≡ number_form op rn rd value }
{
    match op {
        ComputeOp::Add => Quick::AddNumber { rn, rd, value },
        ComputeOp::Sub => Quick::SubNumber { rn, rd, value },
        ComputeOp::And => Quick::AndNumber { rn, rd, value },
        ComputeOp::Orr => Quick::OrrNumber { rn, rd, value },
        ComputeOp::Bic => Quick::BicNumber { rn, rd, value },
        ComputeOp::Mov => Quick::MovNumber { rn, rd, value },
        _ => Quick::Number { op, rn, rd, value },
    }
}

// Data processing with S of a register and a number.
fn set_number_form(op: ComputeOp, rn: u8, rd: u8, value: u32, turned: bool) -> Quick
    ensures { result ≡ set_number_form op rn rd value turned }
{
    match op {
        ComputeOp::Add => Quick::SetAddNumber {
            rn,
            rd,
            value,
            turned,
        },
        ComputeOp::Sub => Quick::SetSubNumber {
            rn,
            rd,
            value,
            turned,
        },
        ComputeOp::Mov => Quick::SetMovNumber {
            rn,
            rd,
            value,
            turned,
        },
        _ => Quick::SetNumber {
            op,
            rn,
            rd,
            value,
            turned,
        },
    }
}

// Data processing with S of two registers.
fn set_plain_form(op: ComputeOp, rn: u8, rd: u8, rm: u8) -> Quick
    ensures { result ≡ set_plain_form op rn rd rm }
{
    match op {
        ComputeOp::Add => Quick::SetAddPlain { rn, rd, rm },
        ComputeOp::Sub => Quick::SetSubPlain { rn, rd, rm },
        ComputeOp::And => Quick::SetAndPlain { rn, rd, rm },
        ComputeOp::Eor => Quick::SetEorPlain { rn, rd, rm },
        ComputeOp::Adc => Quick::SetAdcPlain { rn, rd, rm },
        ComputeOp::Orr => Quick::SetOrrPlain { rn, rd, rm },
        ComputeOp::Bic => Quick::SetBicPlain { rn, rd, rm },
        ComputeOp::Mvn => Quick::SetMvnPlain { rn, rd, rm },
        _ => Quick::SetPlain { op, rn, rd, rm },
    }
}

// Data processing with S of a register and a shifted register.
fn set_shifted_form(op: ComputeOp, rn: u8, rd: u8, rm: u8, kind: Shift, amount: u8) -> Quick
    ensures { result ≡ set_shifted_form op rn rd rm kind amount }
{
    match op {
        ComputeOp::Mov => Quick::SetMovShifted {
            rn,
            rd,
            rm,
            kind,
            amount,
        },
        _ => Quick::SetShifted {
            op,
            rn,
            rd,
            rm,
            kind,
            amount,
        },
    }
}

// The flags of a register and a number.
fn compare_number_form(op: ComputeOp, rn: u8, value: u32, turned: bool) -> Quick
    ensures { result ≡ compare_number_form op rn value turned }
{
    match op {
        ComputeOp::Sub => Quick::CmpNumber { rn, value, turned },
        _ => Quick::CompareNumber {
            op,
            rn,
            value,
            turned,
        },
    }
}

// The flags of two registers.
fn compare_plain_form(op: ComputeOp, rn: u8, rm: u8) -> Quick
    ensures { result ≡ compare_plain_form op rn rm }
{
    match op {
        ComputeOp::Sub => Quick::CmpPlain { rn, rm },
        _ => Quick::ComparePlain { op, rn, rm },
    }
}

// Data processing of two registers, without S.
fn plain_form(op: ComputeOp, rn: u8, rd: u8, rm: u8) -> Quick
    ensures { result ≡ plain_form op rn rd rm }
{
    match op {
        ComputeOp::Add => Quick::AddPlain { rn, rd, rm },
        ComputeOp::Sub => Quick::SubPlain { rn, rd, rm },
        ComputeOp::And => Quick::AndPlain { rn, rd, rm },
        ComputeOp::Orr => Quick::OrrPlain { rn, rd, rm },
        ComputeOp::Eor => Quick::EorPlain { rn, rd, rm },
        ComputeOp::Mov => Quick::MovPlain { rn, rd, rm },
        ComputeOp::Rsb => Quick::RsbPlain { rn, rd, rm },
        ComputeOp::Mvn => Quick::MvnPlain { rn, rd, rm },
        _ => Quick::Plain { op, rn, rd, rm },
    }
}
