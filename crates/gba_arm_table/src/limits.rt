//! Whether the fields of an operation fit their bits.

ghost use Rattle.std.specs.Prelude.{◌≡◌};
ghost use Rattle.gba_arm_table.specs.Limits.{
  half_offsets,
  half_registers,
  immediates_of,
  offsets_of,
  operand_immediates,
  operand_registers,
  registers_of,
  source_immediates,
  source_registers,
  transfer_immediates,
  transfer_offsets,
  transfer_registers,
  within,
};

use crate::operation::{ArmOp, HalfOffset, Operand, Source, TransferOffset};

pub fn registers_fit(op: ArmOp) -> bool
    ensures { result ≡ within (registers_of op) }
{
    match op {
        ArmOp::Exchange { rm, .. } => rm < 16,
        ArmOp::Multiply { rd, rn, rs, rm, .. } => rd < 16 && rn < 16 && rs < 16 && rm < 16,
        ArmOp::MultiplyLong { hi, lo, rs, rm, .. } => hi < 16 && lo < 16 && rs < 16 && rm < 16,
        ArmOp::Swap { rn, rd, rm, .. } => rn < 16 && rd < 16 && rm < 16,
        ArmOp::Half { rn, rd, offset, .. } => rn < 16 && rd < 16 && half_registers_fit(offset),
        ArmOp::ReadStatus { rd, .. } => rd < 16,
        ArmOp::WriteStatus { source, .. } => source_registers_fit(source),
        ArmOp::Compute {
            rn,
            rd,
            operand,
            ..
        } => rn < 16 && rd < 16 && operand_registers_fit(operand),
        ArmOp::Compare { rn, operand, .. } => rn < 16 && operand_registers_fit(operand),
        ArmOp::Transfer { rn, rd, offset, .. } => rn < 16
            && rd < 16
            && transfer_registers_fit(offset),
        ArmOp::Block { rn, .. } => rn < 16,
        ArmOp::Branch { .. } | ArmOp::Interrupt { .. } => true,
    }
}

fn operand_registers_fit(operand: Operand) -> bool
    ensures { result ≡ within (operand_registers operand) }
{
    match operand {
        Operand::Immediate { .. } => true,
        Operand::Fixed { rm, .. } => rm < 16,
        Operand::ByRegister { rm, rs, .. } => rm < 16 && rs < 16,
    }
}

fn source_registers_fit(source: Source) -> bool
    ensures { result ≡ within (source_registers source) }
{
    match source {
        Source::Immediate { .. } => true,
        Source::Plain { rm } => rm < 16,
    }
}

fn transfer_registers_fit(offset: TransferOffset) -> bool
    ensures { result ≡ within (transfer_registers offset) }
{
    match offset {
        TransferOffset::Number { .. } => true,
        TransferOffset::Shifted { rm, .. } => rm < 16,
    }
}

fn half_registers_fit(offset: HalfOffset) -> bool
    ensures { result ≡ within (half_registers offset) }
{
    match offset {
        HalfOffset::Number { .. } => true,
        HalfOffset::Plain { rm } => rm < 16,
    }
}

pub fn immediates_fit(op: ArmOp) -> bool
    ensures { result ≡ within (immediates_of op) }
{
    match op {
        ArmOp::WriteStatus { fields, source, .. } => fields < 16 && source_immediates_fit(source),
        ArmOp::Compute { operand, .. } | ArmOp::Compare { operand, .. } => operand_immediates_fit(
            operand,
        ),
        ArmOp::Transfer { offset, .. } => transfer_immediates_fit(offset),
        ArmOp::Interrupt { comment, .. } => comment < 0x0100_0000,
        _ => true,
    }
}

fn operand_immediates_fit(operand: Operand) -> bool
    ensures { result ≡ within (operand_immediates operand) }
{
    match operand {
        Operand::Immediate { turn, .. } => turn < 16,
        Operand::Fixed { amount, .. } => amount < 32,
        Operand::ByRegister { .. } => true,
    }
}

fn source_immediates_fit(source: Source) -> bool
    ensures { result ≡ within (source_immediates source) }
{
    match source {
        Source::Immediate { turn, .. } => turn < 16,
        Source::Plain { .. } => true,
    }
}

fn transfer_immediates_fit(offset: TransferOffset) -> bool
    ensures { result ≡ within (transfer_immediates offset) }
{
    match offset {
        TransferOffset::Number { .. } => true,
        TransferOffset::Shifted { amount, .. } => amount < 32,
    }
}

pub fn offsets_fit(op: ArmOp) -> bool
    ensures { result ≡ within (offsets_of op) }
{
    match op {
        ArmOp::Half {
            offset: HalfOffset::Number { value },
            ..
        } => value < 256,
        ArmOp::Transfer {
            offset: TransferOffset::Number { value },
            ..
        } => value < 4096,
        ArmOp::Branch { offset, .. } => -0x0080_0000 <= offset && offset < 0x0080_0000,
        _ => true,
    }
}
