//! The word of an operation.

ghost use Rattle.std.specs.Prelude.{◌≡◌, IfOk, IsTrue, Some};
ghost use Rattle.gba_terms.specs.Bits.{field};
ghost use Rattle.gba_arm_table.specs.Classes.{
  is_block,
  is_half,
  is_long_multiply,
  is_multiply,
  is_processing,
  is_swap,
  is_transfer,
};
ghost use Rattle.gba_arm_table.specs.Diagrams.{
  condition_part,
  diagram,
  flag_part,
  half_code,
  half_high,
  half_low,
  has_manual_bits,
  is_load,
  is_number,
  is_shifted,
  is_immediate,
  is_immediate_source,
  operand_parts,
  pack,
  part,
  processing_parts,
  source_parts,
  transfer_parts,
};
ghost use Rattle.gba_arm_table.specs.Encoding.{encoding};
ghost use Rattle.gba_arm_table.specs.Numbers.{
  compare_number,
  compute_number,
  condition_number,
  shift_number,
};
ghost use Rattle.gba_arm_table.specs.Table.{operation};
ghost use Rattle.gba_word.specs.Sums.{flag_number};

use crate::limits::{immediates_fit, offsets_fit, registers_fit};
use crate::operation::{ArmOp, Condition, HalfKind, HalfOffset, Operand, Source, TransferOffset};
use crate::parts::{Part, pack};
use gba_word::Shift;

/// Why an operation has no word.
#[derive(Clone, Copy, Debug, PartialEq, Eq)]
pub enum EncodeError {
    /// A number that is neither a register nor an offset doesn't fit its bits.
    Immediate,
    /// The offset of a load, a store or a branch doesn't fit its bits.
    Offset,
    /// A register is none of 0 to 15.
    Register,
}

/// The word of an operation. Bits that should be one or zero are as the manual has them, but for those that a field of
/// the variant names (ARM Architecture Reference Manual, A3 to A5). A register that is none of 0 to 15 is refused
/// first, then a number that is neither a register nor an offset, then an offset.
#[tactic(auto, unfolding(crate::specs::Encoding::encoding))]
pub fn encode(op: &ArmOp) -> Result<u32, EncodeError>
    ensures encoding { result ≡ encoding op.now }
    ensures round_trip { IfOk result (λ word. operation word ≡ Some op.now) }
    ensures manual_bits { IfOk result (λ word. IsTrue (has_manual_bits op.now (field word))) }
{
    if !registers_fit(*op) {
        return Err(EncodeError::Register);
    }
    if !immediates_fit(*op) {
        return Err(EncodeError::Immediate);
    }
    if !offsets_fit(*op) {
        return Err(EncodeError::Offset);
    }
    Ok(word_of(*op))
}

fn word_of(op: ArmOp) -> u32
    ensures { result ≡ pack (diagram op) }
{
    match op {
        ArmOp::Exchange { cond, rm } => exchange(cond, rm),
        ArmOp::Multiply { .. } => multiply(op),
        ArmOp::MultiplyLong { .. } => multiply_long(op),
        ArmOp::Swap { .. } => swap(op),
        ArmOp::Half { .. } => half(op),
        ArmOp::ReadStatus { cond, saved, rd } => read_status(cond, saved, rd),
        ArmOp::WriteStatus {
            cond,
            saved,
            fields,
            source,
        } => write_status(cond, saved, fields, source),
        ArmOp::Compute { .. } | ArmOp::Compare { .. } => processing(op),
        ArmOp::Transfer { .. } => transfer(op),
        ArmOp::Block { .. } => block(op),
        ArmOp::Branch { cond, link, offset } => branch(cond, link, offset),
        ArmOp::Interrupt { cond, comment } => interrupt(cond, comment),
    }
}

fn part(width: u32, value: u32) -> Part
    ensures { result ≡ part width value }
{
    Part { width, value }
}

fn nibble(value: u8) -> Part
    ensures { result ≡ part 4 value }
{
    part(4, u32::from(value))
}

fn flag(set: bool) -> Part
    ensures { result ≡ flag_part set }
{
    part(1, u32::from(set))
}

fn condition(cond: Condition) -> Part
    ensures { result ≡ condition_part cond }
{
    part(4, cond as u32)
}

fn shift_kind(kind: Shift) -> Part
    ensures { result ≡ part 2 (shift_number kind) }
{
    part(2, kind as u32)
}

fn exchange(cond: Condition, rm: u8) -> u32
    ensures { result ≡ pack (diagram (ArmOp.Exchange cond rm)) }
{
    pack(&[
        condition(cond),
        part(8, 0x12),
        part(12, 0xFFF),
        part(4, 1),
        nibble(rm),
    ])
}

fn multiply(op: ArmOp) -> u32
    requires { IsTrue (is_multiply op) }
    ensures { result ≡ pack (diagram op) }
{
    let ArmOp::Multiply {
        cond,
        accumulate,
        set,
        rd,
        rn,
        rs,
        rm,
    } = op
    else {
        unreachable!()
    };
    pack(&[
        condition(cond),
        part(6, 0),
        flag(accumulate),
        flag(set),
        nibble(rd),
        nibble(rn),
        nibble(rs),
        part(4, 9),
        nibble(rm),
    ])
}

fn multiply_long(op: ArmOp) -> u32
    requires { IsTrue (is_long_multiply op) }
    ensures { result ≡ pack (diagram op) }
{
    let ArmOp::MultiplyLong {
        cond,
        signed,
        accumulate,
        set,
        hi,
        lo,
        rs,
        rm,
    } = op
    else {
        unreachable!()
    };
    pack(&[
        condition(cond),
        part(5, 1),
        flag(signed),
        flag(accumulate),
        flag(set),
        nibble(hi),
        nibble(lo),
        nibble(rs),
        part(4, 9),
        nibble(rm),
    ])
}

fn swap(op: ArmOp) -> u32
    requires { IsTrue (is_swap op) }
    ensures { result ≡ pack (diagram op) }
{
    let ArmOp::Swap {
        cond,
        byte,
        rn,
        rd,
        rm,
    } = op
    else {
        unreachable!()
    };
    pack(&[
        condition(cond),
        part(5, 2),
        flag(byte),
        part(2, 0),
        nibble(rn),
        nibble(rd),
        part(4, 0),
        part(4, 9),
        nibble(rm),
    ])
}

fn half(op: ArmOp) -> u32
    requires { IsTrue (is_half op) }
    ensures { result ≡ pack (diagram op) }
{
    let ArmOp::Half {
        cond,
        kind,
        pre,
        up,
        write,
        rn,
        rd,
        offset,
    } = op
    else {
        unreachable!()
    };
    let (number, high, low) = match offset {
        HalfOffset::Number { value } => (true, value / 16, value),
        HalfOffset::Plain { rm } => (false, 0, u32::from(rm)),
    };
    pack(&[
        condition(cond),
        part(3, 0),
        flag(pre),
        flag(up),
        flag(number),
        flag(write),
        flag(kind != HalfKind::StoreHalf),
        nibble(rn),
        nibble(rd),
        part(4, high),
        part(1, 1),
        part(2, half_code(kind)),
        part(1, 1),
        part(4, low),
    ])
}

/// Bits 6 and 5 of a halfword transfer: H alone, S alone, or both.
fn half_code(kind: HalfKind) -> u32
    ensures { result ≡ half_code kind }
{
    match kind {
        HalfKind::StoreHalf | HalfKind::LoadHalf => 1,
        HalfKind::LoadSignedByte => 2,
        HalfKind::LoadSignedHalf => 3,
    }
}

fn read_status(cond: Condition, saved: bool, rd: u8) -> u32
    ensures { result ≡ pack (diagram (ArmOp.ReadStatus cond saved rd)) }
{
    pack(&[
        condition(cond),
        part(5, 2),
        flag(saved),
        part(2, 0),
        part(4, 15),
        nibble(rd),
        part(12, 0),
    ])
}

fn write_status(cond: Condition, saved: bool, fields: u8, source: Source) -> u32
    ensures { result ≡ pack (diagram (ArmOp.WriteStatus cond saved fields source)) }
{
    pack(&[
        condition(cond),
        part(2, 0),
        flag(is_immediate_source(source)),
        part(2, 2),
        flag(saved),
        part(2, 2),
        nibble(fields),
        part(4, 15),
        part(12, source_bits(source)),
    ])
}

fn is_immediate_source(source: Source) -> bool
    ensures { result ≡ is_immediate_source source }
{
    match source {
        Source::Immediate { .. } => true,
        Source::Plain { .. } => false,
    }
}

fn source_bits(source: Source) -> u32
    ensures { result ≡ pack (source_parts source) }
{
    match source {
        Source::Immediate { value, turn } => pack(&[nibble(turn), part(8, u32::from(value))]),
        Source::Plain { rm } => pack(&[part(8, 0), nibble(rm)]),
    }
}

fn processing(op: ArmOp) -> u32
    requires { IsTrue (is_processing op) }
    ensures { result ≡ pack (diagram op) }
{
    match op {
        ArmOp::Compute {
            cond,
            op,
            set,
            rn,
            rd,
            operand,
        } => { processing_word(cond, op as u32, set, rn, rd, operand) }
        ArmOp::Compare {
            cond,
            op,
            rn,
            operand,
        } => processing_word(cond, op as u32, true, rn, 0, operand),
        _ => unreachable!(),
    }
}

fn processing_word(cond: Condition, number: u32, set: bool, rn: u8, rd: u8, operand: Operand) -> u32
    ensures { result ≡ pack (processing_parts cond number set rn rd operand) }
{
    pack(&[
        condition(cond),
        part(2, 0),
        flag(is_immediate(operand)),
        part(4, number),
        flag(set),
        nibble(rn),
        nibble(rd),
        part(12, operand_bits(operand)),
    ])
}

fn is_immediate(operand: Operand) -> bool
    ensures { result ≡ is_immediate operand }
{
    match operand {
        Operand::Immediate { .. } => true,
        Operand::Fixed { .. } | Operand::ByRegister { .. } => false,
    }
}

fn operand_bits(operand: Operand) -> u32
    ensures { result ≡ pack (operand_parts operand) }
{
    match operand {
        Operand::Immediate { value, turn } => pack(&[nibble(turn), part(8, u32::from(value))]),
        Operand::Fixed { rm, kind, amount } => {
            pack(&[
                part(5, u32::from(amount)),
                shift_kind(kind),
                part(1, 0),
                nibble(rm),
            ])
        },
        Operand::ByRegister { rm, kind, rs } => {
            pack(&[
                nibble(rs),
                part(1, 0),
                shift_kind(kind),
                part(1, 1),
                nibble(rm),
            ])
        },
    }
}

fn transfer(op: ArmOp) -> u32
    requires { IsTrue (is_transfer op) }
    ensures { result ≡ pack (diagram op) }
{
    let ArmOp::Transfer {
        cond,
        load,
        byte,
        pre,
        up,
        write,
        rn,
        rd,
        offset,
    } = op
    else {
        unreachable!()
    };
    pack(&[
        condition(cond),
        part(2, 1),
        flag(is_shifted(offset)),
        flag(pre),
        flag(up),
        flag(byte),
        flag(write),
        flag(load),
        nibble(rn),
        nibble(rd),
        part(12, offset_bits(offset)),
    ])
}

fn is_shifted(offset: TransferOffset) -> bool
    ensures { result ≡ is_shifted offset }
{
    match offset {
        TransferOffset::Number { .. } => false,
        TransferOffset::Shifted { .. } => true,
    }
}

fn offset_bits(offset: TransferOffset) -> u32
    ensures { result ≡ pack (transfer_parts offset) }
{
    match offset {
        TransferOffset::Number { value } => pack(&[part(12, value)]),
        TransferOffset::Shifted { rm, kind, amount } => {
            pack(&[
                part(5, u32::from(amount)),
                shift_kind(kind),
                part(1, 0),
                nibble(rm),
            ])
        },
    }
}

fn block(op: ArmOp) -> u32
    requires { IsTrue (is_block op) }
    ensures { result ≡ pack (diagram op) }
{
    let ArmOp::Block {
        cond,
        load,
        pre,
        up,
        user,
        write,
        rn,
        list,
    } = op
    else {
        unreachable!()
    };
    pack(&[
        condition(cond),
        part(3, 4),
        flag(pre),
        flag(up),
        flag(user),
        flag(write),
        flag(load),
        nibble(rn),
        part(16, u32::from(list)),
    ])
}

fn branch(cond: Condition, link: bool, offset: i32) -> u32
    ensures { result ≡ pack (diagram (ArmOp.Branch cond link offset)) }
{
    pack(&[
        condition(cond),
        part(3, 5),
        flag(link),
        part(24, offset.cast_unsigned()),
    ])
}

fn interrupt(cond: Condition, comment: u32) -> u32
    ensures { result ≡ pack (diagram (ArmOp.Interrupt cond comment)) }
{
    pack(&[condition(cond), part(4, 15), part(24, comment)])
}
