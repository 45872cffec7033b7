//! What the fields of a word mean, format by format.

ghost use Rattle.std.specs.Prelude.{◌≡◌, ◌<◌, ◌^◌};
ghost use Rattle.gba_terms.specs.Bits.{field};
ghost use Rattle.gba_arm_table.specs.Fields.{
  block,
  branch,
  by_register,
  condition,
  exchange,
  fixed,
  half,
  half_offset_of,
  interrupt,
  multiply,
  multiply_long,
  number_offset,
  plain_source,
  processing,
  read_status,
  shifted_offset,
  swap,
  transfer,
  immediate,
  immediate_source,
  unsigned_half_kind,
  write_status,
};
ghost use Rattle.gba_arm_table.specs.Numbers.{compare_of, compute_of, condition_of, shift_of, signed_of};

use crate::operation::{
    ArmOp, CompareOp, ComputeOp, Condition, HalfKind, HalfOffset, Operand, Source, TransferOffset,
};
use gba_word::{Shift, bit, bits};

/// The number in four bits from bit `low` up, as the fields of registers have it.
fn nibble(word: u32, low: u32) -> u8
    requires { low < 29 }
    ensures { result ≡ field word low 4 }
{
    bits(word, low, 4) as u8
}

pub fn condition(word: u32) -> Condition
    ensures { result ≡ condition (field word) }
{
    numbered_condition(bits(word, 28, 4))
}

fn numbered_condition(number: u32) -> Condition
    ensures { result ≡ condition_of number }
{
    match number {
        0 => Condition::Equal,
        1 => Condition::NotEqual,
        2 => Condition::CarrySet,
        3 => Condition::CarryClear,
        4 => Condition::Minus,
        5 => Condition::Plus,
        6 => Condition::Overflow,
        7 => Condition::NoOverflow,
        8 => Condition::Higher,
        9 => Condition::LowerOrSame,
        10 => Condition::GreaterOrEqual,
        11 => Condition::Less,
        12 => Condition::Greater,
        13 => Condition::LessOrEqual,
        14 => Condition::Always,
        _ => Condition::Never,
    }
}

fn numbered_compute(number: u32) -> ComputeOp
    ensures { result ≡ compute_of number }
{
    match number {
        0 => ComputeOp::And,
        1 => ComputeOp::Eor,
        2 => ComputeOp::Sub,
        3 => ComputeOp::Rsb,
        4 => ComputeOp::Add,
        5 => ComputeOp::Adc,
        6 => ComputeOp::Sbc,
        7 => ComputeOp::Rsc,
        12 => ComputeOp::Orr,
        13 => ComputeOp::Mov,
        14 => ComputeOp::Bic,
        _ => ComputeOp::Mvn,
    }
}

fn numbered_compare(number: u32) -> CompareOp
    ensures { result ≡ compare_of number }
{
    match number {
        8 => CompareOp::Tst,
        9 => CompareOp::Teq,
        10 => CompareOp::Cmp,
        _ => CompareOp::Cmn,
    }
}

fn numbered_shift(number: u32) -> Shift
    ensures { result ≡ shift_of number }
{
    match number {
        0 => Shift::Lsl,
        1 => Shift::Lsr,
        2 => Shift::Asr,
        _ => Shift::Ror,
    }
}

/// A number of 24 bits as a signed one.
fn signed(number: u32) -> i32
    requires { number < 2 ^ 24 }
    ensures { result ≡ signed_of number }
{
    if number < 0x0080_0000 {
        number as i32
    } else {
        number as i32 - 0x0100_0000
    }
}

pub fn exchange(word: u32) -> ArmOp
    ensures { result ≡ exchange (field word) }
{
    ArmOp::Exchange {
        cond: condition(word),
        rm: nibble(word, 0),
    }
}

pub fn multiply(word: u32) -> ArmOp
    ensures { result ≡ multiply (field word) }
{
    ArmOp::Multiply {
        cond: condition(word),
        accumulate: bit(word, 21),
        set: bit(word, 20),
        rd: nibble(word, 16),
        rn: nibble(word, 12),
        rs: nibble(word, 8),
        rm: nibble(word, 0),
    }
}

pub fn multiply_long(word: u32) -> ArmOp
    ensures { result ≡ multiply_long (field word) }
{
    ArmOp::MultiplyLong {
        cond: condition(word),
        signed: bit(word, 22),
        accumulate: bit(word, 21),
        set: bit(word, 20),
        hi: nibble(word, 16),
        lo: nibble(word, 12),
        rs: nibble(word, 8),
        rm: nibble(word, 0),
    }
}

pub fn swap(word: u32) -> ArmOp
    ensures { result ≡ swap (field word) }
{
    ArmOp::Swap {
        cond: condition(word),
        byte: bit(word, 22),
        rn: nibble(word, 16),
        rd: nibble(word, 12),
        rm: nibble(word, 0),
    }
}

fn half_offset(word: u32) -> HalfOffset
    ensures { result ≡ half_offset_of (field word) }
{
    if bit(word, 22) {
        HalfOffset::Number {
            value: bits(word, 8, 4) * 16 + bits(word, 0, 4),
        }
    } else {
        HalfOffset::Plain {
            rm: nibble(word, 0),
        }
    }
}

pub fn half(kind: HalfKind, word: u32) -> ArmOp
    ensures { result ≡ half kind (field word) }
{
    ArmOp::Half {
        cond: condition(word),
        kind,
        pre: bit(word, 24),
        up: bit(word, 23),
        write: bit(word, 21),
        rn: nibble(word, 16),
        rd: nibble(word, 12),
        offset: half_offset(word),
    }
}

pub fn unsigned_half_kind(word: u32) -> HalfKind
    ensures { result ≡ unsigned_half_kind (field word) }
{
    if bit(word, 20) {
        HalfKind::LoadHalf
    } else {
        HalfKind::StoreHalf
    }
}

pub fn read_status(word: u32) -> ArmOp
    ensures { result ≡ read_status (field word) }
{
    ArmOp::ReadStatus {
        cond: condition(word),
        saved: bit(word, 22),
        rd: nibble(word, 12),
    }
}

pub fn write_status(source: Source, word: u32) -> ArmOp
    ensures { result ≡ write_status source (field word) }
{
    ArmOp::WriteStatus {
        cond: condition(word),
        saved: bit(word, 22),
        fields: nibble(word, 16),
        source,
    }
}

pub fn plain_source(word: u32) -> Source
    ensures { result ≡ plain_source (field word) }
{
    Source::Plain {
        rm: nibble(word, 0),
    }
}

pub fn immediate_source(word: u32) -> Source
    ensures { result ≡ immediate_source (field word) }
{
    Source::Immediate {
        value: bits(word, 0, 8) as u8,
        turn: nibble(word, 8),
    }
}

pub fn processing(operand: Operand, word: u32) -> ArmOp
    ensures { result ≡ processing operand (field word) }
{
    let number = bits(word, 21, 4);
    if number / 4 == 2 {
        ArmOp::Compare {
            cond: condition(word),
            op: numbered_compare(number),
            rn: nibble(word, 16),
            operand,
        }
    } else {
        ArmOp::Compute {
            cond: condition(word),
            op: numbered_compute(number),
            set: bit(word, 20),
            rn: nibble(word, 16),
            rd: nibble(word, 12),
            operand,
        }
    }
}

pub fn by_register(word: u32) -> Operand
    ensures { result ≡ by_register (field word) }
{
    Operand::ByRegister {
        rm: nibble(word, 0),
        kind: numbered_shift(bits(word, 5, 2)),
        rs: nibble(word, 8),
    }
}

pub fn fixed(word: u32) -> Operand
    ensures { result ≡ fixed (field word) }
{
    Operand::Fixed {
        rm: nibble(word, 0),
        kind: numbered_shift(bits(word, 5, 2)),
        amount: bits(word, 7, 5) as u8,
    }
}

pub fn immediate(word: u32) -> Operand
    ensures { result ≡ immediate (field word) }
{
    Operand::Immediate {
        value: bits(word, 0, 8) as u8,
        turn: nibble(word, 8),
    }
}

pub fn transfer(offset: TransferOffset, word: u32) -> ArmOp
    ensures { result ≡ transfer offset (field word) }
{
    ArmOp::Transfer {
        cond: condition(word),
        load: bit(word, 20),
        byte: bit(word, 22),
        pre: bit(word, 24),
        up: bit(word, 23),
        write: bit(word, 21),
        rn: nibble(word, 16),
        rd: nibble(word, 12),
        offset,
    }
}

pub fn number_offset(word: u32) -> TransferOffset
    ensures { result ≡ number_offset (field word) }
{
    TransferOffset::Number {
        value: bits(word, 0, 12),
    }
}

pub fn shifted_offset(word: u32) -> TransferOffset
    ensures { result ≡ shifted_offset (field word) }
{
    TransferOffset::Shifted {
        rm: nibble(word, 0),
        kind: numbered_shift(bits(word, 5, 2)),
        amount: bits(word, 7, 5) as u8,
    }
}

pub fn block(word: u32) -> ArmOp
    ensures { result ≡ block (field word) }
{
    ArmOp::Block {
        cond: condition(word),
        load: bit(word, 20),
        pre: bit(word, 24),
        up: bit(word, 23),
        user: bit(word, 22),
        write: bit(word, 21),
        rn: nibble(word, 16),
        list: bits(word, 0, 16) as u16,
    }
}

pub fn branch(word: u32) -> ArmOp
    ensures { result ≡ branch (field word) }
{
    ArmOp::Branch {
        cond: condition(word),
        link: bit(word, 24),
        offset: signed(bits(word, 0, 24)),
    }
}

pub fn interrupt(word: u32) -> ArmOp
    ensures { result ≡ interrupt (field word) }
{
    ArmOp::Interrupt {
        cond: condition(word),
        comment: bits(word, 0, 24),
    }
}
