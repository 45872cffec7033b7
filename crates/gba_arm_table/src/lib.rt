#![tactic(auto)]
//! The ARM instruction table: what operation a 32-bit word is, and what word an operation is.

ghost use Rattle.std.specs.Prelude.{◌≡◌, IfSome};
ghost use Rattle.gba_terms.specs.Bits.{field};
ghost use Rattle.gba_arm_table.specs.Limits.{Fits};
ghost use Rattle.gba_arm_table.specs.Numbers.{condition_of};
ghost use Rattle.gba_arm_table.specs.Table.{operation, operation_of};

mod encoding;
mod fields;
mod format;
pub mod laws;
mod limits;
mod operation;
mod parts;

pub use encoding::{EncodeError, encode};
use format::{Format, format_of};
pub use operation::{
    ArmOp, CompareOp, ComputeOp, Condition, HalfKind, HalfOffset, Operand, Source, TransferOffset,
};

/// The operation of a word, by the first row of the table that fits its low 28 bits; the condition is bits 31
/// to 28. None is a word without an operation, coprocessor words included: it takes the Undefined trap.
/// Every field of the operation fits its bits, a register is below 16.
/// Most bits that should be zero or one aren't looked at; of BX, MRS and MSR by a register, bits 7 to 4 are
/// (ARM Architecture Reference Manual, A3.1, for version 4T).
pub fn decode(word: u32) -> Option<ArmOp>
    ensures operation { result ≡ operation word }
    ensures fits { IfSome result Fits }
{
    of_format(format_of(word), word)
}

/// The condition of a word, bits 31 to 28.
pub fn condition_of(word: u32) -> Condition
    ensures { result ≡ condition_of (field word 28 4) }
{
    fields::condition(word)
}

/// The operation of a word of this format.
fn of_format(format: Format, word: u32) -> Option<ArmOp>
    ensures { result ≡ operation_of format (field word) }
{
    match format {
        Format::Exchange => Some(fields::exchange(word)),
        Format::Multiply => Some(fields::multiply(word)),
        Format::MultiplyLong => Some(fields::multiply_long(word)),
        Format::Swap => Some(fields::swap(word)),
        Format::HalfTransfer => Some(fields::half(fields::unsigned_half_kind(word), word)),
        Format::SignedByteLoad => Some(fields::half(HalfKind::LoadSignedByte, word)),
        Format::SignedHalfLoad => Some(fields::half(HalfKind::LoadSignedHalf, word)),
        Format::StatusRead => Some(fields::read_status(word)),
        Format::StatusWriteRegister => Some(fields::write_status(fields::plain_source(word), word)),
        Format::StatusWriteImmediate => Some(fields::write_status(
            fields::immediate_source(word),
            word,
        )),
        Format::ProcessingByRegister => Some(fields::processing(fields::by_register(word), word)),
        Format::ProcessingFixed => Some(fields::processing(fields::fixed(word), word)),
        Format::ProcessingImmediate => Some(fields::processing(fields::immediate(word), word)),
        Format::TransferNumber => Some(fields::transfer(fields::number_offset(word), word)),
        Format::TransferShifted => Some(fields::transfer(fields::shifted_offset(word), word)),
        Format::Block => Some(fields::block(word)),
        Format::Branch => Some(fields::branch(word)),
        Format::Interrupt => Some(fields::interrupt(word)),
        Format::Undefined => None,
    }
}
