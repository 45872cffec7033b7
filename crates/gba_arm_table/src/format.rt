//! The formats of an instruction word: a name for each row of the table.

ghost use Rattle.std.specs.Prelude.{◌≡◌};
ghost use Rattle.gba_terms.specs.Bits.{field};
ghost use Rattle.gba_arm_table.specs.Branches.{branch_format, registers, immediates, extension_format, status};
ghost use Rattle.gba_arm_table.specs.Fields.{is_compare};

use gba_word::{bit, bits};

/// The row of the table that a word has.
#[derive(Clone, Copy, Debug, PartialEq, Eq)]
pub enum Format {
    Exchange,
    Multiply,
    MultiplyLong,
    Swap,
    HalfTransfer,
    SignedByteLoad,
    SignedHalfLoad,
    StatusRead,
    StatusWriteRegister,
    StatusWriteImmediate,
    ProcessingByRegister,
    ProcessingFixed,
    ProcessingImmediate,
    TransferNumber,
    TransferShifted,
    Block,
    Branch,
    Interrupt,
    /// No operation: the processor takes the Undefined trap.
    Undefined,
}

/// The format of a word, by bits 27 to 25 and then by those that part its class.
pub fn format_of(word: u32) -> Format
    ensures { result ≡ branch_format (field word) }
{
    match bits(word, 25, 3) {
        0 => register_format(word),
        1 => immediate_format(word),
        2 => Format::TransferNumber,
        3 => if bit(word, 4) {
            Format::Undefined
        } else {
            Format::TransferShifted
        },
        4 => Format::Block,
        5 => Format::Branch,
        6 => Format::Undefined,
        _ => if bit(word, 24) {
            Format::Interrupt
        } else {
            Format::Undefined
        },
    }
}

/// Bits 27 to 25 are 0: data processing with a register, and what stands in its gaps.
fn register_format(word: u32) -> Format
    ensures { result ≡ registers (field word) }
{
    if bit(word, 4) {
        if bit(word, 7) {
            extended_format(word)
        } else if is_compare(word) && !bit(word, 20) {
            status_format(word)
        } else {
            Format::ProcessingByRegister
        }
    } else if is_compare(word) && !bit(word, 20) {
        status_format(word)
    } else {
        Format::ProcessingFixed
    }
}

/// Bits 27 to 25 are 1: data processing with a turned number, and MSR.
fn immediate_format(word: u32) -> Format
    ensures { result ≡ immediates (field word) }
{
    if !is_compare(word) || bit(word, 20) {
        Format::ProcessingImmediate
    } else if bit(word, 21) {
        Format::StatusWriteImmediate
    } else {
        Format::Undefined
    }
}

/// Bits 7 and 4 are set: multiplies, SWP, and transfers of halfwords and signed bytes.
fn extended_format(word: u32) -> Format
    ensures { result ≡ extension_format (field word) }
{
    match bits(word, 5, 2) {
        0 => match bits(word, 23, 2) {
            0 => if bit(word, 22) {
                Format::Undefined
            } else {
                Format::Multiply
            },
            1 => Format::MultiplyLong,
            2 => if bits(word, 20, 2) == 0 {
                Format::Swap
            } else {
                Format::Undefined
            },
            _ => Format::Undefined,
        },
        1 => Format::HalfTransfer,
        2 => if bit(word, 20) {
            Format::SignedByteLoad
        } else {
            Format::Undefined
        },
        _ => if bit(word, 20) {
            Format::SignedHalfLoad
        } else {
            Format::Undefined
        },
    }
}

/// TST to CMN without S: MRS, MSR and BX.
fn status_format(word: u32) -> Format
    ensures { result ≡ status (field word) }
{
    match bits(word, 4, 4) {
        0 => if bit(word, 21) {
            Format::StatusWriteRegister
        } else {
            Format::StatusRead
        },
        1 => if bits(word, 21, 4) == 9 {
            Format::Exchange
        } else {
            Format::Undefined
        },
        _ => Format::Undefined,
    }
}

/// Whether bits 24 to 21 are a number from 8 to 11.
fn is_compare(word: u32) -> bool
    ensures { result ≡ is_compare (field word) }
{
    bits(word, 21, 4) / 4 == 2
}
