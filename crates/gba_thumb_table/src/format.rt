//! The formats of a halfword: a name for each format of the table.

ghost use Rattle.std.specs.Prelude.{◌≡◌};
ghost use Rattle.gba_terms.specs.Bits.{field};
ghost use Rattle.gba_thumb_table.specs.Branches.{branch_format, condition_format, register_format, stack_format};

use gba_word::{bit, bits};

/// The format that a halfword has.
#[derive(Clone, Copy, Debug, PartialEq, Eq)]
pub enum Format {
    Format1,
    Format2,
    Format3,
    Format4,
    Format5,
    Format6,
    Format7,
    Format8,
    Format9,
    Format10,
    Format11,
    Format12,
    Format13,
    Format14,
    Format15,
    Format16,
    Format17,
    Format18,
    Format19,
    /// No operation: the processor takes the Undefined trap.
    Undefined,
}

/// The format of a halfword, by bits 15 to 12 and then by those that part its class.
pub fn format_of(half: u32) -> Format
    ensures { result ≡ branch_format (field half) }
{
    match bits(half, 12, 4) {
        0 => Format::Format1,
        1 => if bit(half, 11) {
            Format::Format2
        } else {
            Format::Format1
        },
        2 | 3 => Format::Format3,
        4 => register_format(half),
        5 => if bit(half, 9) {
            Format::Format8
        } else {
            Format::Format7
        },
        6 | 7 => Format::Format9,
        8 => Format::Format10,
        9 => Format::Format11,
        10 => Format::Format12,
        11 => stack_format(half),
        12 => Format::Format15,
        13 => condition_format(half),
        14 => if bit(half, 11) {
            Format::Undefined
        } else {
            Format::Format18
        },
        _ => Format::Format19,
    }
}

/// Operations on two registers, and the load relative to the PC.
fn register_format(half: u32) -> Format
    ensures { result ≡ register_format (field half) }
{
    if bit(half, 11) {
        Format::Format6
    } else if bit(half, 10) {
        Format::Format5
    } else {
        Format::Format4
    }
}

/// Moves of r13, PUSH and POP, with gaps between them.
fn stack_format(half: u32) -> Format
    ensures { result ≡ stack_format (field half) }
{
    if bits(half, 8, 4) == 0 {
        Format::Format13
    } else if bits(half, 9, 2) == 2 {
        Format::Format14
    } else {
        Format::Undefined
    }
}

/// Conditional branches; what would be the conditions 14 and 15 is no operation and SWI.
fn condition_format(half: u32) -> Format
    ensures { result ≡ condition_format (field half) }
{
    match bits(half, 8, 4) {
        15 => Format::Format17,
        14 => Format::Undefined,
        _ => Format::Format16,
    }
}
